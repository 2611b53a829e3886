//! A session of an account that tells what a run would do, and changes nothing.
ghost use Rattle.std.specs.Prelude.{◌≡◌, []};
ghost use Rattle.pop3_client.specs.Client.{HasSameLink, link_of};
ghost use Rattle.session_parts.specs.{
  Account.digits_of,
  Parts.keeping_in,
  Pretend.Pretends,
  Scene.WhereAllSound,
  Target.{AfterTakingIn, is_sound, kind_of, stores_of, target_of},
};

use crate::account::Account;
use mail_store::{FlatFile, MaildirDisk};
use pop3_client::Client;
use pop3_wire::Wire;
use session_parts::{Outcome, Preview, Terms, leave, preview_session};
use std::hash::BuildHasher;
use std::vec::Vec;

/// Tells what a run would do, over a client with nothing waiting.
fn pretend_over<W: Wire, D: MaildirDisk, F: FlatFile, H: BuildHasher>(
    account: &mut Account<D, F, H>,
    client: &mut Client<'_, W>,
    now: u64,
) -> Preview
    requires { client.old.reader ≡ [] }
    ensures link { HasSameLink client.old client.new }
    ensures settings { account.new.settings ≡ account.old.settings }
    ensures kind { kind_of account.new.store ≡ kind_of account.old.store }
    ensures pretends { WhereAllSound W.sound W.leads_to
        (is_sound D.MaildirDisk F.FlatFile) F.sound client.old.wire.now client.new.wire.now
        account.old.store account.new.store account.old.file account.new.file
        (AfterTakingIn (stores_of D.MaildirDisk F.FlatFile account.old.store) (λ left. Pretends account.old.settings
        (target_of account.old.store (digits_of account.old.settings)) now (link_of W.Wire client.old)
        (keeping_in F.FlatFile left account.old.file) result (link_of W.Wire client.new)
        (keeping_in F.FlatFile (stores_of D.MaildirDisk F.FlatFile account.new.store) account.new.file))) }
{
    let mut preview = Preview {
        outcome: Outcome::Ended,
        total: 0,
        message_previews: Vec::new(account.work.ledger.alloc),
    };
    let terms = Terms {
        settings: &account.settings,
        account: &account.id,
        now,
    };
    if let Err(cut) = preview_session(client, &mut account.work, terms, &mut preview) {
        preview.outcome = Outcome::Cut(cut.fault);
        leave(client, cut);
        return preview;
    }
    preview
}

/// Tells what a session would do, and does none of it: it logs in, asks for the listings, makes the plan
/// by the record and by what the store holds, and quits. It sends no RETR and no DELE, and the store and
/// the record's file stay as they were. `now` is in seconds since 1970.
///
/// After a fault it says what a session would say. If the record has an open intent for an mboxrd file, that
/// file is looked at as a session looks at it that settles it first.
pub fn pretend<W: Wire, D: MaildirDisk, F: FlatFile, H: BuildHasher>(
    account: &mut Account<D, F, H>,
    wire: &mut W,
    now: u64,
) -> Preview
    ensures settings { account.new.settings ≡ account.old.settings }
    ensures kind { kind_of account.new.store ≡ kind_of account.old.store }
    ensures pretends { WhereAllSound W.sound W.leads_to (is_sound D.MaildirDisk F.FlatFile) F.sound wire.old wire.new
        account.old.store account.new.store account.old.file account.new.file
        (AfterTakingIn (stores_of D.MaildirDisk F.FlatFile account.old.store) (λ left. Pretends account.old.settings
        (target_of account.old.store (digits_of account.old.settings)) now (W.history wire.old)
        (keeping_in F.FlatFile left account.old.file) result (W.history wire.new)
        (keeping_in F.FlatFile (stores_of D.MaildirDisk F.FlatFile account.new.store) account.new.file))) }
{
    let mut client = Client::new(wire);
    pretend_over(account, &mut client, now)
}
