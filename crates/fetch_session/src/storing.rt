//! How a text is taken: stored, or passed over if it is held already.
ghost use Rattle.std.specs.Prelude.{◌≡◌, ◌≢◌, ◌≤◌, ℕ, List, [], ◌∷◌, None, IsSome, string_bytes};
ghost use Rattle.pop3_client.specs.{Client.{HasSameLink, CountsRefusals, link_of}, Turns.text_limit};
ghost use Rattle.pop3_wire.specs.declared.unstuffer.Spot.TheVariants.{Done};
ghost use Rattle.mail_store.specs.{FileName.{HasRoomForSize, sized}, Maildir.{AllNamed, IsThere}};
ghost use Rattle.session_parts.specs.{
  Parts.{IsReadyFor, IsReadyForNext, RunsTasks, over_maildir},
  Refusal.RefusesTillCut,
  Report.HasRoom,
  Store.{EndsFile, IsFreeFor, PassesText, PutsBytes, ReadsText, StartsFile, StoresText, TakesOn},
  Task.{rereads, stores},
};

use fetch_rules::marked_keeps_rows;
use mail_store::{
    AccountId, FlatFile, MaildirDisk, StoreFault, add_size, file_stem, one_more_is_held,
    unheld_ids_are_not_there,
};
use pop3_client::{Client, ClientFault, conversations_are_paced};
use pop3_wire::{BodyReader, PIECE_ROOM, Wire};
use session_parts::{Cut, Fault, Ledger, ReportLine, Why, Work, note, remember};
use std::hash::BuildHasher;
use std::vec::Vec;

/// Begins an empty file of this name.
fn begin_file<D: MaildirDisk>(disk: &mut D, name: &str) -> Result<(), Fault>
    requires { D.sound disk.old → (D.maildir disk.old).begun ≡ None }
    ensures starts { D.sound disk.new → D.sound disk.old
        × StartsFile (D.maildir disk.old) name.now result (D.maildir disk.new) }
{
    match disk.begin(name) {
        Ok(()) => Ok(()),
        Err(StoreFault::Missing) => Err(Fault::StoreRefused(Why::Missing)),
        Err(_) => Err(Fault::StoreRefused(Why::Refused)),
    }
}

/// Appends bytes, if there are any, to the file begun. If that is refused, no file is begun any
/// more.
fn put_piece<D: MaildirDisk>(disk: &mut D, bytes: &[u8]) -> Result<(), Fault>
    requires { D.sound disk.old → IsSome (D.maildir disk.old).begun }
    ensures puts { D.sound disk.new → D.sound disk.old
        × PutsBytes (D.maildir disk.old) bytes.now result (D.maildir disk.new) }
{
    if bytes.is_empty() {
        return Ok(());
    }
    match disk.add(bytes) {
        Ok(()) => Ok(()),
        Err(_) => {
            disk.abandon();
            Err(Fault::StoreRefused(Why::Refused))
        }
    }
}

/// Puts the file begun into `new`, under the name of this stem and size. It takes no memory.
fn settle_file<D: MaildirDisk>(disk: &mut D, stem: String, size: u64) -> Result<(), Fault>
    requires room { HasRoomForSize stem }
    requires begun { D.sound disk.old → IsSome (D.maildir disk.old).begun }
    requires not_there { D.sound disk.old → IsThere (D.maildir disk.old) (sized (string_bytes stem) size) → ⊥ }
    requires named { D.sound disk.old → AllNamed (D.maildir disk.old).files }
    ensures ends { D.sound disk.new → D.sound disk.old
        × EndsFile (D.maildir disk.old) (sized (string_bytes stem) size) result (D.maildir disk.new) }
{
    let mut name = stem;
    add_size(&mut name, size);
    match disk.settle(name.as_str()) {
        Ok(()) => Ok(()),
        Err(_) => Err(Fault::StoreRefused(Why::Refused)),
    }
}

/// Takes a text that is under way, stores it piece by piece in a file with this stem, and returns
/// its length, in bytes, lines ended by LF. It goes through two arrays, and is never kept whole.
/// The stem has room for that length, so that memory can't run out once the text has come.
pub(crate) fn store_text<W: Wire, D: MaildirDisk>(
    client: &mut Client<'_, W>,
    disk: &mut D,
    stem: String,
    body: BodyReader,
) -> Result<u64, Cut>
    requires room { HasRoomForSize stem }
    requires open { body.spot ≢ Done }
    requires within { body.left ≤ text_limit }
    requires free { D.sound disk.old → IsFreeFor (string_bytes stem) (D.maildir disk.old) }
    ensures link { HasSameLink client.old client.new }
    ensures counted { RefusesTillCut (link_of W.Wire client.old) result (link_of W.Wire client.new) }
    ensures stores { (text : List ℕ) × (D.sound disk.new → D.sound disk.old
        × StoresText (string_bytes stem) (D.maildir disk.old) text result (D.maildir disk.new))
        × TakesOn W.Wire client.old body (λ number start now. ReadsText number start text result now) client.new }
{
    let mut rest = body;
    if let Err(fault) = begin_file(disk, stem.as_str()) {
        return Err(Cut {
            fault,
            rest: Some(rest),
        });
    }
    let mut length = 0u64;
    let mut out = [0u8; PIECE_ROOM];
    'pieces: loop {
        let piece = match client.next_piece(&mut rest, &mut out) {
            Ok(piece) => piece,
            Err(fault) => {
                disk.abandon();
                return Err(Cut::from(fault));
            }
        };
        if let Err(fault) = put_piece(disk, &out[..piece.put]) {
            return Err(Cut {
                fault,
                rest: Some(rest),
            });
        }
        length += piece.put as u64;
        if piece.ended {
            return match settle_file(disk, stem, length) {
                Ok(()) => Ok(length),
                Err(fault) => Err(Cut {
                    fault,
                    rest: Some(rest),
                }),
            };
        }
    }
}

/// Takes a text that is under way, drops it, and returns its length, in bytes, lines ended by LF.
pub(crate) fn pass_text<W: Wire>(
    client: &mut Client<'_, W>,
    body: BodyReader,
) -> Result<u64, ClientFault>
    requires open { body.spot ≢ Done }
    requires within { body.left ≤ text_limit }
    ensures link { HasSameLink client.old client.new }
    ensures counted { CountsRefusals W.Wire client.old result client.new }
    ensures passes { TakesOn W.Wire client.old body (λ number start now. PassesText number start result now)
        client.new }
{
    let mut rest = body;
    let mut length = 0u64;
    let mut out = [0u8; PIECE_ROOM];
    'pieces: loop {
        let piece = client.next_piece(&mut rest, &mut out)?;
        length += piece.put as u64;
        if piece.ended {
            return Ok(length);
        }
    }
}

/// Takes one text that is held already: it is read.
pub(crate) fn reread<W: Wire, D: MaildirDisk, F: FlatFile, H: BuildHasher>(
    client: &mut Client<'_, W>,
    work: &mut Work<D, F, H>,
    number: u32,
) -> Result<(), Cut>
    requires room { HasRoom work.old.ledger.lines 1 }
    requires ready { IsReadyForNext D.MaildirDisk F.FlatFile work.old }
    ensures { (account uid : List ℕ) → RunsTasks W.Wire D.MaildirDisk F.FlatFile account (rereads number uid ∷ [])
        client.old work.old result client.new work.new }
{
    conversations_are_paced();
    let body = client.open(work.ledger.alloc, number)?;
    let length = pass_text(client, body)?;
    note(&mut work.ledger.lines, ReportLine::Held { number, length });
    Ok(())
}

/// Takes one text: it is read, stored in the Maildir and marked.
pub(crate) fn take_into_maildir<W: Wire, D: MaildirDisk, F: FlatFile, H: BuildHasher>(
    client: &mut Client<'_, W>,
    disk: &mut D,
    ledger: &mut Ledger<F, H>,
    account: &AccountId,
    number: u32,
    uid: &[u8],
) -> Result<(), Cut>
    requires { IsReadyFor D.MaildirDisk F.FlatFile account.now (stores number uid.now ∷ [])
        (over_maildir disk.old ledger.old) }
    ensures { RunsTasks W.Wire D.MaildirDisk F.FlatFile account.now (stores number uid.now ∷ []) client.old
        (over_maildir disk.old ledger.old) result client.new (over_maildir disk.new ledger.new) }
{
    conversations_are_paced();
    marked_keeps_rows();
    one_more_is_held();
    unheld_ids_are_not_there();
    let stem = file_stem(ledger.alloc, account, uid)?;
    let body = client.open(ledger.alloc, number)?;
    let length = store_text(client, disk, stem, body)?;
    note(&mut ledger.lines, ReportLine::Delivered { number, length });
    remember(&mut ledger.file, &mut ledger.seen, uid)?;
    Ok(())
}
