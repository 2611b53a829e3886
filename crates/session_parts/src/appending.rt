//! How a text is appended to an mboxrd file: it is read whole, its intent is written to the record,
//! and then the entry is appended at once. If nothing of it came, its intent is closed again.
ghost use Rattle.std.specs.Prelude.{◌≡◌, ◌≢◌, ℕ, List, [], ◌∷◌, true};
ghost use Rattle.fetch_record.specs.Record.{has_row};
ghost use Rattle.mail_terms.specs.{Text.IsWhole, UniqueId.IsLegalId};
ghost use Rattle.pop3_client.specs.Client.{HasSameLink, link_of};
ghost use Rattle.pop3_wire.specs.{Bodies.items_of, declared.unstuffer.Spot.TheVariants.Done};
ghost use Rattle.session_parts.specs.{
  Mbox.{TakesText, IsStoreFault},
  Entries.WritesEntry,
  Parts.{IsWritten, KeepsRecord, RunsTasks, over_mbox},
  Refusal.RefusesTillCut,
  Report.HasRoom,
  Store.TakesOn,
  Task.stores,
};
ghost use Rattle.mail_store.specs.Devices.{known_file};

use crate::fault::{Cut, Fault};
use crate::record::{intend, remember, take_back};
use crate::report::{ReportLine, note};
use crate::work::Ledger;
use fetch_rules::marked_keeps_rows;
use mail_store::{
    EntryFault, FlatFile, MaildirDisk, StoreFault, append_owned, entry_len, is_whole,
    one_more_is_held,
};
use pop3_client::{Client, conversations_are_paced};
use pop3_wire::{BodyReader, PIECE_ROOM, Wire};
use std::alloc::Global;
use std::hash::BuildHasher;
use std::vec::Vec;

/// Takes a text that is under way, and keeps it whole.
fn read_text<W: Wire>(
    alloc: Global,
    client: &mut Client<'_, W>,
    body: BodyReader,
) -> Result<Vec<u8>, Cut>
    requires open { body.spot ≢ Done }
    ensures link { HasSameLink client.old client.new }
    ensures counted { RefusesTillCut (link_of W.Wire client.old) result (link_of W.Wire client.new) }
    ensures holds { TakesOn W.Wire client.old body (λ number start now. TakesText number start (items_of result) now)
        client.new }
{
    let mut rest = body;
    let mut text = Vec::new(alloc);
    let mut out = [0u8; PIECE_ROOM];
    'pieces: loop {
        let piece = client.next_piece(&mut rest, &mut out)?;
        text.extend_from_slice(&out[..piece.put])?;
        if piece.ended {
            return Ok(text);
        }
    }
}

/// Appends the entry of a text to the file, after its intent was written to the record. If nothing of
/// the entry came, the intent is closed again.
fn append_text<F: FlatFile, H: BuildHasher>(
    mbox: &mut F,
    ledger: &mut Ledger<F, H>,
    uid: &[u8],
    text: Vec<u8>,
) -> Result<(), Fault>
    requires whole { IsWhole text.items }
    requires legal { IsLegalId uid.now }
    requires row { has_row ledger.old.seen.rows uid.now ≡ true }
    requires ready { IsWritten F.FlatFile ledger.old.file ledger.old.seen }
    ensures ledger { KeepsRecord F.FlatFile uid.now ledger.old result ledger.new }
    ensures before { F.sound mbox.new → F.sound mbox.old }
    ensures writes { F.sound mbox.new → F.sound ledger.new.file → F.sound mbox.old × F.sound ledger.old.file
        × WritesEntry ledger.old.seen.rows uid.now text.items (known_file F.FlatFile mbox.old)
        (known_file F.FlatFile ledger.old.file) result (known_file F.FlatFile mbox.new)
        (known_file F.FlatFile ledger.new.file) ledger.new.seen.intent }
{
    let edges = mbox.edges()?;
    let len = entry_len(&text);
    let size = intend(&mut ledger.file, &mut ledger.seen, uid, edges.size, len)?;
    match append_owned(mbox, text) {
        Ok(()) => Ok(()),
        Err(EntryFault::Front) => Err(Fault::from(StoreFault::Refused)),
        Err(EntryFault::Nothing(fault)) => {
            take_back(&mut ledger.file, size);
            Err(Fault::from(fault))
        }
    }
}

/// Takes one text: it is read whole, appended and marked. `D` is what the account's store would be otherwise.
pub fn take_into_mbox<W: Wire, D: MaildirDisk, F: FlatFile, H: BuildHasher>(
    client: &mut Client<'_, W>,
    mbox: &mut F,
    ledger: &mut Ledger<F, H>,
    number: u32,
    uid: &[u8],
) -> Result<(), Cut>
    requires room { HasRoom ledger.old.lines 1 }
    requires ready { IsWritten F.FlatFile ledger.old.file ledger.old.seen }
    requires legal { IsLegalId uid.now }
    requires row { has_row ledger.old.seen.rows uid.now ≡ true }
    ensures { (account : List ℕ) → RunsTasks W.Wire D.MaildirDisk F.FlatFile account (stores number uid.now ∷ [])
        client.old (over_mbox mbox.old ledger.old) result client.new (over_mbox mbox.new ledger.new) }
{
    conversations_are_paced();
    marked_keeps_rows();
    one_more_is_held();
    let body = client.open(ledger.alloc, number)?;
    let text = read_text(ledger.alloc, client, body)?;
    if !is_whole(&text) {
        return Err(Cut::from(Fault::BadReply));
    }
    let length = text.len() as u64;
    append_text(mbox, ledger, uid, text)?;
    note(&mut ledger.lines, ReportLine::Delivered { number, length });
    remember(&mut ledger.file, &mut ledger.seen, uid)?;
    Ok(())
}
