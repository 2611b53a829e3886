//! The record and its file.
ghost use Rattle.std.specs.Prelude.{◌≡◌, ◌≢◌, [], false, true, None, Some, OnOk};
ghost use Rattle.mail_terms.specs.UniqueId.{IsLegalId};
ghost use Rattle.fetch_record.specs.{
  Intents.IsNoneOrOf,
  Record.{has_row, none_open, marked},
  RecordFile.{Two, file_of},
  RecordMeaning.{Means, Rows},
};
ghost use Rattle.session_parts.specs.{
  Record.{AppendsRecord, Calls, CutsRecord, GrowsDisk, Intends, Measures, Steady, WritesRows, bytes_in, intent_at},
  Record.record_state_in,
  Parts.IsWritten,
};
ghost use Rattle.mail_store.specs.{Devices.FileDid, Durable.seen_on, FlatFile.HasBytes};

use crate::fault::Fault;
use fetch_rules::{Seen, bytes_stand};
use mail_store::FlatFile;
use std::hash::BuildHasher;

/// Writes the whole record to the file. No intent is open.
pub(crate) fn save<F: FlatFile, H: BuildHasher>(file: &mut F, seen: &Seen<H>) -> Result<(), Fault>
    requires closed { seen.now.intent ≡ None }
    ensures stands { Means (file_of seen.now.rows None) (Rows Two seen.now.rows None false) }
    ensures writes { FileDid F.FlatFile (WritesRows seen.now.rows) file.old result file.new }
{
    bytes_stand();
    let bytes = seen.bytes()?;
    match file.replace(&bytes) {
        Ok(()) => Ok(()),
        Err(_) => Err(Fault::SeenRefused),
    }
}

/// Appends to the file the lines that changed the record, if there are any.
pub(crate) fn grow<F: FlatFile>(file: &mut F, group: &[u8]) -> Result<(), Fault>
    requires begun { F.sound file.old → group.now ≢ [] → bytes_in (seen_on (F.disk file.old)) ≢ [] }
    ensures grows { FileDid F.FlatFile (Calls (GrowsDisk group.now)) file.old result file.new }
{
    if group.is_empty() {
        return Ok(());
    }
    match file.append(group) {
        Ok(()) => Ok(()),
        Err(_) => Err(Fault::SeenRefused),
    }
}

/// The size of the file, which has bytes.
fn measure<F: FlatFile>(file: &mut F) -> Result<u64, Fault>
    requires begun { F.sound file.old → bytes_in (seen_on (F.disk file.old)) ≢ [] }
    ensures measures { FileDid F.FlatFile Measures file.old result file.new }
{
    match file.edges() {
        Ok(edges) => Ok(edges.size),
        Err(_) => Err(Fault::SeenRefused),
    }
}

/// Writes down that the entry of an id's text is about to be appended to an mboxrd file: at which size
/// of the file, and how long the entry is. Returns the size that the record's file had, to which
/// `take_back` cuts it.
pub(crate) fn intend<F: FlatFile, H: BuildHasher>(
    file: &mut F,
    seen: &mut Seen<H>,
    uid: &[u8],
    start: u64,
    len: u64,
) -> Result<u64, Fault>
    requires legal { IsLegalId uid.now }
    requires row { has_row seen.old.rows uid.now ≡ true }
    requires written { IsWritten F.FlatFile file.old seen.old }
    ensures rows { seen.new.rows ≡ seen.old.rows }
    ensures opened { OnOk result (seen.new.intent ≡ Some (intent_at uid.now start len)) }
    ensures intends { FileDid F.FlatFile (Intends seen.old.rows (intent_at uid.now start len)) file.old result
        file.new }
{
    let line = seen.intend(uid, start, len)?;
    let size = measure(file)?;
    grow(file, &line)?;
    Ok(size)
}

/// Closes the open intent again, since nothing of its entry is in the mboxrd file: the record's file is
/// cut to the size that it had before. If the device refuses that, the intent may stay open.
pub(crate) fn take_back<F: FlatFile>(file: &mut F, size: u64)
    requires there { F.sound file.old → HasBytes (seen_on (F.disk file.old)) size }
    ensures cuts { FileDid F.FlatFile (CutsRecord size) file.old result file.new }
{
    let _ = file.cut_to(size);
}

/// Marks an id as delivered, and appends the row to the file if that changed it. That ends the
/// intent of the id, if it is open.
pub fn remember<F: FlatFile, H: BuildHasher>(
    file: &mut F,
    seen: &mut Seen<H>,
    uid: &[u8],
) -> Result<(), Fault>
    requires steady { F.sound file.old → Steady (seen_on (F.disk file.old)) (record_state_in seen.old) }
    requires own { IsNoneOrOf uid.now seen.old.intent }
    ensures rows { OnOk result (seen.new.rows ≡ marked seen.old.rows uid.now) }
    ensures closed { OnOk result (seen.new.intent ≡ None) }
    ensures appends { FileDid F.FlatFile (AppendsRecord (record_state_in seen.old)
        (none_open (marked seen.old.rows uid.now))) file.old result file.new }
{
    let group = seen.mark_rows(uid)?;
    grow(file, &group)
}
