//! Delivery of one text to a Maildir.

ghost use Rattle.std.specs.Prelude.{◌≡◌, ◌≢◌, None, length};
ghost use Rattle.mail_terms.specs.FailureCount.{Tallies, refuses};
ghost use Rattle.mail_store.specs.{Fault.is_refusal, Maildir.{IsThere, Delivers}, FileName.{sized, sized_file}};

use crate::fault::StoreFault;
use crate::maildir::disk::MaildirDisk;
use crate::maildir::names::{SIZE_ROOM, add_size};
use std::alloc::Global;

/// Puts a text into `new`, under a name made of this stem and the text's length. NoMemory, with
/// nothing changed, if there is none for the name; Missing if `tmp` isn't there, else Refused: the
/// file is then not there, or there and whole. No other file of `new` or `cur` changes, and
/// none is begun afterwards.
///
/// No file may be begun already (see `abandon`), and no file of `new` or `cur` may have the name,
/// with whatever marks (see `names`, and `held` for the stem of an id).
pub fn deliver<D: MaildirDisk>(
    alloc: Global,
    disk: &mut D,
    stem: &str,
    text: &[u8],
) -> Result<(), StoreFault>
    requires none_begun { D.sound disk.old → (D.maildir disk.old).begun ≡ None }
    requires not_there { D.sound disk.old → IsThere (D.maildir disk.old) (sized stem.now (length text.now)) → ⊥ }
    ensures delivers { D.sound disk.new → D.sound disk.old
        × Delivers (D.maildir disk.old) (sized_file stem.now text.now) result (D.maildir disk.new) }
    ensures none_begun { (D.maildir disk.old).begun ≡ None → (D.maildir disk.new).begun ≡ None }
    ensures fault { result ≢ Err StoreFault.NotMbox }
    ensures count { Tallies (refuses is_refusal result) (D.maildir disk.old).failures (D.maildir disk.new).failures }
{
    let mut name = String::from_str(alloc, stem)?;
    name.reserve(SIZE_ROOM)?;
    add_size(&mut name, text.len() as u64);
    disk.begin(stem)?;
    if text.is_empty() {
        return disk.settle(name.as_str());
    }
    if let Err(fault) = disk.add(text) {
        disk.abandon();
        return Err(fault);
    }
    disk.settle(name.as_str())
}
