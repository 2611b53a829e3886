//! How a Maildir is listed: the files that are found, and the messages that they are.
ghost use Rattle.std.specs.Prelude.{◌≡◌, ◌≤◌, ◌<◌, All, IfNone, IfOk, IfSome, OnOk, length};
ghost use Rattle.folder_drop.specs.{
  CountedSizes.ComeFrom,
  Listing.{AreListed, IsAccountedFor, IsMeasured, IsPassedOver, ListsFound},
  MaildirMail.{AreRight, IsListing, ListsChosen, WasListed},
  MailFiles.{TellsEach, Stays},
  Places.AreInOrder,
};

use crate::finding;
use crate::listed_file::{CountedSizes, ListedFile, PIECE};
use crate::listing::{DropListing, ListedFiles};
use crate::mail_files::MailFiles;
use crate::maildir_names::{PlacedFile, Stamp, long_id};
use crate::seen_files::SeenFiles;
use pop3_server::MAX_SIZE;
use std::hash::RandomState;
use std::io;

/// The length and time of modification of a file that was found, and its size as a message. None if it is no message.
fn measure<D: MailFiles>(
    files: &D,
    seen: &mut SeenFiles,
    file: &PlacedFile,
    counted: &mut CountedSizes<'_>,
    piece: &mut [u8],
) -> io::Result<Option<(Stamp, u64)>>
    requires { 0 < length piece.old }
    ensures within { IfOk result (λ told. IfSome told (λ it. (it.0.length ≤ MAX_SIZE) × (it.1 ≤ MAX_SIZE))) }
    ensures some { IfOk result (λ told. IfSome told (IsMeasured D.File.remaining (D.found files.now)
        (D.opened files.now) (D.told files.now) counted.old.files.now file.now)) }
    ensures none { IfOk result (λ told. IfNone told (IsPassedOver D.File.remaining (D.found files.now)
        (D.opened files.now) (D.told files.now) counted.old.files.now file.now)) }
    ensures rest { ComeFrom counted.new.files.now counted.old.files.now }
{
    let stamp = match finding::stamp(files, seen, file)? {
        Some(stamp) => stamp,
        None => return Ok(None),
    };
    let known = counted.size_of(file, stamp);
    match finding::size_within(files, seen, file, (stamp, known), piece)? {
        Some(size) => Ok(Some((stamp, size))),
        None => Ok(None),
    }
}

/// The messages among the files that were found: only the first of several with the same id, none above the limits,
/// and none that is gone. `earlier` has sizes that were counted before.
fn list_among<D: MailFiles>(
    files: &D,
    seen: &mut SeenFiles,
    found: Vec<PlacedFile>,
    earlier: &[ListedFile],
    hasher: RandomState,
) -> io::Result<ListedFiles>
    requires { AreInOrder found.items }
    ensures listed { IfOk result (λ listed. AreListed listed.long_ids listed.files.items) }
    ensures found { IfOk result (λ listed. All (ListsFound (IsMeasured D.File.remaining (D.found files.now)
        (D.opened files.now) (D.told files.now) earlier.now) found.items) listed.files.items) }
    ensures whole { IfOk result (λ listed. All (IsAccountedFor (IsPassedOver D.File.remaining (D.found files.now)
        (D.opened files.now) (D.told files.now) earlier.now) listed.files.items) found.items) }
    ensures chosen { D.sound files.now → TellsEach (D.files files.now) found.items
        → AreRight (D.files files.now) earlier.now
        → IfOk result (λ listed. ListsChosen (D.files files.now) listed.files.items) }
{
    let alloc = files.alloc();
    let mut listed = ListedFiles::with_capacity(alloc, found.len(), hasher)?;
    let mut counted = CountedSizes::new(earlier);
    let mut room = Vec::from_elem(alloc, 0u8, PIECE)?;
    let piece = room.as_mut_slice();
    for file in found {
        if listed.is_full() {
            return Ok(listed);
        }
        let base = file.base();
        if !listed.is_behind(base) {
            continue;
        }
        let long_id = long_id(alloc, base.as_bytes())?;
        if !listed.is_unseen(&long_id) {
            continue;
        }
        let measured = match measure(files, seen, &file, &mut counted, piece)? {
            Some(measured) => measured,
            None => continue,
        };
        let (stamp, size) = measured;
        listed.add(long_id, ListedFile::of(file, stamp, size))?;
    }
    Ok(listed)
}

/// The messages among all files that are there now.
fn list_now<D: MailFiles>(
    files: &D,
    seen: &mut SeenFiles,
    earlier: &[ListedFile],
) -> io::Result<ListedFiles>
    ensures listed { IfOk result (λ listed. AreListed listed.long_ids listed.files.items) }
    ensures lists { D.sound files.now → AreRight (D.files files.now) earlier.now
        → IfOk result (λ listed. IsListing (D.files files.now) listed.files.items) }
{
    let found = files.list()?;
    let hasher = files.hasher()?;
    let listed = list_among(files, seen, found, earlier, hasher)?;
    Ok(listed)
}

/// Lists the messages of all files that are there now in place of an earlier listing, unless that is still valid.
pub(super) fn list_anew<D: MailFiles>(
    files: &mut D,
    seen: &mut SeenFiles,
    earlier: &mut DropListing,
) -> io::Result<()>
    ensures stays { Stays D.path D.looked files.old files.new }
    ensures lists { D.sound files.new → D.sound files.old × (D.files files.new ≡ D.files files.old)
        × (WasListed (D.looked files.old) earlier.old → WasListed (D.looked files.new) earlier.new
        × OnOk result (IsListing (D.files files.new) earlier.new.files)) }
{
    let look = match files.look() {
        Ok(look) => look,
        Err(error) => return Err(error),
    };
    if earlier.look().is_unchanged_at(&look) {
        return Ok(());
    }
    let listed = match list_now(files, seen, earlier.files()) {
        Ok(listed) => listed,
        Err(error) => return Err(error),
    };
    *earlier = listed.into_listing(look);
    Ok(())
}
