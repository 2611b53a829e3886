//! Where a message's file is now: mail software moves files from `new` to `cur` and changes their flags while they are
//! served.
ghost use Rattle.std.specs.Prelude.{◌≡◌, ◌≤◌, ◌<◌, ◌⊎◌, IfOk, IfSome, IfNone, length, string_bytes};
ghost use Rattle.mail_terms.specs.MaildirName.{base as base_of};
ghost use Rattle.folder_drop.specs.{
  Finding.{IsFoundNow, IsGone, IsLeftOut, IsOpenNow, IsSizeNow, TellsStamp},
  Places.{base_of_file, folder_and_name},
};

use crate::listed_file::count_size;
use crate::mail_files::{FileWay, Found, MailFiles};
use crate::maildir_names::{FileNumber, Folder, PlacedFile, Stamp};
use crate::removal::NOT_REGULAR;
use crate::seen_files::SeenFiles;
use mail_terms::base;
use pop3_server::MAX_SIZE;
use std::io::{self, ErrorKind};

/// How many times a file is tried, if it has a new name each time.
pub const MOST_TRIES: u32 = 10;

/// Why a file isn't read.
const BUSY: &str = "changes all the time";

/// The error for a file that has a new name each time.
pub fn busy<D: MailFiles>(files: &D, folder: Folder, name: &str) -> io::Error {
    match files.way(folder, name) {
        Ok(file) => files.refuse(&file, BUSY),
        Err(error) => error,
    }
}

/// The place of a file that isn't at `tried` any more: where the last listing saw a file with its
/// base, else where a new listing does. None if no file has it.
fn place_now<D: MailFiles>(
    files: &D,
    seen: &mut SeenFiles,
    tried: (Folder, &str),
) -> io::Result<Option<(Folder, String)>>
    ensures there { IfOk result (λ place. IfSome place
        (λ now. base_of (string_bytes now.1) ≡ base_of tried.entry.1.now)) }
    ensures gone { IfOk result (λ place. IfNone place
        (IsGone (D.told files.now) seen.new (base_of tried.entry.1.now))) }
{
    let alloc = files.alloc();
    let base = base(tried.1);
    if let Some(file) = seen.first_with(base) {
        let name = file.name.as_str();
        if (file.folder, name) != tried {
            return Ok(Some((file.folder, String::from_str(alloc, name)?)));
        }
    }
    seen.renew(files.list()?);
    let Some(file) = seen.first_with(base) else {
        return Ok(None);
    };
    let name = String::from_str(alloc, file.name.as_str())?;
    Ok(Some((file.folder, name)))
}

/// What bears a name. None if nothing does.
fn bearer<D: MailFiles>(files: &D, file: &FileWay) -> io::Result<Option<Found>>
    ensures { IfOk result (D.found files.now file.now) }
{
    match files.look_up(file) {
        Ok(found) => Ok(Some(found)),
        Err(error) if error.kind() == ErrorKind::NotFound => Ok(None),
        Err(error) => Err(error),
    }
}

/// The name under which a message's file is now, and what it is. None if no file has its base.
fn find<D: MailFiles>(
    files: &D,
    seen: &mut SeenFiles,
    place: (Folder, &str),
) -> io::Result<Option<(FileWay, Found)>>
    ensures there { IfOk result (λ now. IfSome now
        (IsFoundNow (D.found files.now) (place.entry.0, place.entry.1.now))) }
    ensures gone { IfOk result (λ now. IfNone now (IsGone (D.told files.now) seen.new (base_of place.entry.1.now))) }
{
    let mut folder = place.0;
    let mut name = String::from_str(files.alloc(), place.1)?;
    for _ in 0..MOST_TRIES {
        let file = files.way(folder, name.as_str())?;
        let bearer = bearer(files, &file)?;
        if let Some(found) = bearer {
            return Ok(Some((file, found)));
        }
        match place_now(files, seen, (folder, name.as_str()))? {
            Some(now) => (folder, name) = now,
            None => return Ok(None),
        }
    }
    Err(busy(files, folder, name.as_str()))
}

/// The stamp of a regular file. None if it isn't one, or is gone.
pub fn stamp<D: MailFiles>(
    files: &D,
    seen: &mut SeenFiles,
    file: &PlacedFile,
) -> io::Result<Option<Stamp>>
    ensures { IfOk result (TellsStamp (D.found files.now) (D.told files.now) seen.new (folder_and_name file.now)) }
{
    let Some((_, found)) = find(files, seen, (file.folder, file.name.as_str()))? else {
        return Ok(None);
    };
    if !found.is_regular {
        return Ok(None);
    }
    Ok(Some(found.stamp))
}

/// Opens the regular file of this number. NotFound if something else has its name by now, or once it is open.
pub fn open_regular<D: MailFiles>(
    files: &D,
    file: &FileWay,
    number: FileNumber,
) -> io::Result<D::File>
    ensures { IfOk result (D.opened files.now file.now number) }
{
    let there = files.look_up(file)?;
    there.check(number)?;
    let opened = files.open(file)?;
    let found = files.stat_opened(&opened)?;
    found.check(number)?;
    Ok(opened)
}

/// Opens a regular file. None if it is gone.
pub fn open<D: MailFiles>(
    files: &D,
    seen: &mut SeenFiles,
    folder: Folder,
    name: &str,
) -> io::Result<Option<D::File>>
    ensures there { IfOk result (λ opened. IfSome opened (IsOpenNow (D.found files.now) (D.opened files.now)
        (folder, name.now))) }
    ensures gone { IfOk result (λ opened. IfNone opened (IsGone (D.told files.now) seen.new (base_of name.now))) }
{
    for _ in 0..MOST_TRIES {
        let Some((file, found)) = find(files, seen, (folder, name))? else {
            return Ok(None);
        };
        if !found.is_regular {
            return Err(files.refuse(&file, NOT_REGULAR));
        }
        match open_regular(files, &file, found.stamp.number) {
            Ok(opened) => return Ok(Some(opened)),
            Err(error) if error.kind() == ErrorKind::NotFound => {}
            Err(error) => return Err(error),
        }
    }
    Err(busy(files, folder, name))
}

/// The size of a file as a message; the file is read in pieces. None if it is gone.
fn size<D: MailFiles>(
    files: &D,
    seen: &mut SeenFiles,
    file: &PlacedFile,
    piece: &mut [u8],
) -> io::Result<Option<u64>>
    requires { 0 < length piece.old }
    ensures there { IfOk result (λ told. IfSome told
        (IsSizeNow D.File.remaining (D.found files.now) (D.opened files.now) (folder_and_name file.now))) }
    ensures gone { IfOk result (λ told. IfNone told (IsGone (D.told files.now) seen.new (base_of_file file.now))) }
{
    match open(files, seen, file.folder, file.name.as_str())? {
        Some(mut file) => Ok(Some(count_size(&mut file, piece)?)),
        None => Ok(None),
    }
}

/// The size of a file of this length and time of modification as a message: the known one, or else the file is read.
/// None if it is above the limit, or if the file is gone.
pub fn size_within<D: MailFiles>(
    files: &D,
    seen: &mut SeenFiles,
    file: &PlacedFile,
    counted: (Stamp, Option<u64>),
    piece: &mut [u8],
) -> io::Result<Option<u64>>
    requires { 0 < length piece.old }
    ensures within { IfOk result (λ told. IfSome told (λ size. (counted.0.length ≤ MAX_SIZE) × (size ≤ MAX_SIZE))) }
    ensures there { IfOk result (λ told. IfSome told (λ size. (counted.1 ≡ Some size)
        ⊎ IsSizeNow D.File.remaining (D.found files.now) (D.opened files.now) (folder_and_name file.now) size)) }
    ensures none { IfOk result (λ told. IfNone told (IsLeftOut D.File.remaining (D.found files.now) (D.opened files.now)
        (D.told files.now) seen.new (folder_and_name file.now) counted)) }
{
    let (stamp, known) = counted;
    // The size is at least the length.
    if stamp.length > MAX_SIZE {
        return Ok(None);
    }
    let size = match known {
        Some(size) => Some(size),
        None => size(files, seen, file, piece)?,
    };
    match size {
        Some(size) if size <= MAX_SIZE => Ok(Some(size)),
        _ => Ok(None),
    }
}
