//! The texts of a Maildir's messages: their files read, whole or in parts, and removed.
ghost use Rattle.std.specs.{
  IoError.error_kind,
  List.HoldsAt,
  Prelude.{◌≡◌, ◌⊎◌, ◌≤◌, ◌<◌, ◌+◌, ◌^◌, true, length, IfNone, IfOk, IfSome, Ok, OnOk, Some},
};
ghost use Rattle.folder_drop.specs.{
  Finding.IsOpenAt,
  MaildirMail.{IsKnown, IsOwn, IsWholeText},
  MailFiles.{Skips, Stays},
  OpenText.{IsReadOn, IsOwnFrom, IsTextPart, ReadsOn},
  Removal.{RemovesMessage, SeesAll, SeesSince, TakesMessage, WereSeenSince},
  SeenFiles.those_seen,
};

use crate::finding::open;
use crate::listed_file::ListedFile;
use crate::mail_files::MailFiles;
use crate::maildir_drop::OpenText;
use crate::removal::{TwoMessages, remove};
use crate::seen_files::SeenFiles;
use std::io::{self, ErrorKind, Read};

/// The file that is open, if it is that of a place and was read up to the octet `start`. From its first octet on each
/// file is read anew.
fn going_on<F: Drop>(kept: Option<OpenText<F>>, place: usize, start: usize) -> Option<OpenText<F>>
    ensures same { IfSome result (λ text. kept ≡ Some text) }
    ensures there { IfSome result (IsReadOn place start) }
    ensures none { IfNone result (IfSome kept (λ text. IsReadOn place start text → ⊥)) }
{
    let text = kept?;
    if text.place == place && text.read == start && start > 0 {
        return Some(text);
    }
    None
}

/// Reads on in a file. It isn't kept once its end is read.
fn read_on<F: Read + Drop>(
    text: OpenText<F>,
    piece: &mut [u8],
) -> io::Result<(usize, Option<OpenText<F>>)>
    requires { 0 < length piece.old }
    ensures within { IfOk result (λ read. read.0 ≤ length piece.new) }
    ensures countable { IfOk result (λ read. text.read + read.0 < 2 ^ 64) }
    ensures on { IfOk result (λ read. ReadsOn F.remaining text piece.new read.0 read.1) }
{
    let OpenText {
        place,
        read,
        mut file,
    } = text;
    let n = file.read(piece)?;
    if n == 0 {
        return Ok((0, None));
    }
    let Some(read) = read.checked_add(n) else {
        return Err(io::Error::from(ErrorKind::FileTooLarge));
    };
    Ok((n, Some(OpenText { place, read, file })))
}

/// The error for a file that isn't there.
pub(super) fn missing() -> io::Error
    ensures { error_kind result ≡ ErrorKind.NotFound }
{
    io::Error::from(ErrorKind::NotFound)
}

/// Opens the file at a place of a listing, and tells its length there.
fn open_at<D: MailFiles>(
    files: &D,
    seen: &mut SeenFiles,
    listing: &[ListedFile],
    i: usize,
) -> io::Result<(D::File, u64)>
    ensures there { IfOk result (λ opened. IsOpenAt (D.found files.now) (D.opened files.now) listing.now i opened.0) }
    ensures own { D.sound files.now → IfOk result (λ opened. HoldsAt (λ listed. IsKnown (D.files files.now) listed
        → IsOwn D.File.remaining (D.files files.now) listed opened.0) listing.now i) }
{
    let Some(listed) = listing.get(i) else {
        return Err(missing());
    };
    match open(files, seen, listed.folder, listed.name.as_str())? {
        Some(file) => Ok((file, listed.stamp.length)),
        None => Err(missing()),
    }
}

/// The octets of the file at a place of a listing. The buffer has room for one octet more than the listing counted, so
/// that the read that finds the end fits too; it grows only if the file has grown.
pub(super) fn read_at<D: MailFiles>(
    files: &D,
    seen: &mut SeenFiles,
    listing: &[ListedFile],
    i: usize,
) -> io::Result<Vec<u8>>
    ensures read { IfOk result (λ text. (file : D.File)
        × IsOpenAt (D.found files.now) (D.opened files.now) listing.now i file
        × IfSome (D.File.remaining file) (λ octets. text.items ≡ octets)) }
    ensures own { D.sound files.now → IfOk result (λ text. HoldsAt (λ listed. IsKnown (D.files files.now) listed
        → IsWholeText (D.files files.now) listed text.items) listing.now i) }
{
    let (mut file, length) = open_at(files, seen, listing, i)?;
    let room = (length as usize).saturating_add(1);
    let mut text = Vec::with_capacity(files.alloc(), room)?;
    file.read_to_end(&mut text)?;
    Ok(text)
}

/// Goes past the octets before `start` in a file that was just opened.
fn skip_to<D: MailFiles>(files: &D, file: &mut D::File, start: usize) -> io::Result<()>
    ensures { D.sound files.now → OnOk result (Skips (D.File.remaining file.old) start (D.File.remaining file.new)) }
{
    if start == 0 {
        return Ok(());
    }
    files.skip(file, start as u64)
}

/// Opens the file at a place of a listing, to be read from the octet `start` on.
fn open_text<D: MailFiles>(
    files: &D,
    seen: &mut SeenFiles,
    listing: &[ListedFile],
    i: usize,
    start: usize,
) -> io::Result<OpenText<D::File>>
    ensures there { IfOk result (λ text. (text.place ≡ i) × (text.read ≡ start)) }
    ensures own { D.sound files.now → IfOk result (λ text. HoldsAt (λ listed. IsKnown (D.files files.now) listed
        → IsOwnFrom D.File.remaining (D.files files.now) listed text) listing.now i) }
{
    let (mut file, _) = open_at(files, seen, listing, i)?;
    skip_to(files, &mut file, start)?;
    Ok(OpenText {
        place: i,
        read: start,
        file,
    })
}

/// The file at a place of a listing, to be read from the octet `start` on: the one that is open, if it was read up to
/// there.
fn text_at<D: MailFiles>(
    files: &D,
    seen: &mut SeenFiles,
    listing: &[ListedFile],
    kept: Option<OpenText<D::File>>,
    i: usize,
    start: usize,
) -> io::Result<OpenText<D::File>>
    ensures same { IfSome kept (λ before. IsReadOn i start before → result ≡ Ok before) }
    ensures there { IfOk result (λ text. (text.place ≡ i) × (text.read ≡ start)) }
    ensures own { D.sound files.now → IfOk result (λ text. HoldsAt (λ listed. IsKnown (D.files files.now) listed
        → IfSome kept (λ before. before.place ≡ i → IsOwnFrom D.File.remaining (D.files files.now) listed before)
        → IsOwnFrom D.File.remaining (D.files files.now) listed text) listing.now i) }
{
    match going_on(kept, i, start) {
        Some(text) => Ok(text),
        None => {
            let text = open_text(files, seen, listing, i, start)?;
            Ok(text)
        }
    }
}

/// Reads a part of the file at a place of a listing, from an octet on. The file stays open until its end is read, so
/// that all parts are of the same file.
pub(super) fn part_at<D: MailFiles>(
    files: &D,
    seen: &mut SeenFiles,
    listing: &[ListedFile],
    kept: Option<OpenText<D::File>>,
    from: (usize, usize),
    piece: &mut [u8],
) -> io::Result<(usize, Option<OpenText<D::File>>)>
    requires { 0 < length piece.old }
    ensures within { IfOk result (λ read. read.0 ≤ length piece.new) }
    ensures countable { IfOk result (λ read. from.1 + read.0 < 2 ^ 64) }
    ensures own { D.sound files.now → IfOk result (λ read. HoldsAt (λ listed. IsKnown (D.files files.now) listed
        → IfSome kept (λ before. before.place ≡ from.0 → IsOwnFrom D.File.remaining (D.files files.now) listed before)
        → IsTextPart (D.files files.now) listed from.1 read.0 piece.new × IfSome read.1 (λ left.
        (left.place ≡ from.0) × IsOwnFrom D.File.remaining (D.files files.now) listed left)) listing.now from.0) }
{
    let text = text_at(files, seen, listing, kept, from.0, from.1)?;
    let read = read_on(text, piece)?;
    Ok(read)
}

/// Looks at the folders once the removals of a session begin: that is enough for all of them. If it fails, all are
/// refused.
fn look_for_removals<D: MailFiles>(files: &D, seen: &mut SeenFiles) -> io::Result<()>
    ensures seen { OnOk result (WereSeenSince (D.told files.now) seen.old (those_seen seen.new.files)) }
    ensures begun { seen.new.are_removed ≡ true }
    ensures takes { D.sound files.now → SeesSince (D.files files.now) seen.old
        → SeesSince (D.files files.now) seen.new
        × OnOk result (SeesAll (D.files files.now) (those_seen seen.new.files)) }
{
    if seen.begin_removals() {
        seen.renew(files.list()?);
        return Ok(());
    }
    if !seen.tells_all() {
        return Err(missing());
    }
    Ok(())
}

/// Removes the file at a place of a listing, and each other one with its base, unless one of them is another message.
/// One that is gone already counts as removed.
pub(super) fn remove_at<D: MailFiles>(
    files: &mut D,
    seen: &mut SeenFiles,
    listing: &[ListedFile],
    i: usize,
) -> io::Result<Option<TwoMessages>>
    ensures removes { IfOk result (λ told. (i < length listing.now) × ((now : D) × HoldsAt (λ listed. RemovesMessage
        D.File.remaining (D.found now) (D.opened now) (D.removed files.new)
        (WereSeenSince (λ these. D.told files.old these ⊎ D.told now these) seen.old) listed told) listing.now i)) }
    ensures stays { Stays D.path D.looked files.old files.new }
    ensures begun { i < length listing.now → seen.new.are_removed ≡ true }
    ensures beyond { length listing.now ≤ i → (files.new ≡ files.old) × (seen.new ≡ seen.old) }
    ensures takes { D.sound files.new → D.sound files.old × (SeesSince (D.files files.old) seen.old
        → SeesSince (D.files files.new) seen.new × HoldsAt (λ listed. TakesMessage listed (D.files files.old) result
        (D.files files.new)) listing.now i) }
{
    let Some(listed) = listing.get(i) else {
        return Err(missing());
    };
    look_for_removals(files, seen)?;
    let told = remove(files, seen, listed)?;
    Ok(told)
}
