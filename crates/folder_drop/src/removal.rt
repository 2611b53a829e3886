//! Which files are removed with a message, and removing them.
ghost use Rattle.std.specs.{
  Prelude.{◌≡◌, ◌≢◌, ◌⊎◌, ◌++◌, ◌<◌, List, true, false, length, string_bytes, IfOk, IfSome, IfNone, OnOk},
  List.{All, HoldsAt},
};
ghost use Rattle.mail_terms.specs.MaildirName.{base};
ghost use Rattle.folder_drop.specs.{
  declared.{maildir_names.PlacedFile.PlacedFile, removal.Namesake.Namesake},
  MailFiles.{Has, Stays, TakesSome},
  RealMaildir.listed_name,
  Removal.{AreNamesakes, BearsOne, HasStamp, IsNamesake, IsOther, MayGo, RemovesMessage, RemovesSeen, RemovesWith},
  Removal.{SeesAll, TakesMessage, TellsInstead, WasRead, WereSeen, if_any},
  SeenFiles.{HaveBase, those_seen},
};

use crate::finding::{MOST_TRIES, busy, open_regular};
use crate::listed_file::{ListedFile, PIECE};
use crate::mail_files::{FileWay, MailFiles};
use crate::maildir_names::{PlacedFile, Stamp};
use crate::same_octets::have_same_octets;
use crate::seen_files::SeenFiles;
use std::alloc::{AllocError, Global};
use std::io::{self, BufReader, ErrorKind, Read};

/// Why what is in the place of a listed file isn't removed.
pub const NOT_REGULAR: &str = "not a regular file";

/// A regular file whose name has the base of a message that is to be removed.
#[derive(Drop)]
pub struct Namesake {
    pub file: FileWay,
    pub stamp: Stamp,
}

/// The path where a message was listed, and that of a file with its base that may be another message: they are the same
/// if that is there now.
#[derive(Drop)]
pub struct TwoMessages {
    pub listed: String,
    pub other: String,
}

/// The place of the listed file, under whatever name: the one of its number, length and time of modification.
pub fn listed_place(files: &[Namesake], stamp: Stamp) -> Option<usize>
    ensures found { IfSome result (λ i. (i < length files.now) × HoldsAt (HasStamp stamp) files.now i) }
    ensures none { IfNone result (All (λ (file : Namesake). file.stamp ≢ stamp) files.now) }
{
    for (place, file) in files.iter().enumerate() {
        if file.stamp == stamp {
            return Some(place);
        }
    }
    None
}

/// A file with the base of a listed one, as it is now. None if it isn't a regular file; in the place of the
/// listed one that is refused. NotFound if it isn't where it was seen.
fn look_at<D: MailFiles>(
    files: &D,
    file: &PlacedFile,
    listed: &ListedFile,
) -> io::Result<Option<Namesake>>
    ensures { IfOk result (IsNamesake (D.found files.now) listed.now file.now) }
{
    let way = files.way(file.folder, file.name.as_str())?;
    let found = files.look_up(&way)?;
    if found.is_regular {
        return Ok(Some(Namesake {
            file: way,
            stamp: found.stamp,
        }));
    }
    if listed.is_same(file) {
        return Err(files.refuse(&way, NOT_REGULAR));
    }
    Ok(None)
}

/// Adds a file, if there is one.
fn add(files: &mut Vec<Namesake>, file: Option<Namesake>) -> Result<(), AllocError>
    ensures { OnOk result (files.new.items ≡ files.old.items ++ if_any file) }
{
    let Some(file) = file else {
        return Ok(());
    };
    files.push(file)?;
    Ok(())
}

/// The regular files that were seen with the base of a listed one, as they are now.
fn look_at_all<D: MailFiles>(
    files: &D,
    seen: &[PlacedFile],
    listed: &ListedFile,
) -> io::Result<Vec<Namesake>>
    ensures { IfOk result (λ found. AreNamesakes (D.found files.now) listed.now seen.now found.items) }
{
    let mut found = Vec::new(files.alloc());
    for file in seen {
        let namesake = look_at(files, file, listed)?;
        add(&mut found, namesake)?;
    }
    Ok(found)
}

/// A file that is read piece by piece.
fn reader<D: MailFiles>(files: &D, file: &Namesake) -> io::Result<BufReader<D::File>>
    ensures { IfOk result (λ reader. WasRead D.File.remaining (D.opened files.now) file.now
        (⟦<BufReader<D::File> as Read>⟧.remaining reader)) }
{
    let opened = open_regular(files, &file.file, file.stamp.number)?;
    let reader = BufReader::with_capacity(files.alloc(), PIECE, opened)?;
    Ok(reader)
}

/// Whether a file goes with the listed one: it is that file, maybe under another name, or has the same octets.
fn goes_with<D: MailFiles>(files: &D, file: &Namesake, listed: &Namesake) -> io::Result<bool>
    ensures goes { IfOk result (λ goes. goes ≡ true
        → MayGo D.File.remaining (D.opened files.now) listed.now file.now) }
    ensures stays { IfOk result (λ goes. goes ≡ false
        → IsOther D.File.remaining (D.opened files.now) listed.now file.now) }
{
    if file.stamp.number == listed.stamp.number {
        return Ok(true);
    }
    let mut own = reader(files, file)?;
    let mut other = reader(files, listed)?;
    let same = have_same_octets(&mut own, &mut other)?;
    Ok(same)
}

/// The place of a file that is another message than the listed one.
fn place_of_other<D: MailFiles>(
    files: &D,
    others: &[Namesake],
    listed: &Namesake,
) -> io::Result<Option<usize>>
    ensures found { IfOk result (λ place. IfSome place (λ i. (i < length others.now)
        × HoldsAt (IsOther D.File.remaining (D.opened files.now) listed.now) others.now i)) }
    ensures none { IfOk result (λ place. IfNone place
        (All (MayGo D.File.remaining (D.opened files.now) listed.now) others.now)) }
{
    for (place, file) in others.iter().enumerate() {
        let goes = goes_with(files, file, listed)?;
        if !goes {
            return Ok(Some(place));
        }
    }
    Ok(None)
}

/// Removes a name of a regular file. NotFound if something else has it by now.
fn remove_name<D: MailFiles>(files: &mut D, file: &Namesake) -> io::Result<()>
    ensures removed { IfOk result (λ _. D.removed files.new file.now.file file.now.stamp.number) }
    ensures takes { TakesSome D.path D.looked D.removed D.sound D.files (Has file.now.file) files.old files.new }
{
    let there = files.look_up(&file.file)?;
    there.check(file.stamp.number)?;
    files.unlink(&file.file)
}

/// Removes those of these files that are copies of the listed one.
fn remove_copies<D: MailFiles>(files: &mut D, all: &[Namesake], listed: &Namesake) -> io::Result<()>
    ensures removed { OnOk result (All (λ file. file.stamp.number ≢ listed.now.stamp.number
        → D.removed files.new file.file file.stamp.number) all.now) }
    ensures takes { TakesSome D.path D.looked D.removed D.sound D.files (BearsOne all.now) files.old
        files.new }
{
    for file in all {
        if file.stamp.number != listed.stamp.number {
            remove_name(files, file)?;
        }
    }
    Ok(())
}

/// Removes those of these files that are the listed one.
fn remove_names<D: MailFiles>(files: &mut D, all: &[Namesake], listed: &Namesake) -> io::Result<()>
    ensures removed { OnOk result (All (λ file. file.stamp.number ≡ listed.now.stamp.number
        → D.removed files.new file.file file.stamp.number) all.now) }
    ensures takes { TakesSome D.path D.looked D.removed D.sound D.files (BearsOne all.now) files.old
        files.new }
{
    for file in all {
        if file.stamp.number == listed.stamp.number {
            remove_name(files, file)?;
        }
    }
    Ok(())
}

/// Removes these files, the listed one last, so that it stays if one of the others can't be removed.
fn remove_all<D: MailFiles>(files: &mut D, all: &[Namesake], listed: &Namesake) -> io::Result<()>
    ensures removed { OnOk result (All (λ file. D.removed files.new file.file file.stamp.number) all.now) }
    ensures takes { TakesSome D.path D.looked D.removed D.sound D.files (BearsOne all.now) files.old
        files.new }
{
    remove_copies(files, all, listed)?;
    remove_names(files, all, listed)?;
    Ok(())
}

/// The paths of a listed file and of another message's file.
fn two_messages(alloc: Global, listed: &str, other: &Namesake) -> Result<TwoMessages, AllocError>
    ensures { IfOk result (λ two. (string_bytes two.listed ≡ listed.now)
        × (string_bytes two.other ≡ string_bytes other.now.file.path)) }
{
    Ok(TwoMessages {
        listed: String::from_str(alloc, listed)?,
        other: String::from_str(alloc, other.file.path.as_str())?,
    })
}

/// Removes a listed file, one of all these, with the others. If one of them is another message, none is removed, and
/// both are told.
fn remove_with<D: MailFiles>(
    files: &mut D,
    all: &[Namesake],
    listed: &Namesake,
) -> io::Result<Option<TwoMessages>>
    ensures removes { IfOk result (RemovesWith D.File.remaining (D.opened files.old) (D.removed files.new) listed.now
        all.now) }
    ensures takes { TakesSome D.path D.looked D.removed D.sound D.files (BearsOne all.now) files.old
        files.new }
    ensures told { IfOk result (λ told. IfSome told (λ _. files.new ≡ files.old)) }
    ensures none { (files.new ≡ files.old) ⊎ All (MayGo D.File.remaining (D.opened files.old) listed.now) all.now }
{
    let Some(place) = place_of_other(files, all, listed)? else {
        remove_all(files, all, listed)?;
        return Ok(None);
    };
    let listed = listed.file.path.as_str();
    let two = two_messages(files.alloc(), listed, &all[place])?;
    Ok(Some(two))
}

/// If a listed file is gone: a file that has its base and is another message, if there is one.
fn instead<D: MailFiles>(
    files: &D,
    all: &[Namesake],
    listed: &ListedFile,
) -> io::Result<Option<TwoMessages>>
    ensures { IfOk result (TellsInstead all.now) }
{
    if all.is_empty() {
        return Ok(None);
    }
    let way = files.way(listed.folder, listed.name.as_str())?;
    let two = two_messages(files.alloc(), way.path.as_str(), &all[0])?;
    Ok(Some(two))
}

/// Removes a listed file, and before it those that go with it, from where they were seen. NotFound if one
/// isn't there.
fn remove_seen<D: MailFiles>(
    files: &mut D,
    seen: &[PlacedFile],
    listed: &ListedFile,
) -> io::Result<Option<TwoMessages>>
    ensures removes { IfOk result (RemovesSeen D.File.remaining (D.found files.old) (D.opened files.old)
        (D.removed files.new) listed.now seen.now) }
    ensures stays { Stays D.path D.looked files.old files.new }
    ensures takes { D.sound files.new → D.sound files.old × ((from : List PlacedFile)
        → HaveBase (base (listed_name listed.now)) from seen.now → SeesAll (D.files files.old) from
        → TakesMessage listed.now (D.files files.old) result (D.files files.new)) }
{
    let found = look_at_all(files, seen, listed)?;
    let all = found.as_slice();
    let Some(place) = listed_place(all, listed.stamp) else {
        let told = instead(files, all, listed)?;
        return Ok(told);
    };
    let told = remove_with(files, all, &all[place])?;
    Ok(told)
}

/// Removes a listed file and those that go with it. One that is gone already counts as removed. If a file
/// with its base is another message, none is removed, and that one is returned with it.
pub fn remove<D: MailFiles>(
    files: &mut D,
    seen: &mut SeenFiles,
    listed: &ListedFile,
) -> io::Result<Option<TwoMessages>>
    ensures removes { IfOk result (λ told. (now : D) × RemovesMessage D.File.remaining (D.found now) (D.opened now)
        (D.removed files.new) (WereSeen (D.told now) seen.old) listed.now told) }
    ensures stays { Stays D.path D.looked files.old files.new × (seen.new.are_removed ≡ seen.old.are_removed) }
    ensures takes { D.sound files.new → D.sound files.old × (SeesAll (D.files files.old) (those_seen seen.old.files)
        → SeesAll (D.files files.new) (those_seen seen.new.files)
        × TakesMessage listed.now (D.files files.old) result (D.files files.new)) }
{
    for _ in 0..MOST_TRIES {
        match remove_seen(files, seen.with_base(listed.base()), listed) {
            Ok(told) => return Ok(told),
            Err(error) if error.kind() == ErrorKind::NotFound => {}
            Err(error) => return Err(error),
        }
        seen.renew(files.list()?);
    }
    Err(busy(files, listed.folder, listed.name.as_str()))
}
