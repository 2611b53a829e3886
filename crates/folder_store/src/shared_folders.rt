//! What a device of a Maildir's folders does in several calls.

ghost use Rattle.std.specs.{
  Prelude.{◌≡◌, ◌↔◌, ◌<◌, IsTrue, Ok, OnOk, Some, [], ◌∷◌, false, map, string_bytes, true},
  Duration.as_nanos,
  IoError.error_kind,
};
ghost use Rattle.folder_store.specs.{
  Calls.answered,
  HostAnswers.refuses_links,
  MailCalls.{ChecksIn, FlushesFiles, FlushesNamesIn, PutsDraft, TellsFiles, TellsRest},
  SharedCalls.{AddsNames, Did, EndsPasses, IsSame, MayListAgain, listed_in},
};

use crate::calls::FileKind;
use crate::exact_listing::ChangeTime;
use crate::flush_pass::texts_of;
use crate::listed_names::{Lead, look_at};
use crate::mail_folders::FoundNames;
use crate::opened_file::IRREGULAR;
use crate::shared_calls::SharedCalls;
use crate::system::are_flushed;
use mail_store::Folder;
use std::alloc::Global;
use std::io::ErrorKind;
use std::time::Duration;
use system_calls::Denial;

/// For how many seconds the folders are listed again while readers change them all the time.
const MOST_SECONDS: u64 = 4;

/// How many times files that are to be flushed are looked up while readers move them.
const MOST_PASSES: u32 = 8;

/// Whether the folders are listed once more, this long after the first time.
fn may_list_both(passed: Duration) -> bool
    ensures { IsTrue result ↔ as_nanos passed < 4_000_000_000 }
{
    passed < Duration::from_secs(MOST_SECONDS)
}

/// Whether the folders are listed once more, after they changed this many times before, the first time at `start`.
fn may_list_again(now: Option<Duration>, times: u32, start: &mut Duration) -> bool
    ensures { MayListAgain now times start.old result start.new }
{
    let Some(now) = now else {
        return false;
    };
    if times == 0 {
        *start = now;
    }
    may_list_both(now.saturating_sub(*start))
}

/// Whether a folder has rested, by its time of change when it was last listed and now.
fn has_rested(listed: Option<ChangeTime>, now: ChangeTime) -> bool
    ensures { IsTrue result ↔ listed ≡ Some now }
{
    listed == Some(now)
}

/// Refused if the path of a folder leads to something else.
pub fn check_folder<S: SharedCalls>(calls: &mut S, folder: Folder) -> Result<(), Denial>
    ensures { S.sound calls.new → S.sound calls.old
        × Did (ChecksIn folder (answered result)) (S.shared calls.old) (S.shared calls.new) }
{
    let found = calls.stat(folder)?;
    if found.kind == FileKind::Folder {
        return Ok(());
    }
    Err(calls.folder_refusal(folder, "not a folder"))
}

/// Whether a folder has the time of change of its last listing. Refused if it may not be listed again.
pub fn check_rest<S: SharedCalls>(
    calls: &mut S,
    folder: Folder,
    listed: Option<ChangeTime>,
    start: &mut Duration,
    times: u32,
) -> Result<bool, Denial>
    requires { S.sound calls.old → listed_in folder (S.shared calls.old) ≡ listed }
    ensures { S.sound calls.new → S.sound calls.old
        × Did (TellsRest folder (answered result)) (S.shared calls.old) (S.shared calls.new) }
{
    let found = calls.stat(folder)?;
    if has_rested(listed, found.change) {
        return Ok(true);
    }
    if may_list_again(calls.now(), times, start) {
        return Ok(false);
    }
    Err(calls.folder_refusal(folder, "changes all the time"))
}

/// Adds a name where it belongs, by what it leads to. The name of a folder in `cur` is left out: no delivery needs it.
fn add_name<S: SharedCalls>(
    alloc: Global,
    calls: &mut S,
    folder: Folder,
    name: String,
    found: &mut FoundNames,
    obstructions: &mut Vec<Vec<u8>>,
) -> Result<(), Denial>
    ensures { S.sound calls.new → S.sound calls.old × Did IsSame (S.shared calls.old) (S.shared calls.new)
        × OnOk result (AddsNames (S.shared calls.old).directories folder (string_bytes name ∷ []) found.old found.new) }
{
    match look_at(alloc, calls, folder, name.as_str())? {
        Lead::File => found.files.push(name)?,
        Lead::Directory => {}
        Lead::Odd(why) => {
            found.odd.push(name)?;
            obstructions.push(why)?;
        }
    }
    Ok(())
}

/// Adds the names of a folder.
fn add_names<S: SharedCalls>(
    alloc: Global,
    calls: &mut S,
    folder: Folder,
    names: Vec<String>,
    found: &mut FoundNames,
    obstructions: &mut Vec<Vec<u8>>,
) -> Result<(), Denial>
    ensures { S.sound calls.new → S.sound calls.old × Did IsSame (S.shared calls.old) (S.shared calls.new)
        × OnOk result (AddsNames (S.shared calls.old).directories folder (map string_bytes names.items)
        found.old found.new) }
{
    for name in names {
        add_name(alloc, calls, folder, name, found, obstructions)?;
    }
    Ok(())
}

/// What names lead to. The path of each that is odd is noted, and why.
pub fn look_up<S: SharedCalls>(
    alloc: Global,
    calls: &mut S,
    in_new: Vec<String>,
    in_cur: Vec<String>,
    obstructions: &mut Vec<Vec<u8>>,
) -> Result<FoundNames, Denial>
    ensures { S.sound calls.new → S.sound calls.old
        × Did (TellsFiles (map string_bytes in_new.items) (map string_bytes in_cur.items) (answered result))
        (S.shared calls.old) (S.shared calls.new) }
{
    let mut found = FoundNames {
        files: Vec::new(alloc),
        odd: Vec::new(alloc),
    };
    add_names(alloc, calls, Folder::New, in_new, &mut found, obstructions)?;
    add_names(alloc, calls, Folder::Cur, in_cur, &mut found, obstructions)?;
    Ok(found)
}

/// Why nothing is put under a name that something has.
fn taken<S: SharedCalls>(calls: &S, name: &str) -> Denial {
    let words = if calls.is_other(name) {
        IRREGULAR
    } else {
        "is there already"
    };
    calls.refusal(Folder::New, name, words)
}

/// Whether a file can't be given a second name although it may be given another one.
fn has_no_links(fault: &Denial) -> bool
    ensures { result ≡ refuses_links (error_kind fault.now.error) }
{
    matches!(
        fault.kind(),
        ErrorKind::PermissionDenied
            | ErrorKind::Unsupported
            | ErrorKind::CrossesDevices
            | ErrorKind::TooManyLinks
    )
}

/// Gives a file that was made a name that nothing has, where files have no second names: what comes to the name between
/// the two calls is replaced.
fn rename_free<S: SharedCalls>(calls: &mut S, file: &S::Made, name: &str) -> Result<(), Denial>
    ensures { S.sound calls.new → S.sound calls.old
        × Did (PutsDraft (S.Made.made file.now) name.now (answered result)) (S.shared calls.old) (S.shared calls.new) }
{
    match calls.lstat(Folder::New, name) {
        Ok(_) => Err(taken(calls, name)),
        Err(fault) => {
            if fault.kind() == ErrorKind::NotFound {
                return calls.rename(file, name);
            }
            Err(fault)
        }
    }
}

/// Gives a file that was made a name that nothing has. A second name is given at one step, and only if nothing has it.
fn name_made<S: SharedCalls>(calls: &mut S, file: &S::Made, name: &str) -> Result<(), Denial>
    ensures { S.sound calls.new → S.sound calls.old × S.Made.sound file.now
        × Did (PutsDraft (S.Made.made file.now) name.now (answered result)) (S.shared calls.old) (S.shared calls.new) }
{
    match calls.link(file, name) {
        Ok(()) => {
            let _ = calls.unlink(file);
            Ok(())
        }
        Err(fault) => {
            if fault.kind() == ErrorKind::AlreadyExists {
                return Err(taken(calls, name));
            }
            if has_no_links(&fault) {
                return rename_free(calls, file, name);
            }
            Err(fault)
        }
    }
}

/// The same. The file is given up if that is refused.
pub fn put_new<S: SharedCalls>(calls: &mut S, file: &S::Made, name: &str) -> Result<(), Denial>
    ensures { S.sound calls.new → S.sound calls.old × S.Made.sound file.now
        × Did (PutsDraft (S.Made.made file.now) name.now (answered result)) (S.shared calls.old) (S.shared calls.new) }
{
    let answer = name_made(calls, file, name);
    if answer.is_err() {
        let _ = calls.unlink(file);
    }
    answer
}

/// Flushes the bytes of each file whose name has one of these stems, by passes, at most eight, until none of these is
/// left. False, only if `may_miss`, if one of them is.
pub fn flush_files<S: SharedCalls>(
    alloc: Global,
    calls: &mut S,
    stems: &[String],
    may_miss: bool,
) -> Result<bool, Denial>
    ensures flushes { S.sound calls.new → S.sound calls.old
        × Did (FlushesFiles stems.now (answered result)) (S.shared calls.old) (S.shared calls.new)
        × EndsPasses (S.was_left calls.new (map string_bytes stems.now)) (S.was_denied calls.new) may_miss result }
    ensures misses { result ≡ Ok false → may_miss ≡ true }
{
    let mut left = texts_of(alloc, stems)?;
    for _ in 0..MOST_PASSES {
        left = calls.flush_pass(stems, &left)?;
        if left.is_empty() {
            return Ok(true);
        }
    }
    if may_miss {
        return Ok(false);
    }
    Err(calls.folder_refusal(Folder::New, "files to be flushed go away all the time"))
}

/// Flushes the names of a folder. False if its file system flushes no folders.
pub fn flush_names<S: SharedCalls>(calls: &mut S, folder: Folder) -> Result<bool, Denial>
    ensures { S.sound calls.new → S.sound calls.old
        × Did (FlushesNamesIn folder (answered result)) (S.shared calls.old) (S.shared calls.new) }
{
    are_flushed(calls.fsync_folder(folder))
}
