//! Lists of single calls on the folders of a Maildir, made in folders of the machine or in memory, for the tests from
//! outside.

use crate::calls::{
    Player, keep, play, put_back, taken, tell_count, tell_done, tell_octets, tell_stat, tell_word,
    word_of,
};
use crate::stores::{listing_of, mark_of};
use crate::trouble::{Result, Trouble};
use folder_store::{
    CallsFolder, CallsShared, ChangeTime, FileKind, FileStat, HostShared, MadeHandle, SharedCalls,
    Sought, texts_of,
};
use mail_store::{AccountId, Asked, Folder, account_id};
use mail_terms::Listing;
use std::alloc::Global;
use std::io::{ErrorKind, Write};
use std::rt::Files;
use std::time::Clock;
use system_calls::{Denial, System};
use test_devices::{MemoryFolders, MemoryShared, ReaderStep};

/// How many messages names are sought of, from the first one on.
const SOUGHT: usize = 4;

/// A system, and what a list did with it.
#[derive(Drop)]
pub struct SharedPlayer<S: SharedCalls> {
    alloc: Global,
    pub calls: S,
    account: AccountId,
    listing: Listing,
    /// What was made, in the order in which it was asked for. None is what was refused.
    made: Vec<Option<S::Made>>,
    /// The same of what was opened.
    opened: Vec<Option<S::File>>,
    /// The time of change of `new` when it was last listed.
    new_listed: Option<ChangeTime>,
    /// The same of `cur`.
    cur_listed: Option<ChangeTime>,
}

/// The folder of this name.
fn folder_of(word: &str) -> Result<Folder> {
    match word {
        "new" => Ok(Folder::New),
        "cur" => Ok(Folder::Cur),
        _ => Err(Trouble::Other),
    }
}

/// What a word says that the reader does before a call.
fn step_of(word: &str) -> Result<ReaderStep> {
    let Some((kind, place)) = word.split_once(':') else {
        return Ok(ReaderStep::Rest);
    };
    let place = place.parse()?;
    match kind {
        "new" => Ok(ReaderStep::ToNew(place)),
        "cur" => Ok(ReaderStep::ToCur(place)),
        "away" => Ok(ReaderStep::Away(place)),
        _ => Err(Trouble::Other),
    }
}

/// Adds whether a folder has rested since it was last listed.
fn tell_rest(
    answers: &mut Vec<u8>,
    listed: Option<ChangeTime>,
    answer: std::result::Result<FileStat, Denial>,
) -> Result<()> {
    match answer {
        Ok(found) if listed == Some(found.change) => writeln!(answers, "rests")?,
        Ok(_) => writeln!(answers, "changed")?,
        Err(denial) => writeln!(answers, "{}", word_of(denial.kind()))?,
    }
    Ok(())
}

/// Adds names.
fn tell_names(answers: &mut Vec<u8>, names: &[String]) -> Result<()> {
    write!(answers, "names")?;
    for name in names {
        write!(answers, " {name}")?;
    }
    tell_word(answers, "")
}

/// Adds the stems that a pass left.
fn tell_left(answers: &mut Vec<u8>, answer: std::result::Result<Vec<&str>, Denial>) -> Result<()> {
    match answer {
        Ok(left) => writeln!(answers, "left {}", left.len())?,
        Err(denial) => writeln!(answers, "{}", word_of(denial.kind()))?,
    }
    Ok(())
}

impl<S: SharedCalls> SharedPlayer<S> {
    /// When a folder was last listed.
    fn listed(&self, folder: Folder) -> Option<ChangeTime> {
        match folder {
            Folder::New => self.new_listed,
            Folder::Cur => self.cur_listed,
        }
    }

    /// Lists all names of a folder, or those that are sought.
    fn list(&mut self, folder: Folder, lists_all: bool, answers: &mut Vec<u8>) -> Result<()> {
        let asked = Asked {
            account: &self.account,
            listing: &self.listing,
            flags: &[true; SOUGHT],
        };
        let sought = if lists_all {
            Sought::All
        } else {
            Sought::Items(asked)
        };
        match self.calls.list(folder, sought) {
            Ok(found) => {
                match folder {
                    Folder::New => self.new_listed = Some(found.change),
                    Folder::Cur => self.cur_listed = Some(found.change),
                }
                tell_names(answers, &found.names)
            }
            Err(denial) => tell_word(answers, word_of(denial.kind())),
        }
    }

    /// Makes the call of this name on a name in a folder.
    fn call_on_name(&mut self, call: &str, path: &str, answers: &mut Vec<u8>) -> Result<()> {
        let Some((folder, name)) = path.split_once('/') else {
            return Err(Trouble::Other);
        };
        let folder = folder_of(folder)?;
        match call {
            "stat-name" => tell_stat(answers, self.calls.stat_name(folder, name)),
            "open" => keep(
                &mut self.opened,
                answers,
                open(&mut self.calls, folder, name),
            ),
            _ => tell_stat(answers, self.calls.lstat(folder, name)),
        }
    }

    /// What fstat(2) tells of what was opened, if it was.
    fn fstat(&self, number: &str, answers: &mut Vec<u8>) -> Result<()> {
        let number: usize = number.parse()?;
        match self.opened.get(number) {
            Some(Some(file)) => tell_stat(answers, self.calls.fstat(file)),
            _ => tell_word(answers, "no handle"),
        }
    }

    /// Makes a first pass for the files with these stems.
    fn flush_pass(&mut self, word: &str, answers: &mut Vec<u8>) -> Result<()> {
        let mut stems = Vec::new(self.alloc);
        for stem in word.split(' ') {
            stems.push(String::from_str(self.alloc, stem)?)?;
        }
        let all = texts_of(self.alloc, &stems)?;
        tell_left(answers, self.calls.flush_pass(&stems, &all))
    }

    /// Makes the call of this name on a folder or on a name.
    fn call(&mut self, call: &str, word: &str, answers: &mut Vec<u8>) -> Result<()> {
        match call {
            "stat" => {
                let folder = folder_of(word)?;
                let answer = self.calls.stat(folder);
                tell_rest(answers, self.listed(folder), answer)
            }
            "list" => self.list(folder_of(word)?, false, answers),
            "list-all" => self.list(folder_of(word)?, true, answers),
            "flush-pass" => self.flush_pass(word, answers),
            "create" => keep(&mut self.made, answers, self.calls.create(word)),
            "stat-name" | "open" | "lstat" => self.call_on_name(call, word, answers),
            "fsync-folder" => tell_done(answers, self.calls.fsync_folder(folder_of(word)?)),
            _ => Err(Trouble::Other),
        }
    }

    /// Makes the call of this name on a file that was made.
    fn call_on_made(
        &mut self,
        file: &mut S::Made,
        call: &str,
        word: &str,
        answers: &mut Vec<u8>,
    ) -> Result<()> {
        match call {
            "made-write" => tell_count(answers, file.write(word.as_bytes())),
            "made-fsync" => tell_done(answers, file.fsync()),
            "link" => tell_done(answers, self.calls.link(file, word)),
            "rename" => rename(&mut self.calls, file, word, answers),
            "unlink" => tell_done(answers, self.calls.unlink(file)),
            _ => Err(Trouble::Other),
        }
    }
}

impl<'l, S: SharedCalls> Player<'l> for SharedPlayer<S> {
    // A line is a call's name; the number of a file that was made or opened, or `-`; a folder, a name, stems or octets.
    fn call_line(&mut self, words: (&str, &str, &str), answers: &mut Vec<u8>) -> Result<()> {
        let (call, number, word) = words;
        if number == "-" {
            return self.call(call, word, answers);
        }
        if call == "fstat" {
            return self.fstat(number, answers);
        }
        if let Some(mut file) = taken(&mut self.made, number)? {
            self.call_on_made(&mut file, call, word, answers)?;
            return put_back(&mut self.made, number, file);
        }
        tell_word(answers, "no handle")
    }

    // The folders in memory know what their reader does.
    fn act_as_other(&mut self, _word: &'l str) -> Result<()> {
        Ok(())
    }
}

/// Opens a name, if stat(2) says that it leads to a regular file.
fn open<S: SharedCalls>(
    calls: &mut S,
    folder: Folder,
    name: &str,
) -> std::result::Result<S::File, Denial> {
    let found = calls.stat_name(folder, name)?;
    match found.kind {
        FileKind::File => calls.open(folder, name),
        _ => Err(calls.refusal(folder, name, "no file")),
    }
}

/// Gives a file that was made a name, if lstat(2) says that nothing has it.
fn rename<S: SharedCalls>(
    calls: &mut S,
    file: &S::Made,
    name: &str,
    answers: &mut Vec<u8>,
) -> Result<()> {
    match calls.lstat(Folder::New, name) {
        Ok(found) => tell_stat(answers, Ok(found)),
        Err(denial) => {
            if denial.kind() == ErrorKind::NotFound {
                let answer = calls.rename(file, name);
                return tell_done(answers, answer);
            }
            tell_stat(answers, Err(denial))
        }
    }
}

/// A player on a system.
pub fn player_on<S: SharedCalls + Drop>(alloc: Global, calls: S) -> Result<SharedPlayer<S>> {
    Ok(SharedPlayer {
        alloc,
        calls,
        account: account_id("bench", 110, "bench"),
        listing: listing_of(alloc, SOUGHT as u32)?,
        made: Vec::new(alloc),
        opened: Vec::new(alloc),
        new_listed: None,
        cur_listed: None,
    })
}

/// The folders of a Maildir in memory in which the reader makes these steps, and what can't be opened has these names.
fn memory_of(alloc: Global, steps: &str, obstacles: &str) -> Result<MemoryShared> {
    let mut all = Vec::new(alloc);
    for word in steps.split(' ') {
        all.push(step_of(word)?)?;
    }
    let mut folders = MemoryFolders::new(alloc, all);
    for name in obstacles.split(' ') {
        if !name.is_empty() {
            folders.obstruct(name)?;
        }
    }
    Ok(MemoryShared::new(alloc, folders))
}

/// Makes the calls of a list in memory, and adds the octets of each file at the end.
fn play_in_memory(
    rt: &HostRuntime,
    calls: MemoryShared,
    list: &str,
    answers: &mut Vec<u8>,
) -> Result<()> {
    let mut player = player_on(rt.alloc(), calls)?;
    play(rt, None, &mut player, list, answers)?;
    for place in 0..usize::MAX {
        let Some(content) = player.calls.folders.content_at(place) else {
            break;
        };
        tell_octets(answers, content)?;
    }
    Ok(())
}

/// Makes the calls of a list on the machine.
fn play_on_machine<R: Files + Clock + AllocGlobal + Clone + Drop>(
    rt: &HostRuntime,
    system: &System<'_, R>,
    maildir: &str,
    list: &str,
    answers: &mut Vec<u8>,
) -> Result<()> {
    let mark = mark_of(rt)?;
    let calls: HostShared<'_, R> = CallsShared {
        system,
        new_folder: CallsFolder::of_maildir(system, maildir, "new", mark),
        cur_folder: CallsFolder::of_maildir(system, maildir, "cur", mark),
    };
    let mut player = player_on(system.alloc(), calls)?;
    play(rt, Some(maildir), &mut player, list, answers)
}

/// Makes the calls of a list in a Maildir of the machine or in memory. The first line is what the reader does before
/// the calls, the second one the names that what can't be opened has.
pub fn play_on(
    rt: &HostRuntime,
    machine: &System<'_, HostRuntime>,
    system: &str,
    maildir: &str,
    list: &str,
    answers: &mut Vec<u8>,
) -> Result<()> {
    let Some((steps, list)) = list.split_once('\n') else {
        return Err(Trouble::Other);
    };
    let Some((obstacles, list)) = list.split_once('\n') else {
        return Err(Trouble::Other);
    };
    if system == "shared-memory" {
        let calls = memory_of(rt.alloc(), steps, obstacles)?;
        return play_in_memory(rt, calls, list, answers);
    }
    play_on_machine(rt, machine, maildir, list, answers)
}
