//! Lists of single calls of a file system, made in folders of the machine or in memory, for the tests from outside.

ghost use Rattle.std.specs.Prelude.{◌≡◌, ◌<◌, length};

use crate::trouble::{Result, Trouble};
use crate::{drop_calls, power, shared};
use folder_store::{Access, FileCalls, FileKind, FileStat, HostCalls, MadeHandle};
use std::alloc::Global;
use std::fs;
use std::io::{ErrorKind, Write};
use system_calls::{Denial, Refusals, System};
use test_devices::MemoryCalls;

/// The line between two lists, and between the answers to them.
const NEXT: &str = "next\n";

/// The most octets that are read at once.
pub const ROOM: usize = 64;

/// What makes the calls of a list. It may keep what the list says of the other process.
pub trait Player<'l> {
    /// Makes the call of a line.
    fn call_line(&mut self, words: (&str, &str, &str), answers: &mut Vec<u8>) -> Result<()>;

    /// Does in memory what the other process does.
    fn act_as_other(&mut self, word: &'l str) -> Result<()>;
}

/// What a list made and opened, in the order in which it asked for that. None is what was refused.
#[derive(Drop)]
struct Handles<C: FileCalls> {
    made: Vec<Option<C::Made>>,
    opened: Vec<Option<C::File>>,
}

/// A file system, and what a list did with it.
#[derive(Drop)]
pub struct FilePlayer<C: FileCalls> {
    alloc: Global,
    pub calls: C,
    handles: Handles<C>,
}

/// A word, and what comes after the space behind it.
pub fn halves(word: &str) -> (&str, &str) {
    word.split_once(' ').unwrap_or((word, ""))
}

/// How a refusal is told.
pub fn word_of(kind: ErrorKind) -> &'static str {
    match kind {
        ErrorKind::NotFound => "absent",
        ErrorKind::Interrupted => "interrupted",
        _ => "refused",
    }
}

/// Adds an answer of one word.
pub fn tell_word(answers: &mut Vec<u8>, word: &str) -> Result<()> {
    writeln!(answers, "{word}")?;
    Ok(())
}

/// Adds octets that were read.
pub fn tell_octets(answers: &mut Vec<u8>, octets: &[u8]) -> Result<()> {
    answers.push(b'=')?;
    answers.extend_from_slice(octets)?;
    answers.push(b'\n')?;
    Ok(())
}

/// Adds the answer of a call that only does something.
pub fn tell_done(answers: &mut Vec<u8>, answer: std::result::Result<(), Denial>) -> Result<()> {
    match answer {
        Ok(()) => tell_word(answers, "done"),
        Err(denial) => tell_word(answers, word_of(denial.kind())),
    }
}

/// Adds the answer of a call that writes.
pub fn tell_count(answers: &mut Vec<u8>, answer: std::result::Result<usize, Denial>) -> Result<()> {
    match answer {
        Ok(count) => writeln!(answers, "{count}")?,
        Err(denial) => writeln!(answers, "{}", word_of(denial.kind()))?,
    }
    Ok(())
}

/// Adds what is told of a file.
pub fn tell_stat(
    answers: &mut Vec<u8>,
    answer: std::result::Result<FileStat, Denial>,
) -> Result<()> {
    match answer {
        Ok(found) => match found.kind {
            FileKind::File => writeln!(answers, "file {}", found.len)?,
            FileKind::Folder => writeln!(answers, "folder")?,
            FileKind::Other => writeln!(answers, "other")?,
        },
        Err(denial) => writeln!(answers, "{}", word_of(denial.kind()))?,
    }
    Ok(())
}

/// Keeps what was made or opened, if it was, and adds the answer.
pub fn keep<T: Drop>(
    handles: &mut Vec<Option<T>>,
    answers: &mut Vec<u8>,
    answer: std::result::Result<T, Denial>,
) -> Result<()> {
    match answer {
        Ok(handle) => {
            handles.push(Some(handle))?;
            tell_word(answers, "done")
        }
        Err(denial) => {
            handles.push(None)?;
            tell_word(answers, word_of(denial.kind()))
        }
    }
}

/// Takes a handle out, if it is there.
pub fn taken<T: Drop>(handles: &mut Vec<Option<T>>, number: &str) -> Result<Option<T>> {
    let number: usize = number.parse()?;
    match handles.get_mut(number) {
        Some(handle) => Ok(handle.take()),
        None => Ok(None),
    }
}

/// Puts a handle back.
pub fn put_back<T: Drop>(handles: &mut Vec<Option<T>>, number: &str, handle: T) -> Result<()> {
    let number: usize = number.parse()?;
    if let Some(room) = handles.get_mut(number) {
        *room = Some(handle);
    }
    Ok(())
}

/// Makes the call of this name on a path.
fn call_on_path<C: FileCalls>(
    calls: &mut C,
    handles: &mut Handles<C>,
    call: &str,
    path: &str,
    answers: &mut Vec<u8>,
) -> Result<()> {
    match call {
        "create" => keep(&mut handles.made, answers, calls.create(path)),
        "open" => keep(&mut handles.opened, answers, calls.open(path, Access::Read)),
        "open-append" => keep(
            &mut handles.opened,
            answers,
            calls.open(path, Access::Append),
        ),
        "stat" => tell_stat(answers, calls.stat(path)),
        _ => Err(Trouble::Other),
    }
}

/// Makes the call of this name on a file that was made.
fn call_on_made<C: FileCalls>(
    calls: &mut C,
    file: &mut C::Made,
    call: &str,
    word: &str,
    answers: &mut Vec<u8>,
) -> Result<()> {
    match call {
        "made-write" => tell_count(answers, file.write(word.as_bytes())),
        "made-fsync" => tell_done(answers, file.fsync()),
        "rename" => tell_done(answers, calls.rename(file, word)),
        "unlink" => tell_done(answers, calls.unlink(file)),
        _ => Err(Trouble::Other),
    }
}

/// Reads so many octets, and adds them.
fn read<C: FileCalls>(
    calls: &mut C,
    file: &mut C::File,
    count: usize,
    answers: &mut Vec<u8>,
) -> Result<()> {
    let mut buf = [0; ROOM];
    if count == 0 || count > ROOM {
        return Err(Trouble::Other);
    }
    match calls.read(file, &mut buf[..count]) {
        Ok(count) => tell_octets(answers, &buf[..count]),
        Err(denial) => tell_word(answers, word_of(denial.kind())),
    }
}

/// Cuts a file to so many octets, if it has them.
fn cut<C: FileCalls>(
    calls: &mut C,
    file: &mut C::File,
    len: u64,
    answers: &mut Vec<u8>,
) -> Result<()> {
    match calls.fstat(file) {
        Ok(found) => {
            if len > found.len {
                return tell_word(answers, "beyond");
            }
            let answer = calls.ftruncate(file, len);
            tell_done(answers, answer)
        }
        Err(denial) => tell_word(answers, word_of(denial.kind())),
    }
}

/// Makes the call of this name on an open file.
fn call_on_opened<C: FileCalls>(
    calls: &mut C,
    file: &mut C::File,
    call: &str,
    word: &str,
    answers: &mut Vec<u8>,
) -> Result<()> {
    match call {
        "fstat" => tell_stat(answers, calls.fstat(file)),
        "read" => read(calls, file, word.parse()?, answers),
        "lseek" => tell_done(answers, calls.seek(file, word.parse()?)),
        "write" => tell_count(answers, calls.write(file, word.as_bytes())),
        "ftruncate" => cut(calls, file, word.parse()?, answers),
        "fsync" => tell_done(answers, calls.fsync(file)),
        "fsync-folder" => tell_done(answers, calls.fsync_folder(file)),
        _ => Err(Trouble::Other),
    }
}

/// Makes the call of a line: its name; a handle's number or `-`; a path, octets or a number.
fn call_line<C: FileCalls>(
    calls: &mut C,
    handles: &mut Handles<C>,
    words: (&str, &str, &str),
    answers: &mut Vec<u8>,
) -> Result<()> {
    let (call, number, word) = words;
    if number == "-" {
        return call_on_path(calls, handles, call, word, answers);
    }
    if matches!(call, "made-write" | "made-fsync" | "rename" | "unlink") {
        if let Some(mut file) = taken(&mut handles.made, number)? {
            call_on_made(calls, &mut file, call, word, answers)?;
            return put_back(&mut handles.made, number, file);
        }
    } else if let Some(mut file) = taken(&mut handles.opened, number)? {
        call_on_opened(calls, &mut file, call, word, answers)?;
        return put_back(&mut handles.opened, number, file);
    }
    tell_word(answers, "no handle")
}

/// The three words of a line.
fn words_of(line: &str) -> Option<(&str, &str, &str)> {
    let (call, rest) = line.split_once(' ')?;
    let (number, word) = rest.split_once(' ')?;
    Some((call, number, word))
}

/// Makes a file with these octets, and gives it a name.
fn put_file<C: FileCalls>(alloc: Global, calls: &mut C, path: &str, octets: &str) -> Result<()> {
    let beside = format!(in alloc; "{path}.other")?;
    let mut file = calls.create(beside.as_str())?;
    file.write(octets.as_bytes())?;
    calls.rename(&file, path)?;
    Ok(())
}

impl<'l, C: FileCalls> Player<'l> for FilePlayer<C> {
    fn call_line(&mut self, words: (&str, &str, &str), answers: &mut Vec<u8>) -> Result<()> {
        call_line(&mut self.calls, &mut self.handles, words, answers)
    }

    fn act_as_other(&mut self, word: &'l str) -> Result<()> {
        let (path, octets) = halves(word);
        put_file(self.alloc, &mut self.calls, path, octets)
    }
}

/// Waits until the other process has done what it does next: a named pipe beside the folder, one of two in turn, ends.
fn wait(rt: &HostRuntime, folder: &str, turn: &str) -> Result<()> {
    let path = format!(in rt.alloc(); "{folder}.{turn}")?;
    fs::read_to_string(rt, path.as_str())?;
    Ok(())
}

/// Makes the calls of a list, and adds the answers. If it is in a folder of the machine, another process acts between
/// them.
pub fn play<'l, P: Player<'l>>(
    rt: &HostRuntime,
    folder: Option<&str>,
    player: &mut P,
    list: &'l str,
    answers: &mut Vec<u8>,
) -> Result<()> {
    for line in list.lines() {
        let Some(words) = words_of(line) else {
            return Err(Trouble::Other);
        };
        if words.0 != "other" {
            player.call_line(words, answers)?;
            continue;
        }
        match folder {
            Some(folder) => wait(rt, folder, words.1)?,
            None => player.act_as_other(words.2)?,
        }
        tell_word(answers, "other")?;
    }
    Ok(())
}

/// A player on a file system.
pub fn player_on<C: FileCalls + Drop>(alloc: Global, calls: C) -> FilePlayer<C> {
    let handles = Handles {
        made: Vec::new(alloc),
        opened: Vec::new(alloc),
    };
    FilePlayer {
        alloc,
        calls,
        handles,
    }
}

/// Makes the calls of a list on a file system.
fn play_files<C: FileCalls + Drop>(
    rt: &HostRuntime,
    folder: Option<&str>,
    calls: C,
    list: &str,
    answers: &mut Vec<u8>,
) -> Result<()> {
    let mut player = player_on(rt.alloc(), calls);
    play(rt, folder, &mut player, list, answers)
}

/// Makes the calls of a list on the machine or in memory.
fn play_on(rt: &HostRuntime, system: &str, list: &str, answers: &mut Vec<u8>) -> Result<()> {
    let Some((folder, list)) = list.split_once('\n') else {
        return Err(Trouble::Other);
    };
    let refusals = Refusals::new(rt.alloc(), None);
    let machine = System::new(rt, &refusals);
    match system {
        "machine" => play_files(
            rt,
            Some(folder),
            HostCalls { system: &machine },
            list,
            answers,
        ),
        "memory" => {
            let name = String::from_str(rt.alloc(), folder)?;
            play_files(rt, None, MemoryCalls::new(rt.alloc(), name), list, answers)
        }
        "power" => power::play_files(rt, folder, list, answers),
        "shared-power" => power::play_mail(rt, list, answers),
        "drop-machine" | "drop-memory" => {
            drop_calls::play_on(rt, &machine, system, folder, list, answers)
        }
        _ => shared::play_on(rt, &machine, system, folder, list, answers),
    }
}

/// Makes the calls of each list of a file, and prints the answers. The first line of a list is its folder, which holds
/// each path of it.
pub fn play_lists(rt: &HostRuntime, system: &str, lists: &str) -> Result<()> {
    let text = fs::read_to_string(rt, lists)?;
    let mut answers = Vec::new(rt.alloc());
    for list in text.as_str().split(NEXT) {
        play_on(rt, system, list, &mut answers)?;
        answers.extend_from_slice(NEXT.as_bytes())?;
    }
    rt.stdout().write_all(&answers)?;
    Ok(())
}
