//! Lists of single calls on the Maildir of a server, made in folders of the machine or in memory, for the tests from
//! outside.

ghost use Rattle.std.specs.Prelude.{Some, IfOk};

use crate::calls::{
    Player, ROOM, halves, keep, play, put_back, taken, tell_done, tell_octets, tell_word, word_of,
};
use crate::trouble::{Result, Trouble};
use folder_drop::{
    FileNumber, FileWay, Folder, FoldersLook, Found, MailFiles, MaildirFolders, MemoryFiles,
};
use std::alloc::Global;
use std::env::Env;
use std::hash::RandomState;
use std::io::{self, Read, Write};
use std::random::RandomSource;
use std::rt::Files;
use std::time::Clock;
use system_calls::{Denial, System};

/// A Maildir, and what a list did with it.
#[derive(Drop)]
struct DropPlayer<D: MailFiles> {
    alloc: Global,
    files: D,
    /// The last look at the folders.
    last: Option<FoldersLook>,
    /// The numbers of the files that were told since.
    numbers: Vec<FileNumber>,
    /// What was opened, in the order in which it was asked for. None is what wasn't.
    opened: Vec<Option<D::File>>,
}

/// A Maildir in memory, in which a list also does what the other process does.
#[derive(Drop)]
struct MemoryDrop<'l> {
    player: DropPlayer<MemoryFiles<'l>>,
}

/// The folder and the name that a path is made of.
fn place_of(path: &str) -> Result<(Folder, &str)> {
    let Some((folder, name)) = path.split_once('/') else {
        return Err(Trouble::Other);
    };
    match folder {
        "new" => Ok((Folder::New, name)),
        "cur" => Ok((Folder::Cur, name)),
        _ => Err(Trouble::Other),
    }
}

/// What bears a name, and by what the other calls name it.
fn find<D: MailFiles>(files: &D, place: (Folder, &str)) -> io::Result<(FileWay, Found)>
    ensures { IfOk result (λ now. D.found files.now now.0 (Some now.1)) }
{
    let way = files.way(place.0, place.1)?;
    let found = files.look_up(&way)?;
    Ok((way, found))
}

/// Reads so many octets, and adds them.
fn read<F: Read>(file: &mut F, count: usize, answers: &mut Vec<u8>) -> Result<()> {
    let mut buf = [0; ROOM];
    if count == 0 || count > ROOM {
        return Err(Trouble::Other);
    }
    match file.read(&mut buf[..count]) {
        Ok(count) => tell_octets(answers, &buf[..count]),
        Err(error) => tell_word(answers, word_of(error.kind())),
    }
}

impl<D: MailFiles> DropPlayer<D> {
    fn denied<T>(&self, answer: io::Result<T>) -> std::result::Result<T, Denial> {
        answer.map_err(|error| Denial::of(self.alloc, "", error))
    }

    /// Looks at the folders, and tells that, or whether they are as they were at the last look.
    fn look(&mut self, compares: bool, answers: &mut Vec<u8>) -> Result<()> {
        let look = match self.files.look() {
            Ok(look) => look,
            Err(error) => return tell_word(answers, word_of(error.kind())),
        };
        let word = match self.last {
            Some(last) if compares => {
                if last.is_unchanged_at(&look) {
                    "unchanged"
                } else {
                    "changed"
                }
            }
            _ => "looked",
        };
        self.last = Some(look);
        self.numbers.clear();
        tell_word(answers, word)
    }

    /// Lists the files.
    fn list(&self, answers: &mut Vec<u8>) -> Result<()> {
        match self.files.list() {
            Ok(files) => {
                write!(answers, "names")?;
                for file in &files {
                    write!(answers, " {}/{}", file.folder.name(), file.name)?;
                }
                tell_word(answers, "")
            }
            Err(error) => tell_word(answers, word_of(error.kind())),
        }
    }

    /// The place of a file's number among those that were told since the last look.
    fn place_of_number(&mut self, number: FileNumber) -> Result<usize> {
        for (place, told) in self.numbers.iter().enumerate() {
            if *told == number {
                return Ok(place);
            }
        }
        self.numbers.push(number)?;
        Ok(self.numbers.len() - 1)
    }

    /// Adds what is told of a name or of what was opened. A file's number is told by its place.
    fn tell(&mut self, answers: &mut Vec<u8>, answer: io::Result<Found>) -> Result<()> {
        match answer {
            Ok(found) if found.is_regular => {
                let place = self.place_of_number(found.stamp.number)?;
                writeln!(answers, "file {place} {}", found.stamp.length)?;
                Ok(())
            }
            Ok(_) => tell_word(answers, "other"),
            Err(error) => tell_word(answers, word_of(error.kind())),
        }
    }

    /// Opens a name, if a file bears it.
    fn open(&mut self, place: (Folder, &str), answers: &mut Vec<u8>) -> Result<()> {
        match find(&self.files, place) {
            Ok((way, found)) if found.is_regular => {
                let opened = self.denied(self.files.open(&way));
                keep(&mut self.opened, answers, opened)
            }
            Ok(_) => {
                self.opened.push(None)?;
                tell_word(answers, "other")
            }
            Err(error) => {
                self.opened.push(None)?;
                tell_word(answers, word_of(error.kind()))
            }
        }
    }

    /// Removes a name, if a file bears it.
    fn unlink(&mut self, place: (Folder, &str), answers: &mut Vec<u8>) -> Result<()> {
        match find(&self.files, place) {
            Ok((way, found)) if found.is_regular => {
                let removed = self.files.unlink(&way);
                tell_done(answers, self.denied(removed))
            }
            Ok(_) => tell_word(answers, "other"),
            Err(error) => tell_word(answers, word_of(error.kind())),
        }
    }

    /// Makes the call of this name on the Maildir or on a path in it.
    fn call(&mut self, call: &str, word: &str, answers: &mut Vec<u8>) -> Result<()> {
        match call {
            "look" => self.look(false, answers),
            "look-again" => self.look(true, answers),
            "close" => {
                self.files.close();
                tell_word(answers, "closed")
            }
            "list" => self.list(answers),
            "look-up" => {
                let found = find(&self.files, place_of(word)?);
                self.tell(answers, found.map(|(_, found)| found))
            }
            "open" => self.open(place_of(word)?, answers),
            "unlink" => self.unlink(place_of(word)?, answers),
            _ => Err(Trouble::Other),
        }
    }

    /// Makes the call of this name on what was opened.
    fn call_on_opened(
        &mut self,
        file: &mut D::File,
        call: &str,
        word: &str,
        answers: &mut Vec<u8>,
    ) -> Result<()> {
        match call {
            "fstat" => {
                let found = self.files.stat_opened(file);
                self.tell(answers, found)
            }
            "read" => read(file, word.parse()?, answers),
            "skip" => {
                let skipped = self.files.skip(file, word.parse()?);
                tell_done(answers, self.denied(skipped))
            }
            _ => Err(Trouble::Other),
        }
    }

    /// Makes the call of a line: its name; the number of what was opened, or `-`; a path, or how many octets.
    fn call_line(&mut self, words: (&str, &str, &str), answers: &mut Vec<u8>) -> Result<()> {
        let (call, number, word) = words;
        if number == "-" {
            return self.call(call, word, answers);
        }
        if let Some(mut file) = taken(&mut self.opened, number)? {
            self.call_on_opened(&mut file, call, word, answers)?;
            return put_back(&mut self.opened, number, file);
        }
        tell_word(answers, "no handle")
    }
}

impl<'l, D: MailFiles + Drop> Player<'l> for DropPlayer<D> {
    fn call_line(&mut self, words: (&str, &str, &str), answers: &mut Vec<u8>) -> Result<()> {
        self.call_line(words, answers)
    }

    // On the machine another process does it.
    fn act_as_other(&mut self, _word: &'l str) -> Result<()> {
        Err(Trouble::Other)
    }
}

/// A folder changes, but not what a listing tells of it: a file comes and goes.
fn change_unseen<'l>(files: &mut MemoryFiles<'l>, path: &'l str) -> Result<()> {
    let (folder, name) = place_of(path)?;
    files.put(folder, name, b"")?;
    files.take((folder, name))?;
    Ok(())
}

/// A name that leads to a file is renamed, or another one comes beside it.
fn add_name<'l>(files: &mut MemoryFiles<'l>, act: &str, paths: &'l str) -> Result<()> {
    let (from, to) = halves(paths);
    let (from, to) = (place_of(from)?, place_of(to)?);
    match act {
        "rename" => files.rename(from, to)?,
        _ => files.link(from, to)?,
    }
    Ok(())
}

/// Does in memory what another process does.
fn act<'l>(files: &mut MemoryFiles<'l>, words: &'l str) -> Result<()> {
    let (act, rest) = halves(words);
    match act {
        "put" => {
            let (path, octets) = halves(rest);
            let (folder, name) = place_of(path)?;
            files.put(folder, name, octets.as_bytes())?;
        }
        "put-other" => {
            let (folder, name) = place_of(rest)?;
            files.put_other(folder, name)?;
        }
        "take" => files.take(place_of(rest)?)?,
        "unseen" => change_unseen(files, rest)?,
        "rest" => files.rest(rest.parse()?),
        _ => add_name(files, act, rest)?,
    }
    Ok(())
}

impl<'l> Player<'l> for MemoryDrop<'l> {
    fn call_line(&mut self, words: (&str, &str, &str), answers: &mut Vec<u8>) -> Result<()> {
        self.player.call_line(words, answers)
    }

    fn act_as_other(&mut self, word: &'l str) -> Result<()> {
        act(&mut self.player.files, word)
    }
}

/// A player on a Maildir.
fn player_on<D: MailFiles>(alloc: Global, files: D) -> DropPlayer<D> {
    DropPlayer {
        alloc,
        files,
        last: None,
        numbers: Vec::new(alloc),
        opened: Vec::new(alloc),
    }
}

/// Makes the calls of a list in memory.
fn play_in_memory(rt: &HostRuntime, list: &str, answers: &mut Vec<u8>) -> Result<()> {
    let files = MemoryFiles::new(rt.alloc(), RandomState::new(rt)?);
    let mut player = MemoryDrop {
        player: player_on(rt.alloc(), files),
    };
    play(rt, None, &mut player, list, answers)
}

/// Makes the calls of a list on the machine.
fn play_on_machine<R: Files + Env + Clock + RandomSource + AllocGlobal + Clone + Drop>(
    rt: &HostRuntime,
    system: &System<'_, R>,
    maildir: &str,
    list: &str,
    answers: &mut Vec<u8>,
) -> Result<()> {
    let path = String::from_str(rt.alloc(), maildir)?;
    let mut player = player_on(rt.alloc(), MaildirFolders::at(system, path));
    play(rt, Some(maildir), &mut player, list, answers)
}

/// Makes the calls of a list in a Maildir of the machine or in memory.
pub fn play_on(
    rt: &HostRuntime,
    machine: &System<'_, HostRuntime>,
    system: &str,
    maildir: &str,
    list: &str,
    answers: &mut Vec<u8>,
) -> Result<()> {
    match system {
        "drop-memory" => play_in_memory(rt, list, answers),
        _ => play_on_machine(rt, machine, maildir, list, answers),
    }
}
