//! Whether a loss of power may leave a state of the disk, after a list of single calls in memory.

use crate::calls::{FilePlayer, Player, halves, play, player_on};
use crate::shared::{self, SharedPlayer};
use crate::trouble::{Result, Trouble};
use folder_store::MailFolders;
use mail_store::stem;
use std::alloc::Global;
use std::io::Write;
use test_devices::{FoundMail, MemoryCalls, MemoryFolders, MemoryShared};

/// What stands between two files of a Maildir.
const BETWEEN: char = '\u{1}';

/// Adds an answer of yes or no.
fn tell(answers: &mut Vec<u8>, answer: bool) -> Result<()> {
    writeln!(answers, "{}", if answer { "yes" } else { "no" })?;
    Ok(())
}

/// A file system in memory. A line also asks whether a loss of power may leave some octets at a path, or no file.
#[derive(Drop)]
struct FilePower {
    player: FilePlayer<MemoryCalls>,
}

impl<'l> Player<'l> for FilePower {
    fn call_line(&mut self, words: (&str, &str, &str), answers: &mut Vec<u8>) -> Result<()> {
        let (call, _, word) = words;
        match call {
            "left" => {
                let (path, octets) = halves(word);
                let answer = self.player.calls.may_leave(path, Some(octets.as_bytes()));
                tell(answers, answer)
            }
            "gone" => tell(answers, self.player.calls.may_leave(word, None)),
            _ => self.player.call_line(words, answers),
        }
    }

    fn act_as_other(&mut self, word: &'l str) -> Result<()> {
        self.player.act_as_other(word)
    }
}

/// The folders of a Maildir in memory. A line also asks whether a loss of power may leave some files in them.
#[derive(Drop)]
struct MailPower {
    alloc: Global,
    player: SharedPlayer<MemoryShared>,
}

/// A file of a Maildir: its folder and its name, then its octets.
fn left_of(alloc: Global, word: &str) -> Result<FoundMail> {
    let (path, octets) = halves(word);
    let Some((folder, name)) = path.split_once('/') else {
        return Err(Trouble::Other);
    };
    Ok(FoundMail {
        is_new: folder == "new",
        name: String::from_str(alloc, name)?,
        content: Vec::from_slice(alloc, octets.as_bytes())?,
    })
}

/// The files of a Maildir that a line names.
fn all_left_of(alloc: Global, word: &str) -> Result<Vec<FoundMail>> {
    let mut left = Vec::new(alloc);
    for file in word.split(BETWEEN) {
        if !file.is_empty() {
            left.push(left_of(alloc, file)?)?;
        }
    }
    Ok(left)
}

impl MailPower {
    /// Flushes the file of a name.
    fn flush_file(&mut self, name: &str, answers: &mut Vec<u8>) -> Result<()> {
        let mut stems = Vec::new(self.alloc);
        stems.push(String::from_str(self.alloc, stem(name))?)?;
        let answer = self.player.calls.folders.flush_files(&stems, true)?;
        tell(answers, answer)
    }
}

impl<'l> Player<'l> for MailPower {
    fn call_line(&mut self, words: (&str, &str, &str), answers: &mut Vec<u8>) -> Result<()> {
        let (call, _, word) = words;
        match call {
            "left" => {
                let left = all_left_of(self.alloc, word)?;
                tell(answers, self.player.calls.folders.may_leave(&left))
            }
            "flush-file" => self.flush_file(word, answers),
            _ => self.player.call_line(words, answers),
        }
    }

    fn act_as_other(&mut self, word: &'l str) -> Result<()> {
        self.player.act_as_other(word)
    }
}

/// Makes the calls of a list in the file system in memory.
pub fn play_files(rt: &HostRuntime, folder: &str, list: &str, answers: &mut Vec<u8>) -> Result<()> {
    let calls = MemoryCalls::new(rt.alloc(), String::from_str(rt.alloc(), folder)?);
    let mut player = FilePower {
        player: player_on(rt.alloc(), calls),
    };
    play(rt, None, &mut player, list, answers)
}

/// Makes the calls of a list in the folders of a Maildir in memory, in which no reader moves a file.
pub fn play_mail(rt: &HostRuntime, list: &str, answers: &mut Vec<u8>) -> Result<()> {
    let alloc = rt.alloc();
    let folders = MemoryFolders::new(alloc, Vec::new(alloc));
    let mut player = MailPower {
        alloc,
        player: shared::player_on(alloc, MemoryShared::new(alloc, folders))?,
    };
    play(rt, None, &mut player, list, answers)
}
