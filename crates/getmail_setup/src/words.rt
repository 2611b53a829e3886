//! The command line, read with clap.
ghost use Rattle.std.specs.{Prelude.{◌≡◌, IfOk, map}, String.string_bytes};
ghost use Rattle.clap.specs.{
  Values.kind_of,
  Words.{FailsBy, app_of, fault_of, found_of, matches_of, rows_of},
};
ghost use Rattle.getmail_setup.specs.CommandLine.{AsksFor, flags_in, getmail, is_unattended, words_fault};

use clap::error::ErrorKind;
use clap::{ArgMatches, Command, Error};
use command_line::{add, flag, is_given, long_flag, program, text, value_option};
use rc_file::Flags;
use std::alloc::{AllocError, Global};

/// What the command line asks for.
#[derive(Drop)]
pub struct Words {
    /// The rc file, as written; none for the default.
    pub rcfile: Option<String>,
    /// The folder of the rc file and the record, as written; none for the default.
    pub dir: Option<String>,
    /// The flags that override the rc file.
    pub flags: Flags,
    /// Whether standard input is the server.
    pub rehearse: bool,
    /// Whether only to show what would be done.
    pub pretend: bool,
    /// Whether reasons are written, also if standard error is no terminal.
    pub why: bool,
    /// Whether nobody waits for what is written: what was told in an earlier run is left out.
    pub unattended: bool,
    /// Whether the conversation and refused calls of the system are traced.
    pub trace: bool,
}

/// Why the words of a command line ask for nothing.
#[derive(Clone, Copy, Debug, PartialEq, Eq)]
pub enum WordsFault {
    /// They ask for the text of help or of the version.
    Help,
    /// They are a mistake.
    Usage,
    NoMemory,
}

/// Why words ask for nothing, by clap's error.
pub fn words_fault(error: &Error) -> WordsFault
    ensures { result ≡ words_fault (kind_of error.now) }
{
    match error.kind() {
        ErrorKind::OutOfMemory => WordsFault::NoMemory,
        ErrorKind::DisplayHelp | ErrorKind::DisplayVersion => WordsFault::Help,
        _ => WordsFault::Usage,
    }
}

// The lines of help.
const ABOUT: &str =
    "Fetches mail from a POP3 server into a Maildir or an mboxrd file; getmail(1) and getmailrc(5) say more";

const RCFILE: &str =
    "Read the settings from FILE, in DIR unless it begins with / or ~/ [getmailrc]";

const GETMAILDIR: &str = "Keep the rc file and the record in DIR [~/.getmail]";

const VERBOSE: &str = "Report more, each time by one, up to 2";

const QUIET: &str = "Write no report";

const WHY: &str = "Say why a run failed, also if standard error is no terminal";

const UNATTENDED: &str =
    "For cron and timers: write no report; say why a run failed, but nothing twice";

const TRACE: &str = "Show the conversation and refused calls of the system on standard error";

const ALL: &str = "Fetch all messages, also those that were delivered before";

const NEW: &str = "Fetch only messages that were not delivered before";

const DELETE: &str = "Delete from the server what was delivered, held or not";

const DONT_DELETE: &str = "Take delete as false; delete_after still deletes";

const PRETEND: &str = "Say what would be fetched and deleted, and do nothing";

const REHEARSE: &str = "Hold a session with standard input as the server, and store nothing";

/// The options and flags of the program.
fn command<'a>(alloc: Global) -> Result<Command<'a>, AllocError>
    ensures { IfOk result (λ command. app_of command ≡ getmail) }
{
    let command = program(alloc, "getmail", ABOUT);
    let command = add(command, value_option(alloc, "rcfile", 'r', "FILE", RCFILE))?;
    let dir = value_option(alloc, "getmaildir", 'g', "DIR", GETMAILDIR);
    let command = add(command, dir)?;
    let command = add(command, flag(alloc, "verbose", 'v', VERBOSE))?;
    let command = add(command, flag(alloc, "quiet", 'q', QUIET))?;
    let command = add(command, long_flag(alloc, "why", WHY))?;
    let command = add(command, long_flag(alloc, "trace", TRACE))?;
    let command = add(command, long_flag(alloc, "unattended", UNATTENDED))?;
    let command = add(command, flag(alloc, "all", 'a', ALL))?;
    let command = add(command, flag(alloc, "new", 'n', NEW))?;
    let command = add(command, flag(alloc, "delete", 'd', DELETE))?;
    let command = add(command, flag(alloc, "dont-delete", 'l', DONT_DELETE))?;
    let command = add(command, long_flag(alloc, "pretend", PRETEND))?;
    // For developers: getmail(1) explains it.
    add(command, long_flag(alloc, "rehearse", REHEARSE).hide(true))
}

/// Whether nobody waits for what is written. A rehearsal is held by somebody.
fn is_unattended(matches: &ArgMatches<'_>) -> bool
    ensures { result ≡ is_unattended (rows_of (found_of matches.now)) }
{
    is_given(matches, "unattended") && !is_given(matches, "rehearse")
}

/// The flags in clap's matches.
fn flags_of(matches: &ArgMatches<'_>) -> Flags
    ensures { result ≡ flags_in (rows_of (found_of matches.now)) }
{
    Flags {
        all: is_given(matches, "all"),
        new_only: is_given(matches, "new"),
        delete: is_given(matches, "delete"),
        dont_delete: is_given(matches, "dont-delete"),
        quiet: is_given(matches, "quiet") || is_unattended(matches),
        verbose: matches.get_count("verbose"),
    }
}

/// What clap's matches ask for.
fn words_of(alloc: Global, matches: &ArgMatches<'_>) -> Result<Words, AllocError>
    ensures { IfOk result (AsksFor (rows_of (found_of matches.now))) }
{
    Ok(Words {
        rcfile: text(alloc, matches, "rcfile")?,
        dir: text(alloc, matches, "getmaildir")?,
        flags: flags_of(matches),
        rehearse: is_given(matches, "rehearse"),
        pretend: is_given(matches, "pretend"),
        why: is_given(matches, "why"),
        unattended: is_unattended(matches),
        trace: is_given(matches, "trace"),
    })
}

/// What these words ask for, the program's name first. Clap's error has the text of help, of the version
/// or of the mistake, or its kind is OutOfMemory; `words_fault` tells which.
pub fn read_words(alloc: Global, words: &[String]) -> Result<Words, Error>
    ensures faults { FailsBy (fault_of getmail (map string_bytes words.now)) result }
    ensures asks { IfOk result (AsksFor (matches_of getmail (map string_bytes words.now))) }
{
    match command(alloc)?.try_get_matches_from(words) {
        Ok(matches) => Ok(words_of(alloc, &matches)?),
        Err(error) => Err(error),
    }
}
