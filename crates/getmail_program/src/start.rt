//! A run from its command line to its exit status.
ghost use Rattle.std.specs.{
  Prelude.{◌≡◌, ◌≤◌, ◌∷◌, ◌&&◌, ◌||◌, ℕ, List, [], Option, None, codes, false, map, not, option_map, true, IfErr},
  Prelude.{IfOk, IfSome},
  String.string_bytes,
};
ghost use Rattle.getmail_setup.specs.{Failures.status_of, Places.IsRcPath};
ghost use Rattle.system_calls.specs.declared.system.System.{System};
ghost use Rattle.getmail_program.specs.{
  Fetching.Runs,
  News.{IsSaid, name_or},
  Rehearsal.Rehearses,
  Starting.{LeadsTo, Starts, has_name_alone},
};
ghost use Rattle.clap.specs.Values.{kind_of};
ghost use Rattle.command_line.specs.Rules.{is_asked_text};

use crate::fetch::{Machine, is_unattended, run};
use crate::news::{RunSaid, tell_news};
use crate::news_file::{HostPast, NoPast};
use crate::rehearsal::rehearse_traced;
use crate::transcript::Transcript;
use clap::Error;
use fetch_rules::RcFault;
use file_reading::ReadFile;
use folder_store::{HostFile, HostFolder, HostMaildir};
use getmail_setup::{
    Errors, Failure, Journal, Kept, Link, Notes, Output, Reasons, Words, explain, fail, folder,
    home, rc_file, read_words, tell,
};
use mail_store::{FlatFile, MaildirDisk, MemoryFile, MemoryMaildir};
use pop3_wire::{StreamWire, Wire};
use std::alloc::{AllocError, Global};
use std::cell::Cell;
use std::env::{self, Env};
use std::fs::File;
use std::io::{ErrorKind, IsTerminal, Read, Stderr, Write};
use std::net::{Net, TcpStream};
use std::random::RandomSource;
use std::rt::{Clock, Files};
use system_calls::System;
use trace::TracedWire;

/// Where an unattended run says what it says: in a journal.
fn errors_kept<'a>(journal: &'a Journal, reasons: &'a Reasons) -> Errors<'a, Kept<'a>>
    ensures why { (result.says_why ≡ true) × (result.explains ≡ true) }
    ensures progress { result.shows_progress ≡ false }
    ensures none { result.err.refusal ≡ None }
{
    let err = Output::new(Kept(journal));
    let journal = Some(journal);
    Errors {
        err,
        shows_progress: false,
        says_why: true,
        explains: true,
        reasons,
        journal,
    }
}

/// What a run at a terminal or in a script says, and where: on standard error. Reasons are told at a
/// terminal, and where they are asked for.
fn errors_shown<'a>(
    words: &Words,
    err: Stderr,
    is_terminal: bool,
    is_shown: bool,
    reasons: &'a Reasons,
) -> Errors<'a, Stderr>
    ensures why { result.says_why ≡ (words.now.why || words.now.unattended || is_terminal) }
    ensures explains { result.explains ≡ (words.now.why || is_shown) }
    ensures progress { result.shows_progress ≡ (is_terminal && not words.now.trace) }
    ensures none { result.err.refusal ≡ None }
{
    Errors {
        err: Output::new(err),
        shows_progress: is_terminal && !words.trace,
        says_why: words.why || words.unattended || is_terminal,
        explains: words.why || is_shown,
        reasons,
        journal: None,
    }
}

/// The rc file's path, if it is known.
fn rc_path_of<R: Env + AllocGlobal>(rt: &R, words: &Words) -> Option<String>
    ensures { IfSome result (λ path. (home : Option (List ℕ)) × IsRcPath home words.now (string_bytes path)) }
{
    let alloc = rt.alloc();
    let home = home(rt).ok()?;
    let folder = folder(alloc, home.as_deref(), words.dir.as_deref()).ok()?;
    rc_file(
        alloc,
        home.as_deref(),
        folder.as_str(),
        words.rcfile.as_deref(),
    )
    .ok()
}

/// The name of a run's account or, if it isn't known, the rc file's path.
fn name_or(account: Vec<u8>, path: Option<String>) -> Vec<u8>
    ensures { result.items ≡ name_or account.items (option_map string_bytes path) }
{
    if !account.is_empty() {
        return account;
    }
    match path {
        Some(path) => path.into_bytes(),
        None => account,
    }
}

/// What a run said, by what its journal has; the path is the rc file's.
fn said_of(notes: Notes, path: Option<String>) -> RunSaid
    ensures { IsSaid notes (option_map string_bytes path) result }
{
    let Notes {
        account,
        parts,
        left_out,
        has_ended,
        has_met,
        lacks_memory,
        ..
    } = notes;
    RunSaid {
        account: name_or(account, path),
        parts,
        left: left_out,
        has_ended,
        has_met,
        lacks_memory,
    }
}

/// Runs with what is said kept in a journal, and tells of it what no earlier run told. Returns the exit status.
fn run_unattended<'a, R, O>(
    machine: &Machine<'a, R>,
    words: &Words,
    out: O,
    err: Stderr,
    reasons: &Reasons,
) -> u8
where
    R: Net<Stream = TcpStream> + Files<File = File> + Env + Clock,
    R: RandomSource + AllocGlobal + Clone + Drop,
    O: Write + Drop,
    ensures within { result ≤ 2 }
    ensures starts { (files : System R) × Starts (⟦<System<'a, R> as ReadFile>⟧.gave files)
        (⟦<System<'a, R> as ReadFile>⟧.refused files) (Runs ⟦<Link<'a> as Wire>⟧
        ⟦<HostMaildir<'a, R> as MaildirDisk>⟧ ⟦<HostFile<'a, HostFolder<'a, R>> as FlatFile>⟧) words.now result }
{
    let rt = machine.rt;
    let journal = Journal::new(rt.alloc());
    let errors = errors_kept(&journal, reasons);
    let has_refused = Cell::new(false);
    let status = run(machine, words, out, &has_refused, errors);
    let said = said_of(journal.take(), rc_path_of(rt, words));
    let mut output = Output::new(err);
    if has_refused.get() {
        tell_news(rt.alloc(), &NoPast { rt }, &said, &mut output);
        return status;
    }
    let past = HostPast::new(rt, machine.process, words);
    tell_news(rt.alloc(), &past, &said, &mut output);
    status
}

/// Rehearses a session, and returns the exit status. Opposite flags are told.
fn rehearse_told<I, O>(
    alloc: Global,
    words: &Words,
    streams: (I, O),
    trace: Option<Stderr>,
    errors: &mut Errors<'_, Stderr>,
) -> u8
where
    I: Read + Drop,
    O: Write + Drop,
    ensures within { result ≤ 2 }
    ensures rehearses { Rehearses ⟦<TracedWire<'static, StreamWire<I, Transcript<O>>, Stderr> as Wire>⟧
        ⟦<MemoryMaildir as MaildirDisk>⟧ ⟦<MemoryFile as FlatFile>⟧ words.now.flags result }
{
    let status = rehearse_traced(alloc, words.flags, streams, &mut errors.err.writer(), trace);
    if status == 2 {
        let failure = Failure::Rc(RcFault::Contradiction);
        return fail(alloc, failure, None, errors);
    }
    status
}

/// The words in place of those that can't be read: the program's name, and one that is no option.
fn unread_words(alloc: Global) -> Result<Vec<String>, AllocError>
    ensures { IfOk result (λ words. map string_bytes words.items
        ≡ codes "getmail" ∷ (239 ∷ 191 ∷ 189 ∷ []) ∷ []) }
{
    let mut words = Vec::new(alloc);
    words.push(String::from_str(alloc, "getmail")?)?;
    words.push(String::from_str(alloc, "\u{FFFD}")?)?;
    Ok(words)
}

/// The words of the command line, the program's name first. If they can't be read, for example because
/// one isn't UTF-8, a word that is no option takes their place, so that the usage is shown.
pub fn arguments<'a, R: Env + AllocGlobal>(rt: &R) -> Result<Vec<String>, Failure<'a>> {
    match env::args(rt) {
        Ok(words) => Ok(words.collect(rt.alloc())?),
        Err(error) => {
            if error.kind() == ErrorKind::OutOfMemory {
                return Err(Failure::NoMemory);
            }
            Ok(unread_words(rt.alloc())?)
        }
    }
}

/// What somebody is told who gave the name of an rc file without its flag.
const NAME_HINT: &[u8] = b"getmail: the flag -r names an rc file: getmail -r NAME\n";

/// Whether a command line has one word that is no option: it may be the name of an rc file.
fn has_name_alone(arguments: &Result<Vec<String>, Failure<'_>>) -> bool
    ensures { IfOk arguments.now (λ words. result ≡ has_name_alone (map string_bytes words.items)) }
{
    match arguments {
        Ok(words) => match words.as_slice() {
            [_, name] => !name.as_bytes().starts_with(b"-"),
            _ => false,
        },
        Err(_) => false,
    }
}

/// Shows why there are no words, and on a terminal that an rc file's name has a flag, if one may be meant. Returns the
/// exit status, as `explain` does.
fn explain_words<R: Print + Eprint + AllocGlobal>(
    rt: &R,
    error: &Error,
    has_name: bool,
    err: Stderr,
) -> u8
    ensures text { is_asked_text (kind_of error.now) ≡ true → result ≤ 1 }
    ensures other { is_asked_text (kind_of error.now) ≡ false → result ≡ 2 }
    ensures within { result ≤ 2 }
{
    let mut output = Output::new(err);
    let status = explain(rt, error, &mut output);
    if has_name && err.is_terminal() {
        output.put(NAME_HINT);
    }
    status
}

/// Does what a command line asks for, and returns the exit status. The streams are standard input and output; `err` is
/// standard error, to which a trace goes.
pub fn obey_command_line<'a, R, I, O>(
    machine: &Machine<'a, R>,
    arguments: Result<Vec<String>, Failure<'_>>,
    streams: (I, O),
    err: Stderr,
) -> u8
where
    R: Net<Stream = TcpStream> + Files<File = File> + Env + Clock,
    R: RandomSource + AllocGlobal + Print + Eprint + Clone + Drop,
    I: Read + Drop,
    O: Write + IsTerminal + Drop,
    ensures within { result ≤ 2 }
    ensures leads { IfOk arguments.entry (λ arguments.
        LeadsTo (Rehearses ⟦<TracedWire<'static, StreamWire<I, Transcript<O>>, Stderr> as Wire>⟧
        ⟦<MemoryMaildir as MaildirDisk>⟧ ⟦<MemoryFile as FlatFile>⟧)
        ⟦<System<'a, R> as ReadFile>⟧.gave ⟦<System<'a, R> as ReadFile>⟧.refused
        (Runs ⟦<Link<'a> as Wire>⟧ ⟦<HostMaildir<'a, R> as MaildirDisk>⟧
        ⟦<HostFile<'a, HostFolder<'a, R>> as FlatFile>⟧) (map string_bytes arguments.items) result) }
    ensures failed { IfErr arguments.entry (λ failure. result ≡ status_of failure) }
{
    let rt = machine.rt;
    let has_name = has_name_alone(&arguments);
    let words = match arguments {
        Ok(arguments) => read_words(rt.alloc(), &arguments),
        Err(failure) => return tell(rt.alloc(), failure, &mut Output::new(err)),
    };
    let words = match words {
        Ok(words) => words,
        Err(error) => return explain_words(rt, &error, has_name, err),
    };
    let is_terminal = err.is_terminal();
    let trace = if words.trace { Some(err) } else { None };
    let reasons = Reasons::new(rt.alloc(), trace);
    let mut errors = errors_shown(&words, err, is_terminal, streams.1.is_terminal(), &reasons);
    if words.rehearse {
        return rehearse_told(rt.alloc(), &words, streams, trace, &mut errors);
    }
    if is_unattended(&words) {
        return run_unattended(machine, &words, streams.1, err, &reasons);
    }
    run(machine, &words, streams.1, &Cell::new(false), errors)
}
