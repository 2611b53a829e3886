//! The rehearsal: a session with a recorded conversation as its server, and with a Maildir and a
//! record in memory.
ghost use Rattle.std.specs.{Prelude.{◌≡◌, ◌≤◌, ◌++◌, ℕ, List, IfOk, OnOk}, String.string_bytes};
ghost use Rattle.rc_file.specs.Settings.{IsValid, content_of};
ghost use Rattle.getmail_program.specs.Rehearsal.{HoldsOne, IsStoredLine, Rehearses, defaults, rehearsal_end};

use crate::ending::unwritten_line;
use crate::transcript::Transcript;
use fetch_rules::{Dest, Flags, RcFault, Settings, override_with};
use fetch_session::{Account, Outcome, Store, fault_number, session};
use getmail_setup::{OUT_OF_MEMORY, refusal_of};
use mail_store::{
    AccountId, FlatFile, Folder, MaildirDisk, MemoryFile, MemoryMaildir, account_id, uid_of,
};
use pop3_wire::{StreamWire, Wire};
use std::alloc::{AllocError, Global};
use std::hash::{BuildHasherDefault, FoldHasher};
use std::io;
use std::io::{Read, Write};
use trace::TracedWire;

const SERVER: &str = "rehearsal";

const PORT: u16 = 110;

const USER: &str = "u";

/// The settings of a rehearsal: all options at their defaults.
fn defaults(alloc: Global) -> Result<Settings, AllocError>
    ensures valid { IfOk result IsValid }
    ensures content { IfOk result (λ settings. content_of settings ≡ defaults) }
{
    Ok(Settings {
        server: String::from_str(alloc, SERVER)?,
        port: PORT,
        username: String::from_str(alloc, USER)?,
        password: String::from_str(alloc, "p")?,
        dest: Dest::Maildir(String::from_str(alloc, "rehearsal/")?),
        read_all: true,
        delete: false,
        delete_after: 0,
        max_size: 0,
        max_count: 0,
        verbose: 1,
    })
}

/// Appends the line of a stored file: its message's unique-id, and its length in bytes.
fn put_stored(
    alloc: Global,
    lines: &mut Vec<u8>,
    account: &AccountId,
    name: &str,
    length: usize,
) -> Result<(), AllocError>
    ensures { OnOk result ((line : List ℕ) × IsStoredLine account.now name.now length line
        × (lines.new.items ≡ lines.old.items ++ line)) }
{
    if let Some(uid) = uid_of(alloc, account, name)? {
        lines.extend_from_slice(b"stored ")?;
        lines.extend_from_slice(uid.as_slice())?;
        lines.extend_from_slice(format!(in alloc; " {length}\n")?.as_bytes())?;
    }
    Ok(())
}

/// The last line: `ended`, or `cut` with the fault's number.
fn outcome_line(alloc: Global, outcome: &Outcome) -> Result<String, AllocError>
    ensures { IfOk result (λ line. string_bytes line ≡ rehearsal_end outcome.now) }
{
    match fault_number(outcome) {
        0 => String::from_str(alloc, "ended\n"),
        number => format!(in alloc; "cut {number}\n"),
    }
}

/// The lines of the stored files, in order of delivery, and the last line.
fn lines_on(
    alloc: Global,
    maildir: &MemoryMaildir,
    outcome: &Outcome,
) -> Result<Vec<u8>, AllocError> {
    let account = account_id(SERVER, PORT, USER);
    let mut lines = Vec::new(alloc);
    for (name, text) in maildir.files(Folder::New) {
        put_stored(alloc, &mut lines, &account, name.as_str(), text.len())?;
    }
    lines.extend_from_slice(outcome_line(alloc, outcome)?.as_bytes())?;
    Ok(lines)
}

/// Writes these lines: all, or none if memory runs out.
fn write_outcome<W: Write>(
    alloc: Global,
    output: &mut W,
    maildir: &MemoryMaildir,
    outcome: &Outcome,
) -> io::Result<()> {
    let lines = lines_on(alloc, maildir, outcome)?;
    output.write_all(&lines)?;
    output.flush()
}

/// Runs a session with these settings in memory. Returns how it came out, the store and the output.
fn run_in_memory<R: Read + Drop, W: Write + Drop, T: Write + Drop>(
    alloc: Global,
    settings: Settings,
    streams: (R, W),
    trace: Option<T>,
) -> (Outcome, Store<MemoryMaildir, MemoryFile>, W)
    requires { IsValid settings }
    ensures { HoldsOne ⟦<TracedWire<'static, StreamWire<R, Transcript<W>>, T> as Wire>⟧
        ⟦<MemoryMaildir as MaildirDisk>⟧ ⟦<MemoryFile as FlatFile>⟧ settings result.0 }
{
    let (input, output) = streams;
    let store = Store::Maildir(MemoryMaildir::new(alloc));
    let mut account = Account::new(
        alloc,
        settings,
        store,
        MemoryFile::missing(alloc),
        BuildHasherDefault::<FoldHasher>::new(),
    );
    let wire = StreamWire::new(input, Transcript::new(output));
    let mut wire = TracedWire::new(alloc, wire, trace, None, None);
    let report = session(&mut account, &mut wire, 0);
    let (_input, transcript) = wire.into_inner().into_parts();
    let (_settings, store, _record) = account.into_parts();
    (report.outcome, store, transcript.into_inner())
}

/// Writes the last lines, or why they can't be written, and returns the exit status.
fn tell_end<W: Write, E: Write>(
    alloc: Global,
    output: &mut W,
    maildir: &MemoryMaildir,
    outcome: &Outcome,
    err: &mut E,
) -> u8
    ensures within { result ≤ 1 }
    ensures ended { result ≡ 0 → outcome.now ≡ Outcome.Ended }
{
    if let Err(error) = write_outcome(alloc, output, maildir, outcome) {
        let line = unwritten_line(&Outcome::Ended, Some(refusal_of(&error)));
        let _ = err.write_all(line.as_bytes());
        return 1;
    }
    match outcome {
        Outcome::Ended => 0,
        Outcome::Cut(_) => 1,
    }
}

/// Runs a session with these settings, and returns the exit status.
fn rehearse_with<R: Read + Drop, W: Write + Drop, E: Write, T: Write + Drop>(
    alloc: Global,
    settings: Settings,
    streams: (R, W),
    err: &mut E,
    trace: Option<T>,
) -> u8
    requires { IsValid settings }
    ensures within { result ≤ 1 }
    ensures ended { result ≡ 0 → HoldsOne ⟦<TracedWire<'static, StreamWire<R, Transcript<W>>, T> as Wire>⟧
        ⟦<MemoryMaildir as MaildirDisk>⟧ ⟦<MemoryFile as FlatFile>⟧ settings Outcome.Ended }
{
    let (outcome, store, mut output) = run_in_memory(alloc, settings, streams, trace);
    match &store {
        Store::Maildir(maildir) => tell_end(alloc, &mut output, maildir, &outcome, err),
        Store::Mboxrd(_) => 1,
    }
}

/// Rehearses a session of user `u` with password `p`: the input is the server. The output gets each command
/// as it is sent, then a line for each stored message and one for how the session ended. If there is
/// a writer for a trace, it gets the conversation. The exit status is 0 if the session came to its end;
/// 1 if it was cut, or if the output failed or memory ran out, in which case none of the last lines are
/// written and `err` gets the reason; 2 for opposite flags, with nothing written.
pub fn rehearse_traced<R: Read + Drop, W: Write + Drop, E: Write, T: Write + Drop>(
    alloc: Global,
    flags: Flags,
    streams: (R, W),
    err: &mut E,
    trace: Option<T>,
) -> u8
    ensures within { result ≤ 2 }
    ensures rehearses { Rehearses ⟦<TracedWire<'static, StreamWire<R, Transcript<W>>, T> as Wire>⟧
        ⟦<MemoryMaildir as MaildirDisk>⟧ ⟦<MemoryFile as FlatFile>⟧ flags result }
{
    let Ok(settings) = defaults(alloc) else {
        let _ = err.write_all(OUT_OF_MEMORY.as_bytes());
        return 1;
    };
    match override_with(settings, flags) {
        Ok(settings) => rehearse_with(alloc, settings, streams, err, trace),
        Err(_) => 2,
    }
}
