//! A run: its setup, the lock, the connection, and one session.
ghost use Rattle.std.specs.Prelude.{◌≡◌, ◌≤◌, ◌&&◌, ℕ, List, Option, IfErr, IfOk, IfSome, not, true};
ghost use Rattle.rc_file.specs.Settings.{IsValid};
ghost use Rattle.getmail_setup.specs.{Failures.status_of, Lock.goes_on, Places.IsSetUp};
ghost use Rattle.system_calls.specs.declared.system.System.{System};
ghost use Rattle.getmail_program.specs.{
  Fetching.{EndsBefore, HoldsSetup, Runs, StopsBy, StopsInPlace},
  News.LeavesToOther,
  Starting.Starts,
};

use crate::devices::HostDevices;
use crate::errand::{Connected, Errand, fetch_at};
use crate::news_file::{HostPast, Past, Waiting, patience};
use crate::own_paths::{Guard, warn_of_open};
use fetch_rules::Settings;
use file_reading::ReadFile;
use folder_store::{HostFile, HostFolder, HostMaildir, ProcessMark};
use getmail_setup::{
    Connection, Errors, Failure, Journal, Link, Lock, LookAt, OnMachine, Output, Peer, Reasons,
    Setup, SystemLocks, Words, connect, fail, failure_of, home, link_over, other_list, peer_of,
    set_up, take_lock, warn_of_network,
};
use mail_store::{FlatFile, MaildirDisk};
use pop3_wire::Wire;
use std::alloc::{AllocError, Global};
use std::cell::Cell;
use std::env::Env;
use std::fs::File;
use std::hash::{BuildHasher, RandomState};
use std::io::{self, Write};
use std::net::{Net, TcpStream};
use std::process::Process;
use std::random::RandomSource;
use std::rt::{Clock, Files};
use system_calls::{Refusals, System};

/// A machine, and the process that runs there.
#[derive(Drop)]
pub struct Machine<'a, R> {
    pub rt: &'a R,
    pub process: Process,
}

/// The random values of a run: keys for hashing, since a server chooses the unique-ids and mustn't be
/// able to choose ids that collide, and the mark of the files that the run writes.
fn draw(random: &impl RandomSource, process: Process) -> io::Result<(RandomState, ProcessMark)> {
    let hasher = RandomState::new(random)?;
    let mark = ProcessMark::new(process, random)?;
    Ok((hasher, mark))
}

/// The random values of a run, and what its link needs.
type Prepared = ((RandomState, ProcessMark), Peer);

/// What a run needs before it connects.
#[derive(Drop)]
struct Ready {
    setup: Setup,
    prepared: Prepared,
    lock: Lock,
}

/// Prepares a run, so that memory doesn't run out between the connection and the session.
fn prepare<'a, R: RandomSource + AllocGlobal>(
    rt: &R,
    process: Process,
    settings: &Settings,
) -> Result<Prepared, Failure<'a>> {
    match draw(rt, process) {
        Ok(drawn) => Ok((drawn, peer_of(rt.alloc(), settings)?)),
        Err(error) => Err(failure_of(error, Failure::CannotRead)),
    }
}

/// Runs one session over the machine's files, or only previews it, and returns the exit status. It takes the lock: by
/// its requirement no session is held while another run has it.
fn fetch_setup<'a, R, E, W, H, O>(
    devices: &HostDevices<'a, R>,
    _lock: &Lock,
    errand: Errand<'a>,
    link: Connected<W, H>,
    out: O,
    errors: Errors<'_, E>,
) -> u8
where
    R: Files + Clock + AllocGlobal + Clone + Drop,
    E: Write + Copy + Drop,
    W: Wire + Drop,
    H: BuildHasher + Drop,
    O: Write + Drop,
    requires valid { IsValid errand.settings }
    requires turn { goes_on _lock.now ≡ true }
    ensures within { result ≤ 1 }
    ensures holds { HoldsSetup W.Wire ⟦<HostMaildir<'a, R> as MaildirDisk>⟧
        ⟦<HostFile<'a, HostFolder<'a, R>> as FlatFile>⟧ (record {
          settings = errand.entry.settings;
          paths = errand.entry.paths.now;
          pretends = errand.entry.pretends;
        }) result }
{
    let mut out = Output::new(out);
    fetch_at(devices, errand, link, devices.time(), &mut out, errors)
}

/// Whether a run leaves the account to another one that has the lock since this second, or 0 if it isn't known, and
/// says nothing of it. Only an unattended one does.
fn leaves_to_other<P: Past>(past: &P, words: &Words, held: u64, journal: Option<&Journal>) -> bool
    ensures asked { result ≡ true → (words.now.unattended && not words.now.pretend) ≡ true }
    ensures leaves { LeavesToOther (P.gave past.now) (P.showed past.now) held
        (words.now.unattended && not words.now.pretend) result }
{
    if !is_unattended(words) {
        return false;
    }
    let Waiting {
        is_patient,
        has_met,
    } = patience(past, held);
    if let (true, Some(journal)) = (has_met, journal) {
        journal.note_met();
    }
    is_patient
}

/// Has an unattended run know its account, and the mark of the files that it makes.
fn note_names<E>(alloc: Global, setup: &Setup, prepared: &Prepared, errors: &Errors<'_, E>) {
    if let Some(journal) = errors.journal {
        journal.note_account(&setup.settings);
        if let Ok(mark) = prepared.0.1.marked(alloc, "") {
            journal.note_mark(mark.as_str());
        }
    }
}

/// Whether nobody waits for what is said. A preview is for somebody.
pub fn is_unattended(words: &Words) -> bool
    ensures { result ≡ (words.now.unattended && not words.now.pretend) }
{
    words.unattended && !words.pretend
}

/// Stops a run by what was found of getmail6's lists: says so, and returns the exit status.
fn stop_by<E: Write>(
    alloc: Global,
    found: Result<Option<String>, AllocError>,
    setup: &Setup,
    errors: &mut Errors<'_, E>,
) -> Option<u8>
    ensures status { IfSome result (λ status. status ≡ 2) }
    ensures stops { StopsBy E.contents setup.now found errors.old errors.new result }
{
    let list = match found {
        Ok(Some(list)) => list,
        Ok(None) => return None,
        Err(_) => return Some(fail(alloc, Failure::NoMemory, None, errors)),
    };
    let failure = Failure::OtherList(list.as_str(), setup.paths.record.as_str());
    Some(fail(alloc, failure, Some(&setup.settings), errors))
}

/// Stops a first run in getmail6's place, which would fetch all mail again.
fn stop_in_place<F: LookAt, E: Write>(
    alloc: Global,
    files: &F,
    setup: &Setup,
    errors: &mut Errors<'_, E>,
) -> Option<u8>
    ensures status { IfSome result (λ status. status ≡ 2) }
    ensures stops { StopsInPlace E.contents (F.said files.now) (F.said_free files.now) (F.gave files.now) setup.now
        errors.old errors.new result }
{
    let found = other_list(alloc, files, setup);
    stop_by(alloc, found, setup, errors)
}

/// Sets a run up from the rc file that the words name, if it isn't one of the superuser's that goes by paths of others,
/// nor one in getmail6's place. Else it says why, and returns the exit status.
fn set_up_safely<'a, R, E>(
    rt: &'a R,
    files: &System<'a, R>,
    words: &Words,
    has_refused: &Cell<bool>,
    errors: &mut Errors<'_, E>,
) -> Result<Setup, u8>
where
    R: Files<File = File> + Env + Clock + RandomSource + AllocGlobal + Clone,
    E: Write,
    ensures ok { IfOk result (λ setup. (home : Option (List ℕ))
        × IsSetUp (⟦<System<'a, R> as ReadFile>⟧.gave files.now) home words.now setup) }
    ensures within { IfErr result (λ status. status ≤ 2) }
    ensures err { IfErr result (Starts (⟦<System<'a, R> as ReadFile>⟧.gave files.now)
        (⟦<System<'a, R> as ReadFile>⟧.refused files.now) EndsBefore words.now) }
{
    let alloc = rt.alloc();
    let Ok(home) = home(rt) else {
        return Err(fail(alloc, Failure::NoMemory, None, errors));
    };
    let home = home.as_deref();
    let refusals = Refusals::new(alloc, errors.reasons.before.trace());
    let guard = Guard {
        alloc,
        looks: &System::new(rt, &refusals),
        is_unattended: is_unattended(words),
        has_refused,
    };
    if let Some(status) = guard.stop_at_front(home, words, errors) {
        return Err(status);
    }
    let setup = match set_up(rt, files, home, words, errors) {
        Ok(setup) => setup,
        Err(failure) => return Err(fail(alloc, failure, None, errors)),
    };
    if let Some(status) = guard.stop_at_places(&setup, errors) {
        return Err(status);
    }
    warn_of_open(rt, &setup, errors);
    if let Some(status) = stop_in_place(alloc, &OnMachine { rt }, &setup, errors) {
        return Err(status);
    }
    Ok(setup)
}

/// Sets a run up from the rc file that the words name, and takes its lock. If it isn't to go on, says why, and returns
/// the exit status.
fn get_ready<'a, R, E>(
    machine: &Machine<'a, R>,
    words: &Words,
    has_refused: &Cell<bool>,
    errors: &mut Errors<'_, E>,
) -> Result<Ready, u8>
where
    R: Files<File = File> + Env + Clock + RandomSource + AllocGlobal + Clone,
    E: Write,
    ensures turn { IfOk result (λ ready. goes_on ready.lock ≡ true) }
    ensures ok { IfOk result (λ ready. (files : System R) × (home : Option (List ℕ))
        × IsSetUp (⟦<System<'a, R> as ReadFile>⟧.gave files) home words.now ready.setup) }
    ensures within { IfErr result (λ status. status ≤ 2) }
    ensures err { IfErr result (λ status. (files : System R) × Starts (⟦<System<'a, R> as ReadFile>⟧.gave files)
        (⟦<System<'a, R> as ReadFile>⟧.refused files) EndsBefore words.now status) }
{
    let rt = machine.rt;
    let alloc = rt.alloc();
    let files = System::new(rt, &errors.reasons.before);
    let setup = set_up_safely(rt, &files, words, has_refused, errors)?;
    let prepared = match prepare(rt, machine.process, &setup.settings) {
        Ok(prepared) => prepared,
        Err(failure) => return Err(fail(alloc, failure, None, errors)),
    };
    note_names(alloc, &setup, &prepared, errors);
    let lock = take_lock(alloc, &SystemLocks { system: &files }, &setup, errors);
    if let Lock::Elsewhere(since) = &lock {
        let past = HostPast::new(rt, machine.process, words);
        if leaves_to_other(&past, words, *since, errors.journal) {
            return Err(0);
        }
        return Err(fail(alloc, Failure::AtWork, Some(&setup.settings), errors));
    }
    Ok(Ready {
        setup,
        prepared,
        lock,
    })
}

/// Makes a run ready, connects, and runs one session or only shows what it would do, with the lock held to the end.
/// Returns the exit status.
pub fn run<'a, R, O, E>(
    machine: &Machine<'a, R>,
    words: &Words,
    out: O,
    has_refused: &Cell<bool>,
    mut errors: Errors<'_, E>,
) -> u8
where
    R: Net<Stream = TcpStream> + Files<File = File> + Env + Clock + RandomSource + AllocGlobal,
    R: Clone + Drop,
    O: Write + Drop,
    E: Write + Copy + Drop,
    ensures within { result ≤ 2 }
    ensures starts { (files : System R) × Starts (⟦<System<'a, R> as ReadFile>⟧.gave files)
        (⟦<System<'a, R> as ReadFile>⟧.refused files) (Runs ⟦<Link<'a> as Wire>⟧
        ⟦<HostMaildir<'a, R> as MaildirDisk>⟧ ⟦<HostFile<'a, HostFolder<'a, R>> as FlatFile>⟧) words.now result }
{
    let Ready {
        setup: Setup {
            settings,
            paths,
            pretends,
        },
        prepared: ((hasher, mark), peer),
        lock,
    } = match get_ready(machine, words, has_refused, &mut errors) {
        Ok(ready) => ready,
        Err(status) => return status,
    };
    let rt = machine.rt;
    let reasons = errors.reasons;
    let server = settings.server.as_str();
    let Connection { stream, leaves } = match connect(rt, &reasons.before, server, settings.port) {
        Ok(connection) => connection,
        Err(failure) => return fail(rt.alloc(), failure, Some(&settings), &mut errors),
    };
    if leaves {
        warn_of_network(&settings, &mut errors);
    }
    let wire = link_over(rt.alloc(), &stream, peer, &errors);
    let devices = HostDevices {
        for_store: &System::new(rt, &reasons.store),
        for_record: &System::new(rt, &reasons.record),
        mark,
    };
    let errand = Errand {
        settings,
        paths: &paths,
        pretends,
    };
    let link = Connected { wire, hasher };
    fetch_setup(&devices, &lock, errand, link, out, errors)
}
