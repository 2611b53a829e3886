//! A run over devices that are made for it.
ghost use Rattle.std.specs.{
  Option.option_copied,
  Prelude.{◌≡◌, ◌≤◌, ◌==◌, ◌&&◌, ℕ, List, None, Some, false, is_some, not, option_map, true},
};
ghost use Rattle.rc_file.specs.Settings.{IsValid};
ghost use Rattle.session_parts.specs.{Account.IsSameAccount, Hearing.IsPlanOf, Target.NoneBegun};
ghost use Rattle.getmail_setup.specs.{
  Clock.second_of,
  Failures.cause_line,
  Listed.KeepsLarge,
  Output.Puts,
  Progress.{IsShownOn, screen_for},
  declared.journal.Subject.Subject,
};
ghost use Rattle.getmail_program.specs.{
  Devices.{IsAt, IsNoticed, StoreFor, is_name_taken},
  Fetching.{FetchesAt, FetchesInto, TellsOf},
  Holding.{HoldsSession, holding_of},
  NewIds.SaysNewIds,
  Noticing.{TakesEach, new_ids_lines, noticed_lines, obstruction_lines, refusal_lines, rests_lines, unflushed_lines},
  Telling.{TellsAll, counts_of},
  declared.{errand.Noticed.Noticed, told.Told.Told},
};

use crate::devices::{HostDevices, MachineFile, MachineStore};
use crate::ending::{Fetched, tell_all};
use crate::new_ids::has_new_ids;
use crate::told::{RunTerms, Told, hold};
use fetch_rules::Settings;
use fetch_session::{Account, Report, Store};
use file_reading::ReadFile;
use folder_store::HostMaildir;
use getmail_setup::{Errors, Output, Paths, Reasons, ShownWire, Subject, second_of, tell_reason};
use mail_store::{FlatFile, MaildirDisk};
use pop3_wire::Wire;
use run_memory::Counts;
use std::alloc::Global;
use std::hash::BuildHasher;
use std::io::Write;
use std::rt::{Clock, Files};
use std::time::SystemTime;
use system_calls::System;

/// What a run is to do: with these settings, at these paths.
pub struct Errand<'a> {
    pub settings: Settings,
    pub paths: &'a Paths,
    /// Whether it only shows what it would do.
    pub pretends: bool,
}

/// What a run has once it is connected: the link, and a hasher with keys of its own for the ids of the record.
pub struct Connected<W, H> {
    pub wire: W,
    pub hasher: H,
}

/// What a run leaves, and how it came out.
#[derive(Drop)]
struct RunEnd<D, F> {
    settings: Settings,
    store: Store<D, F>,
    seen_file: F,
    fetched: Fetched,
}

impl<D: Drop, F: Drop> RunEnd<D, F> {
    /// The exit status. The devices are dropped here, where nothing is known of their types: that is proved at once.
    fn into_status(self) -> u8
        ensures { result ≡ self.fetched.status }
    {
        self.fetched.status
    }
}

/// What takes the lines that a run tells beside its fault.
trait Notices {
    // It took a line as a part of its own, which is about this.
    ghost took: { Self → Subject → List ℕ → Self → Type 0 };

    /// Takes a line on an account, with these words and a reason.
    fn take_line(&mut self, settings: &Settings, subject: Subject, words: &str, reason: &[u8])
        ensures { took self.old subject (cause_line (Some settings.now) words.now reason.now) self.new };
}

impl<'a, E: Write> Notices for Errors<'a, E> {
    ghost took = { λ old subject line new. Puts E.contents old.err line new.err };

    /// An unattended run tells each by itself, whatever else it tells: once or, of what lasts, again each week.
    fn take_line(&mut self, settings: &Settings, subject: Subject, words: &str, reason: &[u8]) {
        tell_reason(Some(settings), words, reason, &mut self.err);
        self.close(subject);
    }
}

/// Before the path of the file in which is kept what was cut off from an mboxrd file.
const KEPT: &str = "what was cut off from the mbox file is kept in ";

/// Tells where is kept what was cut off from an mboxrd file, if something is.
fn tell_rests<N: Notices>(settings: &Settings, is_kept: bool, rests: &str, notices: &mut N)
    ensures { TakesEach N.took (rests_lines settings.now is_kept rests.now) notices.old notices.new }
{
    if is_kept {
        notices.take_line(settings, Subject::Notice, KEPT, rests.as_bytes());
    }
}

/// Tells what bears the name of a message in a Maildir and can't be opened: else nobody learns why that message isn't
/// fetched.
fn tell_obstructions<N: Notices>(settings: &Settings, obstructions: &[Vec<u8>], notices: &mut N)
    ensures { TakesEach N.took (obstruction_lines settings.now obstructions.now) notices.old notices.new }
{
    let mut rest = obstructions;
    while let [obstruction, behind @ ..] = rest {
        notices.take_line(settings, Subject::Lasting, "", obstruction);
        rest = behind;
    }
}

/// Tells why the store refused the run, if that is known: else nobody learns why all later runs are refused too.
fn tell_store_refusal<N: Notices>(settings: &Settings, reason: Option<Vec<u8>>, notices: &mut N)
    ensures { TakesEach N.took (refusal_lines settings.now (option_map (λ reason. reason.items) reason))
        notices.old notices.new }
{
    if let Some(reason) = reason {
        notices.take_line(settings, Subject::Notice, "", &reason);
    }
}

/// Tells of a folder whose names weren't flushed because the system flushes no folders, if there is one: a loss of
/// power may take back what was put there.
fn tell_unflushed<N: Notices>(settings: &Settings, path: Option<&str>, notices: &mut N)
    ensures { TakesEach N.took (unflushed_lines settings.now (option_copied path.entry)) notices.old notices.new }
{
    if let Some(path) = path {
        let reason = b": its file system flushes no folders";
        notices.take_line(settings, Subject::Notice, path, reason);
    }
}

/// Why a delivery into a Maildir was refused because something that is no file has its name, unless that was told as
/// the fault's reason.
fn name_refusal<'a, R: Files + Clock + AllocGlobal + Clone + Drop>(
    alloc: Global,
    devices: &HostDevices<'a, R>,
    store: &MachineStore<'a, R>,
    reasons: &Reasons,
) -> Option<Vec<u8>>
    ensures { is_name_taken store.now ≡ false → result ≡ None }
{
    if !devices.is_name_taken(store) {
        return None;
    }
    reasons.store.take()?.text(alloc).ok()
}

/// What was noticed of a run's devices that somebody should look at.
#[derive(Drop)]
struct Noticed<'b> {
    /// Whether something is kept of what was cut off from an mboxrd file.
    keeps_rests: bool,
    /// What bears the name of a message in a Maildir and can't be opened: the path of each, and why.
    obstructions: &'b [Vec<u8>],
    /// Why the store refused the run, if that is known and wasn't told.
    refusal: Option<Vec<u8>>,
    /// The path of a folder whose names weren't flushed because the system flushes no folders, if there is one.
    unflushed: Option<&'b str>,
    /// Whether the server may have given new ids to all that it listed.
    has_new_ids: bool,
}

/// What is told of a server that may have given new ids.
const NEW_IDS: &[u8] =
    b"none of the listed messages was in the record, others were: if their ids are new, all mail comes again";

/// Tells that a server may have given new ids, if so: that lasts, if it does so for each session.
fn tell_new_ids<N: Notices>(settings: &Settings, has_new_ids: bool, notices: &mut N)
    ensures { TakesEach N.took (new_ids_lines settings.now has_new_ids) notices.old notices.new }
{
    if has_new_ids {
        notices.take_line(settings, Subject::Lasting, "warning: ", NEW_IDS);
    }
}

/// Tells what was noticed of a run's devices, line by line.
fn tell_noticed<N: Notices>(settings: &Settings, rests: &str, noticed: Noticed<'_>, notices: &mut N)
    ensures { TakesEach N.took (noticed_lines settings.now rests.now noticed.entry) notices.old notices.new }
{
    let Noticed {
        keeps_rests,
        obstructions,
        refusal,
        unflushed,
        has_new_ids,
    } = noticed;
    tell_rests(settings, keeps_rests, rests, notices);
    tell_obstructions(settings, obstructions, notices);
    tell_store_refusal(settings, refusal, notices);
    tell_unflushed(settings, unflushed, notices);
    tell_new_ids(settings, has_new_ids, notices);
}

/// Whether a server may have given new ids, which is looked for only if reasons are asked for.
fn may_have_new_ids<'a, R: Files + Clock + AllocGlobal + Clone + Drop>(
    says_why: bool,
    system: &System<'a, R>,
    left: &RunEnd<HostMaildir<'a, R>, MachineFile<'a, R>>,
    terms: &RunTerms<'_>,
) -> bool
    ensures { result ≡ true → (says_why ≡ true) × SaysNewIds (⟦<System<'a, R> as ReadFile>⟧.gave system.now)
        left.now.settings terms.entry.now.now terms.entry.now.record.now left.now.fetched.unknown }
{
    says_why && has_new_ids(system.alloc(), system, &left.settings, terms, &left.fetched)
}

/// Looks at a run's devices after it. A folder whose names weren't flushed and new ids are looked for only if reasons
/// are asked for.
fn look_at<'a, 'b, R: Files + Clock + AllocGlobal + Clone + Drop>(
    devices: &HostDevices<'a, R>,
    left: &'b RunEnd<HostMaildir<'a, R>, MachineFile<'a, R>>,
    terms: &RunTerms<'_>,
    says_why: bool,
    reasons: &Reasons,
) -> Noticed<'b>
    ensures { IsNoticed says_why (SaysNewIds (⟦<System<'a, R> as ReadFile>⟧.gave devices.now.for_record.now)
        left.entry.now.settings terms.entry.now.now terms.entry.now.record.now left.entry.now.fetched.unknown)
        left.entry.now.fetched.is_idle left.entry.now.store left.entry.now.seen_file result }
{
    let store = &left.store;
    let system = devices.for_record;
    let alloc = system.alloc();
    Noticed {
        keeps_rests: devices.keeps_rests(store, left.fetched.is_idle),
        obstructions: devices.obstructions(store),
        refusal: name_refusal(alloc, devices, store, reasons),
        unflushed: if says_why {
            devices.unflushed(store, &left.seen_file)
        } else {
            None
        },
        has_new_ids: may_have_new_ids(says_why, system, left, terms),
    }
}

/// Tells what a run left that somebody should look at, and removes what killed runs left, unless the run had nothing to
/// fetch.
fn finish<'a, R: Files + Clock + AllocGlobal + Clone + Drop, E: Write>(
    devices: &HostDevices<'a, R>,
    left: &RunEnd<HostMaildir<'a, R>, MachineFile<'a, R>>,
    terms: &RunTerms<'_>,
    rests: &str,
    errors: &mut Errors<'_, E>,
)
    ensures { (noticed : Noticed)
        × IsNoticed errors.old.says_why (SaysNewIds (⟦<System<'a, R> as ReadFile>⟧.gave devices.now.for_record.now)
        left.now.settings terms.entry.now.now terms.entry.now.record.now left.now.fetched.unknown)
        left.now.fetched.is_idle left.now.store left.now.seen_file noticed
        × TakesEach ⟦<Errors<'static, E> as Notices>⟧.took (noticed_lines left.now.settings rests.now noticed)
        errors.old errors.new }
{
    let noticed = look_at(devices, left, terms, errors.says_why, errors.reasons);
    tell_noticed(&left.settings, rests, noticed, errors);
    if !left.fetched.is_idle {
        devices.sweep(&left.settings, &left.store, &left.seen_file);
    }
}

/// The link of a run, which shows progress. An unattended run keeps the rows of messages over its size limit.
fn shown<W: Wire, E: Write + Copy>(
    alloc: Global,
    wire: W,
    settings: &Settings,
    errors: &Errors<'_, E>,
) -> ShownWire<W, E>
    ensures shown { IsShownOn (screen_for errors.now settings.now) wire result }
    ensures listed { KeepsLarge (is_some errors.now.journal && not (settings.now.max_size == 0)) settings.now.max_size
        result.listed }
{
    let mut wire = ShownWire::new(alloc, wire, errors.screen(settings));
    if errors.journal.is_some() && settings.max_size != 0 {
        wire.keep_listed(settings.max_size);
    }
    wire
}

/// How many messages a session left out, of those that an unattended run counts.
fn counts_of(report: &Report) -> Counts
    ensures { result ≡ counts_of report.now.left_out }
{
    Counts {
        past_limit: u64::from(report.left_out.past_limit),
        repeated: u64::from(report.left_out.repeated),
    }
}

/// Has an unattended run know what its session left out.
fn note_left_out<W: Wire, S: Write, E>(
    told: &Told,
    settings: &Settings,
    wire: &ShownWire<W, S>,
    errors: &Errors<'_, E>,
) {
    if let (Some(journal), Told::Done(report)) = (errors.journal, told) {
        journal.note_left_out(wire.listed(), settings.max_size, counts_of(report));
    }
}

/// Runs one session of the account over the link, or only previews it. What it says is written to `out`; then the
/// line of the fault that cut it, and what else is told of it, to standard error. If not all was written to `out`, the
/// exit status is 1.
pub fn fetch_told<W: Wire, D: MaildirDisk, F: FlatFile, O: Write, E: Write>(
    system: &System<'_, impl Files + AllocGlobal>,
    account: &mut Account<D, F, impl BuildHasher>,
    wire: &mut ShownWire<W, impl Write>,
    terms: RunTerms<'_>,
    out: &mut Output<O>,
    errors: &mut Errors<'_, E>,
) -> Fetched
    ensures within { result.status ≤ 1 }
    ensures same { IsSameAccount account.old account.new }
    ensures fetched { (told : Told) × HoldsSession W.Wire D.MaildirDisk F.FlatFile terms.entry.pretends terms.entry.now
        account.old wire.old.wire told account.new wire.new.wire
        × TellsAll O.contents E.contents terms.entry.explains account.old.settings terms.entry.destination.now
        terms.entry.record.now
        (IsPlanOf W.Wire D.MaildirDisk F.FlatFile terms.entry.now account.old wire.old.wire account.new wire.new.wire)
        told out.old errors.old result out.new errors.new }
{
    let told = hold(system, account, wire, terms, out);
    errors.reasons.unread.set(wire.unread());
    let settings = account.settings();
    let fetched = tell_all(
        system.alloc(),
        settings,
        &terms,
        &told,
        out.refusal(),
        errors,
    );
    note_left_out(&told, settings, wire, errors);
    fetched
}

/// What a session is held with.
struct Readied<D, F, H> {
    settings: Settings,
    store: Store<D, F>,
    seen_file: F,
    hasher: H,
}

/// Does what `fetch_told` does, over an account that is made for it.
fn fetch_account<W: Wire, D: MaildirDisk, F: FlatFile, H: BuildHasher + Drop, O: Write, E: Write>(
    system: &System<'_, impl Files + AllocGlobal>,
    readied: Readied<D, F, H>,
    wire: &mut ShownWire<W, impl Write>,
    terms: RunTerms<'_>,
    out: &mut Output<O>,
    errors: &mut Errors<'_, E>,
) -> RunEnd<D, F>
    requires valid { IsValid readied.settings }
    requires none_begun { NoneBegun D.MaildirDisk F.FlatFile readied.store }
    ensures within { result.fetched.status ≤ 1 }
    ensures same { IsSameAccount (holding_of readied.settings readied.store readied.seen_file)
        (holding_of result.settings result.store result.seen_file) }
    ensures fetched { (told : Told) × FetchesInto W.Wire D.MaildirDisk F.FlatFile O.contents E.contents
        terms.entry.pretends terms.entry.explains terms.entry.now terms.entry.destination.now terms.entry.record.now
        (holding_of readied.settings readied.store readied.seen_file) wire.old.wire told
        (holding_of result.settings result.store result.seen_file) wire.new.wire out.old errors.old
        result.fetched out.new errors.new }
{
    let Readied {
        settings,
        store,
        seen_file,
        hasher,
    } = readied;
    let mut account = Account::new(system.alloc(), settings, store, seen_file, hasher);
    let fetched = fetch_told(system, &mut account, wire, terms, out, errors);
    let (settings, store, seen_file) = account.into_parts();
    RunEnd {
        settings,
        store,
        seen_file,
        fetched,
    }
}

/// Does what `fetch_account` does, into a Maildir in the machine's files. It is apart from `fetch_at` since what is
/// asked of both types together, of the Maildir and of the record's file, is too large a term.
fn fetch_mail<'a, R, W, F, H, O, E>(
    system: &System<'a, R>,
    readied: Readied<HostMaildir<'a, R>, F, H>,
    wire: &mut ShownWire<W, impl Write>,
    terms: RunTerms<'_>,
    out: &mut Output<O>,
    errors: &mut Errors<'_, E>,
) -> RunEnd<HostMaildir<'a, R>, F>
where
    R: Files + Clock + AllocGlobal + Clone + Drop + 'a,
    W: Wire,
    F: FlatFile,
    H: BuildHasher + Drop,
    O: Write,
    E: Write,
    requires valid { IsValid readied.settings }
    requires none_begun { NoneBegun ⟦<HostMaildir<'a, R> as MaildirDisk>⟧ F.FlatFile readied.store }
    ensures within { result.fetched.status ≤ 1 }
    ensures same { IsSameAccount (holding_of readied.entry.settings readied.entry.store readied.entry.seen_file)
        (holding_of result.settings result.store result.seen_file) }
    ensures fetched { (told : Told) × FetchesInto W.Wire ⟦<HostMaildir<'a, R> as MaildirDisk>⟧ F.FlatFile O.contents
        E.contents terms.entry.pretends terms.entry.explains terms.entry.now terms.entry.destination.now
        terms.entry.record.now (holding_of readied.entry.settings readied.entry.store readied.entry.seen_file)
        wire.old.wire told (holding_of result.settings result.store result.seen_file) wire.new.wire out.old errors.old
        result.fetched out.new errors.new }
{
    fetch_account(system, readied, wire, terms, out, errors)
}

/// Runs one session over the machine's files, or only previews it, and returns the exit status. The time is what the
/// clock showed, if it could be read. What the session says goes to `out`, all else to standard error. The caller has
/// drawn the keys of the hasher and the mark of the files.
pub fn fetch_at<'a, R, E, W, H, O>(
    devices: &HostDevices<'a, R>,
    errand: Errand<'a>,
    link: Connected<W, H>,
    time: Option<SystemTime>,
    out: &mut Output<O>,
    mut errors: Errors<'_, E>,
) -> u8
where
    R: Files + Clock + AllocGlobal + Clone + Drop,
    E: Write + Copy + Drop,
    W: Wire + Drop,
    H: BuildHasher + Drop,
    O: Write,
    requires { IsValid errand.settings }
    ensures within { result ≤ 1 }
    ensures fetches { (told : Told)
        × (fetched : FetchesAt W.Wire ⟦<HostMaildir<'a, R> as MaildirDisk>⟧ ⟦<MachineFile<'a, R> as FlatFile>⟧
        StoreFor IsAt errand.entry.settings errand.entry.paths.now errand.entry.pretends time link.wire told)
        × TellsOf O.contents E.contents errand.entry.settings errand.entry.paths.now
        (IsPlanOf W.Wire ⟦<HostMaildir<'a, R> as MaildirDisk>⟧ ⟦<MachineFile<'a, R> as FlatFile>⟧ (second_of time)
        (holding_of errand.entry.settings fetched.store fetched.seen_file) link.wire fetched.left fetched.wire')
        told out.old errors.entry result out.new }
{
    let Errand {
        settings,
        paths,
        pretends,
    } = errand;
    let Connected { wire, hasher } = link;
    let system = devices.for_store;
    let alloc = system.alloc();
    let mut wire = shown(alloc, wire, &settings, &errors);
    let destination = paths.destination.as_str();
    let rests = paths.rests.as_str();
    let record = paths.record.as_str();
    let store = devices.store(&settings.dest, destination, rests);
    let seen_file = devices.record_file(record);
    let readied = Readied {
        settings,
        store,
        seen_file,
        hasher,
    };
    let terms = RunTerms {
        now: second_of(time),
        destination,
        record,
        pretends,
        explains: errors.explains,
        journal: errors.journal,
    };
    let left = fetch_mail(system, readied, &mut wire, terms, out, &mut errors);
    finish(devices, &left, &terms, rests, &mut errors);
    left.into_status()
}
