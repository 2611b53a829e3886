//! What a run writes to standard error before its session, and what it keeps of refused calls.
ghost use Rattle.std.specs.{
  Prelude.{◌≡◌, ◌≤◌, ◌↔◌, ◌++◌, ℕ, IfSome, IsSomeAnd, IsTrue, List, Some, codes, length, option_map, string_bytes},
  IoError.error_kind,
  List.prefix_len,
};
ghost use Rattle.system_calls.specs.Line.{IsRefusalText};
ghost use Rattle.getmail_setup.specs.{
  Failures.{IsToldCause, IsToldUnlocked, TellsFailure, account_front, cause_line, connect_hint, form_hint, has_port},
  Failures.{is_no_colon, lock_hint, near_hint, network_warning, start_hint, status_of, words_line},
  Output.Puts,
  Progress.screen_for,
};

use crate::connection::is_near;
use crate::failure::{Failure, put_peer, tell};
use crate::journal::{Journal, Subject};
use crate::output::Output;
use fetch_rules::Settings;
use std::alloc::Global;
use std::cell::Cell;
use std::io::{ErrorKind, Stderr, Write};
use system_calls::{Denial, Refusals};
use trace::Talk;

/// What is kept of refusals while a program runs, to tell the reason of a fault: a device's, the link's or
/// that of what comes before the session.
#[derive(Drop)]
pub struct Reasons {
    /// Refused calls on the rc file, and addresses that took no connection.
    pub before: Refusals,
    pub store: Refusals,
    pub record: Refusals,
    pub link: Refusals,
    pub talk: Talk,
    /// The rule that the rc file or the flags break.
    pub rule: Cell<Option<Vec<u8>>>,
    /// How many octets came at a session's end that are no whole line.
    pub unread: Cell<u64>,
}

impl Reasons {
    /// Nothing was refused yet.
    pub fn new(alloc: Global, trace: Option<Stderr>) -> Reasons
        ensures { (result.before.trace.lines ≡ trace) × (result.store.trace.lines ≡ trace)
            × (result.record.trace.lines ≡ trace) × (result.link.trace.lines ≡ trace) }
    {
        Reasons {
            before: Refusals::new(alloc, trace),
            store: Refusals::new(alloc, trace),
            record: Refusals::new(alloc, trace),
            link: Refusals::new(alloc, trace),
            talk: Talk::new(alloc),
            rule: Cell::new(None),
            unread: Cell::new(0),
        }
    }
}

/// Standard error of a run, and what is written there besides warnings and the lines of faults.
#[derive(Clone, Copy, Drop)]
pub struct Errors<'a, E> {
    pub err: Output<E>,
    /// Whether the line of progress may be shown.
    pub shows_progress: bool,
    /// Whether reasons are written.
    pub says_why: bool,
    /// Whether the report, on standard output, says why messages are passed over.
    pub explains: bool,
    pub reasons: &'a Reasons,
    /// What an unattended run says, if it is one.
    pub journal: Option<&'a Journal>,
}

impl<'a, E> Errors<'a, E> {
    /// What was written since the last part is one, which an unattended run tells or doesn't.
    pub fn close(&self, subject: Subject) {
        if let Some(journal) = self.journal {
            journal.close(subject);
        }
    }
}

impl<'a, E: Write + Copy> Errors<'a, E> {
    /// Where the line of progress is shown, if it is and a report is wanted.
    pub fn screen(&self, settings: &Settings) -> Option<E>
        ensures { result ≡ screen_for self.now settings.now }
    {
        if self.shows_progress && settings.verbose > 0 {
            Some(self.err.writer())
        } else {
            None
        }
    }
}

/// Where HOME is needed, and what else gives its place.
const HOME_REASON: &str =
    "~/ begins in it, and so does the folder ~/.getmail: set it, or give --getmaildir and full paths";

/// What a first run in getmail6's place would do.
const LIST_REASON: &str =
    "with read_all = false and no record, a run would fetch all its mail again";

/// How long the path of a socket may be.
const SOCKET_LIMIT: usize = 107;

/// Whose a lock's file may be that can't be opened, and what to do with it.
const LOCK_HINT: &[u8] = b"if a run of another user left that file, remove it: it is empty";

/// What was asked of the system before the session and what it said, and whether rights were missing.
fn refused_before(alloc: Global, reasons: &Reasons) -> (Option<Vec<u8>>, bool) {
    let Some(refusal) = reasons.before.take() else {
        return (None, false);
    };
    let is_denied = refusal.error.kind() == ErrorKind::PermissionDenied;
    (refusal.text(alloc).ok(), is_denied)
}

/// Writes the reason why there is no session, if it is known: the rule that an rc file breaks, or what was
/// asked of the system and what it said. Returns whether the system said that rights are missing.
fn tell_cause<E: Write>(
    alloc: Global,
    failure: Failure<'_>,
    account: Option<&Settings>,
    errors: &mut Errors<'_, E>,
) -> bool
    ensures { (text : List ℕ) × IsToldCause errors.old.says_why (option_map (λ settings. settings.now) account.entry)
        failure.entry text × Puts E.contents errors.old.err text errors.new.err }
{
    let reasons = errors.reasons;
    let (reason, is_denied) = match (errors.says_why, failure) {
        (false, _) | (_, Failure::NoMemory) => (None, false),
        (_, Failure::NoHome) => {
            tell_reason(account, "", HOME_REASON.as_bytes(), &mut errors.err);
            return false;
        }
        (_, Failure::OtherList(_, _)) => {
            tell_reason(account, "", LIST_REASON.as_bytes(), &mut errors.err);
            return false;
        }
        (_, Failure::Rc(_)) => (reasons.rule.take(), false),
        _ => refused_before(alloc, reasons),
    };
    match reason {
        Some(reason) => tell_reason(account, "", &reason, &mut errors.err),
        None => errors.err.put(b""),
    }
    is_denied
}

/// Where the first colon of octets is; their end if they have none.
fn colon_place(octets: &[u8]) -> usize
    ensures value { result ≡ prefix_len is_no_colon octets.now }
    ensures fits { result ≤ length octets.now }
{
    octets.iter().take_while(|octet| **octet != b':').count()
}

/// Whether a server has one colon, as a host has with a port behind it; an address of IPv6 has more.
fn has_port(server: &str) -> bool
    ensures { result ≡ has_port server.now }
{
    let octets = server.as_bytes();
    match &octets[colon_place(octets)..] {
        [] => false,
        [_, behind @ ..] => colon_place(behind) == behind.len(),
    }
}

/// What is wrong with a server that takes no connection because it is none; empty if that isn't known.
fn form_hint(server: &str) -> &'static str
    ensures { result.now ≡ form_hint server.now }
{
    let octets = server.as_bytes();
    if octets.starts_with(b"/") {
        if octets.len() > SOCKET_LIMIT {
            "the path of a socket has at most 107 octets"
        } else {
            ""
        }
    } else if octets.starts_with(b"~") {
        "in server no ~ stands for your home: the path of a socket begins with /"
    } else if octets.contains(&b'/') {
        "server is the name or address of a host alone, without pop3:// and without a path"
    } else if octets.starts_with(b"[") {
        "in server an address has no [ and ]"
    } else if has_port(server) {
        "server is the name or address of a host alone: port is a key of its own"
    } else {
        ""
    }
}

/// What may help if a server on this machine takes no connection: rights, if they are missing, or starting a tunnel.
fn near_hint(server: &str, is_denied: bool) -> &'static str
    ensures { result.now ≡ near_hint server.now is_denied }
{
    if is_denied {
        "only who may write to a socket can connect: is it a tunnel of your own?"
    } else if is_near(server) {
        "is the tunnel started? systemctl --user start getmail-tunnel.socket, or the command in stunnel.conf"
    } else {
        ""
    }
}

/// What may help if a server takes no connection; empty if nothing is known to.
fn connect_hint(server: &str, is_denied: bool) -> &'static str
    ensures { result.now ≡ connect_hint server.now is_denied }
{
    let hint = form_hint(server);
    if hint.is_empty() {
        near_hint(server, is_denied)
    } else {
        hint
    }
}

/// Writes a line with what may help, if there are words for it.
fn tell_words<E: Write>(account: Option<&Settings>, words: &str, err: &mut Output<E>)
    ensures { Puts E.contents err.old (words_line (option_map (λ settings. settings.now) account.entry) words.now)
        err.new }
{
    if words.is_empty() {
        return err.put(b"");
    }
    tell_reason(account, "", words.as_bytes(), err)
}

/// Writes what may help if no connection was taken and reasons are to be written.
fn tell_hint<E: Write>(
    says_why: bool,
    failure: Failure<'_>,
    is_denied: bool,
    account: Option<&Settings>,
    err: &mut Output<E>,
)
    ensures { Puts E.contents err.old
        (start_hint says_why is_denied (option_map (λ settings. settings.now) account.entry) failure.entry) err.new }
{
    match (says_why, failure) {
        (true, Failure::CannotConnect(server, _)) => {
            tell_words(account, connect_hint(server, is_denied), err)
        }
        _ => err.put(b""),
    }
}

/// Writes the account that a reason is about, if it is known.
fn put_account<E: Write>(account: Option<&Settings>, err: &mut Output<E>)
    ensures { Puts E.contents err.old (account_front (option_map (λ settings. settings.now) account.entry)) err.new }
{
    let Some(settings) = account else {
        return err.put(b"");
    };
    err.put(settings.username.as_bytes());
    err.put(b"@");
    put_peer(settings.server.as_str(), settings.port, err);
    err.put(b": ");
}

/// Writes a line with these words and a reason.
pub fn tell_reason<E: Write>(
    account: Option<&Settings>,
    words: &str,
    reason: &[u8],
    err: &mut Output<E>,
)
    ensures { Puts E.contents err.old
        (cause_line (option_map (λ settings. settings.now) account.entry) words.now reason.now) err.new }
{
    err.put(b"getmail: ");
    put_account(account, err);
    err.put(words.as_bytes());
    err.put(reason);
    err.put(b"\n");
}

/// What is told of a refusal, if there is memory for it.
fn refusal_of(alloc: Global, denial: Denial) -> Option<Vec<u8>>
    ensures { IfSome result (λ text.
        IsSomeAnd denial.path (λ path. IsRefusalText (string_bytes path) text.items)) }
{
    denial.into_refusal()?.text(alloc).ok()
}

/// Writes what may help if rights are missing for a lock's file.
fn tell_lock_hint<E: Write>(settings: &Settings, is_denied: bool, err: &mut Output<E>)
    ensures { Puts E.contents err.old (lock_hint settings.now is_denied) err.new }
{
    if !is_denied {
        return err.put(b"");
    }
    tell_reason(Some(settings), "", LOCK_HINT, err)
}

/// Whether something isn't done because rights are missing.
fn is_denied(denial: &Denial) -> bool
    ensures { IsTrue result ↔ error_kind denial.now.error ≡ ErrorKind.PermissionDenied }
{
    denial.kind() == ErrorKind::PermissionDenied
}

/// Writes why there is no lock, and what may help.
fn put_unlocked<E: Write>(settings: &Settings, reason: &[u8], is_denied: bool, err: &mut Output<E>)
    ensures { Puts E.contents err.old
        (cause_line (Some settings.now) (codes "no lock: ") reason.now ++ lock_hint settings.now is_denied) err.new }
{
    tell_reason(Some(settings), "no lock: ", reason, err);
    tell_lock_hint(settings, is_denied, err);
}

/// Writes why a run goes on without a lock, if reasons are to be written.
pub(crate) fn tell_unlocked<E: Write>(
    alloc: Global,
    settings: &Settings,
    denial: Denial,
    errors: &mut Errors<'_, E>,
)
    ensures { (text : List ℕ) × IsToldUnlocked errors.old.says_why settings.now denial text
        × Puts E.contents errors.old.err text errors.new.err }
{
    if !errors.says_why {
        return errors.err.put(b"");
    }
    let is_denied = is_denied(&denial);
    let text = refusal_of(alloc, denial);
    let reason = match &text {
        Some(text) => text.as_slice(),
        None => b"out of memory",
    };
    put_unlocked(settings, reason, is_denied, &mut errors.err);
    errors.close(Subject::Notice);
}

/// Warns that others can read the password and the mail on their way, if reasons are to be written.
pub fn warn_of_network<E: Write>(settings: &Settings, errors: &mut Errors<'_, E>)
    ensures { Puts E.contents errors.old.err (network_warning errors.old.says_why settings.now) errors.new.err }
{
    if !errors.says_why {
        return errors.err.put(b"");
    }
    tell_reason(
        Some(settings),
        "warning: ",
        b"password and mail go over the network unencrypted: use a tunnel",
        &mut errors.err,
    );
    errors.close(Subject::Notice);
}

/// Writes a failure's line to standard error, and its reason, if that is known and is to be written.
/// Returns the exit status, as `tell` does.
pub fn fail<E: Write>(
    alloc: Global,
    failure: Failure<'_>,
    account: Option<&Settings>,
    errors: &mut Errors<'_, E>,
) -> u8
    ensures status { result ≡ status_of failure.entry }
    ensures within { result ≤ 2 }
    ensures told { TellsFailure E.contents (option_map (λ settings. settings.now) account.entry)
        failure.entry errors.old
        errors.new }
{
    let says_why = errors.says_why;
    let status = tell(alloc, failure, &mut errors.err);
    let is_denied = tell_cause(alloc, failure, account, errors);
    tell_hint(says_why, failure, is_denied, account, &mut errors.err);
    errors.close(Subject::Fault);
    status
}
