//! The settings of a run: those of the rc file, changed by the flags, and its paths.
ghost use Rattle.std.specs.{
  Prelude.{◌≡◌, ◌⊎◌, ◌++◌, ℕ, List, [], Some, IfErr, IfOk, OnOk, codes, option_map},
  String.string_bytes,
};
ghost use Rattle.rc_file.specs.Settings.{IsValid};
ghost use Rattle.getmail_setup.specs.{
  Failures.cause_line,
  NoSetup.{GivesNone, HasNoPath, HasNoSetup, MeansNone},
  Output.Puts,
  Places.{AreAsked, AreFor, IsSetUp, IsToldPath, account_path, account_digits, path_in, folder_path, rc_room},
  Places.whole_path,
  Warnings.{IsOthersText, IsToldAll, IsToldOthers, IsToldPort, all_warning, has_tls_port, leaves_read_all},
  Warnings.{says_open, warnings_text},
};

use crate::connection::is_socket;
use crate::digest::digest_of;
use crate::errors::{Errors, tell_reason};
use crate::failure::{Failure, failure_of};
use crate::journal::Subject;
use crate::listed::without_end;
use crate::place::{folder, joined, rc_file, whole_path};
use crate::rc_reason::{RcFile, reason_in};
use crate::words::Words;
use fetch_rules::{Dest, Flags, Settings, Warning, override_with, read_rc, warning_text};
use file_reading::ReadFile;
use mail_store::{AccountId, account_id};
use rc_file::{RcFault, read_other};
use std::alloc::{AllocError, Global};
use std::fs::{self, Metadata};
use std::io::{self, Write};
use std::os::unix::fs::PermissionsExt;
use std::rt::Files;
use system_calls::line_text;

/// One octet more than an rc file may have, so that a longer one is noticed.
const RC_ROOM: u64 = 65_537;

/// The warning of a file that others may read, before its path.
const OTHERS: &str = "warning: others than its owner may read or write ";

/// What mends that.
const PRIVATE: &[u8] = b": chmod 600 ends that";

/// The warning of mail that comes again because nothing says otherwise, and what it costs.
const UNSET: &str = "warning: read_all is not set: ";

const ALL_AGAIN: &[u8] =
    b"each run fetches all mail again, and an mboxrd file gets it again; read_all = false in [options] ends that";

/// What the warning of a port for TLS ends with.
const NO_TLS: &str = "which getmail doesn't speak: use a tunnel";

/// The paths of a run.
#[derive(Drop)]
pub struct Paths {
    /// The destination's path.
    pub destination: String,
    /// The record's path.
    pub record: String,
    /// The path of the file whose lock keeps two runs apart.
    pub lock: String,
    /// The path of the file in which is kept what is cut off from an mboxrd file.
    pub rests: String,
}

/// The settings and the paths of a run.
#[derive(Drop)]
pub struct Setup {
    /// The settings, changed by the flags.
    pub settings: Settings,
    /// The paths.
    pub paths: Paths,
    /// Whether the run only shows what it would do.
    pub pretends: bool,
}

/// Writes a warning, about an account if it is known.
fn put_warning<E: Write>(account: Option<&Settings>, text: &[u8], errors: &mut Errors<'_, E>)
    ensures { Puts E.contents errors.old.err
        (cause_line (option_map (λ settings. settings.now) account.entry) [] text.now) errors.new.err }
{
    tell_reason(account, "", text, &mut errors.err);
    errors.close(Subject::Notice);
}

/// Writes the rc file's warnings.
#[tactic(auto, using(crate::proofs::OutputLemmas::puts_none))]
fn tell_warnings<'a, E: Write>(
    alloc: Global,
    warnings: &[Warning],
    errors: &mut Errors<'_, E>,
) -> Result<(), Failure<'a>>
    ensures ok { OnOk result (Puts E.contents errors.old.err (warnings_text warnings.now) errors.new.err) }
    ensures err { IfErr result (λ failure. failure ≡ Failure.NoMemory) }
{
    for warning in warnings {
        let text = warning_text(alloc, warning)?;
        put_warning(None, text.as_bytes(), errors);
    }
    Ok(())
}

/// Whether the answer to a look at a file says that others than its owner may read or write it.
fn says_open(answer: &io::Result<Metadata>) -> bool
    ensures { result ≡ says_open answer.now }
{
    match answer {
        Ok(found) => found.permissions().mode() & 0o066 != 0,
        Err(_) => false,
    }
}

/// Whether others than its owner may read or write a file.
fn is_others_too<R: Files>(rt: &R, path: &str) -> bool {
    says_open(&fs::metadata(rt, path))
}

/// The warning of a file that others may read.
fn others_text(alloc: Global, path: &str) -> Result<Vec<u8>, AllocError>
    ensures { IfOk result (λ text. IsOthersText path.now text.items) }
{
    let line = line_text(alloc, OTHERS, path.as_bytes())?;
    let mut text = Vec::from_slice(alloc, without_end(&line))?;
    text.extend_from_slice(PRIVATE)?;
    Ok(text)
}

/// Warns if others may read or write the rc file, which has a password.
fn warn_of_others<R: Files + AllocGlobal, E: Write>(
    rt: &R,
    path: &str,
    settings: &Settings,
    errors: &mut Errors<'_, E>,
)
    ensures { (text : List ℕ) × IsToldOthers path.now settings.now text
        × Puts E.contents errors.old.err text errors.new.err }
{
    if is_others_too(rt, path) {
        if let Ok(text) = others_text(rt.alloc(), path) {
            return put_warning(Some(settings), &text, errors);
        }
    }
    errors.err.put(b"");
}

/// Whether a server's port is one that servers have for TLS. A socket has no port.
fn has_tls_port(settings: &Settings) -> bool
    ensures { result ≡ has_tls_port settings.now }
{
    let port = settings.port;
    !is_socket(settings.server.as_str()) && (port == 993 || port == 995)
}

/// Warns of a port that servers have for TLS.
fn warn_of_port<E: Write>(alloc: Global, settings: &Settings, errors: &mut Errors<'_, E>)
    ensures { (text : List ℕ) × IsToldPort settings.now (has_tls_port settings.now) text
        × Puts E.contents errors.old.err text errors.new.err }
{
    if has_tls_port(settings) {
        let port = settings.port;
        if let Ok(text) = format!(in alloc; "warning: port {port} is for TLS, {NO_TLS}") {
            return put_warning(Some(settings), text.as_bytes(), errors);
        }
    }
    errors.err.put(b"");
}

/// Whether neither an rc file nor a flag says if mail that was delivered is fetched again.
fn leaves_read_all(alloc: Global, bytes: &[u8], flags: Flags) -> Result<bool, RcFault>
    ensures { IfOk result (λ leaves. leaves ≡ leaves_read_all flags bytes.now) }
{
    let value = read_other(alloc, bytes, "options", "read_all")?;
    Ok(value.is_none() && !flags.all && !flags.new_only)
}

/// Warns of mail that comes again because nothing says otherwise, if so.
fn warn_of_all<E: Write>(settings: &Settings, is_left: bool, errors: &mut Errors<'_, E>)
    ensures { Puts E.contents errors.old.err (all_warning settings.now is_left) errors.new.err }
{
    if !is_left {
        return errors.err.put(b"");
    }
    tell_reason(Some(settings), UNSET, ALL_AGAIN, &mut errors.err);
    errors.close(Subject::Notice);
}

/// Warns of what settings may cost that were read from an rc file: a password that others may read, a port on which
/// nobody answers, mail that comes again.
fn warn_of_settings<R: Files + AllocGlobal, E: Write>(
    rt: &R,
    file: RcFile<'_>,
    flags: Flags,
    settings: &Settings,
    errors: &mut Errors<'_, E>,
)
    ensures { (others port all : List ℕ) × IsToldOthers file.entry.path.now settings.now others
        × IsToldPort settings.now (has_tls_port settings.now) port
        × IsToldAll settings.now (leaves_read_all flags file.entry.bytes.now) all
        × Puts E.contents errors.old.err (others ++ (port ++ all)) errors.new.err }
{
    let alloc = rt.alloc();
    warn_of_others(rt, file.path, settings, errors);
    warn_of_port(alloc, settings, errors);
    match leaves_read_all(alloc, file.bytes, flags) {
        Ok(is_left) => warn_of_all(settings, is_left, errors),
        Err(_) => errors.err.put(b""),
    }
}

/// The settings that an rc file of these octets means, changed by the flags. Its warnings are written.
fn meaning_of<'a, E: Write>(
    alloc: Global,
    bytes: &[u8],
    flags: Flags,
    errors: &mut Errors<'_, E>,
) -> Result<Settings, Failure<'a>>
    ensures valid { IfOk result IsValid }
    ensures asked { IfOk result (AreAsked flags bytes.now) }
    ensures err { IfErr result (MeansNone flags bytes.now) }
{
    let (settings, warnings) = read_rc(alloc, bytes)?;
    tell_warnings(alloc, warnings.as_slice(), errors)?;
    Ok(override_with(settings, flags)?)
}

/// Overwrites octets that may have a password before they are given up.
fn wipe(mut octets: Vec<u8>) {
    octets.fill(0);
}

/// Reads the rc file, writes its warnings, and returns its settings, changed by the flags. The reason of a
/// fault is kept, and a file that others may read is warned of, if reasons are to be written.
fn settings_of<'a, R: Files + AllocGlobal, S: ReadFile, E: Write>(
    rt: &R,
    files: &S,
    path: &str,
    words: &Words,
    errors: &mut Errors<'_, E>,
) -> Result<Settings, Failure<'a>>
    ensures valid { IfOk result IsValid }
    ensures asked { IfOk result (λ settings. (bytes : List ℕ) × S.gave files.now path.now rc_room bytes
        × AreAsked words.now.flags bytes settings) }
    ensures err { IfErr result (GivesNone (S.gave files.now) (S.refused files.now) words.now.flags path.now) }
{
    let bytes = match files.read(path, RC_ROOM) {
        Ok(bytes) => bytes,
        Err(error) => return Err(failure_of(error, Failure::CannotRead)),
    };
    let alloc = rt.alloc();
    let flags = words.flags;
    let settings = meaning_of(alloc, bytes.as_slice(), flags, errors);
    if errors.says_why {
        let file = RcFile {
            path,
            bytes: bytes.as_slice(),
        };
        match &settings {
            Ok(settings) => warn_of_settings(rt, file, flags, settings, errors),
            Err(Failure::Rc(fault)) => {
                let reason = reason_in(alloc, words, file, fault);
                errors.reasons.rule.set(reason.ok());
            }
            Err(_) => {}
        }
    }
    wipe(bytes);
    settings
}

/// The account that the settings name.
pub fn account_of(settings: &Settings) -> AccountId
    ensures { result ≡ account_digits settings.now }
{
    account_id(
        settings.server.as_str(),
        settings.port,
        settings.username.as_str(),
    )
}

/// The path of a file of the account in the folder. Its name begins in this way.
fn account_path(
    alloc: Global,
    folder: &str,
    front: &str,
    settings: &Settings,
) -> Result<String, AllocError>
    ensures { IfOk result (λ path. string_bytes path ≡ account_path folder.now front.now settings.now) }
{
    let account = account_of(settings);
    let digest = account.as_str();
    let name = format!(in alloc; "{front}{digest}")?;
    joined(alloc, folder, name.as_str())
}

/// The path of the file for what is cut off from an mboxrd file; `base` is the record's path.
fn rests_path(alloc: Global, base: &str) -> Result<String, AllocError>
    ensures { IfOk result (λ path. string_bytes path ≡ base.now ++ codes ".rest") }
{
    format!(in alloc; "{base}.rest")
}

/// The path of a destination, a Maildir or an mboxrd file.
fn destination_path<'a>(
    alloc: Global,
    home: Option<&str>,
    dest: &Dest,
) -> Result<String, Failure<'a>>
    ensures ok { IfOk result (λ path. whole_path (option_map (λ text. text.now) home.entry) (path_in dest.now)
        ≡ Some (string_bytes path)) }
    ensures err { IfErr result
        (HasNoPath (whole_path (option_map (λ text. text.now) home.entry) (path_in dest.now))) }
{
    match dest {
        Dest::Maildir(path) => whole_path(alloc, home, path.as_str()),
        Dest::Mboxrd(path) => whole_path(alloc, home, path.as_str()),
    }
}

/// The paths of a run with these settings.
fn places<'a>(
    alloc: Global,
    home: Option<&str>,
    words: &Words,
    settings: &Settings,
) -> Result<Paths, Failure<'a>>
    ensures ok { IfOk result (AreFor (option_map (λ text. text.now) home.entry) words.now settings.now) }
    ensures err { IfErr result (λ failure.
        HasNoPath (folder_path (option_map (λ text. text.now) home.entry) (option_map string_bytes words.now.dir))
        failure
        ⊎ HasNoPath (whole_path (option_map (λ text. text.now) home.entry) (path_in settings.now.dest)) failure) }
{
    let destination = destination_path(alloc, home, &settings.dest)?;
    let folder = folder(alloc, home, words.dir.as_deref())?;
    let record = account_path(alloc, folder.as_str(), "seen-", settings)?;
    let lock = account_path(alloc, folder.as_str(), "lock-", settings)?;
    let rests = rests_path(alloc, record.as_str())?;
    Ok(Paths {
        destination,
        record,
        lock,
        rests,
    })
}

/// The path of the file that keeps what unattended runs with an rc file told. Its name has the digest of that file's
/// path.
pub fn told_path<'a>(
    alloc: Global,
    home: Option<&str>,
    words: &Words,
) -> Result<String, Failure<'a>>
    ensures { IfOk result (λ path. IsToldPath (option_map (λ text. text.now) home.entry) words.now
        (string_bytes path)) }
{
    let folder = folder(alloc, home, words.dir.as_deref())?;
    let path = rc_file(alloc, home, folder.as_str(), words.rcfile.as_deref())?;
    let digest = digest_of(path.as_str(), "");
    let digest = digest.as_str();
    let name = format!(in alloc; "told-{digest}")?;
    Ok(joined(alloc, folder.as_str(), name.as_str())?)
}

/// The settings and the paths of a run, or the first of these failures: HOME is needed and not known,
/// the rc file can't be read or is wrong, the flags are opposite. The reason is kept if reasons are to be
/// written.
pub fn set_up<'a, R: Files + AllocGlobal, S: ReadFile, E: Write>(
    rt: &R,
    files: &S,
    home: Option<&str>,
    words: &Words,
    errors: &mut Errors<'_, E>,
) -> Result<Setup, Failure<'a>>
    ensures ok { IfOk result (IsSetUp (S.gave files.now) (option_map (λ text. text.now) home.entry) words.now) }
    ensures err { IfErr result (HasNoSetup (S.gave files.now) (S.refused files.now)
        (option_map (λ text. text.now) home.entry) words.now) }
{
    let alloc = rt.alloc();
    let folder = folder(alloc, home, words.dir.as_deref())?;
    let path = rc_file(alloc, home, folder.as_str(), words.rcfile.as_deref())?;
    let settings = settings_of(rt, files, path.as_str(), words, errors)?;
    let paths = places(alloc, home, words, &settings)?;
    Ok(Setup {
        settings,
        paths,
        pretends: words.pretend,
    })
}
