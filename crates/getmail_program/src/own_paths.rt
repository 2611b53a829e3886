//! A run of the superuser's goes by its own folders alone: other paths are refused before anything there is opened.
ghost use Rattle.std.specs.Prelude.{◌≡◌, ◌⊎◌, None, IfOk, IfSome, option_map};
ghost use Rattle.getmail_setup.specs.Failures.{TellsFailure};
ghost use Rattle.getmail_setup.specs.Output.{Puts};
ghost use Rattle.getmail_program.specs.OwnPaths.{StopsAt, TellsRefused, each_run_line, refused_lines};

use fetch_rules::{Dest, Settings};
use file_reading::ReadFile;
use getmail_setup::{
    Errors, Failure, Output, Setup, Subject, Words, fail, folder, joined, rc_file, tell_reason,
};
use safe_path::{Kind, Looks, Named, PathRefused, UnsafePath, check_paths};
use std::alloc::{AllocError, Global};
use std::cell::Cell;
use std::fs;
use std::io::Write;
use std::os::unix::fs::PermissionsExt;
use std::rt::Files;
use system_calls::shown;

/// What an unattended run says beside it.
const EACH_RUN: &[u8] =
    b"nothing is read or written in the folder of the record, so each unattended run tells this";

/// The warning of a folder that others may write, before its path and behind it.
const OPEN: &[u8] = b"warning: others than its owner may write ";

const CLOSED: &[u8] = b": chmod go-w ends that";

/// One that stops a run of the superuser's at paths that lead through what others control.
#[derive(Drop)]
pub struct Guard<'g, L> {
    pub alloc: Global,
    pub looks: &'g L,
    /// Whether nobody waits for what is said.
    pub is_unattended: bool,
    /// Whether a path was refused.
    pub has_refused: &'g Cell<bool>,
}

/// Writes that each run tells it, if nobody waits for what is said.
fn put_each_run<E: Write>(account: Option<&Settings>, is_unattended: bool, err: &mut Output<E>)
    ensures { Puts E.contents err.old
        (each_run_line (option_map (λ settings. settings.now) account.entry) is_unattended) err.new }
{
    match is_unattended {
        true => tell_reason(account, "", EACH_RUN, err),
        false => err.put(b""),
    }
}

/// Writes the lines of a path that is refused.
fn put_refused<E: Write>(
    text: &[u8],
    account: Option<&Settings>,
    is_unattended: bool,
    err: &mut Output<E>,
)
    ensures { Puts E.contents err.old
        (refused_lines (option_map (λ settings. settings.now) account.entry) is_unattended text.now) err.new }
{
    tell_reason(account, "", text, err);
    put_each_run(account, is_unattended, err);
}

/// A folder, by its path.
fn folder_at(path: &str) -> Named<'_> {
    Named {
        path,
        kind: Kind::Folder,
    }
}

impl<'g, L: Looks + ReadFile> Guard<'g, L> {
    /// Tells why a path is refused, and returns the exit status.
    fn refuse<E: Write>(
        &self,
        why: &UnsafePath,
        account: Option<&Settings>,
        errors: &mut Errors<'_, E>,
    ) -> u8
        ensures status { result ≡ 2 }
        ensures told { TellsRefused E.contents (option_map (λ settings. settings.now) account.entry)
            self.now.is_unattended errors.old errors.new
            ⊎ TellsFailure E.contents None Failure.NoMemory errors.old errors.new }
    {
        self.has_refused.set(true);
        match why.text(self.alloc, self.looks) {
            Ok(text) => put_refused(&text, account, self.is_unattended, &mut errors.err),
            Err(_) => return fail(self.alloc, Failure::NoMemory, None, errors),
        }
        errors.close(Subject::Fault);
        2
    }

    /// Stops a run if one of these paths is refused: says so, and returns the exit status.
    pub fn stop<E: Write>(
        &self,
        things: &[Named<'_>],
        account: Option<&Settings>,
        errors: &mut Errors<'_, E>,
    ) -> Option<u8>
        ensures { StopsAt L.Looks L.ReadFile E.contents self.now.looks.now things.now
            (option_map (λ settings. settings.now) account.entry) self.now.is_unattended errors.old errors.new result }
    {
        match check_paths(self.alloc, self.looks, things) {
            Ok(()) => None,
            Err(PathRefused::Unsafe(why)) => Some(self.refuse(&why, account, errors)),
            Err(PathRefused::NoMemory) => Some(fail(self.alloc, Failure::NoMemory, None, errors)),
        }
    }

    /// Stops a run by the folder of the record and by the rc file, before that is opened. If they aren't known, the
    /// setup of the run says so.
    pub fn stop_at_front<E: Write>(
        &self,
        home: Option<&str>,
        words: &Words,
        errors: &mut Errors<'_, E>,
    ) -> Option<u8>
        ensures { IfSome result (λ status. status ≡ 2) }
    {
        let folder = folder(self.alloc, home, words.dir.as_deref()).ok()?;
        let folder = folder.as_str();
        let rc = rc_file(self.alloc, home, folder, words.rcfile.as_deref()).ok()?;
        let rc = Named {
            path: rc.as_str(),
            kind: Kind::RegularFile,
        };
        self.stop(&[folder_at(folder), rc], None, errors)
    }

    /// Stops a run by a Maildir and its folders.
    fn stop_at_maildir<E: Write>(
        &self,
        maildir: &str,
        account: Option<&Settings>,
        errors: &mut Errors<'_, E>,
    ) -> Result<Option<u8>, AllocError>
        ensures { IfOk result (λ stopped. IfSome stopped (λ status. status ≡ 2)) }
    {
        let new = joined(self.alloc, maildir, "new")?;
        let cur = joined(self.alloc, maildir, "cur")?;
        let tmp = joined(self.alloc, maildir, "tmp")?;
        let things = [
            folder_at(maildir),
            folder_at(new.as_str()),
            folder_at(cur.as_str()),
            folder_at(tmp.as_str()),
        ];
        Ok(self.stop(&things, account, errors))
    }

    /// Stops a run by its destination.
    fn stop_at_destination<E: Write>(&self, setup: &Setup, errors: &mut Errors<'_, E>) -> Option<u8>
        ensures { IfSome result (λ status. status ≡ 2) }
    {
        let path = setup.paths.destination.as_str();
        let account = Some(&setup.settings);
        match &setup.settings.dest {
            Dest::Maildir(_) => match self.stop_at_maildir(path, account, errors) {
                Ok(stopped) => stopped,
                Err(_) => Some(fail(self.alloc, Failure::NoMemory, None, errors)),
            },
            Dest::Mboxrd(_) => {
                let kind = Kind::File;
                self.stop(&[Named { path, kind }], account, errors)
            }
        }
    }

    /// Stops a run by its destination, or by the socket that it would connect to.
    pub fn stop_at_places<E: Write>(&self, setup: &Setup, errors: &mut Errors<'_, E>) -> Option<u8>
        ensures { IfSome result (λ status. status ≡ 2) }
    {
        if let Some(status) = self.stop_at_destination(setup, errors) {
            return Some(status);
        }
        let path = setup.settings.server.as_str();
        if !path.starts_with('/') {
            return None;
        }
        let kind = Kind::Socket;
        self.stop(&[Named { path, kind }], Some(&setup.settings), errors)
    }
}

/// The folder that holds what a path names.
fn folder_of(path: &str) -> &str {
    match path.rsplit_once('/') {
        Some(("", _)) => "/",
        Some((folder, _)) => folder,
        None => ".",
    }
}

/// Whether others than its owner may write what a path leads to.
fn is_open<R: Files>(rt: &R, path: &str) -> bool {
    match fs::metadata(rt, path) {
        Ok(found) => found.permissions().mode() & 0o022 != 0,
        Err(_) => false,
    }
}

/// The warning of a folder that others may write.
fn open_text(alloc: Global, path: &str) -> Result<Vec<u8>, AllocError> {
    let path = shown(alloc, path.as_bytes())?;
    [OPEN, path.as_slice(), CLOSED].concat(alloc)
}

/// Warns of the folder that holds what a path names, if others may write it.
fn warn_of<R: Files + AllocGlobal, E: Write>(
    rt: &R,
    path: &str,
    account: &Settings,
    errors: &mut Errors<'_, E>,
) {
    let folder = folder_of(path);
    if !is_open(rt, folder) {
        return;
    }
    if let Ok(text) = open_text(rt.alloc(), folder) {
        tell_reason(Some(account), "", &text, &mut errors.err);
        errors.close(Subject::Notice);
    }
}

/// Warns, if reasons are to be written, of folders in which others could take the place of the record or of the socket
/// that is sent the password.
pub fn warn_of_open<R: Files + AllocGlobal, E: Write>(
    rt: &R,
    setup: &Setup,
    errors: &mut Errors<'_, E>,
) {
    if !errors.says_why {
        return;
    }
    let settings = &setup.settings;
    warn_of(rt, setup.paths.record.as_str(), settings, errors);
    let server = settings.server.as_str();
    if server.starts_with('/') {
        warn_of(rt, server, settings, errors);
    }
}
