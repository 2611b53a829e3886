//! What a name that was listed leads to, over single calls.

ghost use Rattle.std.specs.{
  IoError.error_kind,
  Prelude.{◌≡◌, ◌⊎◌, IfOk, IsSomeAnd, string_bytes, true},
};
ghost use Rattle.system_calls.specs.Line.{IsRefusalText};
ghost use Rattle.folder_store.specs.{
  HostAnswers.tells_odd,
  SharedCalls.{Did, IsLead, IsLeadOf, IsOpenedAs, IsSame, was_unopened, may_be_odd},
};

use crate::calls::FileKind;
use crate::opened_file::{IRREGULAR, LEADS_NOWHERE};
use crate::shared_calls::SharedCalls;
use mail_store::Folder;
use std::alloc::{AllocError, Global};
use std::io::ErrorKind;
use system_calls::Denial;

/// What a name that was listed leads to.
#[derive(Drop)]
pub enum Lead {
    /// A file, or by now nothing.
    File,
    /// A folder in `cur`.
    Directory,
    /// What can't be opened: its path, and why.
    Odd(Vec<u8>),
}

/// What opening a name that was listed gave.
#[derive(Drop)]
pub enum Opened<F> {
    File(F),
    /// Nothing has the name by now.
    Gone,
    /// It can't be opened: what lstat(2) says that it is, and why.
    Shut(FileKind, Denial),
}

/// Whether a file can't be opened because of what its name stands for, or of its rights.
pub fn tells_odd(fault: &Denial) -> bool
    ensures { result ≡ tells_odd (error_kind fault.now.error) }
{
    matches!(
        fault.kind(),
        ErrorKind::PermissionDenied
            | ErrorKind::FilesystemLoop
            | ErrorKind::NotADirectory
            | ErrorKind::InvalidFilename
    )
}

/// The path and the reason of a refused call.
fn text_of(alloc: Global, fault: Denial) -> Result<Vec<u8>, Denial>
    ensures { IfOk result (λ text. IsSomeAnd fault.path (λ path. IsRefusalText (string_bytes path) text.items)) }
{
    match fault.into_refusal() {
        Some(refusal) => Ok(refusal.text(alloc)?),
        None => Err(Denial::from(AllocError)),
    }
}

/// What can't be opened. If it can't even be looked up, that is because of the folder.
fn shut<S: SharedCalls>(
    calls: &mut S,
    folder: Folder,
    name: &str,
    why: Denial,
) -> Result<Opened<S::File>, Denial>
    requires { S.sound calls.old → (was_unopened (S.shared calls.old).directories folder name.now ≡ true)
        ⊎ ((S.was_refused calls.old folder name.now (error_kind why.error))
        × (tells_odd (error_kind why.error) ≡ true)) }
    ensures { S.sound calls.new → S.sound calls.old × Did IsSame (S.shared calls.old) (S.shared calls.new)
        × IfOk result (IsOpenedAs (S.shared calls.old).directories folder name.now) }
{
    match calls.lstat(folder, name) {
        Ok(found) => Ok(Opened::Shut(found.kind, why)),
        Err(_) => Err(why),
    }
}

/// What stat(2) or open(2) says isn't there: it has gone, or is a link that leads nowhere.
fn missing<S: SharedCalls>(
    calls: &mut S,
    folder: Folder,
    name: &str,
) -> Result<Opened<S::File>, Denial>
    requires { S.sound calls.old → S.was_refused calls.old folder name.now ErrorKind.NotFound }
    ensures { S.sound calls.new → S.sound calls.old × Did IsSame (S.shared calls.old) (S.shared calls.new)
        × IfOk result (IsOpenedAs (S.shared calls.old).directories folder name.now) }
{
    match calls.lstat(folder, name) {
        Ok(found) => {
            if found.kind == FileKind::Other {
                let why = calls.refusal(folder, name, LEADS_NOWHERE);
                return Ok(Opened::Shut(found.kind, why));
            }
            Ok(Opened::Gone)
        }
        Err(fault) => {
            if fault.kind() == ErrorKind::NotFound {
                return Ok(Opened::Gone);
            }
            Err(fault)
        }
    }
}

/// What stat(2) or open(2) was refused of.
fn refused<S: SharedCalls>(
    calls: &mut S,
    folder: Folder,
    name: &str,
    fault: Denial,
) -> Result<Opened<S::File>, Denial>
    requires { S.sound calls.old → S.was_refused calls.old folder name.now (error_kind fault.error) }
    ensures { S.sound calls.new → S.sound calls.old × Did IsSame (S.shared calls.old) (S.shared calls.new)
        × IfOk result (IsOpenedAs (S.shared calls.old).directories folder name.now) }
{
    if fault.kind() == ErrorKind::NotFound {
        return missing(calls, folder, name);
    }
    if tells_odd(&fault) {
        return shut(calls, folder, name, fault);
    }
    Err(fault)
}

/// Opens what stat(2) said is a regular file.
fn open_file<S: SharedCalls>(
    calls: &mut S,
    folder: Folder,
    name: &str,
) -> Result<Opened<S::File>, Denial>
    requires { S.sound calls.old → S.was_file calls.old folder name.now }
    ensures { S.sound calls.new → S.sound calls.old × Did IsSame (S.shared calls.old) (S.shared calls.new)
        × IfOk result (IsOpenedAs (S.shared calls.old).directories folder name.now) }
{
    match calls.open(folder, name) {
        Ok(file) => {
            let found = calls.fstat(&file)?;
            if found.kind == FileKind::Folder {
                let why = calls.refusal(folder, name, IRREGULAR);
                return shut(calls, folder, name, why);
            }
            Ok(Opened::File(file))
        }
        Err(fault) => refused(calls, folder, name, fault),
    }
}

/// Opens a regular file that was listed, or one that a link leads to.
pub fn open_listed<S: SharedCalls>(
    calls: &mut S,
    folder: Folder,
    name: &str,
) -> Result<Opened<S::File>, Denial>
    ensures { S.sound calls.new → S.sound calls.old × Did IsSame (S.shared calls.old) (S.shared calls.new)
        × IfOk result (IsOpenedAs (S.shared calls.old).directories folder name.now) }
{
    match calls.stat_name(folder, name) {
        Ok(found) => {
            if found.kind == FileKind::File {
                return open_file(calls, folder, name);
            }
            let why = calls.refusal(folder, name, IRREGULAR);
            shut(calls, folder, name, why)
        }
        Err(fault) => refused(calls, folder, name, fault),
    }
}

/// What can't be opened is odd, but for a folder in `cur`: no delivery needs its name.
fn lead_of(alloc: Global, folder: Folder, kind: FileKind, why: Denial) -> Result<Lead, Denial>
    ensures { IfOk result (λ lead. IsLead lead true (may_be_odd kind folder)) }
{
    match folder {
        Folder::Cur if kind == FileKind::Folder => Ok(Lead::Directory),
        _ => Ok(Lead::Odd(text_of(alloc, why)?)),
    }
}

/// What a name that was listed leads to.
pub fn look_at<S: SharedCalls>(
    alloc: Global,
    calls: &mut S,
    folder: Folder,
    name: &str,
) -> Result<Lead, Denial>
    ensures { S.sound calls.new → S.sound calls.old × Did IsSame (S.shared calls.old) (S.shared calls.new)
        × IfOk result (IsLeadOf (S.shared calls.old).directories folder name.now) }
{
    match open_listed(calls, folder, name)? {
        Opened::Shut(kind, why) => lead_of(alloc, folder, kind, why),
        _ => Ok(Lead::File),
    }
}
