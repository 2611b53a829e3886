//! A file that was made, over single calls of the system.

ghost use Rattle.std.specs.{Prelude.{◌≡◌, ◌≤◌, ◌++◌, false, length, IfErr, IfOk, IfSome, OnOk}, IoError.error_kind};
ghost use Rattle.mail_store.specs.Fault.{IsDeviceFault};
ghost use Rattle.folder_store.specs.{Calls.{answered, WritesSome}, Sound.WhereFilesSound};

use crate::calls::MadeHandle;
use crate::file_folder::NewFile;
use mail_store::StoreFault;
use std::io::{self, ErrorKind};
use std::rt::Files;
use system_calls::{Denial, OpenAt, Refusals};

/// A file that was made, and what notes why it can't be written.
#[derive(Drop)]
pub struct CallsNewFile<'a, M> {
    pub refusals: &'a Refusals,
    pub file: M,
}

/// A file of the machine's file system that was made.
pub type HostNewFile<'a, R> = CallsNewFile<'a, OpenAt<<R as Files>::File>>;

/// A device's answer. Why it is a refusal is kept.
pub fn answer_of<T>(refusals: &Refusals, answer: Result<T, Denial>) -> Result<T, StoreFault>
    ensures same { result ≡ answered answer }
    ensures fault { IfErr result IsDeviceFault }
{
    match refusals.kept(answer) {
        Ok(value) => Ok(value),
        Err(fault) if fault.kind() == ErrorKind::NotFound => Err(StoreFault::Missing),
        Err(_) => Err(StoreFault::Refused),
    }
}

/// Writes some of the bytes, and returns how many; None if the call was interrupted.
fn write_some<M: MadeHandle>(file: &mut M, bytes: &[u8]) -> Result<Option<usize>, Denial>
    ensures within { IfOk result (λ wrote. IfSome wrote (λ n. n ≤ length bytes.now)) }
    ensures writes { WhereFilesSound M.sound M.made file.old file.new
        (λ old new. IfOk result (WritesSome old bytes.now new)) }
{
    match file.write(bytes) {
        Ok(0) if !bytes.is_empty() => Err(file.denied(no_octet())),
        Ok(count) => Ok(Some(count)),
        Err(fault) if fault.kind() == ErrorKind::Interrupted => Ok(None),
        Err(fault) => Err(fault),
    }
}

/// Writes all of the bytes, in as many calls as it takes.
fn write_all<M: MadeHandle>(file: &mut M, bytes: &[u8]) -> Result<(), Denial>
    ensures { WhereFilesSound M.sound M.made file.old file.new
        (λ old new. OnOk result (new ≡ record { content = old.content ++ bytes.now; is_flushed = false })) }
{
    let mut rest = bytes;
    for _ in 0..u64::MAX {
        let wrote = write_some(file, rest)?;
        match wrote {
            Some(count) => {
                rest = &rest[count..];
                if rest.is_empty() {
                    return Ok(());
                }
            }
            None => {}
        }
    }
    Err(file.denied(io::Error::from(ErrorKind::ResourceBusy)))
}

/// A write took nothing.
pub fn no_octet() -> io::Error
    ensures { error_kind result ≡ ErrorKind.WriteZero }
{
    io::Error::new(ErrorKind::WriteZero, "failed to write whole buffer")
}

impl<'a, M: MadeHandle> NewFile for CallsNewFile<'a, M> {
    ghost made = { λ f. M.made f.file };

    ghost sound = { λ f. M.sound f.file };

    fn write(&mut self, bytes: &[u8]) -> Result<(), StoreFault> {
        answer_of(self.refusals, write_all(&mut self.file, bytes))
    }

    fn flush(&mut self) -> Result<(), StoreFault> {
        answer_of(self.refusals, self.file.fsync())
    }
}
