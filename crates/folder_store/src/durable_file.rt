//! What the devices do to a folder in several calls.

ghost use Rattle.std.specs.Prelude.{◌≡◌, ◌-◌, ◌%◌, ◌++◌, true, OnOk};
ghost use Rattle.folder_store.specs.Sound.{WhereFileSound, WhereFilesSound};
ghost use Rattle.mail_store.specs.DiskCalls.{AppendsDisk, CutsDisk, FlushesBoth, ReplacesDisk};

use crate::file_folder::{FileFolder, NewFile};
use mail_store::StoreFault;

/// How many octets of a file a disk writes at once, at least.
const BLOCK: usize = 512;

/// How an append goes to the disk.
#[derive(Clone, Copy, PartialEq, Eq)]
pub enum Appending {
    /// With one flush. After a loss of power a later block may be there and an earlier one missing.
    AtOnce,
    /// Each block is flushed before the next is written, so that at any moment a front of it is there, and
    /// perhaps zeros behind it.
    ByBlocks,
}

/// Appends bytes to a file, and flushes them.
fn append_flushed<F: FileFolder>(folder: &mut F, name: &str, bytes: &[u8]) -> Result<(), StoreFault>
    ensures { WhereFileSound F.sound F.directory name.now folder.old folder.new
        (λ old new. AppendsDisk old bytes.now result new) }
{
    folder.append(name, bytes)?;
    folder.flush(name)
}

/// How many octets the block has room for in which a file of this size ends.
fn room_after(size: u64) -> usize
    ensures { result ≡ 512 - size % 512 }
{
    BLOCK - (size % BLOCK as u64) as usize
}

/// The same, but flushes at each border of 512 octets of the file before it writes more.
fn append_blocks<F: FileFolder>(folder: &mut F, name: &str, bytes: &[u8]) -> Result<(), StoreFault>
    ensures { WhereFileSound F.sound F.directory name.now folder.old folder.new
        (λ old new. AppendsDisk old bytes.now result new) }
{
    let size = folder.size(name)?;
    let (front, mut rest) = bytes.split_at(room_after(size).min(bytes.len()));
    append_flushed(folder, name, front)?;
    while !rest.is_empty() {
        let (block, after) = rest.split_at(BLOCK.min(rest.len()));
        append_flushed(folder, name, block)?;
        rest = after;
    }
    Ok(())
}

/// Appends bytes to a file, and flushes them in one of the two ways.
pub fn append_in<F: FileFolder>(
    folder: &mut F,
    name: &str,
    bytes: &[u8],
    appending: Appending,
) -> Result<(), StoreFault>
    ensures { WhereFileSound F.sound F.directory name.now folder.old folder.new
        (λ old new. AppendsDisk old bytes.now result new) }
{
    match appending {
        Appending::AtOnce => append_flushed(folder, name, bytes),
        Appending::ByBlocks => append_blocks(folder, name, bytes),
    }
}

/// Cuts a file to its first bytes, and flushes it.
pub fn cut_flushed<F: FileFolder>(folder: &mut F, name: &str, len: u64) -> Result<(), StoreFault>
    ensures { WhereFileSound F.sound F.directory name.now folder.old folder.new
        (λ old new. CutsDisk old len result new) }
{
    folder.cut_to(name, len)?;
    folder.flush(name)
}

/// Appends bytes to a file that was made, and flushes it.
fn write_flushed<N: NewFile>(file: &mut N, bytes: &[u8]) -> Result<(), StoreFault>
    ensures { WhereFilesSound N.sound N.made file.old file.new
        (λ old new. OnOk result (new ≡ record { content = old.content ++ bytes.now; is_flushed = true })) }
{
    file.write(bytes)?;
    file.flush()
}

/// Makes a file of these bytes, flushes it, puts it under a name, and flushes the names. False if the file system
/// flushes no folders.
pub fn replace_flushed<F: FileFolder>(
    folder: &mut F,
    name: &str,
    bytes: &[u8],
) -> Result<bool, StoreFault>
    ensures { WhereFileSound F.sound F.directory name.now folder.old folder.new
        (λ old new. ReplacesDisk old bytes.now result new) }
{
    let mut file = folder.make(name)?;
    if let Err(fault) = write_flushed(&mut file, bytes) {
        folder.discard(file);
        return Err(fault);
    }
    folder.put(file, name)?;
    folder.flush_names()
}

/// Flushes a file and the names. False if the file system flushes no folders.
pub fn flush_both<F: FileFolder>(folder: &mut F, name: &str) -> Result<bool, StoreFault>
    ensures { WhereFileSound F.sound F.directory name.now folder.old folder.new
        (λ old new. FlushesBoth old result new) }
{
    folder.flush(name)?;
    folder.flush_names()
}
