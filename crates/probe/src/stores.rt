//! Calls of `mail_store` on a Maildir in a folder and on a file.

use crate::mbox;
use crate::record::{add_row, scan_rows};
use crate::stopwatch::Stopwatch;
use crate::trouble::{Result, Trouble};
use folder_store::{
    CallsFolders, FolderMaildir, HostFile, HostFolder, HostMaildir, MailFolders, NewFile,
    ProcessMark,
};
use mail_store::{FlatFile, MaildirDisk, account_id, deliver, file_stem, held};
use mail_terms::{Listing, UidRows, is_legal_id};
use std::alloc::Global;
use std::rt::Files;
use std::time::Clock;
use system_calls::{Refusals, System};

/// The id of message `number`, as the driver names its files.
fn id_of(alloc: Global, number: u32) -> Result<String> {
    Ok(format!(in alloc; "id-{number:05}")?)
}

/// The mark of this process.
pub fn mark_of(rt: &HostRuntime) -> Result<ProcessMark> {
    Ok(ProcessMark::new(rt.process(), rt)?)
}

/// The listing of messages 1 to `count`.
pub fn listing_of(alloc: Global, count: u32) -> Result<Listing> {
    let mut uids = UidRows::new(alloc);
    for number in 1..=count {
        add_row(&mut uids, number, id_of(alloc, number)?.as_bytes())?;
    }
    Ok(uids.join(alloc, count, &scan_rows(alloc, count)?)?)
}

// The types of real stores are large: they are made, and then moved into functions over any store, where they
// are lent to the calls.

/// Asks once which of `count` messages the Maildir holds. Prints how many, and the time.
fn time_held<D: MaildirDisk>(rt: &HostRuntime, disk: &mut D, count: u32) -> Result<()> {
    let listing = listing_of(rt.alloc(), count)?;
    let watch = Stopwatch::new(rt)?;
    let flags = held(
        rt.alloc(),
        disk,
        &account_id("bench", 110, "bench"),
        &listing,
    )?;
    watch.tell(rt, flags.iter().filter(|flag| **flag).count())
}

/// Delivers a text as message `number`.
fn deliver_one<D: MaildirDisk>(alloc: Global, disk: &mut D, number: u32, text: &[u8]) -> Result<()>
    requires { D.sound disk.old → ⊥ }
    ensures { D.sound disk.new → ⊥ }
{
    let id = id_of(alloc, number)?;
    if !is_legal_id(id.as_bytes()) {
        return Err(Trouble::Other);
    }
    let stem = file_stem(alloc, &account_id("bench", 110, "bench"), id.as_bytes())?;
    Ok(deliver(alloc, disk, stem.as_str(), text)?)
}

/// Delivers `count` texts of 2,048 bytes. Prints how many, and the time.
fn time_deliver<D: MaildirDisk>(rt: &HostRuntime, disk: &mut D, count: u32) -> Result<()>
    requires { D.sound disk.old → ⊥ }
{
    let text = Vec::from_elem(rt.alloc(), b'x', 2048)?;
    let watch = Stopwatch::new(rt)?;
    for number in 1..=count {
        deliver_one(rt.alloc(), disk, number, &text)?;
    }
    watch.tell(rt, count as usize)
}

/// Makes the calls of this name on a Maildir of which nothing is known.
fn use_maildir<D: MaildirDisk + Drop>(
    rt: &HostRuntime,
    call: &str,
    mut disk: D,
    count: u32,
) -> Result<()>
    requires { D.sound disk → ⊥ }
{
    match call {
        "held" => time_held(rt, &mut disk, count),
        "deliver" => time_deliver(rt, &mut disk, count),
        _ => Err(Trouble::Other),
    }
}

/// Makes the calls of this name on the Maildir of folders of which nothing is known.
fn use_folders<F: MailFolders<File = N> + Drop, N: NewFile + Drop>(
    rt: &HostRuntime,
    call: &str,
    folders: F,
    count: u32,
) -> Result<()>
    requires { F.sound folders → ⊥ }
{
    use_maildir(rt, call, FolderMaildir::over(rt.alloc(), folders), count)
}

/// Makes the calls of this name on the Maildir at a path of any file system, of which nothing is known.
fn use_maildir_over<R: Files + Clock + AllocGlobal + Clone + Drop>(
    rt: &HostRuntime,
    files: &R,
    call: &str,
    path: &str,
    count: u32,
) -> Result<()> {
    let mark = mark_of(rt)?;
    let refusals = Refusals::new(rt.alloc(), None);
    let system = System::new(files, &refusals);
    use_folders(
        rt,
        call,
        CallsFolders::of_maildir(&system, path, mark),
        count,
    )
}

/// Makes the calls of this name on the Maildir at a path.
pub fn use_maildir_at(rt: &HostRuntime, call: &str, path: &str, count: u32) -> Result<()> {
    use_maildir_over(rt, rt, call, path, count)
}

/// Replaces a file by a text, appends it and cuts that off again.
fn rewrite_once<F: FlatFile>(file: &mut F, text: &[u8]) -> Result<()> {
    file.replace(text)?;
    file.append(text)?;
    Ok(file.cut_to(text.len() as u64)?)
}

/// Rewrites a file `count` times with a text of 2,048 bytes.
fn rewrite<F: FlatFile>(rt: &HostRuntime, file: &mut F, count: u32) -> Result<()> {
    let text = Vec::from_elem(rt.alloc(), b'x', 2048)?;
    for _ in 0..count {
        rewrite_once(file, &text)?;
    }
    println!(rt; "{count}")?;
    Ok(())
}

/// Appends a text of `count` bytes to a file.
fn append_once<F: FlatFile>(rt: &HostRuntime, file: &mut F, count: u32) -> Result<()> {
    let text = Vec::from_elem(rt.alloc(), b'x', count as usize)?;
    file.edges()?;
    file.append(&text)?;
    println!(rt; "{count}")?;
    Ok(())
}

/// Makes the calls of this name on a file.
fn use_file<F: FlatFile + Drop>(
    rt: &HostRuntime,
    call: &str,
    path: &str,
    mut file: F,
    count: u32,
) -> Result<()> {
    match call {
        "rewrite" => rewrite(rt, &mut file, count),
        "append" => mbox::append(rt, path, &mut file, count),
        "blocks" => append_once(rt, &mut file, count),
        "texts" => mbox::time_texts(rt, &mut file),
        _ => Err(Trouble::Other),
    }
}

/// The file at a path, whose texts are appended block by block if the call is `blocks`, as to a record.
fn file_at<'a>(
    system: &'a System<'a, HostRuntime>,
    call: &str,
    path: &'a str,
    mark: ProcessMark,
) -> HostFile<'a, HostFolder<'a, HostRuntime>> {
    if call == "blocks" {
        HostFile::by_blocks(system, path, mark)
    } else {
        HostFile::at(system, path, mark)
    }
}

/// Makes the calls of this name on the file at a path. With `blocks` a text of `count` bytes is appended.
pub fn use_file_at(rt: &HostRuntime, call: &str, path: &str, count: u32) -> Result<()> {
    let mark = mark_of(rt)?;
    let refusals = Refusals::new(rt.alloc(), None);
    let system = System::new(rt, &refusals);
    let file = file_at(&system, call, path, mark);
    use_file(rt, call, path, file, count)
}

/// Removes what killed runs left in the Maildir at a path and beside the record in it.
pub fn sweep(rt: &HostRuntime, path: &str) -> Result<()> {
    let mark = mark_of(rt)?;
    let record = format!(in rt.alloc(); "{path}/seen")?;
    let refusals = Refusals::new(rt.alloc(), None);
    let system = System::new(rt, &refusals);
    HostFile::at(&system, record.as_str(), mark).sweep();
    HostMaildir::at(&system, path, mark).sweep(&account_id("bench", 110, "bench"));
    Ok(())
}
