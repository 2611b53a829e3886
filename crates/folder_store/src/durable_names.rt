//! What a Maildir does to its folders in several calls.

ghost use Rattle.std.specs.Prelude.{IfErr, IfSome};
ghost use Rattle.mail_store.specs.{Fault.IsDeviceFault, Held.asks};
ghost use Rattle.folder_store.specs.{
  MailCalls.{ListedBoth, PutsDurably, TellsOfBoth, TellsOne, ToldBoth},
  Sound.WhereFilesSound,
};

use crate::file_folder::NewFile;
use crate::mail_folders::{FoundNames, MailFolders, Sought};
use mail_store::{Asked, Folder, StoreFault};

/// How many times the folders are listed for one answer.
const MOST_LISTINGS: u32 = 100;

/// The names of `new` and of `cur` that are sought, whatever they lead to. None if `new` changed meanwhile, as it did
/// this many times before: a reader may then have moved a file from the folder that wasn't listed yet to the one that
/// was.
fn look_at_both<F: MailFolders>(
    folders: &mut F,
    sought: Sought<'_>,
    times: u32,
) -> Result<Option<(Vec<String>, Vec<String>)>, StoreFault>
    ensures looks { WhereFilesSound F.sound F.directories folders.old folders.new
        (λ old new. TellsOfBoth old result new (λ names d. IfSome names (λ names. ListedBoth sought.entry names d))) }
    ensures fault { IfErr result IsDeviceFault }
{
    let in_new = folders.list(Folder::New, sought)?;
    let in_cur = folders.list(Folder::Cur, sought)?;
    if !folders.rests(Folder::New, times)? {
        return Ok(None);
    }
    Ok(Some((in_new, in_cur)))
}

/// Of the names of `new` and of `cur` at one moment those that are sought, whatever they lead to. Refused if readers
/// change `new` all the time.
pub fn list_both<F: MailFolders>(
    folders: &mut F,
    sought: Sought<'_>,
) -> Result<(Vec<String>, Vec<String>), StoreFault>
    ensures lists { WhereFilesSound F.sound F.directories folders.old folders.new
        (λ old new. TellsOfBoth old result new (ListedBoth sought.entry)) }
    ensures fault { IfErr result IsDeviceFault }
{
    for times in 0..MOST_LISTINGS {
        if let Some(names) = look_at_both(folders, sought, times)? {
            return Ok(names);
        }
    }
    Err(StoreFault::Refused)
}

/// What the names of `new` and of `cur` at one moment that have the stem of an item that is asked for lead to, once
/// all are durable.
pub fn told_names<F: MailFolders>(
    folders: &mut F,
    asked: Asked<'_>,
) -> Result<FoundNames, StoreFault>
    ensures tells { WhereFilesSound F.sound F.directories folders.old folders.new
        (λ old new. TellsOfBoth old result new
        (λ found. ToldBoth (asks asked.entry) found.files.items found.odd.items)) }
    ensures fault { IfErr result IsDeviceFault }
{
    let (in_new, in_cur) = list_both(folders, Sought::Items(asked))?;
    folders.flush_names(Folder::New)?;
    folders.flush_names(Folder::Cur)?;
    folders.files_among(in_new, in_cur)
}

/// The names of a folder's files, once they are durable.
pub fn told_names_of<F: MailFolders>(
    folders: &mut F,
    folder: Folder,
) -> Result<Vec<String>, StoreFault>
    ensures tells { WhereFilesSound F.sound F.directories folders.old folders.new
        (λ old new. TellsOne old folder result new) }
    ensures fault { IfErr result IsDeviceFault }
{
    let names = folders.list(folder, Sought::All)?;
    folders.flush_names(folder)?;
    Ok(names)
}

/// Flushes a file that was made, puts it into `new` under a name, and flushes the names of `new`. Refused
/// if something in `new` has the name. False if the file system flushes no folders.
pub fn put_durably<F: MailFolders>(
    folders: &mut F,
    file: F::File,
    name: &str,
) -> Result<bool, StoreFault>
    ensures { WhereFilesSound F.sound F.directories folders.old folders.new
        (λ old new. F.File.sound file × PutsDurably old (F.File.made file).content name.now result new) }
{
    let mut file = file;
    if let Err(fault) = file.flush() {
        folders.discard(file);
        return Err(fault);
    }
    folders.put(file, name)?;
    folders.flush_names(Folder::New)
}
