//! Laws of losses of power: a function here does nothing, and its contract is the law.
ghost use Rattle.test_devices.specs.Losses.{FilesAreLost, MailIsLost};

use crate::memory_folder::MemoryFolder;
use crate::memory_folders::{MemoryFolderMaildir, MemoryFolders};
use crate::new_file::MemoryNewFile;
use folder_store::{HostFile, new_maildirs_keep_mail};
use mail_store::{FlatFile, MaildirDisk, durable_files_are_left};

/// A loss of power may take each file of a Maildir in memory whose name isn't durable.
pub fn mail_is_lost()
    ensures { MailIsLost ⟦<MemoryFolderMaildir as MaildirDisk>⟧ }
{
    new_maildirs_keep_mail::<MemoryNewFile, MemoryFolders>();
}

/// Whatever may be left of a file in memory is left by some loss of power.
pub fn files_are_lost<'a>()
    ensures { FilesAreLost ⟦<HostFile<'a, MemoryFolder> as FlatFile>⟧ }
{
    durable_files_are_left();
}
