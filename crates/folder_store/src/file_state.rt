//! Whether a file is as this process left it.

ghost use Rattle.std.specs.Prelude.{◌≡◌, ◌↔◌, IsTrue};
ghost use Rattle.folder_store.specs.Watch.{Grew, file_state_of};

use crate::calls::FileStat;
use crate::exact_listing::ChangeTime;

/// Which file it is, its size and its time of change.
#[derive(Clone, Copy, PartialEq, Eq)]
pub struct FileState {
    device: u64,
    inode: u64,
    size: u64,
    change: ChangeTime,
}

impl FileState {
    /// The state of the file that the system reports this of.
    pub fn of(file: &FileStat) -> FileState
        ensures { result ≡ file_state_of file.now }
    {
        FileState {
            device: file.device,
            inode: file.inode,
            size: file.len,
            change: file.change,
        }
    }

    /// Whether it is the same file, of `more` octets more than in the other state.
    pub fn grew_by(self, old: FileState, more: u64) -> bool
        ensures { IsTrue result ↔ Grew old self more }
    {
        self.device == old.device
            && self.inode == old.inode
            && Some(self.size) == old.size.checked_add(more)
    }
}
