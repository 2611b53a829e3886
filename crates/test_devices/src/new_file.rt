//! A file in memory that was made and has no name yet.

ghost use Rattle.test_devices.specs.MemoryFolder.{made_of};

use folder_store::NewFile;
use mail_store::StoreFault;
use std::alloc::Global;

/// A file in memory that was made and has no name yet. A call is refused only if memory runs out.
#[derive(Drop)]
pub struct MemoryNewFile {
    pub content: Vec<u8>,
    pub is_flushed: bool,
}

impl MemoryNewFile {
    ghost use Rattle.std.specs.Prelude.{◌≡◌};
    ghost use Rattle.folder_store.specs.FileFolder.{empty_made};

    /// A file without bytes.
    pub fn new(alloc: Global) -> MemoryNewFile
        ensures { made_of result ≡ empty_made }
    {
        MemoryNewFile {
            content: Vec::new(alloc),
            is_flushed: false,
        }
    }
}

impl NewFile for MemoryNewFile {
    ghost made = { made_of };

    ghost sound = { λ _. Unit {0} };

    fn write(&mut self, bytes: &[u8]) -> Result<(), StoreFault> {
        self.is_flushed = false;
        match self.content.extend_from_slice(bytes) {
            Ok(()) => Ok(()),
            Err(_) => Err(StoreFault::Refused),
        }
    }

    fn flush(&mut self) -> Result<(), StoreFault> {
        self.is_flushed = true;
        Ok(())
    }
}
