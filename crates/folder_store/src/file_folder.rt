//! What the devices of the file system ask of it.

use mail_store::{Edges, StoreFault};

/// A file that was made and has no name in a folder yet.
pub trait NewFile {
    ghost use Rattle.std.specs.Prelude.{◌≡◌, ◌++◌, false, true, OnOk};
    ghost use Rattle.folder_store.specs.FileFolder.{MadeFile};

    // What it holds, and whether that is durable.
    ghost made: { Self → MadeFile };

    // The premise: so far the file system did what its calls promise. If it holds after a call, it held
    // before.
    ghost sound: { Self → Type 0 };

    /// Appends bytes. If refused, the file may hold anything.
    fn write(&mut self, bytes: &[u8]) -> Result<(), StoreFault>
        ensures { sound self.new → sound self.old × OnOk result (made self.new
            ≡ record { content = (made self.old).content ++ bytes.now; is_flushed = false }) };

    /// Flushes the bytes.
    fn flush(&mut self) -> Result<(), StoreFault>
        ensures { sound self.new → sound self.old
            × OnOk result (made self.new ≡ record (made self.old) { is_flushed = true }) };
}

/// What is known of a folder of a file system.
pub trait FolderState {
    ghost use Rattle.folder_store.specs.FileFolder.{Directory};

    // What calls see of the folder, and what is durable.
    ghost directory: { Self → Directory };

    // The premise: so far the file system did what the folder's calls promise, and flushed it when it was asked to.
    // If it holds after a call, it held before.
    ghost sound: { Self → Type 0 };
}

/// A folder of a file system, any of whose calls may be refused.
///
/// A file is made without a name in the folder, at a place that no other call sees, and then put
/// under a name at one step. No call removes a file that has a name.
pub trait FileFolder: FolderState {
    ghost use Rattle.std.specs.Prelude.{◌≡◌, ◌≤◌, length, IfErr, IfOk};
    ghost use Rattle.mail_store.specs.Fault.{IsDeviceFault};
    ghost use Rattle.folder_store.specs.FileFolder.{AppendsTo, CutsTo, FlushesFile, FlushesNames, Makes, PutsFile};
    ghost use Rattle.folder_store.specs.FileFolder.{MeasuresFile, ReadsFile, ReadsPiece, TellsFileSize};

    // It can't be let go: whoever makes one puts it or gives it up.
    type File: NewFile;

    /// Makes a file, which its owner alone can read. The name tells it from others that were made.
    /// Missing if the place for such files isn't there.
    fn make(&mut self, name: &str) -> Result<Self::File, StoreFault>
        ensures makes { Self.sound self.new → Self.sound self.old × (Self.directory self.new ≡ Self.directory self.old)
            × (IfOk result Self.File.sound → Makes Self.File.made (Self.directory self.old).can_make result) }
        ensures fault { IfErr result IsDeviceFault };

    /// Puts a file that was made under a name, in the place of another, if there is one.
    fn put(&mut self, file: Self::File, name: &str) -> Result<(), StoreFault>
        ensures { Self.sound self.new → Self.sound self.old
            × PutsFile (Self.File.sound file) (Self.directory self.old) (Self.File.made file) name.now result
            (Self.directory self.new) };

    /// Gives up a file that was made.
    fn discard(&mut self, file: Self::File)
        ensures { Self.sound self.new → Self.sound self.old
            × (Self.directory self.new ≡ Self.directory self.old) };

    /// The bytes of a file. Missing if there is none.
    fn read(&mut self, name: &str) -> Result<Vec<u8>, StoreFault>
        ensures reads { Self.sound self.new → Self.sound self.old
            × ReadsFile (Self.directory self.old) name.now result (Self.directory self.new) }
        ensures fault { IfErr result IsDeviceFault };

    /// The size of a file and its ends. Missing if there is none.
    fn edges(&mut self, name: &str) -> Result<Edges, StoreFault>
        ensures measures { Self.sound self.new → Self.sound self.old
            × MeasuresFile (Self.directory self.old) name.now result (Self.directory self.new) }
        ensures fault { IfErr result IsDeviceFault };

    /// Puts the bytes of a file from `start` on at the front of a buffer, and returns how many: as
    /// many as there are and fit. Missing if there is no file, else Refused: the buffer may then
    /// hold anything.
    fn read_at(&mut self, name: &str, start: u64, buf: &mut [u8]) -> Result<usize, StoreFault>
        ensures within { IfOk result (λ count. count ≤ length buf.new) }
        ensures reads { Self.sound self.new → Self.sound self.old
            × ReadsPiece (Self.directory self.old) name.now start result buf.new (Self.directory self.new) }
        ensures fault { IfErr result IsDeviceFault };

    /// How many bytes a file has. Missing if there is none.
    fn size(&mut self, name: &str) -> Result<u64, StoreFault>
        ensures { Self.sound self.new → Self.sound self.old
            × TellsFileSize (Self.directory self.old) name.now result (Self.directory self.new) };

    /// Appends bytes to a file.
    fn append(&mut self, name: &str, bytes: &[u8]) -> Result<(), StoreFault>
        ensures { Self.sound self.new → Self.sound self.old
            × AppendsTo (Self.directory self.old) name.now bytes.now result (Self.directory self.new) };

    /// Cuts a file to its first bytes. May be refused if it has fewer.
    fn cut_to(&mut self, name: &str, len: u64) -> Result<(), StoreFault>
        ensures { Self.sound self.new → Self.sound self.old
            × CutsTo (Self.directory self.old) name.now len result (Self.directory self.new) };

    /// Flushes the bytes of a file.
    fn flush(&mut self, name: &str) -> Result<(), StoreFault>
        ensures { Self.sound self.new → Self.sound self.old
            × FlushesFile (Self.directory self.old) name.now result (Self.directory self.new) };

    /// Flushes the names. False if the file system flushes no folders: then no name is known to be durable, and the
    /// premise holds no more.
    fn flush_names(&mut self) -> Result<bool, StoreFault>
        ensures { Self.sound self.new → Self.sound self.old
            × FlushesNames (Self.directory self.old) result (Self.directory self.new) };
}
