//! The files that a folder of a file system has open.

ghost use Rattle.std.specs.{Prelude.{◌≡◌, ◌↔◌, IfNone, IfSome, IsTrue, None, Some, string_bytes}, Option.option_or};
ghost use Rattle.folder_store.specs.Handles.{KeepsHandle, IsTheOne, KeepsOrCloses};

use crate::calls::FileStat;
use crate::watch::Watch;

/// The handle by which a file is changed, which appends, and the file's name.
#[derive(Drop)]
pub struct Changed<F> {
    pub file: F,
    pub name: String,
}

/// A folder itself, open, and which one it is.
#[derive(Drop)]
pub struct Names<F> {
    pub folder: F,
    pub device: u64,
    pub inode: u64,
}

impl<F> Names<F> {
    /// Whether this is the folder that the system reports.
    pub fn is_of(&self, found: &FileStat) -> bool
        ensures { IsTrue result ↔ IsTheOne self.now found.now }
    {
        self.device == found.device && self.inode == found.inode
    }
}

/// The files of a folder that are open, and how a watched one was left.
#[derive(Drop)]
pub struct Handles<F> {
    pub changed: Option<Changed<F>>,
    /// Whether the handle of the file that was changed last is kept for its next change.
    pub keeps_handle: bool,
    /// The one file that is used here, if it is watched.
    pub watch: Watch,
    /// The folder itself, from its first flush on.
    pub names: Option<Names<F>>,
    /// The path of a folder whose names weren't flushed, because the system flushes no folders: of this one, or of one
    /// that holds what a link leads to.
    pub unflushed: Option<String>,
}

impl<F: Drop> Handles<F> {
    /// Nothing is open.
    pub fn new(keeps_handle: bool, watches: bool) -> Handles<F>
        ensures { (result.changed ≡ None) × (result.names ≡ None) }
    {
        Handles {
            changed: None,
            keeps_handle,
            watch: Watch::new(watches),
            names: None,
            unflushed: None,
        }
    }

    /// Keeps the handle of a file that was changed.
    pub fn keep(&mut self, changed: Changed<F>)
        ensures { (self.new.changed ≡ Some changed) × (self.new.names ≡ self.old.names)
            × (self.new.watch ≡ self.old.watch) }
    {
        self.changed = Some(changed);
    }

    /// The same after a flush, if such handles are kept for the next change. Else, and after a fault, it is closed.
    pub fn keep_flushed(&mut self, changed: Changed<F>, is_flushed: bool)
        ensures { KeepsOrCloses self.old self.new changed }
    {
        if self.keeps_handle && is_flushed {
            self.keep(changed);
        } else {
            self.changed = None;
        }
    }

    /// Takes note of the path of a folder that the system doesn't flush, unless one is known.
    pub fn note_unflushed(&mut self, unflushed: Option<String>)
        ensures { self.new ≡ record self.old { unflushed = option_or self.old.unflushed unflushed } }
    {
        if self.unflushed.is_none() {
            self.unflushed = unflushed;
        }
    }

    /// Keeps the folder open, after its names were flushed.
    pub fn keep_names(&mut self, names: Names<F>)
        ensures { self.new ≡ record self.old { names = Some names } }
    {
        self.names = Some(names);
    }

    /// Closes the file that was changed last, before another is put under a name, and forgets how it was
    /// left.
    pub fn forget_changed(&mut self)
        ensures { (self.new.changed ≡ None) × (self.new.names ≡ self.old.names) }
    {
        self.changed = None;
        self.watch.forget();
    }

    /// The handle kept from the file's last change, if it is. Another is closed.
    pub fn take_kept(&mut self, name: &str) -> Option<Changed<F>>
        ensures taken { self.new ≡ record self.old { changed = None } }
        ensures kept { IfSome result (KeepsHandle self.old name.now) }
        ensures none { IfNone result ((c : Changed F) → KeepsHandle self.old name.now c → ⊥) }
    {
        let changed = self.take_changed(name)?;
        if self.keeps_handle {
            Some(changed)
        } else {
            None
        }
    }

    /// The handle by which a file was changed last, if it is this one. Another is closed.
    pub fn take_changed(&mut self, name: &str) -> Option<Changed<F>>
        ensures taken { self.new ≡ record self.old { changed = None } }
        ensures last { IfSome result (λ c. (self.old.changed ≡ Some c) × (string_bytes c.name ≡ name.now)) }
        ensures none { IfNone result ((c : Changed F) → self.old.changed ≡ Some c
            → string_bytes c.name ≡ name.now → ⊥) }
    {
        let changed = self.changed.take()?;
        if changed.name.as_str() == name {
            Some(changed)
        } else {
            None
        }
    }
}
