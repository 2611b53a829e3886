//! The paths of a folder of the machine's file system.

ghost use Rattle.std.specs.{
  Prelude.{◌≡◌, ◌++◌, IfErr, IfOk, string_bytes},
  Path.path_buf_bytes,
};
ghost use Rattle.folder_store.specs.{
  Calls.IsAbsent,
  HostPaths.{IsNoAnswer, folder_of, path_named, path_of_file, path_of_folder, with_process_mark},
};

use crate::process_mark::ProcessMark;
use std::alloc::Global;
use std::path::PathBuf;
use system_calls::Denial;

/// Where a folder and its files are.
#[derive(Clone, Copy)]
pub struct HostPaths<'a> {
    pub alloc: Global,
    /// The path that those of the next two folders begin with.
    pub base: &'a str,
    /// The folder, empty if it is that of the path.
    pub folder: &'a str,
    /// The folder in which files are made, likewise.
    pub scratch: &'a str,
    /// What comes after the name of a file that is made, before the mark.
    pub suffix: &'a str,
    pub mark: ProcessMark,
}

impl<'a> HostPaths<'a> {
    // The path of a folder, made with room for so many octets more.
    fn path_in(&self, folder: &str, more: usize) -> Result<PathBuf, Denial>
        ensures path { IfOk result (λ path. path_buf_bytes path ≡ path_of_folder self.now.base.now folder.now) }
        ensures fault { IfErr result IsNoAnswer }
    {
        let room = self
            .base
            .len()
            .saturating_add(folder.len())
            .saturating_add(more);
        let mut base = String::with_capacity(self.alloc, room.saturating_add(2))?;
        base.push_str(self.base)?;
        let mut path = PathBuf::from(base);
        if folder.is_empty() {
            return Ok(path);
        }
        path.push(folder)?;
        Ok(path)
    }

    // The path of a name in a folder, with text behind it.
    fn file_path(&self, folder: &str, name: &str, suffix: &str) -> Result<String, Denial>
        ensures path { IfOk result (λ path. string_bytes path
            ≡ path_of_file self.now.base.now folder.now name.now ++ suffix.now) }
        ensures fault { IfErr result (λ d. IsAbsent d → ⊥) }
    {
        let mut path = self.path_in(folder, name.len().saturating_add(suffix.len()))?;
        path.push("")?;
        let mut path = path.into_string();
        path.push_str(name)?;
        path.push_str(suffix)?;
        Ok(path)
    }

    /// The path of the folder.
    pub fn folder_path(&self) -> Result<String, Denial>
        ensures path { IfOk result (λ path. string_bytes path ≡ folder_of self.now) }
        ensures fault { IfErr result IsNoAnswer }
    {
        Ok(self.path_in(self.folder, 0)?.into_string())
    }

    /// The path of the folder in which files are made.
    pub fn scratch_path(&self) -> Result<String, Denial>
        ensures { IfOk result (λ path. string_bytes path ≡ path_of_folder self.now.base.now self.now.scratch.now) }
    {
        Ok(self.path_in(self.scratch, 0)?.into_string())
    }

    /// The path of a file.
    pub fn path_of(&self, name: &str) -> Result<String, Denial>
        ensures path { IfOk result (λ path. string_bytes path ≡ path_named self.now name.now) }
        ensures fault { IfErr result (λ d. IsAbsent d → ⊥) }
    {
        self.file_path(self.folder, name, "")
    }

    /// The path of a file that is made to be put under a name.
    pub fn made_path(&self, name: &str) -> Result<String, Denial>
        ensures path { IfOk result
            (λ path. string_bytes path ≡ path_of_file self.now.base.now self.now.scratch.now name.now
            ++ with_process_mark self.now.mark self.now.suffix.now) }
        ensures fault { IfErr result (λ d. IsAbsent d → ⊥) }
    {
        let mark = self.mark.marked(self.alloc, self.suffix)?;
        self.file_path(self.scratch, name, mark.as_str())
    }

    /// Why a file isn't used.
    pub fn refusal(&self, name: &str, words: &str) -> Denial
        ensures { IsAbsent result → ⊥ }
    {
        match self.path_of(name) {
            Ok(path) => Denial::because(self.alloc, path.as_str(), words),
            Err(denial) => denial,
        }
    }

    /// Why the folder isn't used.
    pub fn folder_refusal(&self, words: &str) -> Denial
        ensures { IsNoAnswer result }
    {
        match self.folder_path() {
            Ok(path) => Denial::because(self.alloc, path.as_str(), words),
            Err(denial) => denial,
        }
    }
}
