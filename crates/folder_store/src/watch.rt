//! Whether a watched file is as this process left it.

ghost use Rattle.std.specs.Prelude.{◌≡◌, IfErr, None, Some, if◌then◌else◌, is_some};
ghost use Rattle.folder_store.specs.{Calls.IsAbsent, Watch.{ChecksLeft, NotesLeft, file_state_of}};

use crate::calls::FileStat;
use crate::file_state::FileState;
use crate::host_paths::HostPaths;
use system_calls::Denial;

/// Why a watched file isn't used any more.
pub const CHANGED: &str = "changed by another program";

/// A file that may be watched: then it is neither measured nor changed once another program has changed it.
#[derive(Drop)]
pub struct Watch {
    watches: bool,
    /// How the file was seen first, or left by the last change here.
    left: Option<FileState>,
}

impl Watch {
    /// Nothing was seen yet.
    pub fn new(watches: bool) -> Watch
        ensures { result ≡ record { watches = watches; left = None } }
    {
        Watch {
            watches,
            left: None,
        }
    }

    /// Forgets how the file was left.
    pub fn forget(&mut self)
        ensures { self.new ≡ record self.old { left = None } }
    {
        self.left = None;
    }

    /// Whether it is watched.
    pub fn watches(&self) -> bool
        ensures { result ≡ self.now.watches }
    {
        self.watches
    }

    /// Whether a change is to be noted: the file was seen.
    pub fn is_set(&self) -> bool
        ensures { result ≡ is_some self.now.left }
    {
        self.left.is_some()
    }

    /// Takes note of how the file was left by this process itself, if it is watched.
    pub fn leave(&mut self, found: &FileStat)
        ensures { self.new ≡ (if self.old.watches
            then record self.old { left = Some (file_state_of found.now) } else self.old) }
    {
        if self.watches {
            self.left = Some(FileState::of(found));
        }
    }

    /// A watched file must be as it was left.
    pub fn check(
        &mut self,
        paths: &HostPaths<'_>,
        name: &str,
        found: &FileStat,
    ) -> Result<(), Denial>
        ensures fault { IfErr result (λ d. IsAbsent d → ⊥) }
        ensures checks { ChecksLeft self.old.watches self.old.left (file_state_of found.now) result self.new.left }
        ensures watches { self.new.watches ≡ self.old.watches }
    {
        if !self.watches {
            return Ok(());
        }
        let state = FileState::of(found);
        if self.left.unwrap_or(state) != state {
            return Err(paths.refusal(name, CHANGED));
        }
        self.left = Some(state);
        Ok(())
    }

    /// Takes note of the file after a change that added `more` octets to it, or none. If its size isn't what that left,
    /// another program has changed it too.
    pub fn note(
        &mut self,
        paths: &HostPaths<'_>,
        name: &str,
        found: &FileStat,
        more: u64,
    ) -> Result<(), Denial>
        ensures notes { NotesLeft self.old.left (file_state_of found.now) more result self.new.left }
        ensures watches { self.new.watches ≡ self.old.watches }
    {
        let Some(left) = self.left else {
            return Ok(());
        };
        let state = FileState::of(found);
        if !state.grew_by(left, more) {
            return Err(paths.refusal(name, CHANGED));
        }
        self.left = Some(state);
        Ok(())
    }
}
