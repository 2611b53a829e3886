//! When the folders of a Maildir were last changed, and how long an earlier listing of them stays valid.
ghost use Rattle.std.specs.Prelude.{◌≡◌, ◌↔◌, IsTrue};
ghost use Rattle.folder_drop.specs.{declared.folders_look.FoldersLook.FoldersLook, FoldersLook.IsUnchanged};

use folder_store::ChangeTime;

/// How long ago a folder must have been changed, so that each later change gives it a different time:
/// no file system's clock ticks in longer steps.
const REST_SECONDS: u64 = 2;

/// How long a listing stays valid while the folders don't change: for this long the server may miss
/// that a file was changed in place.
const VALID_SECONDS: u64 = 3_600;

/// A look at both folders: their times of change, and when it was, in seconds since 1970.
#[derive(Clone, Copy)]
pub struct FoldersLook {
    pub new: ChangeTime,
    pub cur: ChangeTime,
    pub at: u64,
}

impl FoldersLook {
    /// No look: no listing is valid after it.
    pub fn none() -> FoldersLook
        ensures { (later : FoldersLook) → IsUnchanged result later → ⊥ }
    {
        let never = ChangeTime {
            seconds: 0,
            nanoseconds: 0,
        };
        FoldersLook {
            new: never,
            cur: never,
            at: 0,
        }
    }

    /// Whether a listing that was made after this look is still valid at a later look: the folders were
    /// at rest and haven't changed since, and the listing isn't too old.
    pub fn is_unchanged_at(&self, later: &FoldersLook) -> bool
        ensures { IsTrue result ↔ IsUnchanged self.now later.now }
    {
        let rested_before = self.at.saturating_sub(REST_SECONDS);
        self.new.seconds < rested_before
            && self.cur.seconds < rested_before
            && later.new == self.new
            && later.cur == self.cur
            && self.at <= later.at
            && later.at - self.at < VALID_SECONDS
    }
}
