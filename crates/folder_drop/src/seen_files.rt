//! Where the files of a Maildir were last seen, for those that aren't where they were listed.
ghost use Rattle.std.specs.{
  List.{AllWithin, HoldsAt},
  Prelude.{◌≡◌, ◌≢◌, ◌≤◌, ◌<◌, ◌&&◌, if◌then◌else◌, None, Some, false, length, not, true, is_some, IfNone, IfSome},
};
ghost use Rattle.folder_drop.specs.{
  Places.{AreInOrder, base_of_file},
  SeenFiles.{HaveBase, NoneHasBase, those_seen},
};

use crate::maildir_names::PlacedFile;

/// How many files have this base before the first that hasn't.
fn count_with(files: &[PlacedFile], base: &str) -> usize
    ensures within { result ≤ length files.now }
    ensures have { AllWithin (λ file. base_of_file file ≡ base.now) files.now 0 result }
    ensures stops { result < length files.now → HoldsAt (λ file. base_of_file file ≢ base.now) files.now result }
{
    for (i, file) in files.iter().enumerate() {
        if file.base() != base {
            return i;
        }
    }
    files.len()
}

/// Those of files in order that have this base.
fn with_base_among<'a>(files: &'a [PlacedFile], base: &str) -> &'a [PlacedFile]
    requires { AreInOrder files.now }
    ensures { HaveBase base.now files.now result.now }
{
    let start = files.partition_point(|file| file.base() < base);
    let rest = &files[start..];
    let count = count_with(rest, base);
    &rest[..count]
}

/// The files that were seen when one was last looked for.
#[derive(Drop)]
pub struct SeenFiles {
    /// In their order. None before the first look.
    files: Option<Vec<PlacedFile>>,
    ghost in_order: { AreInOrder (those_seen files) },
    /// Whether the removals of a session have begun.
    are_removed: bool,
}

impl SeenFiles {
    /// No files: none was looked for yet.
    pub fn none() -> SeenFiles
        ensures { (result.files ≡ None) × (result.are_removed ≡ false) }
    {
        SeenFiles {
            files: None,
            are_removed: false,
        }
    }

    /// Replaces what was seen before.
    pub fn renew(&mut self, files: Vec<PlacedFile>)
        requires { AreInOrder files.items }
        ensures files { self.new.files ≡ Some files }
        ensures removed { self.new.are_removed ≡ self.old.are_removed }
    {
        self.files = Some(files);
    }

    /// The files that were seen, in their order. None before the first look.
    fn files(&self) -> &[PlacedFile]
        ensures { result.now ≡ those_seen self.now.files }
    {
        match &self.files {
            Some(files) => files.as_slice(),
            None => &[],
        }
    }

    /// The files that were seen with this base, in their order.
    pub fn with_base(&self, base: &str) -> &[PlacedFile]
        ensures { HaveBase base.now (those_seen self.now.files) result.now }
    {
        with_base_among(self.files(), base)
    }

    /// The first file that was seen with this base.
    pub fn first_with(&self, base: &str) -> Option<&PlacedFile>
        ensures found { IfSome result (λ file. base_of_file file.now ≡ base.now) }
        ensures none { IfNone result (NoneHasBase base.now (those_seen self.now.files)) }
    {
        self.with_base(base).first()
    }

    /// Whether the removals of a session have begun.
    pub fn are_removed(&self) -> bool
        ensures { result ≡ self.now.are_removed }
    {
        self.are_removed
    }

    /// Forgets what was seen before the removals of a session: one look is enough for all of them. Returns whether
    /// they only begin now.
    pub fn begin_removals(&mut self) -> bool
        ensures first { result ≡ not self.old.are_removed }
        ensures begun { self.new.are_removed ≡ true }
        ensures files { self.new.files ≡ (if self.old.are_removed then self.old.files else None) }
    {
        if self.are_removed {
            return false;
        }
        *self = SeenFiles {
            files: None,
            are_removed: true,
        };
        true
    }

    /// Whether there was a look since the removals began: a file that it didn't see is gone.
    pub fn tells_all(&self) -> bool
        ensures { result ≡ (self.now.are_removed && is_some self.now.files) }
    {
        self.are_removed && self.files.is_some()
    }
}
