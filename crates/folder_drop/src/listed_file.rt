//! The files of a Maildir whose messages are listed, and their sizes as messages.
ghost use Rattle.std.specs.{
  Fs.metadata_len,
  Prelude.{◌≡◌, ◌<◌, ◌↔◌, IfOk, IfSome, IsTrue, length},
  String.string_bytes,
};
ghost use Rattle.mail_terms.specs.MaildirName.{base as base_of};
ghost use Rattle.pop3_server.specs.Size.{capped, size_of};
ghost use Rattle.folder_drop.specs.{CountedSizes.{ComeFrom, WasCounted}, RealMaildir.listed_name};

use crate::maildir_names::{FileNumber, Folder, PlacedFile, Stamp};
use mail_terms::base;
use pop3_server::SizeCount;
use std::fs::Metadata;
use std::io::{self, ErrorKind, Read};
use std::time::{Duration, UNIX_EPOCH};

/// How many octets of a file are read at a time.
pub const PIECE: usize = 65_536;

/// The place of a listed message's file, its stamp when its size was counted, and that size, with each line's end
/// counted as two octets.
#[derive(Drop)]
pub struct ListedFile {
    pub folder: Folder,
    pub name: String,
    pub stamp: Stamp,
    pub size: u64,
}

impl ListedFile {
    /// A file that was found, its stamp and its size.
    pub fn of(found: PlacedFile, stamp: Stamp, size: u64) -> ListedFile
        ensures { result ≡ record { folder = found.folder; name = found.name; stamp = stamp; size = size } }
    {
        let PlacedFile { folder, name, .. } = found;
        ListedFile {
            folder,
            name,
            stamp,
            size,
        }
    }

    /// The counted size, if the file hasn't changed since.
    fn size_at(&self, stamp: Stamp) -> Option<u64>
        ensures { IfSome result (λ size. (size ≡ self.now.size) × (stamp ≡ self.now.stamp)) }
    {
        if self.stamp == stamp {
            Some(self.size)
        } else {
            None
        }
    }

    /// The base of its name.
    pub fn base(&self) -> &str
        ensures { result.now ≡ base_of (listed_name self.now) }
    {
        base(self.name.as_str())
    }

    /// Whether its place is that of a file that was found.
    pub fn is_same(&self, found: &PlacedFile) -> bool
        ensures { IsTrue result ↔ (self.now.folder ≡ found.now.folder)
            × (string_bytes self.now.name ≡ string_bytes found.now.name) }
    {
        self.folder == found.folder && self.name.as_str() == found.name.as_str()
    }

    /// Whether it comes before a file that was found.
    fn is_before(&self, found: &PlacedFile) -> bool {
        (self.base().as_bytes(), self.folder, self.name.as_bytes()) < found.place()
    }
}

/// The stamp of a file. A time that is before 1970, or that the system doesn't give, counts as 1970.
pub fn stamp_of(metadata: &Metadata) -> Stamp
    ensures { result.length ≡ metadata_len metadata.now }
{
    let passed = match metadata.modified() {
        Ok(modified) => modified.duration_since(UNIX_EPOCH).ok(),
        Err(_) => None,
    };
    Stamp::at(
        FileNumber::of(metadata),
        metadata.len(),
        passed.unwrap_or(Duration::ZERO),
    )
}

/// Sizes that were counted for an earlier listing, in the order in which files are listed. They have to
/// be asked for in that order too.
#[derive(Drop)]
pub struct CountedSizes<'a> {
    files: &'a [ListedFile],
}

impl<'a> CountedSizes<'a> {
    /// The sizes of these files.
    pub fn new(files: &'a [ListedFile]) -> CountedSizes<'a>
        ensures { result.files.now ≡ files.now }
    {
        CountedSizes { files }
    }

    /// The counted size of a file that was found with this stamp, if there is one and the file is as it was
    /// then. Files that come before it are skipped.
    pub fn size_of(&mut self, found: &PlacedFile, stamp: Stamp) -> Option<u64>
        ensures counted { IfSome result (λ size. WasCounted self.old.files.now found.now stamp size) }
        ensures rest { ComeFrom self.new.files.now self.old.files.now }
    {
        while let [file, rest @ ..] = self.files {
            if file.is_same(found) {
                return file.size_at(stamp);
            }
            if !file.is_before(found) {
                return None;
            }
            self.files = rest;
        }
        None
    }
}

/// The size of a file as a message. The file is read in pieces to its end.
pub fn count_size<F: Read>(file: &mut F, piece: &mut [u8]) -> io::Result<u64>
    requires { 0 < length piece.old }
    ensures { IfOk result (λ size. IfSome (F.remaining file.old) (λ text. size ≡ capped (size_of text))) }
{
    let mut count = SizeCount::new();
    for _ in 0..u64::MAX {
        let n = file.read(piece)?;
        if n == 0 {
            return Ok(count.size());
        }
        count.add(&piece[..n]);
    }
    Err(io::Error::from(ErrorKind::FileTooLarge))
}
