//! The folders and files of a Maildir, and the unique-id for a file's name.
ghost use Rattle.std.specs.{
  Duration.as_nanos,
  IoError.error_kind,
  Prelude.{◌≡◌, ◌/◌, ◌%◌, true, false, length, IsTrue, IfErr, IfOk, OnOk, string_bytes},
  List.list_all,
};
ghost use Rattle.mail_terms.specs.{MaildirName.base as base_of, UniqueId.{is_legal_id, is_id_byte}};
ghost use Rattle.folder_drop.specs.MaildirNames.{folder_name, id_of, is_listable_name, maildir_folder, IsIdKey};
ghost use Rattle.hex.specs.Hex.{encode_lower};
ghost use Rattle.sha2.specs.Sha256.{sha256};

use mail_terms::base;
use pop3_wire::is_legal_id;
use sha2::{Digest, Sha256};
use std::alloc::{AllocError, Global};
use std::cmp::Ordering;
use std::fs::Metadata;
use std::io::{self, ErrorKind};
use std::os::unix::fs::MetadataExt;
use std::time::Duration;

/// How many characters a digest has in hexadecimal.
const DIGEST_LENGTH: usize = 64;

/// A folder of a Maildir whose files are messages.
#[derive(Clone, Copy, PartialEq, Eq, PartialOrd, Ord)]
pub enum Folder {
    Cur,
    New,
}

impl Folder {
    /// Its name.
    pub fn name(self) -> &'static str
        ensures { result.now ≡ folder_name self }
    {
        match self {
            Folder::Cur => "cur",
            Folder::New => "new",
        }
    }
}

/// The path of a folder of the Maildir at a path.
pub fn folder_path(alloc: Global, maildir: &str, folder: Folder) -> Result<String, AllocError>
    ensures { IfOk result (λ path. string_bytes path ≡ maildir_folder maildir.now folder) }
{
    let name = folder.name();
    format!(in alloc; "{maildir}/{name}")
}

/// Whether a listing may tell this name: it isn't hidden, and leads into no other folder.
fn is_listable_name(name: &[u8]) -> bool
    ensures { result ≡ is_listable_name name.now }
{
    !name.is_empty() && !name.starts_with(b".") && !name.contains(&b'/')
}

/// InvalidInput for a name that no listing tells.
pub fn check_name(name: &str) -> io::Result<()>
    ensures ok { OnOk result (is_listable_name name.now ≡ true) }
    ensures err { IfErr result (λ error. (error_kind error ≡ ErrorKind.InvalidInput)
        × (is_listable_name name.now ≡ false)) }
{
    if is_listable_name(name.as_bytes()) {
        return Ok(());
    }
    Err(io::Error::from(ErrorKind::InvalidInput))
}

/// Which file it is: its device, and its number there. All names of a file have the same.
#[derive(Clone, Copy, PartialEq, Eq)]
pub struct FileNumber {
    pub device: u64,
    pub inode: u64,
}

impl FileNumber {
    /// The number of the file that the system reports this of.
    pub fn of(metadata: &Metadata) -> FileNumber {
        FileNumber {
            device: metadata.dev(),
            inode: metadata.ino(),
        }
    }
}

/// Which file it is, how long it is, and when it was last changed, in seconds and nanoseconds since 1970.
#[derive(Clone, Copy, PartialEq, Eq)]
pub struct Stamp {
    pub number: FileNumber,
    pub length: u64,
    pub seconds: u64,
    pub nanoseconds: u32,
}

impl Stamp {
    /// That of a file of this number and length, which was last changed when so much time had passed since 1970.
    pub fn at(number: FileNumber, length: u64, passed: Duration) -> Stamp
        ensures { result ≡ record {
          number = number;
          length = length;
          seconds = as_nanos passed / 1_000_000_000;
          nanoseconds = as_nanos passed % 1_000_000_000;
        } }
    {
        Stamp {
            number,
            length,
            seconds: passed.as_secs(),
            nanoseconds: passed.subsec_nanos(),
        }
    }
}

/// The place of a file in a Maildir.
#[derive(Drop)]
pub struct PlacedFile {
    pub folder: Folder,
    pub name: String,
    /// How long its base is, kept for the many comparisons of a sort.
    base_length: usize,
    ghost measured: { base_length ≡ length (base_of (string_bytes name)) },
}

impl PlacedFile {
    ghost use Rattle.folder_drop.specs.Places.{base_of_file, name_of_file, place_cmp};

    /// The file of this name.
    pub fn of(folder: Folder, name: String) -> PlacedFile
        ensures { (result.folder ≡ folder) × (result.name ≡ name) }
    {
        let base_length = base(name.as_str()).len();
        PlacedFile {
            folder,
            name,
            base_length,
        }
    }

    /// The base of its name.
    pub fn base(&self) -> &str
        ensures { result.now ≡ base_of_file self.now }
    {
        base(self.name.as_str())
    }

    /// What files are ordered by: the bytes of their base, then `cur` before `new`, then their whole name.
    pub fn place(&self) -> (&[u8], Folder, &[u8])
        ensures base { result.0.now ≡ base_of_file self.now }
        ensures folder { result.1 ≡ self.now.folder }
        ensures name { result.2.now ≡ name_of_file self.now }
    {
        let name = self.name.as_bytes();
        (&name[..self.base_length], self.folder, name)
    }

    /// How its place is ordered beside that of another.
    pub fn cmp_place(&self, other: &PlacedFile) -> Ordering
        ensures { result ≡ place_cmp self.now other.now }
    {
        self.place().cmp(&other.place())
    }
}

/// The 32 bytes of a digest in lower-case hexadecimal, which are characters of an id.
fn hexadecimal(digest: &[u8]) -> [u8; 64]
    requires { length digest.now ≡ 32 }
    ensures value { result ≡ encode_lower digest.now }
    ensures visible { list_all is_id_byte result ≡ true }
{
    let mut text = [0; 64];
    let _ = hex::encode_to_slice(digest, &mut text);
    text
}

/// The digest of a base in lower-case hexadecimal.
fn digest(base: &[u8]) -> [u8; 64]
    ensures value { result ≡ encode_lower (sha256 base.now) }
    ensures visible { list_all is_id_byte result ≡ true }
{
    let mut hasher = Sha256::new();
    hasher.update(base);
    let digest = hasher.finalize();
    hexadecimal(digest.as_slice())
}

/// The unique-id of a base: the base itself if that is a legal id, else its SHA-256 in lower-case
/// hexadecimal.
pub fn unique_id(alloc: Global, base: &[u8]) -> Result<Vec<u8>, AllocError>
    ensures value { IfOk result (λ id. id.items ≡ id_of base.now) }
    ensures legal { IfOk result (λ id. IsTrue (is_legal_id id.items)) }
{
    if is_legal_id(base) {
        return Vec::from_slice(alloc, base);
    }
    Vec::from_slice(alloc, digest(base).as_slice())
}

/// The unique-id of a base if it is as long as a digest: it may be that of another base too, which any other id
/// can't be.
pub fn long_id(alloc: Global, base: &[u8]) -> Result<Option<Vec<u8>>, AllocError>
    ensures { IfOk result (λ key. IsIdKey key (id_of base.now)) }
{
    if base.len() != DIGEST_LENGTH && is_legal_id(base) {
        return Ok(None);
    }
    Ok(Some(unique_id(alloc, base)?))
}
