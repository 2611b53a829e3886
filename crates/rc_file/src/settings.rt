//! The settings: the account, where its messages go, and which of them are fetched.
ghost use Rattle.std.specs.{Prelude.{◌≡◌, ◌++◌, drop, if◌then◌else◌, IfOk}, String.string_bytes, List.list_all};
ghost use Rattle.rc_file.specs.Settings.{begins_at_home, is_server_byte, is_path_byte, is_server, is_path};
ghost use Rattle.rc_file.specs.Settings.{destination_at, is_destination};

use mail_terms::is_credential;
use std::alloc::{AllocError, Global};

/// The greatest value of [`Settings::delete_after`], in days.
pub const DELETE_AFTER_LIMIT: u64 = 4_294_967_295;

/// What the rc file and the command line ask for. Fields may have any values.
#[derive(Drop)]
pub struct Settings {
    /// The server's name or address: not empty, without LF and NUL.
    pub server: String,
    /// The server's TCP port, 1 to 65,535.
    pub port: u16,
    /// The argument of USER: 1 to 500 bytes without CR, LF and NUL.
    pub username: String,
    /// The argument of PASS: 1 to 500 bytes without CR, LF and NUL.
    pub password: String,
    /// Where messages are stored.
    pub dest: Dest,
    /// Whether messages that were fetched before are fetched again.
    pub read_all: bool,
    /// Whether stored messages are deleted from the server.
    pub delete: bool,
    /// After how many days, counted from when they were first seen, stored messages are deleted; at
    /// most [`DELETE_AFTER_LIMIT`], and 0 for never.
    pub delete_after: u64,
    /// Messages that the server lists with more octets are skipped; 0 for no limit.
    pub max_size: u64,
    /// At most this many messages are fetched in a session; 0 for no limit.
    pub max_count: u64,
    /// The report: 0 for none, 1 for fetched and deleted messages, 2 for skipped ones too.
    pub verbose: u8,
}

/// Where messages are stored, with the path as it was written.
#[derive(Drop)]
pub enum Dest {
    /// A Maildir, whose path ends in `/`.
    Maildir(String),
    /// A file in the form mboxrd, whose path doesn't end in `/`.
    Mboxrd(String),
}

/// Whether the text may name a server.
pub(crate) fn is_server(text: &str) -> bool
    ensures { result ≡ is_server text.now }
{
    !text.is_empty() && has_server_bytes(text.as_bytes())
}

fn has_server_bytes(bytes: &[u8]) -> bool
    ensures { result ≡ list_all is_server_byte bytes.now }
{
    bytes.iter().all(|byte| *byte != b'\n' && *byte != 0)
}

/// Whether the text may be a path.
fn is_path(path: &str) -> bool
    ensures { result ≡ is_path path.now }
{
    let bytes = path.as_bytes();
    !bytes.is_empty()
        && has_path_bytes(bytes)
        && (!bytes.starts_with(b"~") || bytes.starts_with(b"~/"))
}

fn has_path_bytes(bytes: &[u8]) -> bool
    ensures { result ≡ list_all is_path_byte bytes.now }
{
    bytes
        .iter()
        .all(|byte| *byte != b'\n' && *byte != 0 && *byte != b'$')
}

/// Whether the text may be the path of a Maildir, or else of an mboxrd file.
pub(crate) fn is_path_of(path: &str, folder: bool) -> bool
    ensures { result ≡ is_destination (destination_at folder path.now) }
{
    if folder {
        is_path(path) && path.as_bytes().ends_with(b"/")
    } else {
        is_path(path) && !path.as_bytes().ends_with(b"/")
    }
}

/// The whole path: for one that begins with `~/`, `home` followed by the path from its `/`; any other
/// path as it is.
pub fn full_path(alloc: Global, path: &str, home: &str) -> Result<String, AllocError>
    ensures { IfOk result (λ full. string_bytes full
        ≡ (if begins_at_home path.now then home.now ++ drop 1 path.now else path.now)) }
{
    if !path.as_bytes().starts_with(b"~/") {
        return String::from_str(alloc, path);
    }
    let mut full = String::from_str(alloc, home)?;
    full.push_str(&path[1..])?;
    Ok(full)
}
