//! What may lie on the superuser's way.
ghost use Rattle.std.specs.Prelude.{◌≡◌};
ghost use Rattle.safe_path.specs.Rule.{flaw_in, has_links_mode, is_irregular, is_writable};

use std::io;

/// What a look at a path found there. A link is not followed.
#[derive(Clone, Copy)]
pub struct Found {
    /// The number of the user that it belongs to.
    pub owner: u32,
    /// Its kind and its permissions, as C's `st_mode`.
    pub mode: u32,
}

/// What a path is to name.
#[derive(Clone, Copy)]
pub enum Kind {
    Folder,
    File,
    /// A regular file, which can be opened without waiting.
    RegularFile,
    /// A socket, which others may write to.
    Socket,
}

/// A path, and what it is to name.
#[derive(Clone, Copy)]
pub struct Named<'a> {
    pub path: &'a str,
    pub kind: Kind,
}

/// For what a look-up goes through a thing.
#[derive(Clone, Copy)]
pub(crate) enum Role {
    /// A link, which leads elsewhere.
    Link,
    /// A folder above what is named.
    Above,
    /// What is named.
    Last(Kind),
}

/// Why a thing on the way is refused.
#[derive(Clone, Copy)]
pub enum Flaw {
    /// It belongs to this other user.
    OtherOwner(u32),
    /// It isn't a regular file.
    NotRegular,
    /// Others may write it, by this mode.
    Writable(u32),
    /// This kept the program from looking there.
    Unseen(io::Error),
}

impl Found {
    /// Whether it is a link.
    pub(crate) fn is_link(&self) -> bool
        ensures { result ≡ has_links_mode self.now.mode }
    {
        self.mode & 0o170000 == 0o120000
    }
}

/// Whether others may change what a folder or a file has. Where a folder is sticky, only a name's owner may change it.
fn is_writable(role: Role, mode: u32) -> bool
    ensures { result ≡ is_writable role mode }
{
    match role {
        Role::Link | Role::Last(Kind::Socket) => false,
        Role::Above => mode & 0o022 != 0 && mode & 0o1000 == 0,
        Role::Last(Kind::Folder | Kind::File | Kind::RegularFile) => mode & 0o022 != 0,
    }
}

/// Whether a thing is to be a regular file and isn't.
fn is_irregular(role: Role, mode: u32) -> bool
    ensures { result ≡ is_irregular role mode }
{
    match role {
        Role::Last(Kind::RegularFile) => mode & 0o170000 != 0o100000,
        _ => false,
    }
}

/// Why a thing on the way is refused, if it is.
pub(crate) fn flaw_in(role: Role, found: Found) -> Option<Flaw>
    ensures { result ≡ flaw_in role found }
{
    if found.owner != 0 {
        Some(Flaw::OtherOwner(found.owner))
    } else if is_irregular(role, found.mode) {
        Some(Flaw::NotRegular)
    } else if is_writable(role, found.mode) {
        Some(Flaw::Writable(found.mode))
    } else {
        None
    }
}
