//! An account whose server and devices are in memory.
ghost use Rattle.std.specs.Prelude.{IfOk};
ghost use Rattle.rc_file.specs.Settings.{IsValid};

use fetch_rules::{Settings, read_rc};
use fetch_session::{Account, Report, Store};
use local_fetch::{LoopWire, fetch_local};
use mail_store::{MaildirDisk, MemoryFile, MemoryMaildir};
use pop3_server::{MemoryDrop, Server};
use std::alloc::{AllocError, Global};
use std::hash::{BuildHasherDefault, FoldHasher};
use std::test::Fail;
use test_devices::{Fused, FusedWire};

/// After how many calls a device refuses, and whether the first call that it refuses takes effect
/// all the same.
#[derive(Clone, Copy)]
pub struct Fuse {
    pub passes: u64,
    pub takes_effect: bool,
}

/// A device that refuses nothing.
pub const SOUND: Fuse = Fuse {
    passes: u64::MAX,
    takes_effect: false,
};

/// An account whose Maildir and record can refuse calls.
pub type Fred = Account<Fused<MemoryMaildir>, Fused<MemoryFile>, BuildHasherDefault<FoldHasher>>;

/// A link to a server, which can refuse calls.
pub type Link = FusedWire<LoopWire<MemoryDrop>>;

/// What an account has between sessions.
#[derive(Drop)]
pub struct Files {
    pub maildir: MemoryMaildir,
    pub record: MemoryFile,
}

/// An empty Maildir, and no file of a record.
pub fn no_files(alloc: Global) -> Files {
    Files {
        maildir: MemoryMaildir::new(alloc),
        record: MemoryFile::missing(alloc),
    }
}

/// An rc file whose last section is `[options]`.
const RC: &[u8] = b"[retriever]\ntype = SimplePOP3Retriever\n\
    server = mail.example.org\nusername = fred\npassword = secret\n\
    [destination]\ntype = Maildir\npath = mail/\n[options]\n";

/// The settings of an account with these options.
fn settings(alloc: Global, options: &[u8]) -> Result<Settings, Fail>
    ensures { IfOk result IsValid }
{
    let mut file = Vec::from_slice(alloc, RC)?;
    file.extend_from_slice(options)?;
    let (settings, _warnings) = read_rc(alloc, &file)?;
    Ok(settings)
}

/// An account with these options over these files, whose Maildir and record refuse calls as
/// these fuses say.
pub fn account(
    alloc: Global,
    options: &[u8],
    files: Files,
    disk: Fuse,
    record: Fuse,
) -> Result<Fred, Fail> {
    let Files {
        mut maildir,
        record: file,
    } = files;
    maildir.abandon();
    Ok(Account::new(
        alloc,
        settings(alloc, options)?,
        Store::Maildir(Fused::new(maildir, disk.passes, disk.takes_effect)),
        Fused::new(file, record.passes, record.takes_effect),
        BuildHasherDefault::<FoldHasher>::new(),
    ))
}

/// What the sessions of an account leave.
pub fn files_of(alloc: Global, account: Fred) -> Files {
    let (_settings, store, record) = account.into_parts();
    let maildir = match store {
        Store::Maildir(disk) => disk.into_inner(),
        Store::Mboxrd(_) => MemoryMaildir::new(alloc),
    };
    Files {
        maildir,
        record: record.into_inner(),
    }
}

/// The user and the password.
pub fn login(alloc: Global) -> Result<(Vec<u8>, Vec<u8>), AllocError> {
    Ok((
        Vec::from_slice(alloc, b"fred")?,
        Vec::from_slice(alloc, b"secret")?,
    ))
}

/// Runs a session over a new server with this maildrop, and returns what is left in it too.
pub fn fetch(
    alloc: Global,
    account: &mut Fred,
    maildrop: MemoryDrop,
    (user, pass): (Vec<u8>, Vec<u8>),
) -> (Report, MemoryDrop) {
    let server = Server::new(alloc, maildrop, user, pass);
    let (report, server) = fetch_local(alloc, account, server, 0);
    (report, server.into_drop())
}

/// A link to a new server over this maildrop, which passes `passes` calls.
pub fn link(alloc: Global, maildrop: MemoryDrop, passes: u64) -> Result<Link, AllocError> {
    let (user, pass) = login(alloc)?;
    let server = Server::new(alloc, maildrop, user, pass);
    Ok(FusedWire::new(LoopWire::new(alloc, server), passes))
}
