//! The account that is served: user, password and Maildir.
ghost use Rattle.std.specs.{
  Prelude.{◌≡◌, ◌⊎◌, [], true, false, IfOk, IfErr, OnOk, codes},
  String.string_bytes,
};
ghost use Rattle.folder_drop.specs.SafeMaildir.{IsSafeMaildir, IsUnsafeMaildir};
ghost use Rattle.popd_program.specs.{
  Account.{IsAccount, IsCopy},
  Failures.{IsCause, IsUnread, TellsUnsafe},
  Start.at_start,
};

use crate::failure::{Failure, failure_of};
use crate::password::password;
use crate::words::Words;
use file_reading::ReadFile;
use folder_drop::MaildirDrop;
use pop3_server::{Maildrop, Server, ServerFault};
use safe_path::{Looks, PathRefused};
use std::alloc::{AllocError, Global};
use std::random::RandomSource;
use std::rt::{Clock, Env, Files};
use system_calls::System;

/// The account that is served.
#[derive(Drop)]
pub struct Account {
    pub user: Vec<u8>,
    pub password: Vec<u8>,
    /// The path of the Maildir, as written.
    pub maildir: String,
}

impl Account {
    /// A copy of the account.
    pub fn copy(&self, alloc: Global) -> Result<Account, AllocError>
        ensures { IfOk result (λ account. IsCopy account self.now) }
    {
        Ok(Account {
            user: Vec::from_slice(alloc, self.user.as_slice())?,
            password: Vec::from_slice(alloc, self.password.as_slice())?,
            maildir: String::from_str(alloc, self.maildir.as_str())?,
        })
    }

    /// The account's Maildir; nothing of it is listed yet.
    pub fn open_maildir<'a, R>(
        &self,
        system: &'a System<'a, R>,
    ) -> Result<MaildirDrop<'a, R>, AllocError>
    where
        R: Files + Env + Clock + RandomSource + AllocGlobal + Clone + Drop,
        ensures path { IfOk result (λ maildir. string_bytes maildir.files.path ≡ string_bytes self.now.maildir) }
        ensures new { IfOk result (λ maildir. (maildir.listed ≡ []) × (maildir.failures ≡ 0) × (maildir.removals ≡ 0)) }
    {
        let path = String::from_str(system.alloc(), self.maildir.as_str())?;
        Ok(MaildirDrop::at(system, path))
    }

    /// A server over this maildrop at the start of a session, for this account's user and password.
    pub fn into_server<D: Maildrop + Drop>(self, alloc: Global, maildrop: D) -> Server<D>
        ensures { result ≡ at_start self.user.items self.password.items maildrop }
    {
        let Account { user, password, .. } = self;
        Server::new(alloc, maildrop, user, password)
    }
}

/// Refuses to the superuser an account of whose Maildir others control a part.
pub fn check_maildir<L: Looks + ReadFile>(
    alloc: Global,
    looks: &L,
    account: &Account,
) -> Result<(), Failure<'static>>
    ensures safe { OnOk result (IsSafeMaildir L.Looks L.ReadFile looks.now (string_bytes account.now.maildir)) }
    ensures told { IfErr result (λ f. (f ≡ Failure.Fault ServerFault.NoMemory) ⊎ TellsUnsafe f) }
    ensures refused { IfErr result (λ f. (f ≡ Failure.Fault ServerFault.NoMemory)
        ⊎ IsUnsafeMaildir L.Looks L.ReadFile looks.now (string_bytes account.now.maildir)) }
{
    match folder_drop::check_maildir(alloc, looks, account.maildir.as_str()) {
        Ok(()) => Ok(()),
        Err(PathRefused::NoMemory) => Err(Failure::Fault(ServerFault::NoMemory)),
        Err(PathRefused::Unsafe(way)) => {
            let text = way.text(alloc, looks)?;
            Err(Failure::Unsafe(String::from_utf8_lossy(alloc, text.as_slice())?))
        }
    }
}

/// The most octets of a password file.
const WHOLE_FILE: u64 = u64::MAX;

/// The account that the words USER PASSFILE MAILDIR name, with the password from PASSFILE. A wrong
/// number of words is reported before that file is read.
pub fn read_account<'a, S: ReadFile>(
    alloc: Global,
    files: &S,
    words: &'a Words,
) -> Result<Account, Failure<'a>>
    requires { words.now.rehearse ≡ false }
    ensures ok { IfOk result (IsAccount (S.gave files.now) words.now) }
    ensures err { IfErr result (IsCause words.now) }
    ensures unread { IfErr result (IsUnread (S.refused files.now)) }
{
    let (Some(user), Some(passfile), Some(maildir)) = (&words.user, &words.passfile, &words.maildir)
    else {
        return Err(Failure::WrongCount);
    };
    if !words.more.is_empty() {
        return Err(Failure::WrongCount);
    }
    let path = passfile.as_str();
    let file = match files.read(path, WHOLE_FILE) {
        Ok(file) => file,
        Err(error) => return Err(failure_of(error, Failure::CannotRead(path))),
    };
    Ok(Account {
        user: Vec::from_slice(alloc, user.as_bytes())?,
        password: Vec::from_slice(alloc, password(file.as_slice()))?,
        maildir: String::from_str(alloc, maildir.as_str())?,
    })
}
