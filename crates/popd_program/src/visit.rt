//! One session over an account's Maildir.
ghost use Rattle.std.specs.Prelude.{◌≡◌, false, true, None, IfSome, IsSome};
ghost use Rattle.pop3_server.specs.Quitting.{ReadsQuit};
ghost use Rattle.pop3_wire.specs.Link.{WhereSound};
ghost use Rattle.popd_program.specs.{Start.at_start, Visits.{LeavesDrop, removals_by}};

use crate::account::Account;
use crate::warning::{Warning, warn};
use folder_drop::MaildirDrop;
use pop3_server::{Journal, Maildrop, ServerFault, only_quit_closes, serve_and_note};
use pop3_wire::Wire;
use std::random::RandomSource;
use std::rt::{Clock, Env, Files};
use system_calls::System;

/// That a session came to QUIT, and how many removals its Maildir was asked for by its end. Nothing but
/// `serve_account` makes one, and only after a line QUIT.
#[derive(Clone, Copy)]
pub struct Quit {
    removals: u64,
}

/// What was served over a Maildir.
#[derive(Drop)]
pub struct Visit<'a, R: Files + Env + Clock + RandomSource + AllocGlobal + Clone + Drop> {
    /// How the session ended.
    pub served: Result<(), ServerFault>,
    /// Whether it came to QUIT.
    pub quit: Option<Quit>,
    /// The Maildir after it.
    pub maildir: MaildirDrop<'a, R>,
}

/// Warns of the file or folder that couldn't be read, if that made the maildrop unavailable, and of each message
/// that wasn't removed because another one has its name.
fn warn_of_maildir<R>(rt: &R, maildir: &MaildirDrop<'_, R>)
where
    R: Files + Env + Clock + RandomSource + AllocGlobal + Eprint + Clone + Drop,
{
    if let Some(path) = maildir.unread() {
        warn(rt, Warning::Unread(path));
    }
    for two in maildir.not_removed() {
        warn(rt, Warning::NotRemoved(two));
    }
}

/// Whether a session came to QUIT, if its server is open or not after it.
fn quit_of(is_open: bool, removals: u64) -> Option<Quit>
    ensures some { IsSome result → is_open ≡ false }
    ensures count { IfSome result (λ quit. quit.removals ≡ removals) }
    ensures none { result ≡ None → is_open ≡ true }
{
    if is_open {
        return None;
    }
    Some(Quit { removals })
}

/// Serves the account's Maildir over a link, and warns of what couldn't be read or removed. Nothing is removed
/// unless QUIT was read there, nor after the answer to it.
pub(crate) fn serve_account<'a, R, J, W>(
    system: &System<'_, R>,
    account: Account,
    maildir: MaildirDrop<'a, R>,
    journal: &mut J,
    wire: &mut W,
) -> Visit<'a, R>
where
    R: Files + Env + Clock + RandomSource + AllocGlobal + Eprint + Clone + Drop,
    J: Journal,
    W: Wire,
    ensures removals { result.maildir.removals ≡ removals_by result.quit maildir.entry.removals }
    ensures quit { WhereSound W.sound W.leads_to wire.old wire.new
        (IsSome result.quit → ReadsQuit (W.history wire.old) (W.history wire.new)) }
    ensures left { WhereSound W.sound W.leads_to wire.old wire.new (LeavesDrop ⟦<MaildirDrop<'a, R> as Maildrop>⟧
        (at_start account.user.items account.password.items maildir.entry) (W.history wire.old) result.served
        result.maildir (W.history wire.new)) }
{
    only_quit_closes::<MaildirDrop<'a, R>>();
    let mut server = account.into_server(system.alloc(), maildir);
    let served = serve_and_note(&mut server, wire, journal);
    let is_open = server.is_open();
    let maildir = server.into_drop();
    let quit = quit_of(is_open, maildir.removals());
    warn_of_maildir(system.rt, &maildir);
    Visit {
        served,
        quit,
        maildir,
    }
}
