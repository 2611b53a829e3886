//! Events of a session, for a log.
ghost use Rattle.std.specs.Prelude.{◌≡◌};
ghost use Rattle.pop3_server.specs.Events.{event_of};

use crate::rows::left;
use crate::state::State;

/// What happened in a session.
#[derive(Clone, Copy)]
pub enum Event {
    /// A client logged in, and finds this number of messages.
    LoggedIn(usize),
    /// A login was refused.
    Refused,
    /// The name and the password were right, but the maildrop couldn't be listed.
    Unavailable,
    /// QUIT ended the session: how many messages were removed, and how many couldn't be.
    Left(usize, u64),
}

/// Gets the events of a session while it goes on.
pub trait Journal {
    /// Takes note of an event.
    fn note(&mut self, event: Event);
}

/// A journal that keeps nothing.
#[derive(Clone, Copy)]
pub struct NoJournal;

impl Journal for NoJournal {
    fn note(&mut self, _event: Event) {}
}

/// The event between one state and the next, if the maildrop refused `refused` calls in between.
pub fn event_of(old: &State, new: &State, refused: u64) -> Option<Event>
    ensures { result ≡ event_of old.now new.now refused }
{
    match old {
        State::Authorization(given) => match new {
            State::Transaction(rows) => Some(Event::LoggedIn(rows.as_slice().len())),
            State::Authorization(None) if given.is_none() => None,
            State::Authorization(None) if refused > 0 => Some(Event::Unavailable),
            State::Authorization(None) => Some(Event::Refused),
            State::Authorization(Some(_)) | State::Closed => None,
        },
        State::Transaction(rows) => match new {
            State::Closed => {
                let rows = rows.as_slice();
                let (remaining, _) = left(rows);
                let marked = rows.len() - remaining;
                Some(Event::Left(marked.saturating_sub(refused as usize), refused))
            }
            State::Authorization(_) | State::Transaction(_) => None,
        },
        State::Closed => None,
    }
}
