//! The states of a session (RFC 1939, section 3).
use crate::rows::Rows;
use pop3_wire::Bytes;

/// The state of a session.
#[derive(Drop)]
pub enum State {
    /// The client isn't logged in yet, and may have given a name by USER.
    Authorization(Option<Bytes>),
    /// The maildrop is open.
    Transaction(Rows),
    /// The session is over.
    Closed,
}
