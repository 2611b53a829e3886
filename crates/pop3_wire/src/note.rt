//! What a link is told of the conversation that it carries.

/// What a reply answers.
#[derive(Clone, Copy, Debug, PartialEq, Eq)]
pub enum Asked {
    /// Nothing: the greeting comes unasked.
    Greeting,
    /// `USER`
    User,
    /// `PASS`
    Pass,
    /// `STAT`
    Stat,
    /// `UIDL`
    Uidl,
    /// `LIST`
    List,
    /// `RETR`, with a message's number
    Retr(u32),
    /// `DELE`, with a message's number
    Dele(u32),
    /// `RSET`
    Rset,
    /// `QUIT`
    Quit,
}

/// A part of a conversation, as the end that sends it or reads it understands it.
#[derive(Clone, Copy)]
pub enum Note<'a> {
    /// What a client asks for, and the line without its CR LF, or the front of one that is too long. A server tells
    /// of a line before it reads it.
    Command(Option<Asked>, &'a [u8]),
    /// The first line of a reply without its CR LF, or the front of one that is too long.
    Reply(&'a [u8]),
    /// That line is negative: the command is refused.
    Refused,
    /// The number of messages that it gives.
    Count(u32),
    /// More of the body of a reply.
    Body {
        /// Its lines, each with the LF at its end, without the end mark. Stuffing may be undone.
        text: &'a [u8],
        /// How many octets of the link it is, the end mark included.
        octets: usize,
        /// Whether the body ends with it.
        ended: bool,
    },
}
