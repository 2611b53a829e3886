//! The words that commands begin with.

ghost use Rattle.std.specs.Prelude.{◌≡◌};
ghost use Rattle.pop3_wire.specs.CommandLine.{keyword_of};

/// The word that a command begins with.
#[derive(Clone, Copy)]
pub enum Keyword {
    /// The user's name.
    User,
    /// The password.
    Pass,
    /// How many messages there are, and their octets.
    Stat,
    /// Unique ids.
    Uidl,
    /// Sizes.
    List,
    /// A message.
    Retr,
    /// Marks a message as deleted.
    Dele,
    /// Unmarks all messages.
    Rset,
    /// Does nothing.
    Noop,
    /// The head of a message.
    Top,
    /// The end of the session.
    Quit,
}

/// The keyword that a word is, in upper or lower case or a mix of both.
#[tactic(auto, unfolding(crate::specs::CommandLine::keyword_of))]
pub fn read_keyword(word: &[u8]) -> Option<Keyword>
    ensures { result ≡ keyword_of word.now }
{
    if word.eq_ignore_ascii_case(b"USER") {
        return Some(Keyword::User);
    }
    if word.eq_ignore_ascii_case(b"PASS") {
        return Some(Keyword::Pass);
    }
    if word.eq_ignore_ascii_case(b"STAT") {
        return Some(Keyword::Stat);
    }
    if word.eq_ignore_ascii_case(b"UIDL") {
        return Some(Keyword::Uidl);
    }
    if word.eq_ignore_ascii_case(b"LIST") {
        return Some(Keyword::List);
    }
    if word.eq_ignore_ascii_case(b"RETR") {
        return Some(Keyword::Retr);
    }
    if word.eq_ignore_ascii_case(b"DELE") {
        return Some(Keyword::Dele);
    }
    if word.eq_ignore_ascii_case(b"RSET") {
        return Some(Keyword::Rset);
    }
    if word.eq_ignore_ascii_case(b"NOOP") {
        return Some(Keyword::Noop);
    }
    if word.eq_ignore_ascii_case(b"TOP") {
        return Some(Keyword::Top);
    }
    if word.eq_ignore_ascii_case(b"QUIT") {
        return Some(Keyword::Quit);
    }
    None
}
