//! The keys of an rc file that have an effect, and their sections.
ghost use Rattle.std.specs.{Prelude.◌≡◌, Option.option_copied};
ghost use Rattle.rc_file.specs.{KeyTable.rule, RcMeaning.section_name};

/// A section that an rc file must have.
#[derive(Clone, Copy, Debug, PartialEq, Eq)]
pub enum Section {
    /// `[retriever]`
    Retriever,
    /// `[destination]`
    Destination,
}

/// A key that has an effect. Keys are checked in this order.
#[derive(Clone, Copy, Debug, PartialEq, Eq)]
pub enum Key {
    /// `type` of `[retriever]`
    RetrieverKind,
    /// `use_apop` of `[retriever]`
    UseApop,
    /// `server` of `[retriever]`
    Server,
    /// `port` of `[retriever]`
    Port,
    /// `username` of `[retriever]`
    Username,
    /// `password` of `[retriever]`
    Password,
    /// `type` of `[destination]`
    DestinationKind,
    /// `path` of `[destination]`
    Path,
    /// `read_all` of `[options]`
    ReadAll,
    /// `delete` of `[options]`
    Delete,
    /// `delete_after` of `[options]`
    DeleteAfter,
    /// `max_message_size` of `[options]`
    MaxSize,
    /// `max_messages_per_session` of `[options]`
    MaxCount,
    /// `verbose` of `[options]`
    Verbose,
}

// The sections that have keys.
const RETRIEVER: &str = "retriever";

const DESTINATION: &str = "destination";

const OPTIONS: &str = "options";

impl Section {
    /// The section's name.
    pub(crate) fn name(self) -> &'static str
        ensures { result.now ≡ section_name self }
    {
        match self {
            Section::Retriever => RETRIEVER,
            Section::Destination => DESTINATION,
        }
    }
}

impl Key {
    /// Every key, in the order in which they are checked.
    pub(crate) const ALL: [Key; 14] = [
        Key::RetrieverKind,
        Key::UseApop,
        Key::Server,
        Key::Port,
        Key::Username,
        Key::Password,
        Key::DestinationKind,
        Key::Path,
        Key::ReadAll,
        Key::Delete,
        Key::DeleteAfter,
        Key::MaxSize,
        Key::MaxCount,
        Key::Verbose,
    ];

    /// The name of the key's section.
    pub(crate) fn section(self) -> &'static str
        ensures { result.now ≡ (rule self).section }
    {
        match self {
            Key::RetrieverKind
            | Key::UseApop
            | Key::Server
            | Key::Port
            | Key::Username
            | Key::Password => RETRIEVER,
            Key::DestinationKind | Key::Path => DESTINATION,
            Key::ReadAll
            | Key::Delete
            | Key::DeleteAfter
            | Key::MaxSize
            | Key::MaxCount
            | Key::Verbose => OPTIONS,
        }
    }

    /// The key's name in its section.
    pub fn name(self) -> &'static str
        ensures { result.now ≡ (rule self).name }
    {
        match self {
            Key::RetrieverKind => "type",
            Key::UseApop => "use_apop",
            Key::Server => "server",
            Key::Port => "port",
            Key::Username => "username",
            Key::Password => "password",
            Key::DestinationKind => "type",
            Key::Path => "path",
            Key::ReadAll => "read_all",
            Key::Delete => "delete",
            Key::DeleteAfter => "delete_after",
            Key::MaxSize => "max_message_size",
            Key::MaxCount => "max_messages_per_session",
            Key::Verbose => "verbose",
        }
    }

    /// The key's default; none for a required key.
    pub(crate) fn default_value(self) -> Option<&'static str>
        ensures { option_copied result ≡ (rule self).default }
    {
        match self {
            Key::RetrieverKind
            | Key::Server
            | Key::Username
            | Key::Password
            | Key::DestinationKind
            | Key::Path => None,
            Key::UseApop | Key::Delete => Some("false"),
            Key::Port => Some("110"),
            Key::ReadAll => Some("true"),
            Key::DeleteAfter | Key::MaxSize | Key::MaxCount => Some("0"),
            Key::Verbose => Some("1"),
        }
    }
}
