//! The client's side of a link.
ghost use Rattle.std.specs.Prelude.{◌≡◌, ◌≤◌, [], length};
ghost use Rattle.pop3_wire.specs.Place.{most_waiting};

use pop3_wire::{LineReader, Wire};

/// A client of a link: it sends commands, and reads what the link answers. What the link gave and
/// the client hasn't used yet waits here.
#[derive(Drop)]
pub struct Client<'a, W> {
    pub(crate) wire: &'a mut W,
    pub(crate) reader: LineReader,
}

impl<'a, W: Wire> Client<'a, W> {
    /// A client of this link, with nothing waiting.
    pub fn new(wire: &'a mut W) -> Client<'a, W>
        ensures link { result.wire.ghost_name ≡ wire.entry.ghost_name }
        ensures place { (result.wire.now ≡ wire.old) × (result.reader ≡ []) }
    {
        Client {
            wire,
            reader: LineReader::new(),
        }
    }

    /// What waits to be used.
    pub fn waiting(&self) -> &[u8]
        ensures value { result.now ≡ self.now.reader }
        ensures short { length result.now ≤ most_waiting }
    {
        self.reader.waiting()
    }
}
