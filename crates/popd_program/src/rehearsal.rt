//! The rehearsal: two small messages, served to user `u` with password `p`.
ghost use Rattle.std.specs.Prelude.{◌≡◌, IfOk, codes};
ghost use Rattle.popd_program.specs.{Rehearsal.rehearsal, Start.at_start};

use pop3_server::{MemoryDrop, Server};
use std::alloc::{AllocError, Global};

/// Two small messages: one with a line that begins with a full stop, and one with two lines after its
/// header.
pub fn rehearsal_drop(alloc: Global) -> Result<MemoryDrop, AllocError>
    ensures { IfOk result (λ maildrop. maildrop ≡ rehearsal) }
{
    let mut maildrop = MemoryDrop::new(alloc);
    maildrop.push(b"m1", b"Subject: one\n\n.dot\n")?;
    maildrop.push(b"m2", b"Subject: two\n\na\nbc\n")?;
    Ok(maildrop)
}

/// The rehearsal's server at the start of a session.
pub fn rehearsal_server(alloc: Global) -> Result<Server<MemoryDrop>, AllocError>
    ensures { IfOk result (λ server. server ≡ at_start (codes "u") (codes "p") rehearsal) }
{
    let maildrop = rehearsal_drop(alloc)?;
    let user = Vec::from_slice(alloc, b"u")?;
    let password = Vec::from_slice(alloc, b"p")?;
    Ok(Server::new(alloc, maildrop, user, password))
}
