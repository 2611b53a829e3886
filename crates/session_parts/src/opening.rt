//! The beginning of a session: logging in, and what is there.
ghost use Rattle.std.specs.{Prelude.{◌≡◌, All, IfOk}, String.string_bytes};
ghost use Rattle.pop3_client.specs.Client.{HasSameLink, CountsRefusals, place_of};
ghost use Rattle.pop3_wire.specs.Link.{WhereSound};
ghost use Rattle.mail_terms.specs.UniqueId.{IsLegalId};
ghost use Rattle.rc_file.specs.Settings.{IsValid};
ghost use Rattle.session_parts.specs.Opening.{Enters};

use fetch_rules::Settings;
use mail_terms::Listing;
use pop3_client::{Client, ClientFault, turns_join};
use pop3_wire::Wire;
use std::alloc::Global;

/// Logs in, and asks which messages there are.
pub fn enter<W: Wire>(
    alloc: Global,
    settings: &Settings,
    client: &mut Client<'_, W>,
) -> Result<Listing, ClientFault>
    requires { IsValid settings.now }
    ensures link { HasSameLink client.old client.new }
    ensures counted { CountsRefusals W.Wire client.old result client.new }
    ensures legal { IfOk result (λ listing. All (λ item. IsLegalId item.uid) listing) }
    ensures enters { WhereSound W.sound W.leads_to client.old.wire.now client.new.wire.now
        (Enters (string_bytes settings.now.username) (string_bytes settings.now.password)
        (place_of W.Wire client.old) result (place_of W.Wire client.new)) }
{
    turns_join();
    let name = settings.username.as_bytes();
    let password = settings.password.as_bytes();
    client.log_in(alloc, name, password)?;
    let messages = client.count()?;
    client.list(alloc, messages)
}
