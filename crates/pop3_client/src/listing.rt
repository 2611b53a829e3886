//! The listings of unique-ids and of sizes (RFC 1939, sections 5 and 7).
ghost use Rattle.std.specs.Prelude.{◌≡◌, ◌≤◌, ◌⊎◌, All, IfOk, IfErr};
ghost use Rattle.mail_terms.specs.{Listing.{Agree, Joins, message_limit}, UniqueId.IsLegalId};
ghost use Rattle.pop3_client.specs.{
  Client.{HasSameLink, CountsRefusals, WhereLinkSound},
  Listing.{rows_taken, TakesRows, ListsRows, GetsListing},
};

use crate::client::Client;
use crate::fault::ClientFault;
use crate::row::ListedRows;
use mail_terms::{Listing, ListingFault, MESSAGE_LIMIT, ScanRow, UidRows};
use pop3_wire::{Wire, is_end_mark};
use std::alloc::Global;
use std::vec::Vec;

/// The messages of both listings, which have to agree with the count and with each other.
fn joined(
    alloc: Global,
    count: u32,
    uids: UidRows,
    sizes: &[ScanRow],
) -> Result<Listing, ClientFault>
    requires few { count ≤ message_limit }
    ensures legal { IfOk result (λ listing. All (λ item. IsLegalId item.uid) listing) }
    ensures ok { IfOk result (Joins count uids sizes.now) }
    ensures err { IfErr result (λ fault. ((fault ≡ ClientFault.ListingsDisagree) × (Agree count uids sizes.now → ⊥))
        ⊎ (fault ≡ ClientFault.NoMemory)) }
{
    match uids.join(alloc, count, sizes) {
        Ok(listing) => Ok(listing),
        Err(ListingFault::Disagree) => Err(ClientFault::ListingsDisagree),
        Err(ListingFault::TooMany) => Err(ClientFault::TooMany),
        Err(ListingFault::NoMemory) => Err(ClientFault::NoMemory),
    }
}

impl<'a, W: Wire> Client<'a, W> {
    /// Takes the rows of a listing and its end mark, and checks each row when it is whole. TooMany for
    /// a row after the 100,000th.
    fn rows<R: ListedRows>(&mut self, alloc: Global) -> Result<R, ClientFault>
        ensures link { HasSameLink self.old self.new }
        ensures counted { CountsRefusals W.Wire self.old result self.new }
        ensures takes { WhereLinkSound W.Wire self.old self.new
            (λ old new. TakesRows R.turn R.stands_for old (rows_taken R.rows result) new) }
    {
        let mut rows = R::no_rows(alloc);
        'rows: loop {
            let length = self.next_line(false)?;
            if is_end_mark(&self.reader.waiting()[..length]) {
                self.reader.skip(length + 2);
                return Ok(rows);
            }
            if rows.count() >= MESSAGE_LIMIT as usize {
                return Err(ClientFault::TooMany);
            }
            rows.add(&self.reader.waiting()[..length])?;
            self.reader.skip(length + 2);
        }
    }

    /// Asks for a listing, and takes it.
    fn listing<R: ListedRows>(&mut self, alloc: Global) -> Result<R, ClientFault>
        ensures link { HasSameLink self.old self.new }
        ensures counted { CountsRefusals W.Wire self.old result self.new }
        ensures lists { WhereLinkSound W.Wire self.old self.new
            (λ old new. ListsRows R.turn R.stands_for old (rows_taken R.rows result) new) }
    {
        self.ask(R::asked(), R::command())?;
        self.rows(alloc)
    }

    /// Asks for the unique-ids and the sizes (UIDL, LIST) of `count` messages. Each row is
    /// checked when it is whole; both listings have to agree with the count and with each other.
    #[tactic(auto, using(crate::proofs::TalkLemmas::stopped_first))]
    pub fn list(&mut self, alloc: Global, count: u32) -> Result<Listing, ClientFault>
        requires { count ≤ message_limit }
        ensures link { HasSameLink self.old self.new }
        ensures counted { CountsRefusals W.Wire self.old result self.new }
        ensures legal { IfOk result (λ listing. All (λ item. IsLegalId item.uid) listing) }
        ensures lists { WhereLinkSound W.Wire self.old self.new (λ old new. GetsListing count old result new) }
    {
        let uids = self.listing::<UidRows>(alloc)?;
        let sizes = self.listing::<Vec<ScanRow>>(alloc)?;
        joined(alloc, count, uids, &sizes)
    }
}
