//! The rows of a listing: UIDL's give unique-ids, LIST's sizes (RFC 1939, sections 5 and 7).
ghost use Rattle.std.{
  specs.Prelude.{◌≡◌, ◌⊎◌, ◌<◌, ◌++◌, [], ◌∷◌, ℕ, List, length, IfOk, IfErr},
  proofs.Common.{inl, inr, refl, ap, is_ok},
};
ghost use Rattle.mail_terms.specs.{Listing.{UidRow, message_limit}, declared.listing.ScanRow.ScanRow as SizeRow};
ghost use Rattle.pop3_wire.specs.Reading.{IsScanLine, IsUidLine};
ghost use Rattle.pop3_client.specs.Turns.{Turn, AsksListing, IsListingRow, Names, list, turn_bytes, uidl};

use crate::fault::ClientFault;
use mail_terms::{ScanRow, UidRows};
use pop3_wire::{Asked, read_scan, read_uid, without_dot};
use std::alloc::Global;
use std::vec::Vec;

/// Rows of a listing, for each of which a line of the reply's body stands.
pub(crate) trait ListedRows: Drop {
    // One row.
    ghost Row: { Type 0 };

    // The rows, in the order of their lines.
    ghost rows: { Self → List Row };

    // The turn that asks for the listing.
    ghost turn: { Turn };

    // A line of the body stands for a row.
    ghost stands_for: { List ℕ → Row → Type 0 };

    /// The name of the listing in a fault, if it is refused.
    fn asked() -> Asked
        ensures { Names result turn };

    /// The line that asks for the listing.
    fn command() -> &'static [u8]
        ensures { result.now ≡ turn_bytes turn };

    /// No rows.
    fn no_rows(alloc: Global) -> Self
        ensures { rows result ≡ [] };

    /// How many rows there are.
    fn count(&self) -> usize
        ensures { result ≡ length (rows self.now) };

    /// Adds the row that a line of the body stands for.
    fn add(&mut self, line: &[u8]) -> Result<(), ClientFault>
        requires { length (rows self.old) < message_limit }
        ensures ok { IfOk result
            (λ _. (row : Row) × stands_for line.now row × (rows self.new ≡ rows self.old ++ row ∷ [])) }
        ensures err { IfErr result (λ fault. ((fault ≡ ClientFault.NoMemory) × IsListingRow turn line.now)
            ⊎ ((fault ≡ ClientFault.BadListing) × (IsListingRow turn line.now → ⊥))) };

    // The turn asks for a listing, and a line that stands for a row is one of its rows.
    ghost is_listing: { AsksListing turn };

    ghost is_row: { (line : List ℕ) (row : Row) → stands_for line row → IsListingRow turn line };
}

impl ListedRows for UidRows {
    ghost Row = { UidRow };

    ghost rows = { λ rows. rows };

    ghost turn = { uidl };

    ghost stands_for = { IsUidLine };

    fn asked() -> Asked {
        Asked::Uidl
    }

    #[tactic(auto, unfolding(pop3_wire::specs::Commands::line_of))]
    fn command() -> &'static [u8] {
        b"UIDL\r\n"
    }

    fn no_rows(alloc: Global) -> UidRows {
        UidRows::new(alloc)
    }

    fn count(&self) -> usize {
        self.len()
    }

    fn add(&mut self, line: &[u8]) -> Result<(), ClientFault> {
        match read_uid(without_dot(line)) {
            Ok((number, uid)) => Ok(self.push(number, uid)?),
            Err(_) => Err(ClientFault::BadListing),
        }
    }

    ghost is_listing = { inl refl };

    ghost is_row = { λ line row e. ap is_ok e };
}

impl ListedRows for Vec<ScanRow> {
    ghost Row = { SizeRow };

    ghost rows = { λ rows. rows.items };

    ghost turn = { list };

    ghost stands_for = { IsScanLine };

    fn asked() -> Asked {
        Asked::List
    }

    #[tactic(auto, unfolding(pop3_wire::specs::Commands::line_of))]
    fn command() -> &'static [u8] {
        b"LIST\r\n"
    }

    fn no_rows(alloc: Global) -> Vec<ScanRow> {
        Vec::new(alloc)
    }

    fn count(&self) -> usize {
        self.len()
    }

    fn add(&mut self, line: &[u8]) -> Result<(), ClientFault> {
        match read_scan(without_dot(line)) {
            Ok((number, size)) => Ok(self.push(ScanRow { number, size })?),
            Err(_) => Err(ClientFault::BadListing),
        }
    }

    ghost is_listing = { inr refl };

    ghost is_row = { λ line row e. ap is_ok e };
}
