//! The listing of a maildrop: what UIDL and LIST answer, joined by message number (RFC 1939,
//! sections 5 and 7).

ghost use Rattle.std.specs.Prelude.{◌≡◌, ◌↔◌, ◌<◌, ◌≤◌, [], ◌∷◌, ◌++◌, length, map, All, HoldsAt, IfOk, IsTrue, OnOk};
ghost use Rattle.std.specs.Prelude.{OnErr};
ghost use Rattle.mail_terms.specs.{UniqueId.IsLegalId, Listing.message_limit, IdPlaces.AreAt};

use crate::numbering::places_in_order;
use std::alloc::{AllocError, AllocFailed, Global};
use std::marker::Model;
use thiserror::Error;

/// How many messages a listing may hold.
pub const MESSAGE_LIMIT: u32 = 100_000;

/// A row of UIDL's answer.
#[derive(Drop)]
pub struct UidRow {
    pub number: u32,
    pub uid: Vec<u8>,
}

impl Model for UidRow {
    ghost use Rattle.mail_terms.specs.Listing.{UidRow as ListedId};

    ghost Value = { ListedId };

    ghost view = { λ row. record { number = row.number; uid = row.uid.items } };
}

/// A row of LIST's answer. The size is in octets.
#[derive(Clone, Copy)]
pub struct ScanRow {
    pub number: u32,
    pub size: u64,
}

/// Why rows can't be joined.
#[derive(Clone, Copy, Debug, PartialEq, Eq, Error)]
pub enum ListingFault {
    /// A list doesn't have each number of 1 to n once, or has another number.
    #[error("the listings disagree")]
    Disagree,
    /// More than `MESSAGE_LIMIT` messages.
    #[error("too many messages")]
    TooMany,
    #[error("out of memory")]
    NoMemory,
}

impl From<AllocError> for ListingFault {
    ghost use Rattle.mail_terms.specs.declared.listing.ListingFault.TheVariants.{NoMemory};

    ghost from_gives = { λ _ fault. fault ≡ NoMemory };

    fn from(_error: AllocError) -> ListingFault {
        ListingFault::NoMemory
    }
}

impl<T: Drop> From<AllocFailed<T>> for ListingFault {
    ghost use Rattle.mail_terms.specs.declared.listing.ListingFault.TheVariants.{NoMemory};

    ghost from_gives = { λ _ fault. fault ≡ NoMemory };

    fn from(_error: AllocFailed<T>) -> ListingFault {
        ListingFault::NoMemory
    }
}

/// Where a unique-id begins and ends in a buffer.
#[derive(Clone, Copy)]
struct Span {
    start: u32,
    end: u32,
}

/// The number of a row of UIDL's answer, and where its id is.
#[derive(Clone, Copy)]
struct UidPlace {
    number: u32,
    span: Span,
}

/// The rows of UIDL's answer, each with a legal unique-id. There are at most `MESSAGE_LIMIT`. All ids are in
/// one buffer.
#[derive(Drop)]
pub struct UidRows {
    ids: Vec<u8>,
    places: Vec<UidPlace>,
}

impl Model for UidRows {
    ghost use Rattle.std.specs.Prelude.{List, map};
    ghost use Rattle.mail_terms.specs.{Listing.UidRow, IdPlaces.{row_at, HoldRows}};

    ghost Value = { List UidRow };

    ghost view = { λ rows. map (row_at rows.ids.items) rows.places.items };

    ghost invariant = { λ rows. HoldRows rows.ids.items rows.places.items };
}

impl UidRows {
    /// No rows.
    pub fn new(alloc: Global) -> UidRows
        ensures { result ≡ [] }
    {
        UidRows {
            ids: Vec::new(alloc),
            places: Vec::new(alloc),
        }
    }

    /// How many rows there are.
    pub fn len(&self) -> usize
        ensures { result ≡ length self.now }
    {
        self.places.len()
    }

    /// Adds a row.
    pub fn push(&mut self, number: u32, uid: &[u8]) -> Result<(), AllocError>
        requires few { length self.old < message_limit }
        requires legal { IsLegalId uid.now }
        ensures ok { OnOk result (self.new ≡ self.old ++ record { number = number; uid = uid.now } ∷ []) }
        ensures err { OnErr result (self.new ≡ self.old) }
    {
        self.places.reserve(1)?;
        let start = self.ids.len() as u32;
        self.ids.extend_from_slice(uid)?;
        let end = self.ids.len() as u32;
        let span = Span { start, end };
        self.places.push_reserved(UidPlace { number, span });
        Ok(())
    }
}

/// A message: where its id is, and the listed size in octets.
#[derive(Clone, Copy)]
struct ItemPlace {
    span: Span,
    size: u64,
}

/// The messages of a maildrop, numbered from 1: each has a legal unique-id and its listed size.
/// There are at most `MESSAGE_LIMIT`. All ids are in one buffer, in the order in which UIDL gave them.
#[derive(Drop)]
pub struct Listing {
    ids: Vec<u8>,
    items: Vec<ItemPlace>,
}

impl Model for Listing {
    ghost use Rattle.std.specs.Prelude.{List, length, map, All, ◌≤◌};
    ghost use Rattle.mail_terms.specs.{Listing.{Item, message_limit}, IdPlaces.{item_at, IsIdAt}};

    ghost Value = { List Item };

    ghost view = { λ listing. map (item_at listing.ids.items) listing.items.items };

    ghost invariant = { λ listing. (length listing.items.items ≤ message_limit)
        × All (λ item. IsIdAt listing.ids.items item.span) listing.items.items };
}

fn uid_numbers(alloc: Global, rows: &[UidPlace]) -> Result<Vec<u32>, AllocError>
    ensures { IfOk result (λ numbers. numbers.items ≡ map (λ row. row.number) rows.now) }
{
    rows.iter().map(|row| row.number).collect(alloc)
}

fn size_numbers(alloc: Global, rows: &[ScanRow]) -> Result<Vec<u32>, AllocError>
    ensures { IfOk result (λ numbers. numbers.items ≡ map (λ row. row.number) rows.now) }
{
    rows.iter().map(|row| row.number).collect(alloc)
}

/// The messages whose rows are at these places.
fn items_at(
    alloc: Global,
    uids: &[UidPlace],
    uid_places: &[usize],
    sizes: &[ScanRow],
    size_places: &[usize],
) -> Result<Vec<ItemPlace>, AllocError>
    requires same_count { length uid_places.now ≡ length size_places.now }
    requires uids_within { All (λ place. place < length uids.now) uid_places.now }
    requires sizes_within { All (λ place. place < length sizes.now) size_places.now }
    ensures count { IfOk result (λ items. length items.items ≡ length uid_places.now) }
    ensures rows { IfOk result (λ items. AreAt uids.now uid_places.now sizes.now size_places.now items.items) }
{
    let mut items = Vec::with_capacity(alloc, uid_places.len())?;
    for index in 0..uid_places.len() {
        let row = uids[uid_places[index]];
        let size = sizes[size_places[index]].size;
        items.push(ItemPlace {
            span: row.span,
            size,
        })?;
    }
    Ok(items)
}

impl UidRows {
    ghost use Rattle.mail_terms.specs.Listing.{Agree, Joins};

    /// The listing of `n` messages from these rows and those of LIST, which may come in any order.
    /// TooMany if `n` is above `MESSAGE_LIMIT`, which is tested first; Disagree if either list isn't
    /// the numbers 1 to `n`, each once. Time and memory grow in proportion to the rows and to `n`,
    /// since each list's places go into a table of `n` slots.
    pub fn join(self, alloc: Global, n: u32, sizes: &[ScanRow]) -> Result<Listing, ListingFault>
        ensures joined { IfOk result (Joins n self sizes.now) }
        ensures legal { IfOk result (λ listing. All (λ item. IsLegalId item.uid) listing) }
        ensures disagree { result ≡ Err ListingFault.Disagree → ¬ Agree n self sizes.now }
        ensures too_many { (result ≡ Err ListingFault.TooMany) ↔ (message_limit < n) }
    {
        if n > MESSAGE_LIMIT {
            return Err(ListingFault::TooMany);
        }
        let UidRows { ids, places } = self;
        let uid_places = places_in_order(alloc, n, &uid_numbers(alloc, &places)?)?;
        let size_places = places_in_order(alloc, n, &size_numbers(alloc, sizes)?)?;
        let items = items_at(alloc, &places, &uid_places, sizes, &size_places)?;
        Ok(Listing { ids, items })
    }
}

impl Listing {
    ghost use Rattle.mail_terms.specs.Listing.{Agree, Joins};

    /// As `UidRows::join`, for rows that each have their own id.
    pub fn join(
        alloc: Global,
        n: u32,
        uids: &[UidRow],
        sizes: &[ScanRow],
    ) -> Result<Listing, ListingFault>
        requires { All (λ row. IsLegalId row.uid) uids.now }
        ensures joined { IfOk result (Joins n uids.now sizes.now) }
        ensures legal { IfOk result (λ listing. All (λ item. IsLegalId item.uid) listing) }
        ensures disagree { result ≡ Err ListingFault.Disagree → ¬ Agree n uids.now sizes.now }
        ensures too_many { (result ≡ Err ListingFault.TooMany) ↔ (message_limit < n) }
    {
        if n > MESSAGE_LIMIT {
            return Err(ListingFault::TooMany);
        }
        if uids.len() > n as usize {
            return Err(ListingFault::Disagree);
        }
        let mut rows = UidRows::new(alloc);
        for row in uids {
            rows.push(row.number, &row.uid)?;
        }
        rows.join(alloc, n, sizes)
    }

    /// How many messages there are.
    pub fn len(&self) -> u32
        ensures count { result ≡ length self.now }
        ensures within { result ≤ message_limit }
    {
        self.items.len() as u32
    }

    /// Whether there is no message.
    pub fn is_empty(&self) -> bool
        ensures { IsTrue result ↔ (self.now ≡ []) }
    {
        self.items.is_empty()
    }

    /// The unique-id of the message of number `i + 1`.
    pub fn uid(&self, i: u32) -> &[u8]
        requires { i < length self.now }
        ensures value { HoldsAt (λ item. result.now ≡ item.uid) self.now i }
        ensures legal { IsLegalId result.now }
    {
        let span = self.items[i as usize].span;
        &self.ids[span.start as usize..span.end as usize]
    }

    /// The listed size, in octets, of the message of number `i + 1`.
    pub fn size(&self, i: u32) -> u64
        requires { i < length self.now }
        ensures { HoldsAt (λ item. result ≡ item.size) self.now i }
    {
        self.items[i as usize].size
    }
}
