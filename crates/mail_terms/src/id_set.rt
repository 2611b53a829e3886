//! Sets of unique-ids. Ids are compared and never hashed: a server chooses them.

ghost use Rattle.std.specs.Prelude.{◌≡◌, ◌||◌, not, ℕ, List, map, Bool, bytes_eq, false, OnOk, IfOk, IfSome, IfNone};
ghost use Rattle.mail_terms.specs.UniqueId.{IsLegalId, has_id};

use std::alloc::{AllocError, Global};
use std::collections::BTreeSet;
use std::marker::Model;
use std::str;

/// The id as a text, or None if it isn't UTF-8, which every legal id is. std compares and hashes a
/// text many octets at a time.
#[tactic(auto, using(crate::proofs::IdLemmas::utf8_id))]
pub fn id_text(uid: &[u8]) -> Option<&str>
    ensures text { IfSome result (λ text. text.now ≡ uid.now) }
    ensures none { IfNone result (IsLegalId uid.now → ⊥) }
{
    match str::from_utf8(uid) {
        Ok(text) => Some(text),
        Err(_) => None,
    }
}

/// Ids from a listing.
#[derive(Drop)]
pub struct IdSet<'a> {
    ids: BTreeSet<&'a str>,
}

impl<'a> Model for IdSet<'a> {
    ghost Value = { List (List ℕ) };

    ghost view = { λ set. map (λ id. id.now) set.ids.keys };
}

impl<'a> IdSet<'a> {
    pub fn new(alloc: Global) -> IdSet<'a>
        ensures { (id : List ℕ) → has_id result id ≡ false }
    {
        IdSet {
            ids: BTreeSet::new(alloc),
        }
    }

    /// Adds an id. Returns whether it was new.
    pub fn insert(&mut self, uid: &'a [u8]) -> Result<bool, AllocError>
        requires { IsLegalId uid.now }
        ensures added { IfOk result (λ added. added ≡ not (has_id self.old uid.now)) }
        ensures ids { OnOk result ((id : List ℕ) → has_id self.new id ≡ (bytes_eq id uid.now || has_id self.old id)) }
    {
        let Some(text) = id_text(uid) else {
            unreachable!()
        };
        Ok(self.ids.insert(text)?)
    }

    pub fn has(&self, uid: &[u8]) -> bool
        requires { IsLegalId uid.now }
        ensures { result ≡ has_id self.now uid.now }
    {
        let Some(text) = id_text(uid) else {
            unreachable!()
        };
        self.ids.contains(text)
    }
}
