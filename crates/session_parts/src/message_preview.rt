//! What a run would do with each message of a listing.
ghost use Rattle.std.specs.Prelude.{◌≡◌, length, IfOk};
ghost use Rattle.session_parts.specs.MessagePreview.{due_of, message_previews};

use crate::terms::Terms;
use fetch_rules::{Listing, SECONDS_PER_DAY, Seen, Step, may_be_deleted};
use std::alloc::{AllocError, Global};
use std::hash::BuildHasher;
use std::vec::Vec;

/// What a run would do with one message.
#[derive(Clone, Copy, Debug, PartialEq, Eq)]
pub struct MessagePreview {
    /// What the plan does with it.
    pub step: Step,
    /// The listed size, in octets.
    pub size: u64,
    /// Whether the store holds it. Then it isn't stored again, even if it is fetched.
    pub held: bool,
    /// If it isn't old enough to be deleted: when it will be, in seconds since 1970.
    pub due: Option<u64>,
}

/// When a message of this id is old enough to be deleted, if it isn't yet. One without a row is first seen
/// now.
fn due_of<H: BuildHasher>(terms: Terms<'_>, seen: &Seen<H>, step: Step, uid: &[u8]) -> Option<u64>
    ensures { result ≡ due_of terms.entry.settings.now seen.now.rows terms.entry.now step uid.now }
{
    let settings = terms.settings;
    if settings.delete || settings.delete_after == 0 {
        return None;
    }
    if !may_be_deleted(seen.is_delivered(uid), step.skip) {
        return None;
    }
    let since = seen.first_seen(uid).unwrap_or(terms.now);
    let due = since.saturating_add(SECONDS_PER_DAY.saturating_mul(settings.delete_after));
    if terms.now < due { Some(due) } else { None }
}

/// What a preview says of each message of a listing, by its step.
pub(crate) fn message_previews<H: BuildHasher>(
    alloc: Global,
    terms: Terms<'_>,
    seen: &Seen<H>,
    listing: &Listing,
    held: &[bool],
    steps: &[Step],
) -> Result<Vec<MessagePreview>, AllocError>
    requires all_flags { length held.now ≡ length listing.now }
    requires all_steps { length steps.now ≡ length listing.now }
    ensures { IfOk result
        (λ told. told.items ≡ message_previews terms.entry.settings.now seen.now.rows terms.entry.now steps.now
        listing.now held.now) }
{
    let mut told = Vec::with_capacity(alloc, steps.len())?;
    for i in 0..listing.len() {
        let step = steps[i as usize];
        told.push(MessagePreview {
            step,
            size: listing.size(i),
            held: held[i as usize],
            due: due_of(terms, seen, step, listing.uid(i)),
        })?;
    }
    Ok(told)
}
