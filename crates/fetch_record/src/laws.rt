//! Laws of the record, for the crates above: a function here does nothing, and its contract is the law.
#![tactic(auto, using(crate::proofs::MergeLemmas::merge_laws, crate::proofs::MeaningLemmas::file_laws))]

ghost use Rattle.std.specs.Prelude.{◌≡◌, ℕ, ◌&&◌, ◌||◌, Bool, false, true, List, All, bytes_eq};
ghost use Rattle.mail_terms.specs.Listing.{Item, has_item, is_flagged};
ghost use Rattle.fetch_record.specs.{
  Record.{Row, IsRecord, has_row, is_delivered, marked, merged},
  RecordGrowth.{AppendedCounts, BytesStand, CutIsIgnored, OneIsRead, OneMeaning, OneRecord, OpenHasRow},
  RecordTorn.TornIsIgnoredOrSeen,
};

/// After a merge an id is recorded as delivered if it was before, or is held.
pub fn held_is_delivered()
    ensures { (rows : List Row) (listing : List Item) (held : List Bool) (now : ℕ) (uid : List ℕ)
        → is_delivered (merged rows listing held now) uid ≡ is_delivered rows uid || is_flagged listing held uid }
{}

/// After a merge an id has a row if it had one before, or is listed.
pub fn listed_has_row()
    ensures { (rows : List Row) (listing : List Item) (held : List Bool) (now : ℕ) (uid : List ℕ)
        → has_row (merged rows listing held now) uid ≡ has_row rows uid || has_item listing uid }
{}

/// A merge of a listing whose ids are all recorded as delivered changes nothing, whatever is held.
pub fn known_listings_change_nothing()
    ensures { (rows : List Row) (listing : List Item) (held : List Bool) (now : ℕ) → IsRecord rows
        → All (λ (item : Item). is_delivered rows item.uid ≡ true) listing → merged rows listing held now ≡ rows }
{}

/// A merge doesn't depend on whether ids that are recorded as delivered are held.
pub fn merges_ask_only_for_new_ids()
    ensures { (rows : List Row) (listing : List Item) (held others : List Bool) (now : ℕ) → IsRecord rows
        → ((uid : List ℕ) → is_delivered rows uid ≡ false
        → is_flagged listing held uid ≡ is_flagged listing others uid)
        → merged rows listing held now ≡ merged rows listing others now }
{}

/// An id that is recorded as delivered has a row.
pub fn delivered_has_row()
    ensures { (rows : List Row) (uid : List ℕ) → is_delivered rows uid ≡ true → has_row rows uid ≡ true }
{}

/// After a mark an id is recorded as delivered if it was before, or has a row and is the one that
/// was marked.
pub fn marked_is_delivered()
    ensures { (rows : List Row) (uid other : List ℕ)
        → is_delivered (marked rows uid) other ≡ is_delivered rows other || (has_row rows other && bytes_eq uid other) }
{}

/// After a mark the same ids have rows.
pub fn marked_keeps_rows()
    ensures { (rows : List Row) (uid other : List ℕ) → has_row (marked rows uid) other ≡ has_row rows other }
{}

/// What a loss of power leaves of a group or an intent that was appended to a file of version 2, and
/// isn't all of it, counts for nothing; but if a line ends behind a zero in it, the file is refused.
pub fn torn_is_ignored_or_seen()
    ensures { TornIsIgnoredOrSeen }
{}

/// Bytes stand for one record at most, or have one first fault.
pub fn bytes_have_one_meaning()
    ensures { OneMeaning }
{}

/// A file stands for one record at most; a missing file stands for the empty record.
pub fn files_stand_for_one_record()
    ensures { OneRecord }
{}

/// What `bytes` writes stands for its record, and isn't torn.
pub fn bytes_stand()
    ensures { BytesStand }
{}

/// What `merge_rows`, `mark_rows` or `intend` gave, appended whole to a file of version 2
/// that is neither empty nor torn, makes it stand for the new record.
pub fn appended_counts()
    ensures { AppendedCounts }
{}

/// Appended there only in part, it counts for nothing and is a torn end.
pub fn cut_is_ignored()
    ensures { CutIsIgnored }
{}

/// A file of version 1 is read as one of version 2 with the same rows, and no intent is open.
pub fn older_files_are_read()
    ensures { OneIsRead }
{}

/// The id of an open intent has a row.
pub fn open_intents_have_rows()
    ensures { OpenHasRow }
{}
