//! Laws of listings and plans, for the crates above: a function here does nothing, and its contract is the
//! law.
#![tactic(auto, using(crate::proofs::PlanLemmas::plan_laws))]

ghost use Rattle.std.specs.Prelude.{◌≡◌, ℕ, Bool, List, []};
ghost use Rattle.mail_terms.specs.Listing.{Item, Joins, UidRow};
ghost use Rattle.fetch_record.specs.Record.{Row};
ghost use Rattle.fetch_rules.specs.{
  Laws.{FetchesAsked, FetchesFirsts},
  Plan.{planned, retrieved},
  Wanted.{WantedAreFirst, wanted},
};

use mail_terms::ScanRow;
use rc_file::Settings;

/// A plan fetches only messages whose id no earlier message has, so no id twice.
pub fn only_firsts_are_fetched()
    ensures { (settings : Settings) (is_odd : List ℕ → Bool) (rows : List Row) (listing : List Item) (now : ℕ)
        → FetchesFirsts [] (planned settings is_odd rows listing now) listing }
{}

/// A plan fetches only messages that aren't recorded as delivered, unless all are to be read.
pub fn only_asked_for_are_fetched()
    ensures { (settings : Settings) (is_odd : List ℕ → Bool) (rows : List Row) (listing : List Item) (now : ℕ)
        → FetchesAsked settings rows (planned settings is_odd rows listing now) listing }
{}

/// The messages that a plan's steps fetch are those that are wanted.
pub fn plans_fetch_wanted()
    ensures { (settings : Settings) (is_odd : List ℕ → Bool) (rows : List Row) (listing : List Item) (now : ℕ)
        → retrieved (planned settings is_odd rows listing now) listing ≡ wanted settings is_odd rows listing }
{}

/// The rows of UIDL and of LIST are joined in one way.
pub fn rows_join_in_one_way()
    ensures { (n : ℕ) (uids : List UidRow) (sizes : List ScanRow) (one other : List Item)
        → Joins n uids sizes one → Joins n uids sizes other → one ≡ other }
{}

/// If no id occurs twice in a listing, what is fetched are the first of a plain filter of it, by each
/// message's size and what is recorded of its id.
pub fn wanted_are_first()
    ensures { WantedAreFirst }
{}
