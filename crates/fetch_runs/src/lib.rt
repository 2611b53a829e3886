//! What is promised of any list of calls of `session`.
#![tactic(auto)]

mod laws;

pub use laws::{
    calls_get_far, calls_keep_order, calls_keep_promises, calls_record_the_limit,
    durable_accounts_are_safe, durable_fronts_begin, durable_mboxes_are_safe, empty_accounts_hold,
    empty_fronts_begin, entries_mean_texts, firsts_are_entries, firsts_are_prefixes, headline,
    laws_below, losses_keep_entries, losses_keep_the_recorded, losses_take_one, mbox_calls_get_far,
    mbox_calls_keep_order, mbox_calls_keep_promises, mbox_fronts_begin, mbox_headline,
    mbox_sessions_follow_plans, mbox_sessions_lose_nothing, mbox_starts, none_taken,
    passwords_are_in_pass, premises_hold, sessions_are_conversations, sessions_lose_nothing,
    taken_stays_away, turns_keep_promises, visits_are_calls, visits_keep_promises,
    visits_keep_states,
};
