//! What a session goes by.
use fetch_rules::Settings;
use mail_store::AccountId;

/// What a session goes by: the settings, the account's text, and the time in seconds since 1970.
#[derive(Clone, Copy)]
pub struct Terms<'a> {
    pub settings: &'a Settings,
    pub account: &'a AccountId,
    pub now: u64,
}
