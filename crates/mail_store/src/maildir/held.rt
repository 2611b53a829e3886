//! Which messages of a listing a Maildir holds already.

ghost use Rattle.std.specs.Prelude.{◌≡◌, List, ℕ, ◌∷◌, ◌++◌, ◌||◌, ◌&&◌, map, length, vec_len, bytes_eq, IfOk, OnOk};
ghost use Rattle.std.specs.Prelude.{◌≢◌};
ghost use Rattle.hex.specs.Hex.{encode_lower};
ghost use Rattle.mail_terms.specs.{FailureCount.{Tallies, refuses}, Listing.{Item, has_item, is_flagged}};
ghost use Rattle.mail_store.specs.{
  Fault.is_refusal,
  FileName.{stem, is_held},
  Maildir.{AfterTaking, Maildir},
  Held.{AreById, Finds, FindsAsked, FindsDurable, FindsFlags, HasStems, any_name, flags_of, flags_sought, has_text},
  Held.{ToldAreOdd, odd_flags, sought_among},
};

use crate::account::AccountId;
use crate::fault::StoreFault;
use crate::maildir::disk::{Asked, MaildirDisk};
use crate::maildir::names;
use mail_terms::Listing;
use std::alloc::{AllocError, Global};
use std::collections::BTreeSet;

/// Of which items it is asked whether they are held.
#[derive(Clone, Copy)]
pub struct Query<'a> {
    /// Whether of all.
    pub all: bool,
    /// Else of those for which a flag is set here, one for each item in the listing's order. The files of
    /// those are to be flushed.
    pub flags: &'a [bool],
}

/// How many times more it is asked what is held, because readers took away files that were to be flushed.
const MOST_TIMES: u32 = 8;

/// Adds the digits of the id in the stem of a name, if it is one of the account's.
fn add_name<'a>(
    found: &mut BTreeSet<&'a str>,
    account: &str,
    name: &'a str,
) -> Result<(), AllocError>
    ensures { OnOk result ((q : List ℕ) → has_text found.new q
        ≡ (has_text found.old q || bytes_eq (account.now ++ 46 ∷ q) (stem name.now))) }
{
    let Some(digits) = names::id_digits(account, names::stem(name)) else {
        return Ok(());
    };
    found.insert(digits)?;
    Ok(())
}

/// Adds the digits of the ids in the stems of the account's names among these.
fn add_digits<'a>(
    found: &mut BTreeSet<&'a str>,
    account: &str,
    names: &'a [String],
) -> Result<(), AllocError>
    ensures { OnOk result ((q : List ℕ) → has_text found.new q
        ≡ (has_text found.old q || any_name account.now q names.now)) }
{
    for name in names {
        add_name(found, account, name.as_str())?;
    }
    Ok(())
}

/// Whether the digits of each item's id are among these, in order.
fn flags_of(
    alloc: Global,
    found: &BTreeSet<&str>,
    listing: &Listing,
) -> Result<Vec<bool>, AllocError>
    ensures flags { IfOk result
        (λ flags. flags.items ≡ map (λ item. has_text found.now (encode_lower item.uid)) listing.now) }
    ensures length { IfOk result (λ flags. vec_len flags ≡ length listing.now) }
{
    let mut flags = Vec::new(alloc);
    for i in 0..listing.len() {
        flags.push(is_found(alloc, found, listing.uid(i))?)?;
    }
    Ok(flags)
}

/// Whether a flag is set and the digits of an id are among these.
fn is_asked(
    alloc: Global,
    found: &BTreeSet<&str>,
    uid: &[u8],
    flag: bool,
) -> Result<bool, AllocError>
    ensures { IfOk result (λ is. is ≡ (flag && has_text found.now (encode_lower uid.now))) }
{
    if !flag {
        return Ok(false);
    }
    is_found(alloc, found, uid)
}

/// Whether each item's flag is set and the digits of its id are among these, in order.
fn flags_sought(
    alloc: Global,
    found: &BTreeSet<&str>,
    listing: &Listing,
    flags: &[bool],
) -> Result<Vec<bool>, AllocError>
    requires { length flags.now ≡ length listing.now }
    ensures flags { IfOk result (λ sought. sought.items ≡ sought_among (has_text found.now) listing.now flags.now) }
    ensures length { IfOk result (λ sought. vec_len sought ≡ length listing.now) }
{
    let mut sought = Vec::with_capacity(alloc, flags.len())?;
    for i in 0..listing.len() {
        sought.push(is_asked(alloc, found, listing.uid(i), flags[i as usize])?)?;
    }
    Ok(sought)
}

/// Whether the digits of an id are among these.
fn is_found(alloc: Global, found: &BTreeSet<&str>, uid: &[u8]) -> Result<bool, AllocError>
    ensures { IfOk result (λ is. is ≡ has_text found.now (encode_lower uid.now)) }
{
    if found.is_empty() {
        return Ok(false);
    }
    let digits = hex::encode(alloc, uid)?;
    Ok(found.contains(digits.as_str()))
}

/// The stems of the files of the items for which both flags are set, the flags in the listing's order.
fn stems_of(
    alloc: Global,
    account: &AccountId,
    listing: &Listing,
    held: &[bool],
    flags: &[bool],
) -> Result<Vec<String>, AllocError>
    requires held { length held.now ≡ length listing.now }
    requires flags { length flags.now ≡ length listing.now }
    ensures { IfOk result (λ stems. HasStems account.now listing.now held.now flags.now
        (length listing.now) stems.items) }
{
    let mut stems = Vec::new(alloc);
    for i in 0..listing.len() {
        if !held[i as usize] {
            continue;
        }
        if !flags[i as usize] {
            continue;
        }
        stems.push(names::file_stem(alloc, account, listing.uid(i))?)?;
    }
    Ok(stems)
}

/// Of the flags that `held` returns, one of an id is set exactly if the id is listed and held.
#[tactic(auto, using(crate::proofs::MaildirLemmas::flagged_where_held))]
pub fn flags_tell_what_is_held()
    ensures { (account : List ℕ) (maildir : Maildir) (items : List Item) (uid : List ℕ)
        → is_flagged items (flags_of account maildir items) uid ≡ (has_item items uid && is_held account maildir uid) }
{}

/// Whether the id of each item of the listing is held: its stem is that of a name in `new` or `cur`,
/// whatever follows the stem. The flags are in the listing's order. Missing if `new` or `cur` isn't
/// there, Refused if the device refused, NoMemory if memory runs out. The Maildir stays as it was,
/// but for files that readers took away; and if flags are returned, each of its names is durable.
///
/// With m files and n items the time grows as (m + n) log n.
pub fn held<D: MaildirDisk>(
    alloc: Global,
    disk: &mut D,
    account: &AccountId,
    listing: &Listing,
) -> Result<Vec<bool>, StoreFault>
    ensures finds { D.sound disk.new → D.sound disk.old
        × AfterTaking (D.maildir disk.old) (λ left. Finds account.now left listing.now result (D.maildir disk.new)) }
    ensures count { Tallies (refuses is_refusal result) (D.maildir disk.old).failures (D.maildir disk.new).failures }
    ensures length { IfOk result (λ flags. vec_len flags ≡ length listing.now) }
    ensures fault { result ≢ Err StoreFault.NotMbox }
{
    let all = vec![in alloc; true; listing.len() as usize]?;
    held_of(alloc, disk, account, listing, &all)
}

/// Whether what can't be opened bears a name of each item's id, after a call that told which are held. The flags are in
/// the listing's order.
pub fn odd_flags<D: MaildirDisk>(
    alloc: Global,
    disk: &D,
    account: &AccountId,
    listing: &Listing,
) -> Result<Vec<bool>, AllocError>
    ensures flags { D.sound disk.now → ToldAreOdd (D.maildir disk.now)
        → IfOk result (λ flags. flags.items ≡ odd_flags account.now (D.maildir disk.now) listing.now) }
    ensures by_ids { IfOk result (λ flags. AreById listing.now flags.items) }
{
    let mut found = BTreeSet::new(alloc);
    add_digits(&mut found, account.as_str(), disk.odd())?;
    flags_of(alloc, &found, listing)
}

/// As `held`, but only of the items for which a flag is set; the others' flags are false. No name is kept that none of
/// these has.
fn held_of<D: MaildirDisk>(
    alloc: Global,
    disk: &mut D,
    account: &AccountId,
    listing: &Listing,
    flags: &[bool],
) -> Result<Vec<bool>, StoreFault>
    requires { length flags.now ≡ length listing.now }
    ensures finds { D.sound disk.new → D.sound disk.old × AfterTaking (D.maildir disk.old)
        (λ left. FindsFlags (flags_sought account.now left listing.now flags.now) left result (D.maildir disk.new)) }
    ensures count { Tallies (refuses is_refusal result) (D.maildir disk.old).failures (D.maildir disk.new).failures }
    ensures length { IfOk result (λ flags. vec_len flags ≡ length listing.now) }
    ensures fault { result ≢ Err StoreFault.NotMbox }
{
    let asked = Asked {
        account,
        listing,
        flags,
    };
    let names = disk.names_among(asked)?;
    let mut found = BTreeSet::new(alloc);
    add_digits(&mut found, account.as_str(), &names)?;
    Ok(flags_sought(alloc, &found, listing, flags)?)
}

/// As `held`, of the items that are asked for. The flags of others are false.
pub fn held_asked<D: MaildirDisk>(
    alloc: Global,
    disk: &mut D,
    account: &AccountId,
    listing: &Listing,
    asked: Query<'_>,
) -> Result<Vec<bool>, StoreFault>
    requires { length asked.flags.now ≡ length listing.now }
    ensures finds { D.sound disk.new → D.sound disk.old
        × AfterTaking (D.maildir disk.old) (λ left. FindsAsked asked.entry.all account.now left listing.now
        asked.entry.flags.now result (D.maildir disk.new)) }
    ensures count { Tallies (refuses is_refusal result) (D.maildir disk.old).failures (D.maildir disk.new).failures }
    ensures length { IfOk result (λ flags. vec_len flags ≡ length listing.now) }
    ensures fault { result ≢ Err StoreFault.NotMbox }
{
    if asked.all {
        return held(alloc, disk, account, listing);
    }
    held_of(alloc, disk, account, listing, asked.flags)
}

/// As `flush_held`, but asks what is held this many times more.
fn flush_within<D: MaildirDisk>(
    alloc: Global,
    disk: &mut D,
    account: &AccountId,
    listing: &Listing,
    asked: Query<'_>,
    times: u32,
) -> Result<Vec<bool>, StoreFault>
    requires { length asked.flags.now ≡ length listing.now }
    ensures finds { D.sound disk.new → D.sound disk.old
        × AfterTaking (D.maildir disk.old) (λ left. FindsDurable asked.entry.all account.now left listing.now
        asked.entry.flags.now result (D.maildir disk.new)) }
    ensures count { Tallies (refuses is_refusal result) (D.maildir disk.old).failures (D.maildir disk.new).failures }
    ensures length { IfOk result (λ flags. vec_len flags ≡ length listing.now) }
    ensures fault { result ≢ Err StoreFault.NotMbox }
{
    let found = held_asked(alloc, disk, account, listing, asked)?;
    let stems = stems_of(alloc, account, listing, &found, asked.flags)?;
    if stems.is_empty() {
        return Ok(found);
    }
    if disk.flush(&stems, times > 0)? {
        return Ok(found);
    }
    flush_within(alloc, disk, account, listing, asked, times - 1)
}

/// As `held_asked`, and flushes the file of each item that is held and for which a flag is set. If a reader
/// took such a file away meanwhile, it is asked again what is held; Refused also if readers do so again and
/// again.
pub fn flush_held<D: MaildirDisk>(
    alloc: Global,
    disk: &mut D,
    account: &AccountId,
    listing: &Listing,
    asked: Query<'_>,
) -> Result<Vec<bool>, StoreFault>
    requires { length asked.flags.now ≡ length listing.now }
    ensures finds { D.sound disk.new → D.sound disk.old
        × AfterTaking (D.maildir disk.old) (λ left. FindsDurable asked.entry.all account.now left listing.now
        asked.entry.flags.now result (D.maildir disk.new)) }
    ensures count { Tallies (refuses is_refusal result) (D.maildir disk.old).failures (D.maildir disk.new).failures }
    ensures length { IfOk result (λ flags. vec_len flags ≡ length listing.now) }
    ensures fault { result ≢ Err StoreFault.NotMbox }
{
    flush_within(alloc, disk, account, listing, asked, MOST_TIMES)
}
