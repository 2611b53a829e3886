//! The names of an account's files in a Maildir.

ghost use Rattle.std.specs.{
  Prelude.{◌≡◌, false, ℕ, ◌≢◌, ◌≤◌, List, ◌∷◌, ◌++◌, length, ◌||◌, bytes_eq, IfOk, IfSome, IfNone, MatchOption, OnOk},
  Prelude.{[], ◌<◌, ◌&&◌, HoldsAt, if◌then◌else◌, map, string_bytes},
  List.filter,
};
ghost use Rattle.hex.specs.Hex.{encode_lower};
ghost use Rattle.mail_terms.specs.{UniqueId.IsLegalId, MaildirName.base};
ghost use Rattle.mail_store.specs.{
  FileName.{HasRoomForSize, IsAccountText, NamesAreBases, NamesHaveStems, StemsAreStems, StemsDiffer, is_held, name_of},
  FileName.{longest_name, longest_stem, mail_file, sized, stem, stem_of},
  Held.{asks, is_sought},
  Maildir.{Maildir, IsThere, with_file},
};

use crate::account::AccountId;
use crate::maildir::disk::Asked;
use hex::FromHexError;
use itoa::Buffer;
use mail_terms::{base, is_legal_id, legal_ids_have_ranges};
use std::alloc::{AllocError, Global};

/// The length of the longest name of an account's file, in bytes.
const LONGEST_NAME: usize = 228;

/// The length of `,S=` and the longest size, in bytes.
pub const SIZE_ROOM: usize = 23;

/// The part of a name in `new` or `cur` before the first comma of its base. What follows describes
/// the file, such as its size after `,S=` (Maildir++).
pub fn stem(name: &str) -> &str
    ensures { result.now ≡ stem name.now }
{
    let base = base(name);
    match base.split_once(',') {
        Some((stem, _)) => stem,
        None => base,
    }
}

/// The stem of the files that hold an id: the account's 64 digits, a full stop, and the id in
/// lower-case hexadecimal. It has at most 205 bytes, room for a size after them, and no comma and
/// no colon. Files of earlier versions have it as their whole name. The id must be legal (see
/// `is_legal_id`).
pub fn file_stem(alloc: Global, account: &AccountId, uid: &[u8]) -> Result<String, AllocError>
    requires { IsLegalId uid.now }
    ensures stem { IfOk result (λ text. string_bytes text ≡ stem_of account.now uid.now) }
    ensures short { IfOk result (λ text. length (string_bytes text) ≤ longest_stem) }
    ensures room { IfOk result HasRoomForSize }
{
    legal_ids_have_ranges();
    let digits = hex::encode(alloc, uid)?;
    let mut text = String::with_capacity(alloc, LONGEST_NAME)?;
    text.push_str(account.as_str())?;
    text.push('.')?;
    text.push_str(digits.as_str())?;
    Ok(text)
}

/// Appends `,S=` and a size to a stem. It takes no memory: `file_stem` leaves room for it.
pub fn add_size(text: &mut String, size: u64)
    requires { HasRoomForSize text.old }
    ensures { string_bytes text.new ≡ sized (string_bytes text.old) size }
{
    let mut buffer = Buffer::new();
    text.push_str(",S=").unwrap();
    text.push_str(buffer.format(size)).unwrap();
}

/// The name of the file that holds an id and has `size` bytes: its stem, `,S=`, and the size in
/// decimal (Maildir++). It has at most 228 bytes, and is its own base. The id must be legal (see
/// `is_legal_id`).
pub fn file_name(
    alloc: Global,
    account: &AccountId,
    uid: &[u8],
    size: u64,
) -> Result<String, AllocError>
    requires { IsLegalId uid.now }
    ensures name { IfOk result (λ name. string_bytes name ≡ name_of account.now uid.now size) }
    ensures short { IfOk result (λ name. length (string_bytes name) ≤ longest_name) }
{
    let mut name = file_stem(alloc, account, uid)?;
    add_size(&mut name, size);
    Ok(name)
}

/// Two ids of one account have different stems.
#[tactic(auto, using(crate::proofs::MaildirLemmas::stem_of_injective))]
pub fn stems_differ()
    ensures { StemsDiffer }
{
    legal_ids_have_ranges();
}

/// Whether an item is asked for and has this stem.
fn asks_at(alloc: Global, asked: Asked<'_>, i: u32, text: &str) -> Result<bool, AllocError>
    requires listed { i < length asked.listing.now }
    requires flagged { i < length asked.flags.now }
    ensures { IfOk result (λ is. HoldsAt (λ item. HoldsAt (λ flag.
        is ≡ (flag && bytes_eq (stem_of asked.entry.account.now item.uid) text.now))
        asked.entry.flags.now i) asked.entry.listing.now i) }
{
    let stem = file_stem(alloc, asked.account, asked.listing.uid(i))?;
    Ok(asked.flags[i as usize] && stem.as_str() == text)
}

/// Whether a text is the stem of an item that is asked for.
fn asks(alloc: Global, asked: Asked<'_>, text: &str) -> Result<bool, AllocError>
    ensures { IfOk result (λ is. is ≡ asks asked.entry text.now) }
{
    let count = asked.flags.len().min(asked.listing.len() as usize);
    for i in 0..count {
        if asks_at(alloc, asked, i as u32, text)? {
            return Ok(true);
        }
    }
    Ok(false)
}

/// Whether a name has the stem of an item that is asked for.
fn is_sought(alloc: Global, asked: Asked<'_>, name: &str) -> Result<bool, AllocError>
    ensures { IfOk result (λ is. is ≡ is_sought (asks asked.entry) name.now) }
{
    asks(alloc, asked, stem(name))
}

/// Adds a name, if it has the stem of an item that is asked for.
fn add_sought(
    alloc: Global,
    kept: &mut Vec<String>,
    name: &String,
    asked: Asked<'_>,
) -> Result<(), AllocError>
    ensures { OnOk result (map string_bytes kept.new.items ≡ map string_bytes kept.old.items
        ++ (if is_sought (asks asked.entry) (string_bytes name.now) then string_bytes name.now ∷ [] else [])) }
{
    if is_sought(alloc, asked, name.as_str())? {
        kept.push(name.clone()?)?;
    }
    Ok(())
}

/// Those of some names that have the stem of an item that is asked for, in order.
pub fn sought_names(
    alloc: Global,
    names: &[String],
    asked: Asked<'_>,
) -> Result<Vec<String>, AllocError>
    ensures { IfOk result (λ kept. map string_bytes kept.items
        ≡ filter (is_sought (asks asked.entry)) (map string_bytes names.now)) }
{
    let mut kept = Vec::new(alloc);
    for name in names {
        add_sought(alloc, &mut kept, name, asked)?;
    }
    Ok(kept)
}

/// An id's stem holds no comma and no colon.
#[tactic(auto, using(crate::proofs::MaildirLemmas::stem_stem_of))]
pub fn stems_are_stems()
    ensures { StemsAreStems }
{}

/// The stem of an id's name is the id's.
#[tactic(auto, using(crate::proofs::MaildirLemmas::stem_name_of))]
pub fn names_have_stems()
    ensures { NamesHaveStems }
{}

/// The base of an id's name is the name: it holds no colon.
#[tactic(auto, using(crate::proofs::MaildirLemmas::base_name_of))]
pub fn names_are_bases()
    ensures { NamesAreBases }
{}

/// Marks after a name, from a colon on, don't change its base; a base is its own base, and has the
/// stem of the name.
#[tactic(auto, using(crate::proofs::MaildirLemmas::base_marked, crate::proofs::MaildirLemmas::base_base))]
pub fn marks_keep_the_base()
    ensures kept { (name marks : List ℕ) → base (name ++ 58 ∷ marks) ≡ base name }
    ensures own { (name : List ℕ) → base (base name) ≡ base name }
    ensures stems { (name : List ℕ) → stem (base name) ≡ stem name }
{}

/// A file that comes under an id's name makes that id held, and no other.
#[tactic(auto, using(crate::proofs::MaildirLemmas::held_with_file))]
pub fn one_more_is_held()
    ensures { (account a b content : List ℕ) (maildir : Maildir) → IsAccountText account → IsLegalId a → IsLegalId b
        → is_held account (with_file maildir (mail_file account a content)) b
        ≡ (is_held account maildir b || bytes_eq b a) }
{
    legal_ids_have_ranges();
}

/// No file has a name of an id that isn't held, so a text may be delivered under one.
pub fn unheld_ids_are_not_there()
    ensures { (account uid : List ℕ) (size : ℕ) (maildir : Maildir) → IsAccountText account
        → is_held account maildir uid ≡ false
        → IsThere maildir (name_of account uid size) → ⊥ }
{}

/// What follows an account's digits and a full stop in a stem, if it begins with them.
#[tactic(auto, using(std::proofs::lemmas::List::append_cancel_left))]
pub fn id_digits<'a>(account: &str, stem: &'a str) -> Option<&'a str>
    ensures { MatchOption result ((digits : List ℕ) → stem.now ≢ account.now ++ 46 ∷ digits)
        (λ digits. stem.now ≡ account.now ++ 46 ∷ digits.now) }
{
    stem.strip_prefix(account)?.strip_prefix(".")
}

/// The legal id whose lower-case hexadecimal text is this, else None.
#[tactic(auto, using(crate::proofs::MaildirLemmas::decode_of_legal))]
fn decode_id(alloc: Global, digits: &[u8]) -> Result<Option<Vec<u8>>, AllocError>
    ensures some { IfOk result (λ id. IfSome id (λ uid. IsLegalId uid.items × (encode_lower uid.items ≡ digits.now))) }
    ensures none { IfOk result (λ id. IfNone id ((uid : List ℕ) → IsLegalId uid → encode_lower uid ≢ digits.now)) }
{
    legal_ids_have_ranges();
    let uid = match hex::decode(alloc, digits) {
        Ok(uid) => uid,
        Err(fault) => {
            return match fault {
                FromHexError::OutOfMemory => Err(AllocError),
                _ => Ok(None),
            };
        }
    };
    if !is_legal_id(uid.as_slice()) {
        return Ok(None);
    }
    let text = hex::encode(alloc, uid.as_slice())?;
    if text.as_bytes() == digits {
        Ok(Some(uid))
    } else {
        Ok(None)
    }
}

/// The legal id whose stem is that of `name`, else None.
#[tactic(auto, using(std::proofs::lemmas::List::append_cancel_left))]
pub fn uid_of(alloc: Global, account: &AccountId, name: &str) -> Result<Option<Vec<u8>>, AllocError>
    ensures some { IfOk result
        (λ id. IfSome id (λ uid. IsLegalId uid.items × (stem_of account.now uid.items ≡ stem name.now))) }
    ensures none { IfOk result
        (λ id. IfNone id ((uid : List ℕ) → IsLegalId uid → stem_of account.now uid ≢ stem name.now)) }
{
    match id_digits(account.as_str(), stem(name)) {
        Some(digits) => decode_id(alloc, digits.as_bytes()),
        None => Ok(None),
    }
}
