//! Why an rc file, or a command line with it, gives no settings: the line, its key and the rule that it breaks.
//! A reason has no octet of the file.
ghost use Rattle.std.specs.{Prelude.{◌≡◌, IfOk, option_map}, Ffi.without_last, Str.is_utf8};
ghost use Rattle.getmail_setup.specs.RcReason.{IsAfterPath, IsPathReason, IsReasonFor, absent_reason};
ghost use Rattle.getmail_setup.specs.RcReason.{has_byte_order_mark, has_other, known_reason, line_reason};
ghost use Rattle.getmail_setup.specs.RcReason.{missing_reason, opposites, type_rule};
ghost use Rattle.getmail_setup.specs.RcReason.{value_reason, value_rule};

use crate::words::Words;
use rc_file::{Key, RcFault, fault_line, read_other};
use std::alloc::{AllocError, Global};
use std::str;
use system_calls::line_text;

/// An rc file.
#[derive(Clone, Copy)]
pub struct RcFile<'a> {
    pub path: &'a str,
    pub bytes: &'a [u8],
}

/// What the value of a key has to be.
fn value_rule(key: Key) -> &'static str
    ensures { result.now ≡ value_rule key }
{
    match key {
        Key::Server => "one line, not empty, with no NUL",
        Key::Port => "1 to 65535",
        Key::Username | Key::Password => "one line of 1 to 500 octets, with no CR and no NUL",
        Key::UseApop | Key::ReadAll | Key::Delete => "true or false",
        Key::DeleteAfter => "a number of days, 0 to 4294967295",
        _ => "a number, 0 to 18446744073709551615",
    }
}

/// What the type of a retriever or a destination has to be.
fn type_rule(key: Key) -> &'static str
    ensures { result.now ≡ type_rule key }
{
    match key {
        Key::DestinationKind => "Maildir or Mboxrd",
        _ => "SimplePOP3Retriever; TLS needs a tunnel",
    }
}

const TOO_LONG: &str = "an rc file has at most 65536 octets";

/// What sections are called.
const SECTIONS: &str =
    "the names of sections are in small letters: [retriever], [destination], [options]";

/// What may keep a line from being what it looks like.
const OWN_LINE: &str =
    "a comment has a line of its own, and a line after a blank goes on with the value before it";

const GOES_ON: &str = "a line after a blank goes on with the value before it";

/// What a key of getmail6 isn't read for.
const NO_COMMAND: &[u8] =
    b"the key password_command is not known: the password itself is in the rc file, as password = ..";

/// What a path has to be.
const PATH_RULE: &str =
    "a Maildir's path ends in / and an mboxrd file's doesn't; it is one line with no $, and ~ only as ~/ in front";

/// The rule that a value breaks, and the line and the key that have it.
fn value_reason(
    alloc: Global,
    key: Key,
    rule: &str,
    line: Option<u32>,
) -> Result<Vec<u8>, AllocError>
    ensures { IfOk result (λ reason. reason.items ≡ value_reason key rule.now line) }
{
    let Some(line) = line else {
        return Vec::from_slice(alloc, rule.as_bytes());
    };
    let name = key.name();
    let text = format!(in alloc; "line {line}: {name}: {rule}; {OWN_LINE}")?;
    Vec::from_slice(alloc, text.as_bytes())
}

/// A line without its LF.
fn without_last(line: &[u8]) -> &[u8]
    ensures { result.now ≡ without_last line.now }
{
    &line[..line.len().saturating_sub(1)]
}

/// The path of a file, as a reason.
fn path_reason(alloc: Global, path: &str) -> Result<Vec<u8>, AllocError>
    ensures { IfOk result (λ reason. IsPathReason path.now reason.items) }
{
    let line = line_text(alloc, "", path.as_bytes())?;
    Vec::from_slice(alloc, without_last(line.as_slice()))
}

/// Whether a file has a key that settings don't have, in its section on the server. A file without a line that isn't
/// understood is meant.
fn has_other(alloc: Global, bytes: &[u8], key: &str) -> Result<bool, AllocError>
    ensures { IfOk result (λ has. has ≡ has_other bytes.now key.now) }
{
    match read_other(alloc, bytes, "retriever", key) {
        Ok(value) => Ok(value.is_some()),
        Err(_) => Err(AllocError),
    }
}

/// Why a key is missing that is in no line, by what other programs have in its place.
fn absent_reason(alloc: Global, key: Key, bytes: &[u8]) -> Result<Vec<u8>, AllocError>
    ensures { IfOk result (λ reason. reason.items ≡ absent_reason key bytes.now) }
{
    if let Key::Password = key {
        if has_other(alloc, bytes, "passwd")? {
            return Vec::from_slice(alloc, b"the key passwd is not known: is password meant?");
        }
        if has_other(alloc, bytes, "password_command")? {
            return Vec::from_slice(alloc, NO_COMMAND);
        }
    }
    let name = key.name();
    let text = format!(in alloc; "no line of its section begins with {name}; {GOES_ON}")?;
    Vec::from_slice(alloc, text.as_bytes())
}

/// Why a key is missing: the line in which it may have been meant, if there is one.
fn missing_reason(
    alloc: Global,
    key: Key,
    bytes: &[u8],
    line: Option<u32>,
) -> Result<Vec<u8>, AllocError>
    ensures { IfOk result (λ reason. reason.items ≡ missing_reason key bytes.now line) }
{
    let Some(line) = line else {
        return absent_reason(alloc, key, bytes);
    };
    let name = key.name();
    let text = format!(in alloc; "line {line}: is {name} meant?")?;
    Vec::from_slice(alloc, text.as_bytes())
}

/// Whether a file begins with a byte order mark.
fn is_marked(bytes: &[u8]) -> bool
    ensures { result ≡ has_byte_order_mark bytes.now }
{
    bytes.starts_with(b"\xEF\xBB\xBF")
}

/// Whether octets are UTF-8.
#[tactic(auto, using(crate::proofs::TextLemmas::text_of_utf8, crate::proofs::TextLemmas::text_of_other))]
fn is_text(bytes: &[u8]) -> bool
    ensures { result ≡ is_utf8 bytes.now }
{
    match str::from_utf8(bytes) {
        Ok(_) => true,
        Err(_) => false,
    }
}

/// Why a line isn't understood, by whether it is the first one.
fn line_reason(bytes: &[u8], is_first: bool) -> &'static str
    ensures { result.now ≡ line_reason bytes.now is_first }
{
    if is_first && is_marked(bytes) {
        "the file begins with a byte order mark: save it without one"
    } else if !is_text(bytes) {
        "the file is not in UTF-8: save it as UTF-8"
    } else {
        "a line is empty, a comment, a [section], or KEY = VALUE in one; after a blank a value goes on"
    }
}

/// The two flags that ask for opposite things.
fn opposites(words: &Words) -> &'static str
    ensures { result.now ≡ opposites words.now }
{
    let flags = words.flags;
    if flags.all && flags.new_only {
        "--all and --new"
    } else if flags.delete && flags.dont_delete {
        "--delete and --dont-delete"
    } else if words.unattended {
        "--unattended and --verbose"
    } else {
        "--quiet and --verbose"
    }
}

/// The reason of a fault of an rc file of these octets, or of the flags, if more is to be said than its line says.
fn reason_of(
    alloc: Global,
    words: &Words,
    bytes: &[u8],
    fault: &RcFault,
) -> Result<Option<Vec<u8>>, AllocError>
    ensures { IfOk result (λ reason. option_map (λ text. text.items) reason
        ≡ known_reason words.now bytes.now fault.now) }
{
    let line = fault_line(alloc, bytes)?;
    match *fault {
        RcFault::TooLong => Ok(Some(Vec::from_slice(alloc, TOO_LONG.as_bytes())?)),
        RcFault::BadLine(line) => {
            let reason = line_reason(bytes, line == 1);
            Ok(Some(Vec::from_slice(alloc, reason.as_bytes())?))
        }
        RcFault::MissingSection(_) => Ok(Some(Vec::from_slice(alloc, SECTIONS.as_bytes())?)),
        RcFault::MissingKey(key) => Ok(Some(missing_reason(alloc, key, bytes, line)?)),
        RcFault::UnknownType(key) => Ok(Some(value_reason(alloc, key, type_rule(key), line)?)),
        RcFault::BadValue(key) => Ok(Some(value_reason(alloc, key, value_rule(key), line)?)),
        RcFault::Unsupported(key) => Ok(Some(value_reason(alloc, key, "must be false", line)?)),
        RcFault::BadPath => Ok(Some(value_reason(alloc, Key::Path, PATH_RULE, line)?)),
        RcFault::Contradiction => Ok(Some(Vec::from_slice(alloc, opposites(words).as_bytes())?)),
        RcFault::NoMemory => Ok(None),
    }
}

/// A reason after the path of the file.
fn after_path(alloc: Global, path: &str, reason: &[u8]) -> Result<Vec<u8>, AllocError>
    ensures { IfOk result (λ text. IsAfterPath path.now reason.now text.items) }
{
    let mut text = path_reason(alloc, path)?;
    text.extend_from_slice(b": ")?;
    text.extend_from_slice(reason)?;
    Ok(text)
}

/// What tells of a fault of an rc file, or of the flags: the path of the file and the reason, if one is known, or the
/// reason alone, if it is about flags.
pub fn reason_in(
    alloc: Global,
    words: &Words,
    file: RcFile<'_>,
    fault: &RcFault,
) -> Result<Vec<u8>, AllocError>
    ensures { IfOk result (λ text. IsReasonFor file.entry.path.now fault.now
        (known_reason words.now file.entry.bytes.now fault.now) text.items) }
{
    match (reason_of(alloc, words, file.bytes, fault)?, fault) {
        (None, _) => path_reason(alloc, file.path),
        (Some(reason), RcFault::Contradiction) => Ok(reason),
        (Some(reason), _) => after_path(alloc, file.path, &reason),
    }
}
