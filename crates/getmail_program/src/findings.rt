//! What was noted of a session that a fault cut.
ghost use Rattle.std.specs.{
  Prelude.{◌≡◌, ◌≤◌, ◌++◌, ◌↔◌, IfOk, IsSomeAnd, IsTrue, None, codes, length},
  IoError.error_kind,
  List.prefix_len,
  String.string_bytes,
};
ghost use Rattle.getmail_program.specs.Findings.{
  FindsOn,
  IsDenied,
  IsDeniedIn,
  IsFolderIn,
  IsPlace,
  IsToldAt,
  IsRecordFolder,
  IsRecordPlace,
  IsRefusedText,
  IsStorePlace,
  IsTextFront,
  IsWaited,
  faulty_device,
  folder_end,
  is_in_name,
  is_slash,
  name_end,
};

use crate::told::RunTerms;
use fetch_session::{Fault, Outcome, Why};
use getmail_setup::{Errors, Journal, Reasons, SILENT};
use std::alloc::{AllocError, Global};
use std::io::ErrorKind;
use system_calls::Refusal;
use trace::Said;

/// What was noted of a session that a fault cut; what wasn't is empty.
#[derive(Drop)]
pub struct Findings<'a> {
    /// What was said in the conversation.
    pub said: Said,
    /// What the system refused to the device that the fault is of, and what it said.
    pub refused: Vec<u8>,
    /// Whether it refused that because rights were missing.
    pub is_denied: bool,
    /// How many octets came since a command without a whole line.
    pub unread: u64,
    /// The destination's path.
    pub destination: &'a str,
    /// The record's path.
    pub record: &'a str,
}

/// Whether a call was refused since it waited for a limited time.
fn has_waited(refusal: &Refusal) -> bool
    ensures { IsTrue result ↔ error_kind refusal.now.error ≡ ErrorKind.WouldBlock }
{
    refusal.error.kind() == ErrorKind::WouldBlock
}

/// What is said of the other end of a link that was silent for that time.
fn silent_text(alloc: Global, path: &str) -> Result<Vec<u8>, AllocError>
    ensures { IfOk result (λ text. text.items ≡ path.now ++ codes ": silent for 180 seconds") }
{
    let text = format!(in alloc; "{path}: {SILENT}")?;
    Vec::from_slice(alloc, text.as_bytes())
}

/// What a call was refused for.
fn waited(alloc: Global, refusal: &Refusal) -> Result<Vec<u8>, AllocError>
    ensures { IfOk result (λ text. IsWaited refusal.now text.items) }
{
    if has_waited(refusal) {
        return silent_text(alloc, refusal.path.as_str());
    }
    refusal.text(alloc)
}

/// How many slashes octets begin with.
fn leading_slashes(octets: &[u8]) -> usize
    ensures value { result ≡ prefix_len is_slash octets.now }
    ensures fits { result ≤ length octets.now }
{
    octets.iter().take_while(|octet| **octet == b'/').count()
}

/// How long the name is that octets begin with.
fn name_length(octets: &[u8]) -> usize
    ensures value { result ≡ prefix_len is_in_name octets.now }
    ensures fits { result ≤ length octets.now }
{
    octets.iter().take_while(|octet| **octet != b'/').count()
}

/// Where the first name in octets ends, that may have slashes before it.
fn name_end(octets: &[u8]) -> usize
    ensures value { result ≡ name_end octets.now }
    ensures fits { result ≤ length octets.now }
{
    let slashes = leading_slashes(octets);
    slashes + name_length(&octets[slashes..])
}

/// Where the folder of a Maildir ends in a path that leads there; at the path's end if it leads nowhere below the
/// destination.
fn folder_end(path: &[u8], destination: &[u8]) -> usize
    ensures { result ≡ folder_end path.now destination.now }
{
    if !path.starts_with(destination) {
        return path.len();
    }
    destination.len() + name_end(&path[destination.len()..])
}

/// So many octets of a text; all of it if they cut a character.
fn front(text: &str, length: usize) -> &str
    ensures { IsTextFront text.now length result.now }
{
    match text.get(..length) {
        Some(front) => front,
        None => text,
    }
}

/// The folder of a Maildir in which something is missing or may not be written, of which the path leads there.
fn folder_in<'a>(path: &'a str, destination: &str) -> &'a str
    ensures { IsFolderIn path.entry.now destination.now result.now }
{
    front(path, folder_end(path.as_bytes(), destination.as_bytes()))
}

/// The folder of a Maildir that may not be read or written, of which the path leads there. A name goes from `tmp` to
/// `new`, and which of them refused it isn't known: then it is the Maildir.
fn denied_in<'a>(path: &'a str, destination: &'a str) -> &'a str
    ensures { IsDeniedIn path.entry.now destination.entry.now result.now }
{
    let folder = folder_in(path, destination);
    if folder.as_bytes().ends_with(b"/tmp") {
        destination
    } else {
        folder
    }
}

/// The folder of the record, if a path isn't the record's.
fn record_folder<'a>(path: &'a str, seen: &str) -> &'a str
    ensures { IsRecordFolder path.entry.now seen.now result.now }
{
    if path.as_bytes() == seen.as_bytes() {
        return path;
    }
    match path.rsplit_once('/') {
        Some((folder, _)) => folder,
        None => path,
    }
}

/// The path that a refused call of the store is told with.
fn place_in_store<'a>(why: Why, is_denied: bool, path: &'a str, destination: &'a str) -> &'a str
    ensures { IsStorePlace why is_denied path.entry.now destination.entry.now result.now }
{
    match why {
        Why::Missing => {
            if is_denied {
                return denied_in(path, destination);
            }
            folder_in(path, destination)
        }
        Why::Refused => {
            if is_denied {
                return denied_in(path, destination);
            }
            path
        }
        Why::NotMbox => path,
    }
}

/// The path that a refused call of the record is told with.
fn place_at_record<'a>(is_denied: bool, path: &'a str, seen: &str) -> &'a str
    ensures { IsRecordPlace is_denied path.entry.now seen.now result.now }
{
    if is_denied {
        return record_folder(path, seen);
    }
    path
}

/// The path that a fault is told with: of the folder in which something is missing or may not be written, and not of a
/// file that was never there.
fn place_of(
    alloc: Global,
    fault: &Fault,
    is_denied: bool,
    path: &str,
    terms: &RunTerms<'_>,
) -> Result<String, AllocError>
    ensures { IfOk result (λ place. IsPlace fault.now is_denied path.now terms.entry.now.destination.now
        terms.entry.now.record.now (string_bytes place)) }
{
    match fault {
        Fault::StoreRefused(why) => {
            let place = place_in_store(*why, is_denied, path, terms.destination);
            Ok(String::from_str(alloc, place)?)
        }
        Fault::SeenRefused => {
            Ok(String::from_str(alloc, place_at_record(is_denied, path, terms.record))?)
        }
        _ => Ok(String::from_str(alloc, path)?),
    }
}

/// Whether something was refused because rights were missing.
fn is_denied(refusal: &Option<Refusal>) -> bool
    ensures { IsDenied refusal.now result }
{
    match refusal {
        Some(refusal) => refusal.error.kind() == ErrorKind::PermissionDenied,
        None => false,
    }
}

/// What the system refuses calls to in a session.
#[derive(Clone, Copy)]
enum Device {
    Link,
    Store,
    Record,
}

/// What a fault's call was refused to; none if no call was refused.
fn faulty_device(fault: &Fault) -> Option<Device>
    ensures { result ≡ faulty_device fault.now }
{
    match fault {
        Fault::ReadFailed | Fault::WriteFailed => Some(Device::Link),
        Fault::StoreRefused(Why::Missing | Why::Refused) => Some(Device::Store),
        Fault::SeenRefused => Some(Device::Record),
        _ => None,
    }
}

/// What was refused to the device that a fault is of. It is taken out.
fn refusal_for(reasons: &Reasons, fault: &Fault) -> Option<Refusal>
    ensures { faulty_device fault.now ≡ None → result ≡ None }
{
    match faulty_device(fault)? {
        Device::Link => reasons.link.take(),
        Device::Store => reasons.store.take(),
        Device::Record => reasons.record.take(),
    }
}

/// What was refused, if that is known, with the path that its fault is told with.
fn placed(
    alloc: Global,
    fault: &Fault,
    terms: &RunTerms<'_>,
    refusal: Option<Refusal>,
) -> Result<Option<Refusal>, AllocError>
    ensures { IfOk result (IsToldAt fault.now terms.entry.now.destination.now terms.entry.now.record.now refusal) }
{
    let is_denied = is_denied(&refusal);
    let Some(Refusal { path, error }) = refusal else {
        return Ok(None);
    };
    let path = place_of(alloc, fault, is_denied, path.as_str(), terms)?;
    Ok(Some(Refusal { path, error }))
}

/// What was refused, in words; empty if it isn't known.
fn refused_text(alloc: Global, refusal: &Option<Refusal>) -> Result<Vec<u8>, AllocError>
    ensures { IfOk result (λ text. IsRefusedText refusal.now text.items) }
{
    match refusal {
        Some(refusal) => waited(alloc, refusal),
        None => Ok(Vec::new(alloc)),
    }
}

/// An unattended run takes faults of one path for the same.
fn note_place(refusal: &Option<Refusal>, journal: Option<&Journal>) {
    if let (Some(refusal), Some(journal)) = (refusal, journal) {
        journal.note_place(refusal.path.as_str());
    }
}

/// What was noted of an outcome. It is taken out, if reasons are asked for.
pub fn findings_on<'a, E>(
    alloc: Global,
    outcome: &Outcome,
    terms: &RunTerms<'a>,
    errors: &Errors<'_, E>,
) -> Result<Findings<'a>, AllocError>
    ensures { IfOk result (FindsOn errors.now.says_why outcome.now terms.entry.now.destination.now
        terms.entry.now.record.now) }
{
    let RunTerms {
        destination,
        record,
        ..
    } = *terms;
    let (Outcome::Cut(fault), true) = (outcome, errors.says_why) else {
        return Ok(Findings {
            said: Said::new(alloc),
            refused: Vec::new(alloc),
            is_denied: false,
            unread: 0,
            destination,
            record,
        });
    };
    let said = errors.reasons.talk.take();
    let refusal = placed(alloc, fault, terms, refusal_for(errors.reasons, fault))?;
    note_place(&refusal, errors.journal);
    Ok(Findings {
        said,
        refused: refused_text(alloc, &refusal)?,
        is_denied: is_denied(&refusal),
        unread: errors.reasons.unread.get(),
        destination,
        record,
    })
}
