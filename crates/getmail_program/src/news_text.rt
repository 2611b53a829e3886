//! What faults and notices are known by, and the lines of what an unattended run tells beside what any run says. Each
//! line names the account.
ghost use Rattle.std.specs.{Prelude.{◌≡◌, IfOk}, Fmt.decimal, List.before_first, String.string_bytes};
ghost use Rattle.mail_terms.specs.Text.{is_line_feed};
ghost use Rattle.getmail_program.specs.News.{
  IsAgain,
  IsDate,
  IsEnd,
  IsLimited,
  IsMended,
  IsReached,
  IsSeen,
  account_line,
  fault_key,
  left_words,
  mended_words,
  too_large_line,
  notice_key,
  reached_words,
  repeated_line,
  seen_words,
  utf8_in,
  unkept_line,
  unnamed_line,
  without_number,
};

use getmail_setup::{Large, Part, digest_of};
use httpdate::{HttpDate, fmt_http_date};
use mail_terms::cut_text;
use run_memory::{Key, Telling, Times};
use std::alloc::{AllocError, Global};
use std::str;

/// Octets as text; empty if they aren't UTF-8.
#[tactic(auto, using(crate::proofs::NewsLemmas::text_of_utf8, crate::proofs::NewsLemmas::text_of_other))]
fn utf8_in(octets: &[u8]) -> &str
    ensures { result.now ≡ utf8_in octets.now }
{
    match str::from_utf8(octets) {
        Ok(text) => text,
        Err(_) => "",
    }
}

/// The first line of a text.
#[tactic(auto, using(crate::proofs::NewsLemmas::line_of_none))]
fn first_line(text: &[u8]) -> &[u8]
    ensures { result.now ≡ before_first is_line_feed text.now }
{
    if text.is_empty() {
        return text;
    }
    cut_text(text).0
}

/// What begins the line of a refused command that has the number of a message behind it.
const RETR: &[u8] = b"getmail: server refused RETR ";

const DELE: &[u8] = b"getmail: server refused DELE ";

/// A fault's line without the number of a message: mail that leaves the server changes it.
fn without_number(line: &[u8]) -> &[u8]
    ensures { result.now ≡ without_number line.now }
{
    if line.starts_with(RETR) || line.starts_with(DELE) {
        line.get(..29).unwrap_or(line)
    } else {
        line
    }
}

/// What a fault is known by: its line, without the number of a message and the lines of its reason, and the path that
/// it is about.
pub fn fault_key(part: &Part) -> Key
    ensures { result ≡ fault_key part.now }
{
    let line = utf8_in(without_number(first_line(&part.text)));
    Key::new(digest_of(line, utf8_in(&part.place)).as_str())
}

/// What a notice is known by: its text.
pub fn notice_key(part: &Part) -> Key
    ensures { result ≡ notice_key part.now }
{
    Key::new(digest_of(utf8_in(&part.text), "").as_str())
}

/// A number.
fn number_text(alloc: Global, number: u64) -> Result<String, AllocError>
    ensures { IfOk result (λ text. string_bytes text ≡ decimal number) }
{
    format!(in alloc; "{number}")
}

/// A second since 1970 as a reader knows it: a date or, past the year 9999, its number.
fn date_of(alloc: Global, second: u64) -> Result<String, AllocError>
    ensures { IfOk result (λ date. IsDate second (string_bytes date)) }
{
    match HttpDate::from_unix_secs(second) {
        Ok(date) => Ok(fmt_http_date(alloc, date)?),
        Err(_) => Ok(number_text(alloc, second)?),
    }
}

/// A line that names the account.
fn account_line(alloc: Global, account: &[u8], words: &str) -> Result<Vec<u8>, AllocError>
    ensures { IfOk result (λ line. line.items ≡ account_line account.now words.now) }
{
    let mut line = Vec::from_slice(alloc, b"getmail: ")?;
    line.extend_from_slice(account)?;
    line.extend_from_slice(b": ")?;
    line.extend_from_slice(words.as_bytes())?;
    line.extend_from_slice(b"\n")?;
    Ok(line)
}

/// Since when a fault is seen, and how often.
fn seen_words(alloc: Global, date: &str, runs: u64) -> Result<String, AllocError>
    ensures { IfOk result (λ words. string_bytes words ≡ seen_words runs date.now) }
{
    format!(in alloc; "seen since {date}, in {runs} runs")
}

/// The line on that.
fn seen_line(alloc: Global, account: &[u8], times: &Times) -> Result<Vec<u8>, AllocError>
    ensures { IfOk result (λ line. IsSeen account.now times.now line.items) }
{
    let date = date_of(alloc, times.since)?;
    let words = seen_words(alloc, date.as_str(), times.runs)?;
    Ok(account_line(alloc, account, words.as_str())?)
}

/// What follows a fault: since when it is seen and how often, if it was told before.
pub fn again_line(alloc: Global, account: &[u8], telling: &Telling) -> Result<Vec<u8>, AllocError>
    ensures { IfOk result (λ line. IsAgain account.now telling.now line.items) }
{
    match telling {
        Telling::First => Ok(Vec::new(alloc)),
        Telling::Again(times) => Ok(seen_line(alloc, account, times)?),
        Telling::Nothing => Ok(Vec::new(alloc)),
    }
}

/// Names a message that is over the size limit.
pub fn too_large_line(
    alloc: Global,
    account: &[u8],
    limit: u64,
    message: &Large,
) -> Result<Vec<u8>, AllocError>
    ensures { IfOk result (λ line. line.items ≡ too_large_line account.now limit message.now) }
{
    let Large { number, size, .. } = *message;
    let words = format!(in alloc;
        "message {number} has {size} octets, more than max_message_size {limit}: it stays on the server"
    )?;
    Ok(account_line(alloc, account, words.as_str())?)
}

/// How many more messages are over the size limit, if that is told.
pub fn unnamed_line(
    alloc: Global,
    account: &[u8],
    count: Option<u64>,
) -> Result<Vec<u8>, AllocError>
    ensures { IfOk result (λ line. line.items ≡ unnamed_line account.now count) }
{
    match count {
        None => Ok(Vec::new(alloc)),
        Some(1) => {
            let words = "1 more message is larger than max_message_size: it stays on the server";
            Ok(account_line(alloc, account, words)?)
        }
        Some(count) => {
            let words = format!(in alloc;
                "{count} more messages are larger than max_message_size: they stay on the server"
            )?;
            Ok(account_line(alloc, account, words.as_str())?)
        }
    }
}

/// How many messages are left.
fn left_words(alloc: Global, left: u64) -> Result<String, AllocError>
    ensures { IfOk result (λ words. string_bytes words ≡ left_words left) }
{
    if left == 1 {
        return String::from_str(alloc, "1 message is left");
    }
    format!(in alloc; "{left} messages are left")
}

/// Since when each run reached the limit on the number of messages, and how many are left.
fn reached_words(alloc: Global, date: &str, left: u64) -> Result<String, AllocError>
    ensures { IfOk result (λ words. string_bytes words ≡ reached_words left date.now) }
{
    let words = left_words(alloc, left)?;
    format!(in alloc; "each run since {date} reached max_messages_per_session: {words}")
}

/// The line on that.
fn reached_line(alloc: Global, account: &[u8], left: u64, since: u64) -> Result<Vec<u8>, AllocError>
    ensures { IfOk result (λ line. IsReached account.now left since line.items) }
{
    let date = date_of(alloc, since)?;
    let words = reached_words(alloc, date.as_str(), left)?;
    Ok(account_line(alloc, account, words.as_str())?)
}

/// That each run of a day reached that limit, if it is told.
pub fn limited_line(
    alloc: Global,
    account: &[u8],
    left: u64,
    since: Option<u64>,
) -> Result<Vec<u8>, AllocError>
    ensures { IfOk result (λ line. IsLimited account.now left since line.items) }
{
    match since {
        None => Ok(Vec::new(alloc)),
        Some(since) => Ok(reached_line(alloc, account, left, since)?),
    }
}

/// How many messages have a repeated id, if that is told.
pub fn repeated_line(
    alloc: Global,
    account: &[u8],
    count: Option<u64>,
) -> Result<Vec<u8>, AllocError>
    ensures { IfOk result (λ line. line.items ≡ repeated_line account.now count) }
{
    match count {
        None => Ok(Vec::new(alloc)),
        Some(count) => {
            let words = format!(in alloc; "left out: {count} with a repeated unique-id")?;
            Ok(account_line(alloc, account, words.as_str())?)
        }
    }
}

/// That each run tells what is told, if something is.
pub fn unkept_line(alloc: Global, account: &[u8], told: &[u8]) -> Result<Vec<u8>, AllocError>
    ensures { IfOk result (λ line. line.items ≡ unkept_line account.now told.now) }
{
    if told.is_empty() {
        return Ok(Vec::new(alloc));
    }
    let words = "each run tells this, since the folder of its record cannot be written";
    Ok(account_line(alloc, account, words)?)
}

/// Since when runs had failed that work again.
fn mended_words(alloc: Global, date: &str) -> Result<String, AllocError>
    ensures { IfOk result (λ words. string_bytes words ≡ mended_words date.now) }
{
    format!(in alloc; "works again: runs had failed since {date}")
}

/// The line on that.
fn mended_line(alloc: Global, account: &[u8], since: u64) -> Result<Vec<u8>, AllocError>
    ensures { IfOk result (λ line. IsMended account.now since line.items) }
{
    let date = date_of(alloc, since)?;
    let words = mended_words(alloc, date.as_str())?;
    Ok(account_line(alloc, account, words.as_str())?)
}

/// That runs work again, if it is told.
pub fn end_line(alloc: Global, account: &[u8], since: Option<u64>) -> Result<Vec<u8>, AllocError>
    ensures { IfOk result (λ line. IsEnd account.now since line.items) }
{
    match since {
        None => Ok(Vec::new(alloc)),
        Some(since) => Ok(mended_line(alloc, account, since)?),
    }
}
