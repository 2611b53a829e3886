//! The text of a preview. It contains nothing of a password.
ghost use Rattle.std.specs.{Prelude.{◌≡◌, ◌<◌, IfOk}, String.string_bytes};
ghost use Rattle.session_parts.specs.Report.{most_bytes};
ghost use Rattle.session_parts.specs.Telling.{counts, date_of, date_text, due_text, deleted_ahead, fate_text};
ghost use Rattle.session_parts.specs.Telling.{fetched_in, message_preview_text, octets_ahead, preview_text, size_in};
ghost use Rattle.session_parts.specs.Telling.{size_text, skip_text};

use crate::message_preview::MessagePreview;
use crate::preview::Preview;
use crate::text::heading;
use fetch_rules::{SECONDS_PER_DAY, Settings, Skip, Step};
use std::alloc::{AllocError, Global};

/// 9999-12-31, in days since 1970.
const LAST_DAY: u64 = 2_932_896;

/// From how many octets on a size is in megabytes.
const MEGABYTE: u64 = 1_000_000;

/// A date of the calendar, in UTC.
#[derive(Clone, Copy)]
struct Date {
    year: u64,
    month: u64,
    day: u64,
}

/// The date of a second since 1970, at most 9999-12-31. Years are counted from March, so that a
/// leap day is the last of its year, and in cycles of 400 years, of 146,097 days.
fn date_of(second: u64) -> Date
    ensures { result ≡ date_of second }
{
    let days = (second / SECONDS_PER_DAY).min(LAST_DAY) + 719_468;
    let rest = days % 146_097;
    let years = (rest + rest / 36_524).saturating_sub(rest / 1_460 + rest / 146_096) / 365;
    let within = (rest + years / 100).saturating_sub(365 * years + years / 4);
    let month = (5 * within + 2) / 153;
    let day = within.saturating_sub((153 * month + 2) / 5) + 1;
    let year = 400 * (days / 146_097) + years;
    if month < 10 {
        return Date {
            year,
            month: month + 3,
            day,
        };
    }
    Date {
        year: year + 1,
        month: month.saturating_sub(9),
        day,
    }
}

/// A date as `YYYY-MM-DD`.
fn date_text(alloc: Global, second: u64) -> Result<String, AllocError>
    ensures { IfOk result (λ text. string_bytes text ≡ date_text second) }
{
    let Date { year, month, day } = date_of(second);
    let (month_tens, month_ones) = (month / 10, month % 10);
    let (day_tens, day_ones) = (day / 10, day % 10);
    format!(in alloc; "{year}-{month_tens}{month_ones}-{day_tens}{day_ones}")
}

/// From when on a message is deleted, if it isn't old enough.
fn due_text(alloc: Global, due: Option<u64>) -> Result<String, AllocError>
    ensures { IfOk result (λ text. string_bytes text ≡ due_text due) }
{
    let Some(second) = due else {
        return Ok(String::new(alloc));
    };
    let date = date_text(alloc, second)?;
    format!(in alloc; ", not due before {date}")
}

/// Why a message is passed over, which the store holds or not.
pub(crate) fn skip_text(skip: Skip, held: bool) -> &'static str
    ensures { result.now ≡ skip_text skip held }
{
    match skip {
        Skip::Delivered if held => "held",
        Skip::Delivered => "delivered before",
        Skip::Obstructed => "obstructed",
        Skip::TooLarge => "too large",
        Skip::PastLimit => "past the limit of this session",
        Skip::SameId => "same id as an earlier message",
    }
}

/// What would be done with a message, or why it would be passed over.
fn fate_text(step: Step, held: bool) -> &'static str
    ensures { result.now ≡ fate_text step.skip step.delete held }
{
    match (step.skip, step.delete) {
        (None, false) => "would be fetched",
        (None, true) => "would be fetched and deleted",
        (Some(_), true) => "would be deleted",
        (Some(skip), false) => skip_text(skip, held),
    }
}

/// The line of one message.
fn message_preview_text(
    alloc: Global,
    total: u32,
    message_preview: &MessagePreview,
) -> Result<String, AllocError>
    ensures { IfOk result (λ text. string_bytes text ≡ message_preview_text total message_preview.now) }
{
    let (number, size) = (message_preview.step.number, message_preview.size);
    let what = fate_text(message_preview.step, message_preview.held);
    let when = due_text(alloc, message_preview.due)?;
    format!(in alloc; "msg {number}/{total} ({size} octets) {what}{when}\n")
}

/// How many messages would be fetched.
fn fetched_in(message_previews: &[MessagePreview]) -> usize
    ensures { result ≡ fetched_in message_previews.now }
{
    message_previews
        .iter()
        .filter(|told| told.step.skip.is_none())
        .count()
}

/// How many messages would be deleted.
fn deleted_in(message_previews: &[MessagePreview]) -> usize
    ensures { result ≡ deleted_ahead message_previews.now }
{
    message_previews
        .iter()
        .filter(|told| told.step.delete)
        .count()
}

/// The octets that would be fetched, as far as 64 bits go.
fn octets_in(message_previews: &[MessagePreview]) -> u64
    ensures { result ≡ most_bytes (octets_ahead message_previews.now) }
{
    let mut total = 0u64;
    for told in message_previews {
        if told.step.skip.is_none() {
            total = total.saturating_add(told.size);
        }
    }
    total
}

/// A size in a unit with tenths of so many octets, in brackets: with a digit after the point below ten.
fn size_in(alloc: Global, tenth: u64, unit: &str, octets: u64) -> Result<String, AllocError>
    requires { 0 < tenth }
    ensures { IfOk result (λ text. string_bytes text ≡ size_in tenth unit.now octets) }
{
    let tenths = octets / tenth;
    let (whole, rest) = (tenths / 10, tenths % 10);
    if tenths < 100 {
        format!(in alloc; " ({whole}.{rest}{unit})")
    } else {
        format!(in alloc; " ({whole}{unit})")
    }
}

/// A size as it is told; nothing of no octets.
fn size_text(alloc: Global, octets: u64) -> Result<String, AllocError>
    ensures { IfOk result (λ text. string_bytes text ≡ size_text octets) }
{
    if octets == 0 {
        return Ok(String::new(alloc));
    }
    if octets < MEGABYTE {
        return size_in(alloc, 100, " kB", octets);
    }
    size_in(alloc, 100_000, " MB", octets)
}

/// The last line.
fn counts(alloc: Global, preview: &Preview) -> Result<String, AllocError>
    ensures { IfOk result (λ text. string_bytes text ≡ counts preview.now) }
{
    let total = preview.total;
    let fetched = fetched_in(&preview.message_previews);
    let deleted = deleted_in(&preview.message_previews);
    let size = size_text(alloc, octets_in(&preview.message_previews))?;
    format!(in alloc; "{fetched} of {total} messages{size} would be fetched, {deleted} deleted\n")
}

/// What a run would do, each line ended by LF: whose mail it is, what would be done with each message, and
/// counts. `verbose` has no effect.
pub fn preview_text(
    alloc: Global,
    preview: &Preview,
    settings: &Settings,
) -> Result<String, AllocError>
    ensures { IfOk result (λ text. string_bytes text ≡ preview_text preview.now settings.now) }
{
    let mut text = heading(alloc, settings)?;
    for message_preview in &preview.message_previews {
        text.push_str(message_preview_text(alloc, preview.total, message_preview)?.as_str())?;
    }
    text.push_str(counts(alloc, preview)?.as_str())?;
    Ok(text)
}
