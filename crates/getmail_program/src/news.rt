//! What an unattended run tells of what it says: what no earlier run told.
ghost use Rattle.std.specs.Prelude.{◌≡◌, ◌++◌, ◌||◌, IfOk, OnOk, drop, filter, find, map, option_map, true};
ghost use Rattle.getmail_setup.specs.Output.{Puts};
ghost use Rattle.getmail_program.specs.News.{
  Decides,
  IsNewsText,
  IsRunOf,
  KeepsOctets,
  TellsDecided,
  TellsNews,
  WritesRest,
  all_text,
  changed_octets,
  chosen_text,
  fault_key,
  first_of,
  is_fault,
  is_notice,
  is_part_told,
  is_wanted,
  lack_text,
  large_lines,
  lasts,
  time_mark,
  marks_behind,
  named_line,
  notice_of,
  only_met,
  parts_text,
  rest_text,
  told_text,
  unkept_line,
};

use crate::news_file::Past;
use crate::news_text::{
    again_line, end_line, fault_key, limited_line, notice_key, repeated_line, too_large_line,
    unkept_line, unnamed_line,
};
use getmail_setup::{Large, LeftOut, OUT_OF_MEMORY, Output, Part, Subject, second_of};
use run_memory::{Key, Memory, News, Notice, Run, Telling};
use std::alloc::{AllocError, Global};
use std::io::Write;
use std::time::SystemTime;
use std::vec::Vec;

/// What another run is to say that has the lock.
const AT_WORK: &[u8] = b"getmail: another getmail is at work for this account\n";

/// What a run said, as its journal kept it, and how it came out.
#[derive(Drop)]
pub struct RunSaid {
    /// The name of the account or, if it isn't known, the rc file's path.
    pub account: Vec<u8>,
    pub parts: Vec<Part>,
    pub left: LeftOut,
    pub has_ended: bool,
    /// Whether another run had the lock.
    pub has_met: bool,
    /// Whether there was no memory for a part.
    pub lacks_memory: bool,
}

/// Whether a part is what ended the run.
fn is_fault(part: &Part) -> bool
    ensures { result ≡ is_fault part.now }
{
    match part.subject {
        Subject::Fault => true,
        Subject::Notice | Subject::Lasting | Subject::LeftOut => false,
    }
}

/// Whether a part is about something that lasts.
fn lasts(part: &Part) -> bool
    ensures { result ≡ lasts part.now }
{
    match part.subject {
        Subject::Lasting => true,
        Subject::Fault | Subject::Notice | Subject::LeftOut => false,
    }
}

/// Whether a part is noticed beside what ended the run.
fn is_notice(part: &Part) -> bool
    ensures { result ≡ is_notice part.now }
{
    match part.subject {
        Subject::Notice | Subject::Lasting => true,
        Subject::Fault | Subject::LeftOut => false,
    }
}

/// A notice, without its words.
fn notice_of(part: &Part) -> Notice
    ensures { result ≡ notice_of part.now }
{
    Notice {
        key: notice_key(part),
        lasts: lasts(part),
    }
}

/// The key of what ended a run, if something did.
fn fault_in(parts: &[Part]) -> Option<Key>
    ensures { result ≡ option_map fault_key (find is_fault parts.now) }
{
    let mut rest = parts;
    while let [part, behind @ ..] = rest {
        if is_fault(part) {
            return Some(fault_key(part));
        }
        rest = behind;
    }
    None
}

/// What is noticed beside it.
fn notices_in(alloc: Global, parts: &[Part]) -> Result<Vec<Notice>, AllocError>
    ensures { IfOk result (λ notices. notices.items ≡ map notice_of (filter is_notice parts.now)) }
{
    let mut notices = Vec::new(alloc);
    let mut rest = parts;
    while let [part, behind @ ..] = rest {
        if is_notice(part) {
            notices.push(notice_of(part))?;
        }
        rest = behind;
    }
    Ok(notices)
}

/// The keys of messages that are too large.
fn keys_of(alloc: Global, large: &[Large]) -> Result<Vec<Key>, AllocError>
    ensures { IfOk result (λ keys. keys.items ≡ map (λ message. message.key) large.now) }
{
    let mut keys = Vec::new(alloc);
    let mut rest = large;
    while let [message, behind @ ..] = rest {
        keys.push(message.key)?;
        rest = behind;
    }
    Ok(keys)
}

/// Whether a run had a listing: one that came to its end had.
fn has_listed(said: &RunSaid) -> bool
    ensures { result ≡ (said.now.left.has_listed || said.now.has_ended) }
{
    said.left.has_listed || said.has_ended
}

/// What a run says, without its words.
fn run_of(alloc: Global, said: &RunSaid) -> Result<Run, AllocError>
    ensures { IfOk result (IsRunOf said.now) }
{
    Ok(Run {
        fault: fault_in(&said.parts),
        notices: notices_in(alloc, &said.parts)?,
        has_listed: has_listed(said),
        large: keys_of(alloc, &said.left.large)?,
        counts: said.left.counts,
        has_ended: said.has_ended,
        has_met: said.has_met,
    })
}

/// The first mark, and the others.
fn cut_mark(marks: &[bool]) -> (bool, &[bool])
    ensures first { result.0 ≡ first_of marks.entry.now }
    ensures others { result.1.now ≡ drop 1 marks.entry.now }
{
    match marks {
        [mark, others @ ..] => (*mark, others),
        [] => (false, marks),
    }
}

/// Whether a part is told, by what is told of the fault and by whether each notice is that isn't dealt with yet.
fn is_part_told(telling: &Telling, marks: &[bool], part: &Part) -> bool
    ensures { result ≡ is_part_told telling.now marks.now part.now }
{
    if is_notice(part) {
        return cut_mark(marks).0;
    }
    match telling {
        Telling::First => is_fault(part),
        Telling::Again(_) => is_fault(part),
        Telling::Nothing => false,
    }
}

/// Whether each notice is told that comes behind a part.
fn marks_behind<'a>(marks: &'a [bool], part: &Part) -> &'a [bool]
    ensures { result.now ≡ marks_behind marks.entry.now part.now }
{
    if is_notice(part) {
        return cut_mark(marks).1;
    }
    marks
}

/// Whether a part is wanted: of those that are told or else of the others.
fn is_wanted(wanted: bool, is_told: bool) -> bool
    ensures { result ≡ is_wanted wanted is_told }
{
    if wanted { is_told } else { !is_told }
}

/// Adds a part that is chosen, and behind a fault what follows it.
fn put_part(
    text: &mut Vec<u8>,
    again: &[u8],
    is_chosen: bool,
    part: &Part,
) -> Result<(), AllocError>
    ensures { OnOk result (text.new.items ≡ text.old.items ++ chosen_text again.now is_chosen part.now) }
{
    if !is_chosen {
        return Ok(());
    }
    text.extend_from_slice(&part.text)?;
    if !is_fault(part) {
        return Ok(());
    }
    text.extend_from_slice(again)?;
    Ok(())
}

/// The parts that are told or, if the others are wanted, those that aren't.
fn parts_text(
    alloc: Global,
    parts: &[Part],
    news: &News,
    again: &[u8],
    wanted: bool,
) -> Result<Vec<u8>, AllocError>
    ensures { IfOk result (λ text. text.items
        ≡ parts_text wanted again.now news.now.fault news.now.notices.items parts.now) }
{
    let mut text = Vec::new(alloc);
    let mut marks = news.notices.as_slice();
    let mut rest = parts;
    while let [part, behind @ ..] = rest {
        let is_chosen = is_wanted(wanted, is_part_told(&news.fault, marks, part));
        put_part(&mut text, again, is_chosen, part)?;
        marks = marks_behind(marks, part);
        rest = behind;
    }
    Ok(text)
}

/// The line of a message that is named.
fn named_line(
    alloc: Global,
    account: &[u8],
    limit: u64,
    is_named: bool,
    message: &Large,
) -> Result<Vec<u8>, AllocError>
    ensures { IfOk result (λ line. line.items ≡ named_line account.now limit is_named message.now) }
{
    if !is_named {
        return Ok(Vec::new(alloc));
    }
    Ok(too_large_line(alloc, account, limit, message)?)
}

/// The lines of the messages that are named.
fn large_lines(
    alloc: Global,
    account: &[u8],
    left: &LeftOut,
    named: &[bool],
) -> Result<Vec<u8>, AllocError>
    ensures { IfOk result (λ text. text.items
        ≡ large_lines account.now left.now.limit left.now.large.items named.now) }
{
    let mut text = Vec::new(alloc);
    let mut marks = named;
    let mut rest = left.large.as_slice();
    while let Some((message, behind)) = rest.split_first() {
        let (is_named, others) = cut_mark(marks);
        let line = named_line(alloc, account, left.limit, is_named, message)?;
        text.extend_from_slice(&line)?;
        marks = others;
        rest = behind;
    }
    Ok(text)
}

/// What is told, with these lines on what is seen since a date.
fn told_text(
    alloc: Global,
    said: &RunSaid,
    news: &News,
    again: &[u8],
    limited: &[u8],
    end: &[u8],
) -> Result<Vec<u8>, AllocError>
    ensures { IfOk result (λ text. text.items ≡ told_text said.now news.now again.now limited.now end.now) }
{
    let account = said.account.as_slice();
    let large = large_lines(alloc, account, &said.left, &news.large)?;
    let unnamed = unnamed_line(alloc, account, news.unnamed)?;
    let repeated = repeated_line(alloc, account, news.repeated)?;
    let mut text = parts_text(alloc, &said.parts, news, again, true)?;
    text.extend_from_slice(&large)?;
    text.extend_from_slice(&unnamed)?;
    text.extend_from_slice(limited)?;
    text.extend_from_slice(&repeated)?;
    text.extend_from_slice(end)?;
    Ok(text)
}

/// What is told.
fn news_text(alloc: Global, said: &RunSaid, news: &News) -> Result<Vec<u8>, AllocError>
    ensures { IfOk result (λ text. IsNewsText said.now news.now text.items) }
{
    let account = said.account.as_slice();
    let again = again_line(alloc, account, &news.fault)?;
    let limited = limited_line(alloc, account, said.left.counts.past_limit, news.limited)?;
    let end = end_line(alloc, account, news.end)?;
    Ok(told_text(alloc, said, news, &again, &limited, &end)?)
}

/// Whether a run says nothing, since another one has the lock.
fn only_met(said: &RunSaid) -> bool
    ensures { result ≡ only_met said.now }
{
    if said.has_met {
        return said.parts.is_empty();
    }
    false
}

/// What is told beside that if it can't be kept what was told.
fn rest_text(alloc: Global, said: &RunSaid, news: &News) -> Result<Vec<u8>, AllocError>
    ensures { IfOk result (λ text. text.items ≡ rest_text said.now news.now) }
{
    if only_met(said) {
        return Ok(Vec::from_slice(alloc, AT_WORK)?);
    }
    Ok(parts_text(alloc, &said.parts, news, b"", false)?)
}

/// What is decided of what a run said.
#[derive(Drop)]
struct Decided {
    news: News,
    /// The words of what is told.
    words: Vec<u8>,
    /// The octets of the file, if they change.
    octets: Option<Vec<u8>>,
}

/// Octets, if they are others than before.
fn changed_octets(after: Vec<u8>, before: &[u8]) -> Option<Vec<u8>>
    ensures { option_map (λ octets. octets.items) result ≡ changed_octets after.items before.now }
{
    if after.as_slice() == before {
        return None;
    }
    Some(after)
}

/// Decides what is told, by what earlier runs told.
fn decide(
    alloc: Global,
    memory: Result<Memory, AllocError>,
    said: &RunSaid,
    now: u64,
) -> Result<Decided, AllocError>
    ensures { IfOk result (Decides memory said.now now) }
{
    let mut memory = memory?;
    let before = memory.text(alloc)?;
    let run = run_of(alloc, said)?;
    let news = memory.take_in(alloc, &run, now)?;
    let words = news_text(alloc, said, &news)?;
    let after = memory.text(alloc)?;
    let octets = changed_octets(after, &before);
    Ok(Decided {
        news,
        words,
        octets,
    })
}

/// That memory ran out for a part, if it did.
fn lack_text(lacks_memory: bool) -> &'static str
    ensures { result.now ≡ lack_text lacks_memory }
{
    if lacks_memory { OUT_OF_MEMORY } else { "" }
}

/// Tells all that a run said, and that memory ran out.
fn tell_all<E: Write>(said: &RunSaid, err: &mut Output<E>)
    ensures { Puts E.contents err.old (all_text said.now.parts.items ++ lack_text true) err.new }
{
    let mut rest = said.parts.as_slice();
    while let Some((part, behind)) = rest.split_first() {
        err.put(&part.text);
        rest = behind;
    }
    err.put(lack_text(true).as_bytes());
}

/// The rest of what a run said, and that each run tells all, if anything is told.
fn unkept_text(alloc: Global, said: &RunSaid, decided: &Decided) -> Result<Vec<u8>, AllocError>
    ensures { IfOk result (λ text. text.items ≡ rest_text said.now decided.now.news
        ++ unkept_line said.now.account.items (decided.now.words.items ++ rest_text said.now decided.now.news)) }
{
    let mut rest = rest_text(alloc, said, &decided.news)?;
    let mut told = Vec::from_slice(alloc, &decided.words)?;
    told.extend_from_slice(&rest)?;
    let line = unkept_line(alloc, &said.account, &told)?;
    rest.extend_from_slice(&line)?;
    Ok(rest)
}

/// Tells the rest of what a run said, since it can't be kept what was told.
fn tell_rest<E: Write>(alloc: Global, said: &RunSaid, decided: &Decided, err: &mut Output<E>)
    ensures { WritesRest E.contents said.now decided.now err.old err.new }
{
    match unkept_text(alloc, said, decided) {
        Ok(text) => err.put(&text),
        Err(_) => err.put(lack_text(true).as_bytes()),
    }
}

/// Keeps these octets, unless something couldn't be written: then the next run tells it.
fn keep_octets<P: Past, E: Write>(
    alloc: Global,
    past: &P,
    said: &RunSaid,
    decided: &Decided,
    octets: &[u8],
    err: &mut Output<E>,
)
    ensures { KeepsOctets E.contents (P.kept past.now) said.now decided.now octets.now err.old err.new }
{
    if err.refusal().is_some() {
        return;
    }
    if past.keep(octets) {
        return;
    }
    tell_rest(alloc, said, decided, err);
}

/// Tells what was decided, and keeps it.
fn tell_decided<P: Past, E: Write>(
    alloc: Global,
    past: &P,
    said: &RunSaid,
    decided: &Decided,
    err: &mut Output<E>,
)
    ensures { TellsDecided E.contents (P.kept past.now) said.now decided.now err.old err.new }
{
    err.put(&decided.words);
    err.put(lack_text(said.lacks_memory).as_bytes());
    match &decided.octets {
        None => {}
        Some(octets) => keep_octets(alloc, past, said, decided, octets, err),
    }
}

/// The second since 1970 that a clock shows, as a mark, of which 0 is none.
fn time_mark(time: Option<SystemTime>) -> u64
    ensures { result ≡ time_mark time }
{
    second_of(time).max(1)
}

/// Tells what no earlier run told of what this one said, and keeps that. If it can't be kept or there is no memory for
/// it, all is told.
pub fn tell_news<P: Past, E: Write>(alloc: Global, past: &P, said: &RunSaid, err: &mut Output<E>)
    ensures { TellsNews E.contents (P.gave past.now) (P.kept past.now) (P.showed past.now) said.now err.old err.new }
{
    let now = time_mark(past.time());
    match decide(alloc, past.memory(), said, now) {
        Ok(decided) => tell_decided(alloc, past, said, &decided, err),
        Err(_) => tell_all(said, err),
    }
}
