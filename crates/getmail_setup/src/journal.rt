//! What an unattended run says, kept until it is decided what of it is told.
ghost use Rattle.std.specs.{
  Prelude.{◌≡◌, ◌⊎◌, ◌++◌, [], None, Some, IfOk, OnErr, OnOk, option_map, true},
  List.filter_map,
  String.string_bytes,
};
ghost use Rattle.getmail_setup.specs.{
  Journal.{HasClosed, HasKept, HasLeftOut, IsEmpty, IsNoneLeft, IsUnmarked, too_large},
  Places.account_name,
};

use crate::connection::account_name;
use crate::listed::{Large, Listed, push_some};
use fetch_rules::{Settings, Skip, Step};
use run_memory::Counts;
use std::alloc::{AllocError, Global};
use std::cell::Cell;
use std::io::{self, Write};
use std::mem;

/// What a part of what is said is about.
#[derive(Clone, Copy)]
pub enum Subject {
    /// What ended the run.
    Fault,
    /// Something else, in one line: it is told once.
    Notice,
    /// What obstructs a message: it is told again each week.
    Lasting,
    /// How many messages were left out.
    LeftOut,
}

/// A part of what is said.
#[derive(Drop)]
pub struct Part {
    pub subject: Subject,
    pub text: Vec<u8>,
    /// The path that a fault is about; empty if there is none.
    pub place: Vec<u8>,
}

/// What a run left out, of its listing.
#[derive(Drop)]
pub struct LeftOut {
    /// Whether it had a listing and what is planned for each message.
    pub has_listed: bool,
    /// The messages over the size limit, and that limit.
    pub large: Vec<Large>,
    pub limit: u64,
    pub counts: Counts,
}

/// Nothing was left out.
fn none_left(alloc: Global) -> LeftOut
    ensures { IsNoneLeft result }
{
    LeftOut {
        has_listed: false,
        large: Vec::new(alloc),
        limit: 0,
        counts: Counts {
            past_limit: 0,
            repeated: 0,
        },
    }
}

/// The number of a message that is over the size limit and that the run doesn't delete.
fn too_large(step: &Step) -> Option<u32>
    ensures { result ≡ too_large step.now }
{
    match step.skip {
        Some(Skip::TooLarge) if !step.delete => Some(step.number),
        _ => None,
    }
}

/// The numbers of the messages of a plan that are over the size limit and stay on the server.
fn too_large_in(alloc: Global, plan: &[Step]) -> Result<Vec<u32>, AllocError>
    ensures { IfOk result (λ numbers. numbers.items ≡ filter_map too_large plan.now) }
{
    let mut numbers = Vec::new(alloc);
    for step in plan {
        push_some(&mut numbers, too_large(step))?;
    }
    Ok(numbers)
}

/// The front of a path up to the mark of the process, if that is known.
fn unmarked<'a>(path: &'a str, mark: &str) -> &'a str
    ensures { IsUnmarked path.now mark.now result.now }
{
    if mark.is_empty() {
        return path;
    }
    match path.split_once(mark) {
        Some((front, _)) => front,
        None => path,
    }
}

/// What a run left out: these messages of its listing, if it had one.
fn left(has_listed: bool, large: Vec<Large>, limit: u64, counts: Counts) -> LeftOut
    ensures { result ≡ record { has_listed = has_listed; large = large; limit = limit; counts = counts } }
{
    LeftOut {
        has_listed,
        large,
        limit,
        counts,
    }
}

/// What a run left out: of its listing the messages with these numbers, if it is known what is planned for each.
/// Without memory for them it had no listing.
fn left_out_of(
    alloc: Global,
    too_large: Option<Vec<u32>>,
    listed: Option<&Listed>,
    limit: u64,
    counts: Counts,
) -> LeftOut
    ensures same { (result.limit ≡ limit) × (result.counts ≡ counts) }
    ensures large { HasLeftOut (option_map (λ numbers. numbers.items) too_large)
        (option_map (λ listed. listed.now) listed.entry) result }
{
    match (too_large, listed) {
        (None, _) => left(false, Vec::new(alloc), limit, counts),
        (Some(_), None) => left(true, Vec::new(alloc), limit, counts),
        (Some(numbers), Some(listed)) => match listed.among(alloc, &numbers) {
            Ok(large) => left(true, large, limit, counts),
            Err(_) => left(false, Vec::new(alloc), limit, counts),
        },
    }
}

/// What a run says, part by part, and how it came out. Without memory for a name or a path it stays as it was.
#[derive(Drop)]
pub struct Notes {
    begun: Vec<u8>,
    place: Vec<u8>,
    mark: String,
    /// The name of the account; empty if it isn't known.
    pub account: Vec<u8>,
    pub parts: Vec<Part>,
    too_large: Option<Vec<u32>>,
    pub left_out: LeftOut,
    /// Whether the run came to its end.
    pub has_ended: bool,
    /// Whether another run had the lock.
    pub has_met: bool,
    /// Whether there was no memory for a part.
    pub lacks_memory: bool,
}

impl Notes {
    /// Nothing was said yet.
    fn new(alloc: Global) -> Notes
        ensures { IsEmpty result }
    {
        Notes {
            begun: Vec::new(alloc),
            place: Vec::new(alloc),
            mark: String::new(alloc),
            account: Vec::new(alloc),
            parts: Vec::new(alloc),
            too_large: None,
            left_out: none_left(alloc),
            has_ended: false,
            has_met: false,
            lacks_memory: false,
        }
    }

    /// More of a part was said.
    fn add(&mut self, octets: &[u8]) -> Result<(), AllocError>
        ensures ok { OnOk result ((self.new ≡ record self.old { begun = self.new.begun })
            × (self.new.begun.items ≡ self.old.begun.items ++ octets.now)) }
        ensures err { OnErr result ((self.new ≡ record self.old { begun = self.new.begun; lacks_memory = true })
            × (self.new.begun.items ≡ self.old.begun.items)) }
    {
        let added = self.begun.extend_from_slice(octets);
        if added.is_err() {
            self.lacks_memory = true;
        }
        added
    }

    /// This is the mark of the process.
    fn note_mark(&mut self, alloc: Global, mark: &str)
        ensures same { self.new ≡ record self.old { mark = self.new.mark } }
        ensures mark { (string_bytes self.new.mark ≡ mark.now) ⊎ (self.new.mark ≡ self.old.mark) }
    {
        if let Ok(mark) = String::from_str(alloc, mark) {
            self.mark = mark;
        }
    }

    /// The fault of the next part is about this path.
    fn note_place(&mut self, alloc: Global, path: &str)
        ensures same { self.new ≡ record self.old { place = self.new.place } }
        ensures place { IsUnmarked path.now (string_bytes self.old.mark) self.new.place.items
            ⊎ (self.new.place ≡ self.old.place) }
    {
        let front = unmarked(path, self.mark.as_str());
        if let Ok(place) = Vec::from_slice(alloc, front.as_bytes()) {
            self.place = place;
        }
    }

    /// This is the run's account.
    fn note_account(&mut self, alloc: Global, settings: &Settings)
        ensures same { self.new ≡ record self.old { account = self.new.account } }
        ensures account { (self.new.account.items ≡ account_name settings.now)
            ⊎ (self.new.account ≡ self.old.account) }
    {
        if let Ok(account) = account_name(alloc, settings) {
            self.account = account.into_bytes();
        }
    }

    /// Keeps a part, if there is memory for it.
    fn keep(&mut self, part: Part)
        ensures same { self.new
            ≡ record self.old { parts = self.new.parts; lacks_memory = self.new.lacks_memory } }
        ensures kept { HasKept self.old part self.new }
    {
        if self.parts.push(part).is_err() {
            self.lacks_memory = true;
        }
    }

    /// What was said since the last part is one, if it was anything.
    fn close(&mut self, alloc: Global, subject: Subject)
        ensures same { self.new ≡ record self.old {
          begun = self.new.begun;
          place = self.new.place;
          parts = self.new.parts;
          lacks_memory = self.new.lacks_memory;
        } }
        ensures begins { (self.new.begun.items ≡ []) × (self.new.place.items ≡ []) }
        ensures parts { HasClosed self.old subject self.new }
    {
        let text = mem::replace(&mut self.begun, Vec::new(alloc));
        let place = mem::replace(&mut self.place, Vec::new(alloc));
        if text.is_empty() {
            return;
        }
        self.keep(Part {
            subject,
            text,
            place,
        });
    }

    /// This is what is planned for each message of the listing.
    fn note_plan(&mut self, alloc: Global, plan: &[Step])
        ensures same { self.new ≡ record self.old { too_large = self.new.too_large } }
        ensures plan { (option_map (λ numbers. numbers.items) self.new.too_large ≡ Some (filter_map too_large plan.now))
            ⊎ (self.new.too_large ≡ self.old.too_large) }
    {
        if let Ok(numbers) = too_large_in(alloc, plan) {
            self.too_large = Some(numbers);
        }
    }

    /// These were the rows of the listing, and so many messages were left out.
    fn note_left_out(&mut self, alloc: Global, listed: Option<&Listed>, limit: u64, counts: Counts)
        ensures same { self.new ≡ record self.old { too_large = None; left_out = self.new.left_out } }
        ensures counts { (self.new.left_out.limit ≡ limit) × (self.new.left_out.counts ≡ counts) }
        ensures large { HasLeftOut (option_map (λ numbers. numbers.items) self.old.too_large)
            (option_map (λ listed. listed.now) listed.entry) self.new.left_out }
    {
        let too_large = self.too_large.take();
        self.left_out = left_out_of(alloc, too_large, listed, limit, counts);
    }
}

/// What a run says, part by part, and how it came out.
#[derive(Drop)]
pub struct Journal {
    alloc: Global,
    notes: Cell<Notes>,
}

impl Journal {
    /// Nothing was said yet.
    pub fn new(alloc: Global) -> Journal {
        let notes = Cell::new(Notes::new(alloc));
        Journal { alloc, notes }
    }

    fn with<T, F: FnOnce(&mut Notes) -> T>(&self, change: F) -> T
        requires { F.IsAlwaysCallable change }
    {
        let mut notes = self.notes.replace(Notes::new(self.alloc));
        let answer = change(&mut notes);
        self.notes.set(notes);
        answer
    }

    /// More of a part was said.
    fn add(&self, octets: &[u8]) -> Result<(), AllocError> {
        self.with(|notes| notes.add(octets))
    }

    /// This is the mark of the process, which the names of the files that it makes have.
    pub fn note_mark(&self, mark: &str) {
        self.with(|notes| notes.note_mark(self.alloc, mark))
    }

    /// The fault of the next part is about this path. The mark of the process isn't noted, nor what is behind it.
    pub fn note_place(&self, path: &str) {
        self.with(|notes| notes.note_place(self.alloc, path))
    }

    /// The name of the account, as lines have it.
    pub fn note_account(&self, settings: &Settings) {
        self.with(|notes| notes.note_account(self.alloc, settings))
    }

    /// What was said since the last part is one, if it was anything.
    pub fn close(&self, subject: Subject) {
        self.with(|notes| notes.close(self.alloc, subject))
    }

    /// This is what is planned for each message of the listing.
    pub fn note_plan(&self, plan: &[Step]) {
        self.with(|notes| notes.note_plan(self.alloc, plan))
    }

    /// These were the rows of the listing, and so many messages were left out.
    pub fn note_left_out(&self, listed: Option<&Listed>, limit: u64, counts: Counts) {
        self.with(|notes| notes.note_left_out(self.alloc, listed, limit, counts))
    }

    /// The run came to its end.
    pub fn note_end(&self) {
        self.with(|notes| notes.has_ended = true)
    }

    /// Another run had the lock.
    pub fn note_met(&self) {
        self.with(|notes| notes.has_met = true)
    }

    /// What was said, and how it came out. It is taken out.
    pub fn take(&self) -> Notes {
        self.close(Subject::Notice);
        self.notes.replace(Notes::new(self.alloc))
    }
}

/// A writer that keeps what is said in a journal.
#[derive(Clone, Copy, Drop)]
pub struct Kept<'a>(pub &'a Journal);

impl<'a> Write for Kept<'a> {
    fn write(&mut self, buf: &[u8]) -> io::Result<usize> {
        self.0.add(buf)?;
        Ok(buf.len())
    }

    fn flush(&mut self) -> io::Result<()> {
        Ok(())
    }
}
