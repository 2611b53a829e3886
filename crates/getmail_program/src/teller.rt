//! The lines of a report that are written while its session runs.
ghost use Rattle.std.specs.{
  Prelude.{◌≡◌, ◌&&◌, ◌==◌, ℕ, false, not, true, List, [], IfOk},
  String.string_bytes,
};
ghost use Rattle.session_parts.specs.Report.{is_deletion};
ghost use Rattle.getmail_program.specs.Teller.{HasLast, HasSameLinks, HearsPlans, StartsTelling, StaysClosed};
ghost use Rattle.getmail_program.specs.Teller.{WroteText};
ghost use Rattle.getmail_program.specs.Teller.{early_text, heard_both, heard_nothing};

use fetch_rules::{Settings, Step};
use fetch_session::{Listener, ReportLine, explained_line, heading};
use getmail_setup::Output;
use std::alloc::{AllocError, Global};
use std::io::Write;
use std::vec::Vec;

/// What a teller keeps.
#[derive(Drop)]
pub struct Notes {
    /// What it wrote.
    pub written: Vec<u8>,
    /// What is planned for each message, if it asks for it.
    pub plan: Vec<Step>,
}

impl Notes {
    /// Nothing yet.
    pub fn new(alloc: Global) -> Notes
        ensures { (result.written.items ≡ []) × (result.plan.items ≡ []) }
    {
        Notes {
            written: Vec::new(alloc),
            plan: Vec::new(alloc),
        }
    }
}

/// Writes the first line of a report and the lines of its messages as they come, up to the first deletion:
/// a cut may take back deletions. It keeps what it wrote.
#[derive(Drop)]
pub struct Teller<'a, O> {
    pub(crate) alloc: Global,
    pub(crate) out: &'a mut Output<O>,
    pub(crate) verbose: u8,
    pub(crate) explains: bool,
    pub(crate) heard: usize,
    pub(crate) is_open: bool,
    pub(crate) notes: &'a mut Notes,
}

impl<'a, O: Write> Teller<'a, O> {
    /// The first line of a report is written. With `verbose` 0 nothing is. With `explains` the lines of messages that
    /// are passed over have the reasons.
    pub fn new(
        alloc: Global,
        out: &'a mut Output<O>,
        notes: &'a mut Notes,
        settings: &Settings,
        explains: bool,
    ) -> Teller<'a, O>
        requires { notes.old.written.items ≡ [] }
        ensures links { (result.out.ghost_name ≡ out.entry.ghost_name)
            × (result.notes.ghost_name ≡ notes.entry.ghost_name) }
        ensures verbose { result.verbose ≡ settings.now.verbose }
        ensures plan { result.notes.now.plan.items ≡ notes.old.plan.items }
        ensures begins { StartsTelling O.contents settings.now out.old result }
    {
        let mut teller = Teller {
            alloc,
            out,
            verbose: settings.verbose,
            explains,
            heard: 0,
            is_open: settings.verbose > 0,
            notes,
        };
        teller.put(heading(alloc, settings));
        teller
    }

    /// Writes a text, unless there is no memory for it or nothing more is to be written.
    fn put(&mut self, text: Result<String, AllocError>)
        ensures links { HasSameLinks self.old self.new }
        ensures plan { HasLast [] self.old self.new }
        ensures wrote { (words : List ℕ) → IfOk text (λ made. string_bytes made ≡ words)
            → WroteText O.contents words self.old self.new }
        ensures closed { StaysClosed O.contents self.old self.new }
    {
        if !self.is_open {
            return;
        }
        if let Ok(text) = text {
            if let Ok(()) = self.notes.written.extend_from_slice(text.as_bytes()) {
                return self.out.put(text.as_bytes());
            }
        }
        self.is_open = false;
    }

    /// Writes a line, unless it tells a deletion: then nothing more is written.
    fn tell(&mut self, total: u32, line: &ReportLine)
        ensures links { HasSameLinks self.old self.new }
        ensures plan { HasLast [] self.old self.new }
        ensures wrote { WroteText O.contents (early_text self.old.verbose (record {
          total = total;
          plan = self.old.notes.now.plan.items;
          line = line.now;
        })) self.old self.new }
        ensures closed { StaysClosed O.contents self.old self.new }
        ensures ends { is_deletion line.now ≡ true → self.new.is_open ≡ false }
    {
        if let ReportLine::Deleted { .. } = line {
            self.is_open = false;
            return;
        }
        let text = explained_line(self.alloc, self.verbose, total, &self.notes.plan, line);
        self.put(text);
    }
}

impl<'a, O: Write> Listener for Teller<'a, O> {
    ghost hears = { HearsPlans O.contents };

    fn asks_why(&self) -> bool
        ensures { result ≡ (self.now.explains && not (self.now.verbose == 1)) }
    {
        self.explains && self.verbose != 1
    }

    fn expect(&mut self, plan: Vec<Step>) {
        self.notes.plan = plan;
    }

    fn hear(&mut self, total: u32, lines: &[ReportLine]) {
        for i in self.heard..lines.len() {
            self.tell(total, &lines[i]);
        }
        self.heard = lines.len();
    }

    ghost hears_none = { heard_nothing O.contents };

    ghost hears_on = { heard_both O.contents };
}
