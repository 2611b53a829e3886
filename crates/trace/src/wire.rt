//! A link that is traced.
ghost use Rattle.std.specs.Prelude.{◌≡◌, ◌-◌, ℕ, List, Some, IfOk, IsSome, OnOk, codes, option_map};
ghost use Rattle.trace.specs.Wire.{AddsTraceLine, Counts, HearsPart, IsRowOf, IsTraced, ShowsHeard, ShowsPart};
ghost use Rattle.trace.specs.Wire.{count_text};

use crate::command::{cut, shown_command};
use crate::masking::Mask;
use crate::talk::{Spoken, Talk};
use pop3_wire::{Asked, Note, Wire, WireDown};
use std::alloc::{AllocError, Global};
use std::io::{self, Write};
use system_calls::write_line;

/// The octets of a body's last line, a full stop and CR LF.
const END_MARK: u64 = 3;

/// Where a conversation is shown: each command, the first line of each answer, and how much followed it; and
/// where it is kept what was said.
#[derive(Drop)]
struct Trace<'a, E> {
    alloc: Global,
    err: Option<E>,
    talk: Option<&'a Talk>,
    /// What hides the password in answers.
    mask: Mask,
    /// What the last command asked for, as the client told it.
    asked: Option<Asked>,
    /// How much has come of the body under way.
    lines: u64,
    octets: u64,
}

impl<'a, E: Write> Trace<'a, E> {
    /// More of a body came, whose lines and octets are told at its end, if there is a writer.
    fn count(&mut self, text: &[u8], octets: usize)
        ensures same { self.new ≡ record self.old { lines = self.new.lines; octets = self.new.octets } }
        ensures counts { IsSome self.old.err → Counts self.old text.now octets self.new }
    {
        if self.err.is_none() {
            return;
        }
        let lines = text.iter().filter(|octet| **octet == b'\n').count();
        self.lines = self.lines.saturating_add(lines as u64);
        self.octets = self.octets.saturating_add(octets as u64);
    }

    /// A part of a body, if it is a row of a listing and there is a place for it. The password is searched in all of a
    /// row, and in no part of a message.
    fn row_in<'b>(&self, text: &[u8]) -> Result<Option<Spoken<'b>>, AllocError>
        ensures { IfOk result (IsRowOf self.now text.now) }
    {
        match (self.talk, self.asked) {
            (Some(_), Some(Asked::Uidl | Asked::List)) => {
                Ok(Some(Spoken::Row(self.mask.shown(self.alloc, text)?)))
            }
            _ => Ok(None),
        }
    }

    /// Takes a part of the conversation. What is shown or kept of it is returned.
    fn hear<'b>(&mut self, part: Note<'b>) -> Result<Option<Spoken<'b>>, AllocError>
        ensures heard { IfOk result (HearsPart self.old part.entry self.new) }
        ensures same { (self.new.mask.password ≡ self.old.mask.password) × (self.new.err ≡ self.old.err) }
    {
        match part {
            Note::Command(asked, command) => {
                self.asked = asked;
                self.mask.pass(command);
                Ok(Some(Spoken::Command(cut(shown_command(command)))))
            }
            Note::Reply(answer) => {
                self.lines = 0;
                self.octets = 0;
                Ok(Some(Spoken::Answer(self.mask.shown(self.alloc, answer)?)))
            }
            // What the peer says later isn't the reason of a fault.
            Note::Refused => {
                self.talk = None;
                Ok(None)
            }
            Note::Count(_) => Ok(None),
            Note::Body {
                text,
                octets,
                ended,
            } => {
                self.count(text, octets);
                if ended {
                    Ok(Some(Spoken::End))
                } else {
                    self.row_in(text)
                }
            }
        }
    }

    /// Writes a line, if there is a writer.
    fn write(&mut self, mark: &str, octets: &[u8]) -> io::Result<()>
        ensures shown { OnOk result (AddsTraceLine E.contents self.old.err self.new.err mark.now octets.now) }
        ensures same { self.new ≡ record self.old { err = self.new.err } }
    {
        match &mut self.err {
            Some(err) => write_line(self.alloc, err, mark, octets),
            None => Ok(()),
        }
    }

    /// Writes how much of a body came.
    fn show_count(&mut self) -> io::Result<()>
        ensures shown { OnOk result
            (AddsTraceLine E.contents self.old.err self.new.err (codes "S: ")
            (count_text self.old.lines (self.old.octets - 3))) }
        ensures same { self.new ≡ record self.old { err = self.new.err } }
    {
        let octets = self.octets.saturating_sub(END_MARK);
        let text = format!(in self.alloc; "({} lines, {octets} octets)", self.lines)?;
        self.write("S: ", text.as_bytes())
    }

    /// Shows what was heard.
    fn show(&mut self, heard: &Spoken<'_>) -> io::Result<()>
        ensures shown { OnOk result (ShowsHeard E.contents self.old heard.now self.new.err) }
        ensures same { self.new ≡ record self.old { err = self.new.err } }
    {
        match heard {
            Spoken::Command(command) => self.write("C: ", command),
            Spoken::Answer(answer) => self.write("S: ", answer.front()),
            Spoken::Row(_) => Ok(()),
            Spoken::End => self.show_count(),
        }
    }

    /// Shows a part of the conversation, unless it is within a body, and keeps what tells where it went wrong.
    fn note(&mut self, part: Note<'_>) -> io::Result<()>
        ensures shown { OnOk result (ShowsPart E.contents self.old part.entry self.new) }
        ensures same { self.new.mask.password ≡ self.old.mask.password }
    {
        let Some(heard) = self.hear(part)? else {
            return Ok(());
        };
        if let Some(talk) = self.talk {
            talk.note(self.asked, &heard);
        }
        self.show(&heard)
    }
}

/// A link that passes each call on. If there is a writer, it gets a line for each command, for the first
/// line of each answer, and for how much followed it: `C: ` or `S: `, then at most 512 octets. Passwords
/// aren't shown. A line that can't be written, or for which there is no memory, is left out. What was said is
/// kept, if there is a place for it.
#[derive(Drop)]
pub struct TracedWire<'a, W, E> {
    wire: W,
    trace: Option<Trace<'a, E>>,
}

impl<'a, W: Wire, E: Write + Drop> TracedWire<'a, W, E> {
    /// A link around this one. This password isn't shown if an answer repeats it.
    pub fn new(
        alloc: Global,
        wire: W,
        err: Option<E>,
        password: Option<Vec<u8>>,
        talk: Option<&'a Talk>,
    ) -> TracedWire<'a, W, E>
        ensures wire { result.wire ≡ wire }
        ensures sound { W.sound wire → ⟦<TracedWire<'a, W, E> as Wire>⟧.sound result }
        ensures traced { IsTraced err (option_map (λ talk. talk.now) talk.entry)
            (option_map (λ secret. secret.items) password) result }
    {
        if err.is_none() && talk.is_none() {
            return TracedWire { wire, trace: None };
        }
        let trace = Some(Trace {
            alloc,
            err,
            talk,
            mask: Mask::new(password),
            asked: None,
            lines: 0,
            octets: 0,
        });
        TracedWire { wire, trace }
    }

    /// The link inside.
    pub fn into_inner(self) -> W
        ensures { result ≡ self.entry.wire }
    {
        let TracedWire { wire, .. } = self;
        wire
    }
}

impl<'a, W: Wire, E: Write + Drop> Wire for TracedWire<'a, W, E> {
    ghost history = { λ w. W.history w.wire };

    ghost sound = { λ w. W.sound w.wire };

    ghost leads_to = { λ u v. W.leads_to u.wire v.wire };

    fn send(&mut self, bytes: &[u8]) -> Result<(), WireDown> {
        self.wire.send(bytes)
    }

    fn recv(&mut self, buf: &mut [u8]) -> Result<usize, WireDown> {
        self.wire.recv(buf)
    }

    fn note(&mut self, part: Note<'_>) {
        if let Some(trace) = &mut self.trace {
            let _ = trace.note(part);
        }
        self.wire.note(part)
    }

    fn failures(&self) -> u64 {
        self.wire.failures()
    }

    ghost leads_same = { λ w. W.leads_same w.wire };

    ghost leads_on = { λ u v w p q. W.leads_on u.wire v.wire w.wire p q };
}
