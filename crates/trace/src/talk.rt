//! What was said in a conversation, to tell where it went wrong.
ghost use Rattle.std.specs.Prelude.{◌⊎◌, OnOk};
ghost use Rattle.trace.specs.Talk.{IsSilent, KeepsSpoken};

use crate::masking::Shown;
use pop3_wire::Asked;
use std::alloc::{AllocError, Global};
use std::cell::Cell;
use system_calls::shown;

/// A part of what is said, as it is shown.
#[derive(Drop)]
pub(crate) enum Spoken<'a> {
    Command(&'a [u8]),
    /// The first line of an answer.
    Answer(Shown),
    /// A row of a listing.
    Row(Shown),
    /// The end of a body.
    End,
}

/// What was said until a command was refused, as a trace shows it; what wasn't said is empty.
#[derive(Drop)]
pub struct Said {
    /// The last command.
    pub command: Vec<u8>,
    /// The answer to it.
    pub answer: Vec<u8>,
    /// The last row of the listing that it asked for.
    pub row: Vec<u8>,
    /// The answer to STAT.
    pub count: Vec<u8>,
    /// How many rows answered UIDL.
    pub uids: u32,
    /// How many rows answered LIST.
    pub sizes: u32,
}

impl Said {
    /// Nothing was said.
    pub fn new(alloc: Global) -> Said
        ensures { IsSilent result }
    {
        Said {
            command: Vec::new(alloc),
            answer: Vec::new(alloc),
            row: Vec::new(alloc),
            count: Vec::new(alloc),
            uids: 0,
            sizes: 0,
        }
    }

    /// A part was said after a command that asked for this.
    fn add(
        &mut self,
        alloc: Global,
        asked: Option<Asked>,
        spoken: &Spoken<'_>,
    ) -> Result<(), AllocError>
        ensures { OnOk result (KeepsSpoken self.old asked spoken.now self.new) }
    {
        match spoken {
            Spoken::Command(command) => {
                self.command = shown(alloc, command)?;
                self.answer = Vec::new(alloc);
                self.row = Vec::new(alloc);
            }
            Spoken::Answer(answer) => {
                self.answer = shown(alloc, answer.front())?;
                if let Some(Asked::Stat) = asked {
                    self.count = Vec::from_slice(alloc, &self.answer)?;
                }
            }
            Spoken::Row(row) => {
                self.row = shown(alloc, row.front().trim_ascii_end())?;
                match asked {
                    Some(Asked::Uidl) => self.uids = self.uids.saturating_add(1),
                    _ => self.sizes = self.sizes.saturating_add(1),
                }
            }
            Spoken::End => {}
        }
        Ok(())
    }

    /// What is kept once a part was said after a command that asked for this. Without memory for it nothing is: a part
    /// that is older would be told as the last one.
    fn with(self, alloc: Global, asked: Option<Asked>, spoken: &Spoken<'_>) -> Said
        ensures { KeepsSpoken self asked spoken.now result ⊎ IsSilent result }
    {
        let mut said = self;
        match said.add(alloc, asked, spoken) {
            Ok(()) => said,
            Err(_) => Said::new(alloc),
        }
    }
}

/// Where it is kept what was said, until it is asked for.
#[derive(Drop)]
pub struct Talk {
    alloc: Global,
    said: Cell<Said>,
}

impl Talk {
    /// Nothing was said yet.
    pub fn new(alloc: Global) -> Talk {
        Talk {
            alloc,
            said: Cell::new(Said::new(alloc)),
        }
    }

    /// A part was said after a command that asked for this.
    pub(crate) fn note(&self, asked: Option<Asked>, spoken: &Spoken<'_>) {
        self.said.set(self.take().with(self.alloc, asked, spoken));
    }

    /// What was said. It is taken out.
    pub fn take(&self) -> Said {
        self.said.replace(Said::new(self.alloc))
    }
}
