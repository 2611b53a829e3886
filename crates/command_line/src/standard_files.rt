//! Standard input, output and error, any of which may be closed when a program is started.

use std::fs::{self, File};
use std::os::fd::AsRawFd;

/// What stands in for the standard files that were closed, as long as it isn't dropped: nothing that is
/// opened later takes their place, so that no line of a report or a trace goes into a message's file, a
/// record or a connection.
#[derive(Drop)]
pub struct StandIns {
    input: Option<File>,
    output: Option<File>,
    error: Option<File>,
}

/// Opens the root folder, which can neither be read nor written as a file can, if it gets the descriptor
/// of this number: the lowest that is free. None if that one is in use, or if the folder can't be opened.
fn stand_in(rt: &HostRuntime, number: i32) -> Option<File> {
    match fs::open(rt, "/") {
        Ok(file) if file.as_raw_fd() == number => Some(file),
        _ => None,
    }
}

impl StandIns {
    /// Stands in for the standard files that are closed. Nothing may be opened before.
    pub fn new(rt: &HostRuntime) -> StandIns {
        StandIns {
            input: stand_in(rt, 0),
            output: stand_in(rt, 1),
            error: stand_in(rt, 2),
        }
    }
}
