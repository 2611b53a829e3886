//! The time that a measurement takes.

use crate::trouble::Result;
use std::time::{CpuClock, Duration, Instant};

/// The clock and the processor time when a measurement began.
#[derive(Clone, Copy)]
pub struct Stopwatch {
    start: Instant,
    used: Duration,
}

impl Stopwatch {
    pub fn new(rt: &HostRuntime) -> Result<Stopwatch> {
        let start = Instant::now(rt)?;
        let used = rt.process_cpu_time()?;
        Ok(Stopwatch { start, used })
    }

    /// Prints a count, and the microseconds of clock and processor time since the start.
    pub fn tell(&self, rt: &HostRuntime, count: usize) -> Result<()> {
        let used = rt.process_cpu_time()?.saturating_sub(self.used);
        let passed = self.start.elapsed(rt)?;
        println!(rt; "{count} {} {}", passed.as_micros(), used.as_micros())?;
        Ok(())
    }
}
