//! Devices that keep one file.

pub mod flat_file;
pub mod memory;
pub mod reading;
