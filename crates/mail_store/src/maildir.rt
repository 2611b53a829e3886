//! Mail in a Maildir: the devices that keep one, the names of an account's files, and delivery.

pub mod delivery;
pub mod disk;
pub mod held;
pub mod loss;
pub mod memory;
pub mod names;
