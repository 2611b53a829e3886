//! Calls of the libraries that can answer that memory ran out, each on its row or vector. The test from
//! outside runs each test here with the first, the second and each further growth of its call refused.
//!
//! A test makes its call and then once more, or another whole session, and prints what was answered and
//! what was left. Whether that is right is judged from outside (`tests/libraries/rows.py`), so there is
//! no assertion here. A call is in a function of its own, with no contract: its own contract is then used
//! nowhere else.

mod records;
mod servers;
mod sessions;
mod settings;
mod stores;
mod texts;
mod traces;
mod watched;
mod wires;
