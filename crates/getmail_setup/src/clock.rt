//! The second that a clock shows.
ghost use Rattle.std.specs.Prelude.{◌≡◌};
ghost use Rattle.getmail_setup.specs.Clock.{second_of};

use std::time::{SystemTime, UNIX_EPOCH};

/// The second since 1970 that a clock shows; 0 if it couldn't be read.
pub fn second_of(time: Option<SystemTime>) -> u64
    ensures { result ≡ second_of time }
{
    let Some(time) = time else {
        return 0;
    };
    match time.duration_since(UNIX_EPOCH) {
        Ok(passed) => passed.as_secs(),
        Err(_) => 0,
    }
}
