//! What `Refusals` keeps of refused calls.

use std::io::{Error, ErrorKind};
use system_calls::Refusals;

/// What was refused before isn't the reason once memory ran out.
#[test]
fn want_of_memory_is_no_refusal(rt: HostRuntime) {
    let refusals = Refusals::new(rt.alloc(), None);
    let _ = refusals.noted(
        "open",
        "a",
        Err::<(), Error>(Error::from(ErrorKind::NotFound)),
    );
    let _ = refusals.noted(
        "open",
        "b",
        Err::<(), Error>(Error::from(ErrorKind::OutOfMemory)),
    );
    assert!(rt; refusals.take().is_none());
}

/// What the system refuses because it has no memory is its refusal.
#[test]
fn the_systems_want_of_memory_is_a_refusal(rt: HostRuntime) {
    let refusals = Refusals::new(rt.alloc(), None);
    let error = Error::from_raw_os_error(12);
    let _ = refusals.noted("open", "a", Err::<(), Error>(error));
    assert!(rt; refusals.take().is_some());
}
