//! The texts of an rc file's faults and warnings.

use crate::no_memory_tests::watched::{begin, end, tell_text};
use fetch_rules::{Key, RcFault, rc_text, warning_text};
use rc_file::Warning;
use std::test::Fail;

fn tell_fault(rt: &HostRuntime) {
    begin(rt);
    let answer = rc_text(rt.alloc(), &RcFault::BadValue(Key::Port));
    end(rt);
    tell_text(rt, answer);
}

#[test]
fn rc_text_row(rt: HostRuntime) {
    tell_fault(&rt);
    tell_fault(&rt);
}

fn tell_warning(rt: &HostRuntime, warning: &Warning) {
    begin(rt);
    let answer = warning_text(rt.alloc(), warning);
    end(rt);
    tell_text(rt, answer);
}

fn tell_twice(rt: &HostRuntime, section: String, key: String) {
    let warning = Warning {
        line: 10,
        section,
        key,
    };
    tell_warning(rt, &warning);
    tell_warning(rt, &warning);
}

#[test]
fn warning_text_row(rt: HostRuntime) -> Result<(), Fail> {
    let section = String::from_str(rt.alloc(), "options")?;
    let key = String::from_str(rt.alloc(), "timeout")?;
    tell_twice(&rt, section, key);
    Ok(())
}
