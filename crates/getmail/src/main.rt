//! `getmail`: fetches mail from a POP3 server (RFC 1939) into a Maildir or an mboxrd file.
#![tactic(auto)]

use command_line::StandIns;
use getmail_program::{Machine, arguments, obey_command_line};
use std::process::ExitCode;

fn main(rt: HostRuntime) -> ExitCode {
    let _stand_ins = StandIns::new(&rt);
    let streams = (rt.stdin(), rt.stdout());
    let machine = Machine {
        rt: &rt,
        process: rt.process(),
    };
    ExitCode::from(obey_command_line(&machine, arguments(&rt), streams, rt.stderr()))
}
