//! `popd`: a small POP3 server over one user's Maildir, on standard input and output or over TCP.
#![tactic(auto)]

use command_line::StandIns;
use popd_program::{arguments, obey_command_line};
use std::process::ExitCode;

fn main(rt: HostRuntime) -> ExitCode {
    let _stand_ins = StandIns::new(&rt);
    let streams = (rt.stdin(), rt.stdout());
    ExitCode::from(obey_command_line(&rt, arguments(&rt), streams, rt.stderr()))
}
