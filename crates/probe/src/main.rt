//! Makes calls of the libraries one by one, for the benchmarks, which time them, and for the tests in
//! `tests/probe`, which watch its system calls and compare what it prints.
#![tactic(auto)]

mod calls;
mod conversation;
mod drop_calls;
mod judging;
mod mbox;
mod power;
mod record;
mod shared;
mod stopwatch;
mod stores;
mod trouble;

use crate::trouble::{Result, Trouble};
use std::env;
use std::process::ExitCode;

fn tell_usage(rt: &HostRuntime) -> Result<()> {
    println!(rt;
        "usage: probe client, or judge|machine|memory|shared-machine|shared-memory FILE,"
    )?;
    println!(rt; "       or drop-machine|drop-memory|power|shared-power FILE,")?;
    println!(rt; "       or session|read COUNT,")?;
    println!(rt; "       or held|deliver|rewrite|append|blocks|sweep|texts|quote PATH COUNT")?;
    Ok(())
}

/// Makes the calls of this name on a folder or a file.
fn use_store(rt: &HostRuntime, call: &str, path: &str, count: u32) -> Result<()> {
    match call {
        "held" | "deliver" => stores::use_maildir_at(rt, call, path, count),
        "rewrite" | "append" | "blocks" | "texts" => stores::use_file_at(rt, call, path, count),
        "sweep" => stores::sweep(rt, path),
        "quote" => mbox::time_quote(rt, path),
        _ => tell_usage(rt),
    }
}

/// Makes the calls of this name on a record or a file of lists.
fn use_record(rt: &HostRuntime, call: &str, subject: &str) -> Result<()> {
    match call {
        "session" => record::time_session(rt, subject.parse()?),
        "read" => record::time_read(rt, subject.parse()?),
        "judge" => judging::judge(rt, subject),
        "machine" | "memory" | "power" => calls::play_lists(rt, call, subject),
        "shared-machine" | "shared-memory" | "shared-power" => calls::play_lists(rt, call, subject),
        "drop-machine" | "drop-memory" => calls::play_lists(rt, call, subject),
        _ => tell_usage(rt),
    }
}

/// Makes the calls that the words name.
fn obey(rt: &HostRuntime, words: &[String]) -> Result<()> {
    match words {
        [_, call] if call.as_str() == "client" => conversation::fetch(rt),
        [_, call, subject] => use_record(rt, call.as_str(), subject.as_str()),
        [_, call, path, count] => use_store(
            rt,
            call.as_str(),
            path.as_str(),
            count.as_str().parse()?,
        ),
        _ => tell_usage(rt),
    }
}

/// Does what the command line asks for.
fn start(rt: &HostRuntime) -> Result<()> {
    let words: Vec<String> = env::args(rt)?.collect(rt.alloc())?;
    obey(rt, &words)
}

fn main(rt: HostRuntime) -> ExitCode {
    let Err(trouble) = start(&rt) else {
        return ExitCode::SUCCESS;
    };
    let _ = match trouble {
        Trouble::Store(fault) => rt.eprintln(format_args!("{fault}")),
        Trouble::Other => rt.eprintln("failed"),
    };
    ExitCode::FAILURE
}
