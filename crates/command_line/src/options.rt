//! A program's command, options, flags and words, and adding them to a command.
ghost use Rattle.std.specs.Prelude.{◌≡◌, IfOk, false};
ghost use Rattle.clap.specs.Words.{app_of, rule_of, with_rule};
ghost use Rattle.command_line.specs.Rules.{flag_rule, long_flag_rule, long_value_rule, program, option_rule, word_rule};

use clap::{Arg, ArgAction, Command};
use std::alloc::{AllocError, Global};

/// The version of both programs, which CHANGELOG.md begins with.
const VERSION: &str = "0.1.0";

/// The command of a program of this name, with what it says of itself and `--version`.
pub fn program<'a>(alloc: Global, name: &'a str, about: &'a str) -> Command<'a>
    ensures { app_of result ≡ program name.entry.now }
{
    Command::new(alloc, name).about(about).version(VERSION)
}

/// An option with a value and no short form, given at most once.
pub fn long_value_option<'a>(alloc: Global, name: &'a str, value: &'a str, help: &'a str) -> Arg<'a>
    ensures rule { rule_of result ≡ long_value_rule name.entry.now }
    ensures local { result.global ≡ false }
{
    Arg::new(alloc, name)
        .long(name)
        .value_name(value)
        .help(help)
        .action(ArgAction::Set)
}

/// An option with a value, given at most once.
pub fn value_option<'a>(
    alloc: Global,
    name: &'a str,
    short: char,
    value: &'a str,
    help: &'a str,
) -> Arg<'a>
    ensures rule { rule_of result ≡ option_rule name.entry.now short }
    ensures local { result.global ≡ false }
{
    long_value_option(alloc, name, value, help).short(short)
}

/// A flag with no short form, given any number of times.
pub fn long_flag<'a>(alloc: Global, name: &'a str, help: &'a str) -> Arg<'a>
    ensures rule { rule_of result ≡ long_flag_rule name.entry.now }
    ensures local { result.global ≡ false }
{
    Arg::new(alloc, name)
        .long(name)
        .help(help)
        .action(ArgAction::Count)
}

/// A flag, given any number of times.
pub fn flag<'a>(alloc: Global, name: &'a str, short: char, help: &'a str) -> Arg<'a>
    ensures rule { rule_of result ≡ flag_rule name.entry.now short }
    ensures local { result.global ≡ false }
{
    long_flag(alloc, name, help).short(short)
}

/// A word that is no option.
pub fn word<'a>(alloc: Global, name: &'a str, value: &'a str, help: &'a str) -> Arg<'a>
    ensures rule { rule_of result ≡ word_rule name.entry.now }
    ensures local { result.global ≡ false }
{
    Arg::new(alloc, name)
        .value_name(value)
        .help(help)
        .action(ArgAction::Set)
}

/// A command with one more option, flag or word, which its subcommands don't have.
pub fn add<'a>(command: Command<'a>, arg: Arg<'a>) -> Result<Command<'a>, AllocError>
    requires { arg.global ≡ false }
    ensures { IfOk result (λ added. app_of added ≡ with_rule (app_of command.entry) (rule_of arg.entry)) }
{
    command.arg(arg)
}
