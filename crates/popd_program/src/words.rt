//! The command line, read with clap.
ghost use Rattle.std.specs.{Prelude.{◌≡◌, IfOk, false, map}, String.string_bytes};
ghost use Rattle.clap.specs.Words.{FailsBy, app_of, fault_of, found_of, matches_of, rows_of, rule_of};
ghost use Rattle.popd_program.specs.CommandLine.{AsksToServe, connections_rule, is_bare, more_rule, popd, words_after};

use clap::{Arg, ArgAction, ArgMatches, Command, Error, value_parser};
use command_line::{add, is_given, long_flag, long_value_option, program, text, word};
use std::alloc::{AllocError, Global};

/// What the command line asks for.
#[derive(Drop)]
pub struct Words {
    /// The address to listen on; none for standard input and output.
    pub listen: Option<String>,
    /// How many connections to serve.
    pub connections: u32,
    /// Whether to serve the rehearsal's messages.
    pub rehearse: bool,
    /// Whether logins and removals are reported.
    pub verbose: bool,
    /// Whether conversations and refused calls of the system are traced.
    pub trace: bool,
    /// The name of the user who may log in.
    pub user: Option<String>,
    /// The file that holds the password.
    pub passfile: Option<String>,
    /// The Maildir to serve.
    pub maildir: Option<String>,
    /// Words after these three.
    pub more: Vec<String>,
}

impl Words {
    /// Whether there are only options.
    pub fn is_bare(&self) -> bool
        ensures { result ≡ is_bare self.now }
    {
        self.user.is_none()
            && self.passfile.is_none()
            && self.maildir.is_none()
            && self.more.is_empty()
    }
}

// The lines of help.
const ABOUT: &str = "Serves one user's Maildir over POP3; popd(8) says more";

const USAGE: &str = "popd [OPTIONS] USER PASSFILE MAILDIR\n       popd --rehearse";

const LISTEN: &str =
    "Serve TCP connections to ADDRESS, HOST:PORT, one after the other [standard input and output]";

const CONNECTIONS: &str = "End after N connections";

const REHEARSE: &str =
    "Serve two small messages to user u with password p on standard input and output";

const VERBOSE: &str =
    "Report where it listens, logins, refused logins and removals on standard error";

const TRACE: &str = "Show conversations and refused calls of the system on standard error";

const USER: &str = "The name of the user who may log in";

const PASSFILE: &str = "The file whose first line is the password";

const MAILDIR: &str = "The Maildir to serve";

/// `--connections N`, a number of 32 bits.
fn connections_option<'a>(alloc: Global) -> Arg<'a>
    ensures rule { rule_of result ≡ connections_rule }
    ensures local { result.global ≡ false }
{
    long_value_option(alloc, "connections", "N", CONNECTIONS).value_parser(value_parser!(u32))
}

/// Any words after these, so that the program can say that there are too many.
fn more_words<'a>(alloc: Global) -> Arg<'a>
    ensures rule { rule_of result ≡ more_rule }
    ensures local { result.global ≡ false }
{
    Arg::new(alloc, "more")
        .num_args(0..)
        .action(ArgAction::Append)
        .hide(true)
}

/// The command line's options and words.
pub fn command<'a>(alloc: Global) -> Result<Command<'a>, AllocError>
    ensures { IfOk result (λ command. app_of command ≡ popd) }
{
    let command = program(alloc, "popd", ABOUT).override_usage(USAGE);
    let command = add(
        command,
        long_value_option(alloc, "listen", "ADDRESS", LISTEN),
    )?;
    let command = add(command, connections_option(alloc))?;
    let command = add(command, long_flag(alloc, "rehearse", REHEARSE))?;
    let command = add(command, long_flag(alloc, "verbose", VERBOSE))?;
    let command = add(command, long_flag(alloc, "trace", TRACE))?;
    let command = add(command, word(alloc, "user", "USER", USER))?;
    let command = add(command, word(alloc, "passfile", "PASSFILE", PASSFILE))?;
    let command = add(command, word(alloc, "maildir", "MAILDIR", MAILDIR))?;
    add(command, more_words(alloc))
}

/// Copies of texts.
fn copies(alloc: Global, texts: &[&str]) -> Result<Vec<String>, AllocError>
    ensures { IfOk result (λ owned. map string_bytes owned.items ≡ map (λ t. t.now) texts.now) }
{
    let mut owned = Vec::new(alloc);
    for text in texts {
        owned.push(String::from_str(alloc, text)?)?;
    }
    Ok(owned)
}

/// The words that are too many.
fn words_after(alloc: Global, matches: &ArgMatches<'_>) -> Result<Vec<String>, AllocError>
    ensures { IfOk result (λ more. map string_bytes more.items ≡ words_after (rows_of (found_of matches.now))) }
{
    match matches.get_strs("more") {
        None => Ok(Vec::new(alloc)),
        Some(texts) => copies(alloc, texts),
    }
}

/// What clap's matches ask for.
fn words_of(alloc: Global, matches: &ArgMatches<'_>) -> Result<Words, AllocError>
    ensures { IfOk result (AsksToServe (rows_of (found_of matches.now))) }
{
    Ok(Words {
        listen: text(alloc, matches, "listen")?,
        connections: matches.get_one("connections").unwrap_or(u32::MAX),
        rehearse: is_given(matches, "rehearse"),
        verbose: is_given(matches, "verbose"),
        trace: is_given(matches, "trace"),
        user: text(alloc, matches, "user")?,
        passfile: text(alloc, matches, "passfile")?,
        maildir: text(alloc, matches, "maildir")?,
        more: words_after(alloc, matches)?,
    })
}

/// What these words, the program's name first, ask for. Clap's error has the text of help, of the version
/// or of the mistake, or its kind is OutOfMemory.
pub fn read_words(alloc: Global, words: &[String]) -> Result<Words, Error>
    ensures faults { FailsBy (fault_of popd (map string_bytes words.now)) result }
    ensures asks { IfOk result (AsksToServe (matches_of popd (map string_bytes words.now))) }
{
    match command(alloc)?.try_get_matches_from(words) {
        Ok(matches) => Ok(words_of(alloc, &matches)?),
        Err(error) => Err(error),
    }
}
