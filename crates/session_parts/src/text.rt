//! The texts of faults and reports. They contain nothing of a password.
ghost use Rattle.std.specs.{Prelude.{◌≡◌, IfOk}, String.string_bytes};
ghost use Rattle.session_parts.specs.Text.{fault_text, heading, line_text, outcome_number, report_text, summary};

use crate::fault::{Fault, Why};
use crate::report::{Outcome, Report, ReportLine};
use fetch_rules::Settings;
use pop3_client::Asked;
use std::alloc::{AllocError, Global};

/// The text of a fault, without a line end.
pub fn fault_text(alloc: Global, fault: &Fault) -> Result<String, AllocError>
    ensures { IfOk result (λ text. string_bytes text ≡ fault_text fault.now) }
{
    match *fault {
        Fault::ConnectionEnded => String::from_str(alloc, "connection ended by the server"),
        Fault::ReadFailed => String::from_str(alloc, "reading from the server failed"),
        Fault::WriteFailed => String::from_str(alloc, "writing to the server failed"),
        Fault::ReplyTooLong => String::from_str(alloc, "reply line too long"),
        Fault::BadReply => String::from_str(alloc, "reply not understood"),
        Fault::Refused(Asked::Greeting) => String::from_str(alloc, "server refused greeting"),
        Fault::Refused(Asked::User) => String::from_str(alloc, "server refused USER"),
        Fault::Refused(Asked::Pass) => String::from_str(alloc, "server refused PASS"),
        Fault::Refused(Asked::Stat) => String::from_str(alloc, "server refused STAT"),
        Fault::Refused(Asked::Uidl) => String::from_str(alloc, "server refused UIDL"),
        Fault::Refused(Asked::List) => String::from_str(alloc, "server refused LIST"),
        Fault::Refused(Asked::Retr(number)) => format!(in alloc; "server refused RETR {number}"),
        Fault::Refused(Asked::Dele(number)) => format!(in alloc; "server refused DELE {number}"),
        Fault::Refused(Asked::Rset) => String::from_str(alloc, "server refused RSET"),
        Fault::Refused(Asked::Quit) => String::from_str(alloc, "server refused QUIT"),
        Fault::BadListing => String::from_str(alloc, "listing not understood"),
        Fault::ListingsDisagree => String::from_str(alloc, "listings disagree"),
        Fault::TooMany => String::from_str(alloc, "too many messages"),
        Fault::TextTooLong => String::from_str(alloc, "message too long"),
        Fault::StoreRefused(Why::Missing) => String::from_str(alloc, "destination missing"),
        Fault::StoreRefused(Why::Refused) => String::from_str(alloc, "destination refused"),
        Fault::StoreRefused(Why::NotMbox) => String::from_str(alloc, "destination is no mbox"),
        Fault::SeenRefused => String::from_str(alloc, "seen file refused"),
        Fault::NoMemory => String::from_str(alloc, "out of memory"),
        Fault::BadSeen(line) => format!(in alloc; "seen file not understood at line {line}"),
    }
}

/// The number of an outcome: 0 if the session ended, else its fault's.
pub fn fault_number(outcome: &Outcome) -> u8
    ensures { result ≡ outcome_number outcome.now }
{
    match outcome {
        Outcome::Ended => 0,
        Outcome::Cut(Fault::ConnectionEnded) => 1,
        Outcome::Cut(Fault::ReadFailed) => 2,
        Outcome::Cut(Fault::WriteFailed) => 3,
        Outcome::Cut(Fault::ReplyTooLong) => 4,
        Outcome::Cut(Fault::BadReply) => 5,
        Outcome::Cut(Fault::Refused(_)) => 6,
        Outcome::Cut(Fault::BadListing) => 7,
        Outcome::Cut(Fault::ListingsDisagree) => 8,
        Outcome::Cut(Fault::TooMany) => 9,
        Outcome::Cut(Fault::TextTooLong) => 10,
        Outcome::Cut(Fault::StoreRefused(_)) => 11,
        Outcome::Cut(Fault::SeenRefused) => 12,
        Outcome::Cut(Fault::NoMemory) => 13,
        Outcome::Cut(Fault::BadSeen(_)) => 14,
    }
}

/// The report's first line: whose mail it is.
pub fn heading(alloc: Global, settings: &Settings) -> Result<String, AllocError>
    ensures { IfOk result (λ text. string_bytes text ≡ heading settings.now) }
{
    let username = settings.username.as_str();
    let server = settings.server.as_str();
    let port = settings.port;
    format!(in alloc; "SimplePOP3Retriever:{username}@{server}:{port}:\n")
}

/// One line of a report; empty for a message that was passed over, unless `verbose` is 2.
pub fn line_text(
    alloc: Global,
    verbose: u8,
    total: u32,
    line: &ReportLine,
) -> Result<String, AllocError>
    ensures { IfOk result (λ text. string_bytes text ≡ line_text verbose total line.now) }
{
    match *line {
        ReportLine::Delivered { number, length } => {
            format!(in alloc; "msg {number}/{total} ({length} bytes) delivered\n")
        }
        ReportLine::Held { number, length } => {
            format!(in alloc; "msg {number}/{total} ({length} bytes) already held\n")
        }
        ReportLine::Skipped { number, size } if verbose == 2 => {
            format!(in alloc; "msg {number}/{total} ({size} octets) skipped\n")
        }
        ReportLine::Skipped { .. } => Ok(String::new(alloc)),
        ReportLine::Deleted { number } => format!(in alloc; "msg {number}/{total} deleted\n"),
    }
}

/// The report's last line.
pub(crate) fn summary(alloc: Global, report: &Report) -> Result<String, AllocError>
    ensures { IfOk result (λ text. string_bytes text ≡ summary report.now) }
{
    let Report {
        retrieved,
        bytes,
        skipped,
        deleted,
        ..
    } = report;
    format!(in alloc;
        "{retrieved} messages ({bytes} bytes) retrieved, {skipped} skipped, {deleted} deleted\n"
    )
}

/// The report, each line ended by LF: whose mail it is, what was done in order, and the counts. With
/// `verbose` 0 it is empty; a message that was passed over has a line only with 2.
pub fn report_text(
    alloc: Global,
    report: &Report,
    settings: &Settings,
) -> Result<String, AllocError>
    ensures { IfOk result (λ text. string_bytes text ≡ report_text report.now settings.now) }
{
    if settings.verbose == 0 {
        return Ok(String::new(alloc));
    }
    let mut text = heading(alloc, settings)?;
    for line in &report.lines {
        text.push_str(line_text(alloc, settings.verbose, report.total, line)?.as_str())?;
    }
    text.push_str(summary(alloc, report)?.as_str())?;
    Ok(text)
}
