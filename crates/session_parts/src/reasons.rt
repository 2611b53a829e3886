//! Why messages are passed over: how a listener learns it, and a report that says it.
ghost use Rattle.std.specs.{Prelude.{◌≡◌, ◌++◌, IfOk}, String.string_bytes};
ghost use Rattle.session_parts.specs.Reasons.{explained_line, explained_report, reason_at, skipped_text, told_report};
ghost use Rattle.session_parts.specs.Hearing.{HearsOne};

use crate::listener::Listener;
use crate::report::{Report, ReportLine, reason_of};
use crate::telling::skip_text;
use crate::text::{heading, line_text, report_text, summary};
use fetch_rules::{Settings, Skip, Step};
use std::alloc::{AllocError, Global};

/// Tells a listener that asks for it of the plan. Without memory it isn't told.
pub fn tell_plan<L: Listener>(alloc: Global, steps: &[Step], listener: &mut L)
    ensures { HearsOne L.hears (λ told. told ≡ steps.now) listener.old listener.new }
{
    if !listener.asks_why() {
        return;
    }
    if let Ok(told) = Vec::from_slice(alloc, steps) {
        listener.expect(told);
    }
}

/// Why message `number` was passed over, if what was planned for it is known.
fn reason_at(plan: &[Step], number: u32) -> Option<Skip>
    ensures { result ≡ reason_at plan.now number }
{
    plan.get(number.saturating_sub(1) as usize)
        .and_then(|step| reason_of(*step))
}

/// The line of a message that was passed over, with the reason, if that is known.
fn skipped_text(
    alloc: Global,
    total: u32,
    number: u32,
    size: u64,
    skip: Option<Skip>,
) -> Result<String, AllocError>
    ensures { IfOk result (λ text. string_bytes text ≡ skipped_text total number size skip) }
{
    let Some(skip) = skip else {
        return format!(in alloc; "msg {number}/{total} ({size} octets) skipped\n");
    };
    let reason = skip_text(skip, false);
    format!(in alloc; "msg {number}/{total} ({size} octets) skipped: {reason}\n")
}

/// One line of a report, as `line_text` gives it; that of a message that was passed over has the reason.
pub fn explained_line(
    alloc: Global,
    verbose: u8,
    total: u32,
    plan: &[Step],
    line: &ReportLine,
) -> Result<String, AllocError>
    ensures { IfOk result (λ text. string_bytes text ≡ explained_line verbose total plan.now line.now) }
{
    match *line {
        ReportLine::Skipped { number, size } if verbose == 2 => {
            skipped_text(alloc, total, number, size, reason_at(plan, number))
        }
        _ => line_text(alloc, verbose, total, line),
    }
}

/// The report, whose lines of messages that were passed over have the reasons.
fn explained_report(
    alloc: Global,
    report: &Report,
    settings: &Settings,
    plan: &[Step],
) -> Result<String, AllocError>
    ensures { IfOk result (λ text. string_bytes text ≡ explained_report report.now settings.now plan.now) }
{
    if settings.verbose == 0 {
        return Ok(String::new(alloc));
    }
    let mut text = heading(alloc, settings)?;
    for line in &report.lines {
        text.push_str(explained_line(alloc, settings.verbose, report.total, plan, line)?.as_str())?;
    }
    text.push_str(summary(alloc, report)?.as_str())?;
    Ok(text)
}

/// The report, as `report_text` gives it; if the plan is known, the lines of messages that were passed over
/// have the reasons.
pub fn told_report(
    alloc: Global,
    report: &Report,
    settings: &Settings,
    plan: &[Step],
) -> Result<String, AllocError>
    ensures { IfOk result (λ text. string_bytes text ≡ told_report plan.now report.now settings.now) }
{
    match plan {
        [] => report_text(alloc, report, settings),
        [_, ..] => explained_report(alloc, report, settings, plan),
    }
}
