//! Showing why a command line was not read.
ghost use Rattle.std.specs.Prelude.{◌≡◌, ◌≢◌, ◌≤◌, ℕ, true, false, Some, None};
ghost use Rattle.clap.specs.Values.{kind_of};
ghost use Rattle.command_line.specs.Rules.{is_asked_text};

use clap::Error;
use clap::error::ErrorKind;

/// Whether clap's text is one that was asked for: help or the version.
fn is_asked_for(kind: ErrorKind) -> bool
    ensures { result ≡ is_asked_text kind }
{
    matches!(kind, ErrorKind::DisplayHelp | ErrorKind::DisplayVersion)
}

/// Writes clap's text, help and the version to standard output and a mistake to standard error, and
/// returns the exit status: 0 for a text that was asked for and written, 1 for one that wasn't written, 2
/// for a mistake. None, with nothing written, if memory ran out, which the program itself reports.
pub fn show<R: Print + Eprint>(rt: &R, name: &str, error: &Error) -> Option<u8>
    ensures memory { kind_of error.now ≡ ErrorKind.OutOfMemory → result ≡ None }
    ensures text { is_asked_text (kind_of error.now) ≡ true → (status : ℕ) × (result ≡ Some status) × (status ≤ 1) }
    ensures mistake { kind_of error.now ≢ ErrorKind.OutOfMemory
        → is_asked_text (kind_of error.now) ≡ false → result ≡ Some 2 }
{
    let kind = error.kind();
    if kind == ErrorKind::OutOfMemory {
        return None;
    }
    let shown = error.print(rt);
    if !is_asked_for(kind) {
        return Some(2);
    }
    if shown.is_ok() {
        return Some(0);
    }
    let _ = rt.eprintln(format_args!("{name}: cannot write standard output"));
    Some(1)
}
