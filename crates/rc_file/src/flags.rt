//! The flags of a command line, which override the rc file.
ghost use Rattle.std.specs.Prelude.{◌≡◌, ◌↔◌, false, IfErr, IfOk, IsOk};
ghost use Rattle.rc_file.specs.{Flags.{is_contradiction, louder, overridden, switched}, Settings.{IsValid, content_of}};

use crate::fault::RcFault;
use crate::settings::Settings;

/// Which flags were given.
#[derive(Clone, Copy, Debug, PartialEq, Eq)]
pub struct Flags {
    /// `--all`: fetch all messages, also those that were fetched before.
    pub all: bool,
    /// `--new`: fetch only new messages.
    pub new_only: bool,
    /// `--delete`: delete stored messages from the server.
    pub delete: bool,
    /// `--dont-delete`: don't delete them, unless `delete_after` asks for it.
    pub dont_delete: bool,
    /// `--quiet`: write no report.
    pub quiet: bool,
    /// How often `--verbose` was given.
    pub verbose: u8,
}

/// The settings, changed as the flags say: `all` and `new_only` set `read_all`; `delete` and
/// `dont_delete` set `delete` and leave `delete_after`; `quiet` sets `verbose` to 0, and each
/// `--verbose` adds one, up to 2. Contradiction if two flags ask for opposite things; the settings
/// are then dropped. Allocates nothing.
pub fn override_with(settings: Settings, flags: Flags) -> Result<Settings, RcFault>
    ensures given { IsOk result ↔ (is_contradiction flags ≡ false) }
    ensures content { IfOk result (λ new. content_of new ≡ overridden (content_of settings) flags) }
    ensures err { IfErr result (λ fault. fault ≡ RcFault.Contradiction) }
    ensures valid { IsValid settings → IfOk result (λ new. IsValid new) }
{
    if is_contradiction(flags) {
        return Err(RcFault::Contradiction);
    }
    Ok(Settings {
        server: settings.server,
        port: settings.port,
        username: settings.username,
        password: settings.password,
        dest: settings.dest,
        read_all: switched(flags.all, flags.new_only, settings.read_all),
        delete: switched(flags.delete, flags.dont_delete, settings.delete),
        delete_after: settings.delete_after,
        max_size: settings.max_size,
        max_count: settings.max_count,
        verbose: louder(flags.quiet, flags.verbose, settings.verbose),
    })
}

fn is_contradiction(flags: Flags) -> bool
    ensures { result ≡ is_contradiction flags }
{
    flags.all && flags.new_only
        || flags.delete && flags.dont_delete
        || flags.quiet && flags.verbose > 0
}

fn switched(on: bool, off: bool, value: bool) -> bool
    ensures { result ≡ switched on off value }
{
    if on {
        true
    } else if off {
        false
    } else {
        value
    }
}

fn louder(quiet: bool, more: u8, verbose: u8) -> u8
    ensures { result ≡ louder quiet more verbose }
{
    if quiet {
        0
    } else if more == 0 {
        verbose
    } else {
        verbose.saturating_add(more).min(2)
    }
}
