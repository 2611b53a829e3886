//! Warnings: the program goes on after them.
ghost use Rattle.std.specs.{
  Prelude.{◌≡◌, ◌++◌, ◌↔◌, IfOk, IsFalse, OnOk, map},
  Fmt.WritesOnOk,
  Net.Socket.socket_ip,
  String.string_bytes,
  declared.net.ip_addr.IpAddr.IpAddr,
};
ghost use Rattle.popd_program.specs.{
  Texts.{not_removed, shown_path, shown_character, words_of_warning},
  Warnings.{IsUnmapped, IsOfMachine, given_if, is_open_to_others, warnings_of},
};

use crate::account::Account;
use crate::failure::words_of_fault;
use folder_drop::TwoMessages;
use mail_terms::is_credential;
use pop3_server::ServerFault;
use std::alloc::{AllocError, Global};
use std::fmt::{self, Display, Formatter, Write};
use std::net::{SocketAddr, TcpListener};
use std::os::unix::fs::PermissionsExt;
use std::rt::Files;
use system_calls::System;

/// Something that may be wrong, though the program goes on.
#[derive(Clone, Copy)]
pub enum Warning<'a> {
    /// The Maildir of this name has no such folder.
    NoFolder(&'a str, &'static str),
    /// No client can give the user's name.
    NoUser,
    /// No client can give the password.
    NoPassword,
    /// Others than its owner may read or write the password file of this name.
    OpenPassfile(&'a str),
    /// Who connects to this address may do so over a network.
    Network(SocketAddr),
    /// A message's file, or a folder of the Maildir, can't be read.
    Unread(&'a str),
    /// A message wasn't removed, since what is in its place or has its name may be another one.
    NotRemoved(&'a TwoMessages),
    /// This fault ended the connection from this address.
    Cut(SocketAddr, ServerFault),
}

/// Writes a character as a line shows it: a control character by its number.
fn write_character<W: Write>(f: &mut Formatter<W>, character: char) -> fmt::Result
    ensures { WritesOnOk W.write_str_gives f.old result (shown_character character) f.new }
{
    if character.is_control() {
        return write!(f, "\\u{{{:x}}}", character as u32);
    }
    f.write_char(character)
}

/// Writes a path as a line shows it.
fn write_shown<W: Write>(f: &mut Formatter<W>, path: &str) -> fmt::Result
    ensures { WritesOnOk W.write_str_gives f.old result (shown_path path.now) f.new }
{
    for character in path.chars() {
        write_character(f, character)?;
    }
    Ok(())
}

/// A path as a line shows it: with control characters escaped.
#[derive(Clone, Copy)]
struct Shown<'a>(&'a str);

impl<'a> Display for Shown<'a> {
    ghost use Rattle.std.specs.Prelude.{Some};
    ghost use Rattle.popd_program.specs.Texts.{shown_path};

    ghost output = { λ s. Some (shown_path s.0.now) };

    fn fmt<W: Write>(&self, f: &mut Formatter<W>) -> fmt::Result {
        write_shown(f, self.0)
    }
}

/// Why no client can give a name or a password.
const NOT_GIVEN: &str = "it is empty, longer than 500 octets, or has a CR, LF or NUL in it";

/// What is wrong with an address that isn't loopback.
const UNENCRYPTED: &str = "password and mail go over the network unencrypted";

/// Writes why a message wasn't removed: what is where it was listed, or another file with its unique-id.
fn write_not_removed<W: Write>(f: &mut Formatter<W>, listed: &str, other: &str) -> fmt::Result
    ensures { WritesOnOk W.write_str_gives f.old result (not_removed listed.now other.now) f.new }
{
    let (listed_path, other_path) = (Shown(listed), Shown(other));
    if listed == other {
        return write!(f, "not removed: {listed_path} isn't as it was listed");
    }
    write!(
        f,
        "not removed: {listed_path} and {other_path} have one unique-id but may be different messages"
    )
}

impl<'a> Display for Warning<'a> {
    ghost use Rattle.std.specs.Prelude.{Some};
    ghost use Rattle.popd_program.specs.Texts.{words_of_warning};

    ghost output = { λ w. Some (words_of_warning w) };

    fn fmt<W: Write>(&self, f: &mut Formatter<W>) -> fmt::Result {
        match *self {
            Warning::NoFolder(path, name) => write!(f, "{} has no folder {name}", Shown(path)),
            Warning::NoUser => write!(f, "no client can give this USER: {NOT_GIVEN}"),
            Warning::NoPassword => write!(f, "no client can give this password: {NOT_GIVEN}"),
            Warning::OpenPassfile(path) => write!(
                f,
                "others than its owner may read or write {}",
                Shown(path)
            ),
            Warning::Network(address) => write!(f, "{address} isn't loopback: {UNENCRYPTED}"),
            Warning::Unread(path) => write!(f, "cannot read {}", Shown(path)),
            Warning::NotRemoved(two) => {
                write_not_removed(f, two.listed.as_str(), two.other.as_str())
            }
            Warning::Cut(client, fault) => write!(f, "{client}: {}", words_of_fault(fault)),
        }
    }
}

/// Writes a warning to standard error. It allocates nothing.
pub fn warn<R: Eprint>(rt: &R, warning: Warning<'_>) {
    let _ = rt.eprintln(format_args!("popd: warning: {warning}"));
}

/// What was found of an account's files: the password file's mode, and which folders the Maildir has.
#[derive(Clone, Copy)]
pub struct Findings {
    pub passfile: Option<u32>,
    pub has_new: bool,
    pub has_cur: bool,
}

/// Whether others than its owner may read or write a file of this mode.
fn is_open_to_others(mode: u32) -> bool
    ensures { result ≡ is_open_to_others mode }
{
    mode & 0o066 != 0
}

/// Adds a warning, if it is to be given.
fn add_if<'a>(
    warnings: &mut Vec<Warning<'a>>,
    holds: bool,
    warning: Warning<'a>,
) -> Result<(), AllocError>
    ensures { OnOk result (map words_of_warning warnings.new.items
        ≡ map words_of_warning warnings.old.items ++ given_if holds (words_of_warning warning.entry)) }
{
    if !holds {
        return Ok(());
    }
    warnings.push(warning)?;
    Ok(())
}

/// The warnings of an account of which this was found: of all that may keep it from being served properly.
fn warnings_of<'a>(
    alloc: Global,
    account: &'a Account,
    passfile: &'a str,
    found: Findings,
) -> Result<Vec<Warning<'a>>, AllocError>
    ensures { IfOk result (λ warnings. map words_of_warning warnings.items ≡ warnings_of account.now.user.items
        account.now.password.items (string_bytes account.now.maildir) passfile.now found) }
{
    let maildir = account.maildir.as_str();
    let no_user = !is_credential(account.user.as_slice());
    let no_password = !is_credential(account.password.as_slice());
    let is_open = is_open_to_others(found.passfile.unwrap_or(0));
    let mut warnings = Vec::new(alloc);
    add_if(&mut warnings, no_user, Warning::NoUser)?;
    add_if(&mut warnings, no_password, Warning::NoPassword)?;
    add_if(&mut warnings, is_open, Warning::OpenPassfile(passfile))?;
    let (no_new, no_cur) = (!found.has_new, !found.has_cur);
    add_if(&mut warnings, no_new, Warning::NoFolder(maildir, "new"))?;
    add_if(&mut warnings, no_cur, Warning::NoFolder(maildir, "cur"))?;
    Ok(warnings)
}

/// Whether a Maildir has a folder of this name.
fn has_folder<R: Files + AllocGlobal>(
    system: &System<'_, R>,
    maildir: &str,
    name: &str,
) -> Result<bool, AllocError> {
    let path = format!(in system.alloc(); "{maildir}/{name}")?;
    let found = system.stat(path.as_str());
    Ok(found.is_ok_and(|found| found.is_dir()))
}

/// What is found of an account's files.
fn look_around<R: Files + AllocGlobal>(
    system: &System<'_, R>,
    maildir: &str,
    passfile: &str,
) -> Result<Findings, AllocError> {
    let passfile = system.stat(passfile);
    Ok(Findings {
        passfile: passfile.ok().map(|found| found.permissions().mode()),
        has_new: has_folder(system, maildir, "new")?,
        has_cur: has_folder(system, maildir, "cur")?,
    })
}

/// Whether what is sent to an address leaves this machine.
fn is_beyond(address: &SocketAddr) -> bool
    ensures { (ip : IpAddr) × IsUnmapped (socket_ip address.now) ip × (IsFalse result ↔ IsOfMachine ip) }
{
    !address.ip().to_canonical().is_loopback()
}

/// Warns of an address that isn't loopback.
pub fn warn_of_network<R: Eprint>(rt: &R, listener: &TcpListener) {
    match listener.local_addr() {
        Ok(address) if is_beyond(&address) => warn(rt, Warning::Network(address)),
        _ => {}
    }
}

/// Warns of all that may keep this account from being served properly.
pub fn warn_of<R: Files + AllocGlobal + Eprint>(
    system: &System<'_, R>,
    account: &Account,
    passfile: &str,
) -> Result<(), AllocError> {
    let found = look_around(system, account.maildir.as_str(), passfile)?;
    for warning in warnings_of(system.alloc(), account, passfile, found)? {
        warn(system.rt, warning);
    }
    Ok(())
}
