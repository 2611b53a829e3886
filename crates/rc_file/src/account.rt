//! The settings that an rc file's rows give.
ghost use Rattle.std.specs.Prelude.{◌≡◌, IfOk, IsTrue};
ghost use Rattle.rc_file.specs.{
  KeyReading.{ReadsAs, ReadsSettings, ReadsValue},
  RcMeaning.{fault_at, is_folder, value_text},
  RowReading.rows_in,
  Settings.{destination_at, destination_of, is_destination},
};

use crate::fault::RcFault;
use crate::form::{read_boolean, read_credential, read_number, read_server, refuse_true};
use crate::key::Key;
use crate::row::ReadRow;
use crate::settings::{DELETE_AFTER_LIMIT, Dest, Settings, is_path_of};
use crate::value::required;
use std::alloc::{AllocError, Global};

/// The settings that the rows give, or the fault of the first faulty key.
#[tactic(auto, unfolding(crate::specs::KeyReading::key_fault))]
pub(crate) fn read_settings(alloc: Global, rows: &[ReadRow<'_>]) -> Result<Settings, RcFault>
    ensures { ReadsSettings (rows_in rows.now) result }
{
    expect_pop3(rows)?;
    refuse_true(rows, Key::UseApop)?;
    let server = read_server(rows, Key::Server)?;
    let port = read_number(rows, Key::Port, 1, 65_535)?;
    let username = read_credential(rows, Key::Username)?;
    let password = read_credential(rows, Key::Password)?;
    let folder = read_is_folder(rows)?;
    let path = read_path(rows, folder)?;
    let read_all = read_boolean(rows, Key::ReadAll)?;
    let delete = read_boolean(rows, Key::Delete)?;
    let delete_after = read_number(rows, Key::DeleteAfter, 0, DELETE_AFTER_LIMIT)?;
    let max_size = read_number(rows, Key::MaxSize, 0, u64::MAX)?;
    let max_count = read_number(rows, Key::MaxCount, 0, u64::MAX)?;
    let verbose = read_number(rows, Key::Verbose, 0, u64::MAX)?;
    Ok(Settings {
        server: String::from_str(alloc, server)?,
        port: port as u16,
        username: String::from_str(alloc, username)?,
        password: String::from_str(alloc, password)?,
        dest: make_dest(alloc, path, folder)?,
        read_all,
        delete,
        delete_after,
        max_size,
        max_count,
        verbose: verbose.min(2) as u8,
    })
}

/// Refuses any type of retriever except that for POP3.
#[tactic(auto, unfolding(crate::specs::RcMeaning::fault_at))]
fn expect_pop3(rows: &[ReadRow<'_>]) -> Result<(), RcFault>
    ensures { ReadsAs (fault_at (rows_in rows.now) Key.RetrieverKind) tt result }
{
    if required(rows, Key::RetrieverKind)? == "SimplePOP3Retriever" {
        Ok(())
    } else {
        Err(RcFault::UnknownType(Key::RetrieverKind))
    }
}

/// Whether the destination is a Maildir; it is an mboxrd file otherwise.
#[tactic(auto, unfolding(crate::specs::RcMeaning::fault_at))]
fn read_is_folder(rows: &[ReadRow<'_>]) -> Result<bool, RcFault>
    ensures { ReadsAs (fault_at (rows_in rows.now) Key.DestinationKind) (is_folder (rows_in rows.now)) result }
{
    let text = required(rows, Key::DestinationKind)?;
    if text == "Maildir" {
        Ok(true)
    } else if text == "Mboxrd" {
        Ok(false)
    } else {
        Err(RcFault::UnknownType(Key::DestinationKind))
    }
}

/// The path of the destination, which is a Maildir or else an mboxrd file.
#[tactic(auto, unfolding(crate::specs::RcMeaning::fault_at))]
fn read_path<'r>(rows: &'r [ReadRow<'_>], folder: bool) -> Result<&'r str, RcFault>
    requires { folder ≡ is_folder (rows_in rows.now) }
    ensures reads { ReadsValue (fault_at (rows_in rows.now) Key.Path) (value_text (rows_in rows.now) Key.Path) result }
    ensures valid { IfOk result (λ path. IsTrue (is_destination (destination_at folder path.now))) }
{
    let path = required(rows, Key::Path)?;
    if is_path_of(path, folder) {
        Ok(path)
    } else {
        Err(RcFault::BadPath)
    }
}

fn make_dest(alloc: Global, path: &str, folder: bool) -> Result<Dest, AllocError>
    ensures { IfOk result (λ dest. destination_of dest ≡ destination_at folder path.now) }
{
    let path = String::from_str(alloc, path)?;
    if folder {
        Ok(Dest::Maildir(path))
    } else {
        Ok(Dest::Mboxrd(path))
    }
}
