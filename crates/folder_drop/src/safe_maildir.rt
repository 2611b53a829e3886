//! Whether the superuser may use a Maildir.
ghost use Rattle.std.specs.Prelude.{◌≡◌, IfErr, OnOk};
ghost use Rattle.safe_path.specs.Check.{WhereUnsafe};
ghost use Rattle.folder_drop.specs.SafeMaildir.{IsRefusedOn, IsSafeMaildir, named_so};

use crate::maildir_names::{Folder, folder_path};
use file_reading::ReadFile;
use safe_path::{Kind, Looks, Named, PathRefused, check_paths};
use std::alloc::Global;

/// A path that is to name a folder.
fn folder(path: &str) -> Named<'_>
    ensures { named_so result ≡ (path.now, Kind.Folder) }
{
    Named {
        path,
        kind: Kind::Folder,
    }
}

/// Refuses to the superuser a Maildir if others control a part of the way to it or to one of its folders. Anybody else
/// may use each.
pub fn check_maildir<L: Looks + ReadFile>(
    alloc: Global,
    looks: &L,
    maildir: &str,
) -> Result<(), PathRefused>
    ensures safe { OnOk result (IsSafeMaildir L.Looks L.ReadFile looks.now maildir.now) }
    ensures refused { IfErr result (WhereUnsafe (IsRefusedOn L.Looks L.ReadFile looks.now maildir.now)) }
{
    let in_new = folder_path(alloc, maildir, Folder::New)?;
    let in_cur = folder_path(alloc, maildir, Folder::Cur)?;
    let things = [
        folder(maildir),
        folder(in_new.as_str()),
        folder(in_cur.as_str()),
    ];
    check_paths(alloc, looks, things.as_slice())
}
