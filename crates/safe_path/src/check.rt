//! The check of paths that the superuser is to use.
ghost use Rattle.std.specs.Prelude.{IfErr, OnOk};
ghost use Rattle.safe_path.specs.Check.{AreAllSafe, IsFirstRefused, WhereUnsafe};

use crate::looks::Looks;
use crate::refused::PathRefused;
use crate::rule::Named;
use crate::users::is_watched;
use crate::walk::check_path;
use file_reading::ReadFile;
use std::alloc::Global;

/// Refuses, run by the superuser, paths that lead through what others control: the first thing on the way of the first
/// such path. Run by anybody else, or in a user's own namespace, it looks at nothing.
pub fn check_paths<L: Looks + ReadFile>(
    alloc: Global,
    looks: &L,
    things: &[Named<'_>],
) -> Result<(), PathRefused>
    ensures safe { OnOk result (AreAllSafe L.Looks L.ReadFile looks.now things.now) }
    ensures refused { IfErr result (WhereUnsafe (IsFirstRefused L.Looks L.ReadFile looks.now things.now)) }
{
    if !is_watched(looks) {
        return Ok(());
    }
    for named in things {
        check_path(alloc, looks, named)?;
    }
    Ok(())
}
