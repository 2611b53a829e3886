//! The walk along one path.
ghost use Rattle.std.specs.{
  Prelude.{◌≡◌, ◌≢◌, ◌∷◌, ℕ, List, MatchOption, None, Some, IfErr, IfOk, OnOk, codes, option_map},
  String.string_bytes,
  declared.io.Error.{Error},
};
ghost use Rattle.safe_path.specs.declared.rule.Flaw.TheVariants.{Unseen};
ghost use Rattle.safe_path.specs.{
  Check.{AreNames, BreaksRule, IsRefused, IsRootsFlaw, IsSafePath, WhereUnsafe, role_of, shown_folder},
  Rule.flaw_in,
  Walk.{BreaksOn, FailsToTurn, WalksOn, IsRoot, Takes, TurnsAt, spot_at},
  Way.{IsAbove, IsFolderAt, SplitsName, followed, joined_path},
};

use crate::looks::Looks;
use crate::refused::{PathRefused, UnsafePath};
use crate::rule::{Found, Kind, Named, Role, flaw_in};
use std::alloc::{AllocError, Global};
use std::io::{self, ErrorKind};

/// Linux follows so many links.
const MOST_LINKS: u32 = 40;

/// Where a look-up is: a folder, by its path from the root, which is the empty text itself, and what a look told of it.
#[derive(Drop)]
struct Place {
    folder: String,
    held: Found,
}

/// A link on the way: its path, from where its text is looked up, and that text with the names behind the link.
#[derive(Drop)]
struct Turn {
    link: String,
    place: Place,
    names: String,
}

/// What comes of a look-up's next name.
#[derive(Drop)]
enum Step<'a> {
    /// It was the last one.
    Ended,
    /// A folder, and the names that are left.
    Into(Place, &'a str),
    Turn(Turn),
}

/// A path's first name, and what follows the `/` behind it, if there is one.
fn first_name(path: &str) -> (&str, Option<&str>)
    ensures { SplitsName path.now result.0.now (option_map (λ rest. rest.now) result.1) }
{
    match path.split_once('/') {
        Some((name, rest)) => (name, Some(rest)),
        None => (path, None),
    }
}

/// What a name is called in a folder.
fn joined_path(alloc: Global, folder: &str, name: &str) -> Result<String, AllocError>
    ensures { IfOk result (λ path. string_bytes path ≡ joined_path folder.now name.now) }
{
    format!(in alloc; "{folder}/{name}")
}

/// The folder above another one.
fn above(folder: &str) -> &str
    ensures { IsAbove folder.now result.now }
{
    match folder.rsplit_once('/') {
        Some((above, _)) => above,
        None => "",
    }
}

/// The folder that a name of a folder is, whose own path is given.
fn folder_at(alloc: Global, folder: &str, name: &str, path: String) -> Result<String, AllocError>
    requires path { string_bytes path ≡ joined_path folder.now name.now }
    ensures { IfOk result (λ next. IsFolderAt folder.now name.now (string_bytes next)) }
{
    match name {
        "" | "." => String::from_str(alloc, folder),
        ".." => String::from_str(alloc, above(folder)),
        _ => Ok(path),
    }
}

/// A folder's path, as a message has it.
fn shown_folder(alloc: Global, folder: &str) -> Result<String, AllocError>
    ensures { IfOk result (λ shown. string_bytes shown ≡ shown_folder folder.now) }
{
    String::from_str(alloc, if folder.is_empty() { "/" } else { folder })
}

/// For what a look-up goes through a thing.
fn role_of(kind: Kind, rest: Option<&str>, found: Found) -> Role
    ensures { result ≡ role_of kind (option_map (λ rest. rest.now) rest.entry) found }
{
    if found.is_link() {
        return Role::Link;
    }
    match rest {
        Some(_) => Role::Above,
        None => Role::Last(kind),
    }
}

/// Refuses a thing that breaks the rule.
fn hold(alloc: Global, role: Role, found: Found, path: &str) -> Result<(), PathRefused>
    ensures ok { OnOk result (flaw_in role found ≡ None) }
    ensures err { IfErr result (WhereUnsafe (λ at flaw. (at ≡ path.now) × (flaw_in role found ≡ Some flaw))) }
{
    match flaw_in(role, found) {
        None => Ok(()),
        Some(flaw) => Err(PathRefused::Unsafe(UnsafePath {
            path: String::from_str(alloc, path)?,
            flaw,
        })),
    }
}

/// The root.
fn root<L: Looks>(alloc: Global, looks: &L) -> Result<Place, PathRefused>
    ensures ok { IfOk result (IsRoot L.Looks looks.now) }
    ensures err { IfErr result (WhereUnsafe (λ at flaw. (at ≡ codes "/") × IsRootsFlaw L.Looks looks.now flaw)) }
{
    let held = match looks.look("/") {
        Ok(held) => held,
        Err(error) => return Err(PathRefused::unseen(String::from_str(alloc, "/")?, error)),
    };
    hold(alloc, Role::Above, held, "/")?;
    Ok(Place {
        folder: String::new(alloc),
        held,
    })
}

/// What a link's text leaves to be looked up, with what came behind the link.
fn followed(alloc: Global, target: &str, rest: Option<&str>) -> Result<String, AllocError>
    ensures { IfOk result (λ names. string_bytes names ≡ followed target.now (option_map (λ r. r.now) rest.entry)) }
{
    match rest {
        Some(rest) => format!(in alloc; "{target}/{rest}"),
        None => String::from_str(alloc, target),
    }
}

/// The names of a path that begins at the root.
fn from_root(path: &str) -> Option<&str>
    ensures { MatchOption result ((names : List ℕ) → path.now ≢ 47 ∷ names) (λ names. path.now ≡ 47 ∷ names.now) }
{
    path.strip_prefix('/')
}

/// Follows a link.
fn follow_link<L: Looks>(
    alloc: Global,
    looks: &L,
    place: Place,
    link: String,
    rest: Option<&str>,
) -> Result<Turn, PathRefused>
    ensures ok { IfOk result (TurnsAt L.Looks looks.now place (string_bytes link)
        (option_map (λ rest. rest.now) rest.entry)) }
    ensures err { IfErr result (WhereUnsafe (FailsToTurn L.Looks looks.now (string_bytes link))) }
{
    let target = match looks.target(link.as_str()) {
        Ok(target) => target,
        Err(error) => return Err(PathRefused::unseen(link, error)),
    };
    let text = target.as_str();
    match from_root(text) {
        Some(from_root) => Ok(Turn {
            link,
            names: followed(alloc, from_root, rest)?,
            place: root(alloc, looks)?,
        }),
        None => Ok(Turn {
            link,
            names: followed(alloc, text, rest)?,
            place,
        }),
    }
}

/// Takes the next name of a look-up.
fn take_name<'a, L: Looks>(
    alloc: Global,
    looks: &L,
    kind: Kind,
    place: Place,
    names: &'a str,
) -> Result<Step<'a>, PathRefused>
    ensures ok { IfOk result (Takes L.Looks looks.now kind (spot_at place names.now)) }
    ensures err { IfErr result (WhereUnsafe (BreaksRule L.Looks looks.now kind (spot_at place names.now))) }
{
    let (name, rest) = first_name(names);
    let path = joined_path(alloc, place.folder.as_str(), name)?;
    let found = match looks.look(path.as_str()) {
        Ok(found) => found,
        Err(error) if error.kind() == ErrorKind::NotFound => {
            let folder = shown_folder(alloc, place.folder.as_str())?;
            hold(alloc, Role::Last(Kind::Folder), place.held, folder.as_str())?;
            return Ok(Step::Ended);
        }
        Err(error) => return Err(PathRefused::unseen(path, error)),
    };
    hold(alloc, role_of(kind, rest, found), found, path.as_str())?;
    if found.is_link() {
        return Ok(Step::Turn(follow_link(alloc, looks, place, path, rest)?));
    }
    let Some(rest) = rest else {
        return Ok(Step::Ended);
    };
    let folder = folder_at(alloc, place.folder.as_str(), name, path)?;
    Ok(Step::Into(
        Place {
            folder,
            held: found,
        },
        rest,
    ))
}

/// Goes on to the next link, or to the end.
fn go_on<L: Looks>(
    alloc: Global,
    looks: &L,
    kind: Kind,
    place: Place,
    names: &str,
) -> Result<Option<Turn>, PathRefused>
    ensures ok { IfOk result (WalksOn L.Looks looks.now kind (spot_at place names.now)) }
    ensures err { IfErr result (WhereUnsafe (BreaksOn L.Looks looks.now kind (spot_at place names.now))) }
{
    let mut place = place;
    let mut names = names;
    loop {
        match take_name(alloc, looks, kind, place, names)? {
            Step::Ended => return Ok(None),
            Step::Turn(turn) => return Ok(Some(turn)),
            Step::Into(next, rest) => {
                place = next;
                names = rest;
            }
        }
    }
}

/// The names of a path from the root. A relative path begins in the working folder.
fn names_of<L: Looks>(alloc: Global, looks: &L, path: &str) -> Result<String, PathRefused>
    ensures ok { IfOk result (λ names. AreNames L.Looks looks.now path.now (string_bytes names)) }
    ensures err { IfErr result (WhereUnsafe (λ at flaw. (at ≡ codes ".")
        × ((from_root : List ℕ) → path.now ≢ 47 ∷ from_root)
        × (error : Error) × L.is_lost looks.now error × (flaw ≡ Unseen error))) }
{
    if let Some(names) = from_root(path) {
        return Ok(String::from_str(alloc, names)?);
    }
    match looks.working_folder() {
        Ok(front) => Ok(format!(in alloc; "{front}/{path}")?),
        Err(error) => Err(PathRefused::unseen(String::from_str(alloc, ".")?, error)),
    }
}

/// Refuses a path that leads through what others control.
pub(crate) fn check_path<L: Looks>(
    alloc: Global,
    looks: &L,
    named: &Named<'_>,
) -> Result<(), PathRefused>
    ensures ok { OnOk result (IsSafePath L.Looks looks.now named.now) }
    ensures err { IfErr result (WhereUnsafe (IsRefused L.Looks looks.now named.now)) }
{
    let names = names_of(alloc, looks, named.path)?;
    let place = root(alloc, looks)?;
    let mut next = go_on(alloc, looks, named.kind, place, names.as_str())?;
    for _links in 0..MOST_LINKS {
        let Some(Turn { place, names, .. }) = next else {
            return Ok(());
        };
        next = go_on(alloc, looks, named.kind, place, names.as_str())?;
    }
    match next {
        None => Ok(()),
        Some(Turn { link, .. }) => {
            let error = io::Error::from_raw_os_error(libc::ELOOP);
            Err(PathRefused::unseen(link, error))
        }
    }
}
