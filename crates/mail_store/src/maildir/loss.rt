//! What a loss of power leaves of a Maildir.

ghost use Rattle.std.specs.Prelude.{◌≡◌, ◌++◌, List, ℕ, Contains, Result};
ghost use Rattle.mail_store.specs.{
  declared.fault.StoreFault.StoreFault,
  Loss.{AreLeftAs, LosesPower},
  Maildir.{AllDurable, AllFlushed, AreReached, Delivers, File, IsDurableFile, IsNamed, IsPart, Maildir, mail, names_of},
};

/// A loss of power leaves each durable name and each durable file; if the bytes of all files are durable, only
/// whole files, in order; and if all of them are durable, just these. What it leaves is durable. It is possible
/// in each state.
pub fn losses_leave_what_is_durable()
    ensures named { (old new : Maildir) (f : File) → LosesPower old new → Contains old.files f → IsNamed f
        → Contains (names_of new.files) f.name }
    ensures whole { (old new : Maildir) (f : File) → LosesPower old new → Contains old.files f → IsDurableFile f
        → Contains new.files f }
    ensures part { (old new : Maildir) → LosesPower old new → AllFlushed old.files → IsPart old.files new.files }
    ensures same { (old new : Maildir) → LosesPower old new → AllDurable old.files → new.files ≡ old.files }
    ensures durable { (old new : Maildir) → LosesPower old new → AllDurable new.files }
    ensures possible { (old : Maildir) → (new : Maildir) × LosesPower old new }
{}

/// The bytes of all files are durable if they were before readers took some away, or before a text was
/// delivered, also if that was refused.
pub fn calls_keep_files_flushed()
    ensures taking { (files left : List File) → AllFlushed files → IsPart files left → AllFlushed left }
    ensures delivering { (old new : Maildir) (name text : List ℕ) (r : Result (Unit {0}) StoreFault)
        → Delivers old (mail name text) r new
        → AllFlushed old.files → AllFlushed new.files }
{}

/// What is flushed adds nothing to what a loss of power may leave, and files that come add some of themselves
/// behind the others.
pub fn calls_leave_no_more()
    ensures flushing { (files risen left : List File) → AreReached files risen → AreLeftAs risen left
        → AreLeftAs files left }
    ensures coming { (files added left : List File) → AreLeftAs (files ++ added) left
        → (before part : List File) × AreLeftAs files before × AreLeftAs added part × (left ≡ before ++ part) }
{}
