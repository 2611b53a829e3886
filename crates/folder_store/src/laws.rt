//! Laws of what readers do and of what a loss of power leaves: a function here does nothing, and its contract is
//! the law.

ghost use Rattle.std.specs.Prelude.{List};
ghost use Rattle.folder_store.specs.{
  PowerLoss.PowerLeaves,
  MailFolders.{Directories, MailFile, Moved, OneMoves},
  MailPower.MailCanLosePower,
};

/// What may be left under a name is exactly what a loss of power may leave there.
pub fn power_leaves()
    ensures { PowerLeaves }
{}

/// Readers may do nothing, move or mark a file, and do so again.
pub fn readers_move()
    ensures rest { (d : Directories) → Moved d d }
    ensures one { (old : Directories) (front back : List MailFile) (s t : MailFile) (new : Directories)
        → OneMoves old front back s t new → Moved old new }
    ensures on { (a b c : Directories) → Moved a b → Moved b c → Moved a c }
{}

/// Power can be lost in each state of the folders of a Maildir.
#[tactic(auto, using(crate::proofs::MailMoves::mail_can_lose_power))]
pub fn mail_can_lose_power()
    ensures { MailCanLosePower }
{}
