//! Reading files of the machine.
#![tactic(auto)]

ghost use Rattle.std.specs.Prelude.{◌≡◌, ℕ, List, take, IfErr, IfOk, IfSome};

use std::alloc::Global;
use std::fs;
use std::io::{self, Read};
use std::rt::Files;
use system_calls::{Noted, System};

/// One that is asked for the octets of files.
pub trait ReadFile {
    // What it answered to a read of this path, of so many octets at most.
    ghost gave: { Self → List ℕ → ℕ → List ℕ → Type 0 };

    // It refused to read this path.
    ghost refused: { Self → List ℕ → Type 0 };

    /// The first octets of a file, as many as there are but at most `most`.
    fn read(&self, path: &str, most: u64) -> io::Result<Vec<u8>>
        ensures given { IfOk result (λ bytes. gave self.now path.now most bytes.items) }
        ensures refused { IfErr result (λ _. refused self.now path.now) };
}

/// The first octets of an open file, as many as there are but at most `most`.
fn read_front<F: Read + Drop>(alloc: Global, file: F, most: u64) -> io::Result<Vec<u8>>
    ensures { IfOk result (λ bytes. IfSome (F.remaining file) (λ all. bytes.items ≡ take most all)) }
{
    let mut bytes = Vec::new(alloc);
    file.take(most).read_to_end(&mut bytes)?;
    Ok(bytes)
}

impl<'a, R: Files + AllocGlobal> ReadFile for System<'a, R> {
    // They are the front of what a file had, if what files of this kind have is known.
    ghost gave = { λ _ _ most bytes. (file : R.File) × IfSome (R.File.remaining file) (λ all. bytes ≡ take most all) };

    ghost refused = { λ _ _. Unit {0} };

    fn read(&self, path: &str, most: u64) -> io::Result<Vec<u8>> {
        let file = self.refusals.noted("open", path, fs::open(self.rt, path))?;
        let file = Noted::new(self.alloc(), file, path, self.refusals);
        read_front(self.alloc(), file, most)
    }
}
