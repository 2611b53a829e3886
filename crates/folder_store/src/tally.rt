//! Counting the calls that a device refuses.

ghost use Rattle.std.specs.Prelude.{◌≡◌, ◌<◌, ◌+◌, IfErr, if◌then◌else◌};
ghost use Rattle.mail_terms.specs.FailureCount.{Tallies, greatest_count, refuses};
ghost use Rattle.mail_store.specs.Fault.{IsDeviceFault, is_refusal};

use mail_store::{StoreFault, refuse};
use mail_terms::FailureCount;

/// The answer, counted if it is a refusal.
pub fn tally<T>(failures: &mut FailureCount, answer: Result<T, StoreFault>) -> Result<T, StoreFault>
    requires room { failures.old < greatest_count }
    requires fault { IfErr answer IsDeviceFault }
    ensures same { result ≡ answer }
    ensures count { Tallies (refuses is_refusal answer) failures.old failures.new }
    ensures counted { failures.new ≡ (if refuses is_refusal answer then failures.old + 1 else failures.old) }
{
    match answer {
        Err(StoreFault::Refused) => Err(refuse(failures)),
        answer => answer,
    }
}
