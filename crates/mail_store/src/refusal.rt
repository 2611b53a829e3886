//! Counting the calls that a device refuses.

ghost use Rattle.std.specs.Prelude.{◌≡◌, ◌<◌, ◌+◌, IfErr, OnOk};
ghost use Rattle.mail_terms.specs.FailureCount.{greatest_count};

use crate::fault::StoreFault;
use mail_terms::FailureCount;

/// Lets a call of a device begin. Refused if the count is at its greatest value.
pub fn admit(failures: &FailureCount) -> Result<(), StoreFault>
    ensures admitted { OnOk result (failures.now < greatest_count) }
    ensures refused { IfErr result (λ fault. (fault ≡ StoreFault.Refused) × (failures.now ≡ greatest_count)) }
{
    if failures.is_full() {
        return Err(StoreFault::Refused);
    }
    Ok(())
}

/// Counts a refusal. The count must be below its greatest value (see `admit`).
pub fn refuse(failures: &mut FailureCount) -> StoreFault
    requires { failures.old < greatest_count }
    ensures fault { result ≡ StoreFault.Refused }
    ensures counted { failures.new ≡ failures.old + 1 }
{
    failures.count_up();
    StoreFault::Refused
}
