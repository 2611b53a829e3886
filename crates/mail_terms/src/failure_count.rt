//! How many calls a device refused.

ghost use Rattle.std.specs.Prelude.{◌≡◌, ◌==◌, ◌≤◌};
ghost use Rattle.mail_terms.specs.FailureCount.{greatest_count, counted_up};

use std::marker::Model;

/// How many calls a device refused. At its greatest value, 18,446,744,073,709,551,615, the count
/// stays as it is, and the device has to refuse every call.
#[derive(Drop)]
pub struct FailureCount {
    count: u64,
}

impl Model for FailureCount {
    ghost use Rattle.std.specs.Prelude.{ℕ};

    ghost Value = { ℕ };

    ghost view = { λ failures. failures.count };
}

impl FailureCount {
    /// No refusal so far.
    pub fn new() -> FailureCount
        ensures { result ≡ 0 }
    {
        FailureCount { count: 0 }
    }

    /// How many refusals were counted.
    pub fn count(&self) -> u64
        ensures { result ≡ self.now }
    {
        self.count
    }

    /// Whether the count has its greatest value.
    pub fn is_full(&self) -> bool
        ensures value { result ≡ (self.now == greatest_count) }
        ensures within { self.now ≤ greatest_count }
    {
        self.count == u64::MAX
    }

    /// Counts one more refusal, up to the greatest value.
    pub fn count_up(&mut self)
        ensures { self.new ≡ counted_up self.old }
    {
        self.count = self.count.saturating_add(1);
    }
}
