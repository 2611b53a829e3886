//! Who is told of a session's lines while it runs.
ghost use Rattle.std.specs.Prelude.{List, [], ◌∷◌, ◌++◌};
ghost use Rattle.fetch_rules.specs.declared.plans.Step.{Step};

use crate::report::ReportLine;
use fetch_rules::Step;
use std::vec::Vec;

/// One that is told of the lines of a session as they are noted.
pub trait Listener {
    // By calls it was told to expect these plans, in order, whatever lines it heard.
    ghost hears: { Self → List (List Step) → Self → Type 0 };

    /// Whether it asks why messages are passed over.
    fn asks_why(&self) -> bool;

    /// Takes the plan, a step for each message, before there are lines.
    fn expect(&mut self, plan: Vec<Step>)
        ensures { hears self.old (plan.items ∷ []) self.new };

    /// Takes the lines that a session with this many messages has noted so far.
    fn hear(&mut self, total: u32, lines: &[ReportLine])
        ensures { hears self.old [] self.new };

    // `hears` joins.
    ghost hears_none: { (a : Self) → hears a [] a };

    ghost hears_on: { (a b c : Self) (ps qs : List (List Step)) → hears a ps b → hears b qs c
        → hears a (ps ++ qs) c };
}

/// One that does nothing with what it is told.
#[derive(Clone, Copy, Drop)]
pub struct Silent;

impl Listener for Silent {
    ghost hears = { λ a plans b. Unit {0} };

    fn asks_why(&self) -> bool {
        false
    }

    fn expect(&mut self, _plan: Vec<Step>) {}

    fn hear(&mut self, _total: u32, _lines: &[ReportLine]) {}

    ghost hears_none = { λ a. tt };

    ghost hears_on = { λ a b c ps qs p q. tt };
}
