ghost use Rattle.std.specs.Prelude.{◌≡◌};

use chi_core::Verdict;
use std::marker::Model;

/// How a run ended, and when, in units of a real.
#[derive(Debug, Drop)]
pub struct Ending {
    verdict: Verdict,
    clock: i64,
}

impl Model for Ending {
    ghost use Rattle.std.specs.Coded.{codes};
    ghost use Rattle.chi_value.specs.contracts.value.Value as values;
    ghost use Rattle.chi_core.specs.Options.{Ending};

    ghost Value = { Ending };

    ghost coded = { Prim.hlevel (codes, values.the_row.coded) };

    ghost view = { λ e. record { verdict = e.verdict; clock = e.clock } };
}

impl Ending {
    /// The ending with this verdict, at a time.
    pub fn of(verdict: Verdict, clock: i64) -> Ending
        ensures { result ≡ record { verdict = verdict; clock = clock } }
    {
        Ending { verdict, clock }
    }

    /// How the run ended.
    pub fn verdict(&self) -> &Verdict
        ensures { result.now ≡ self.now.verdict }
    {
        &self.verdict
    }

    /// When the run ended, in units of 10^-9.
    pub fn clock(&self) -> i64
        ensures { result ≡ self.now.clock }
    {
        self.clock
    }
}
