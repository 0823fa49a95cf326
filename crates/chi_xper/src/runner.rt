//! What runs models.

ghost use Rattle.std.specs.Prelude.{◌≡◌, ◌↔◌, ℕ, List};
ghost use Rattle.chi_value.specs.declared.value.Value.{Value};
ghost use Rattle.chi_xper.specs.Experiments.{Outcomes};
ghost use Rattle.chi_xper.specs.Ends.{ComesTo};

use chi_core::Verdict;
use chi_value::Value;

/// What a run of a model comes to.
#[derive(Debug, Drop)]
pub enum RunEnd {
    /// It has ended so, at this time in units of a real.
    Ended(Verdict, i64),
    NoMemory,
}

/// What runs the models of a program, by their numbers.
pub trait Runner {
    /// Whether a model may be run with such arguments.
    ghost allows: { Self → ℕ → List Value → Type 0 };

    /// What comes of each run that may be made.
    ghost outcome: { Self → Outcomes };

    /// Runs a model with arguments and a seed, and appends what the run writes. Where memory is wanting nothing is
    /// appended.
    fn run(&mut self, model: u32, arguments: Vec<Value>, seed: u64, out: &mut Vec<u8>) -> RunEnd
        requires { allows self.old model arguments.items }
        ensures comes { ComesTo (outcome self.old model arguments.items seed) out.old.items out.new.items result }
        ensures same_outcome { outcome self.new ≡ outcome self.old }
        ensures same_allowed { (number : ℕ) (values : List Value) → allows self.new number values ↔ allows self.old number values };
}
