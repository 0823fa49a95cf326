ghost use Rattle.std.specs.Prelude.{ℕ};
ghost use Rattle.chi_sched.specs.Policies.{Answers};

use crate::Chooser;

/// What a chooser answers is told by a function: one number, among the choices, for each question that may be asked.
pub fn chooser_law<C: Chooser>(chooser: &C)
    ensures { (pick : ℕ → ℕ → ℕ) × Answers (C.gives chooser.now) pick }
{}
