ghost use Rattle.std.specs.Prelude.{◌≡◌, ◌<◌, ◌^◌, ℕ};
ghost use Rattle.chi_sched.specs.Policies.{IsAsked, Lawful, AnswersBelow};
ghost use Rattle.chi_sched.specs.Stored.{one_answer, some_answer};

use crate::Chooser;

/// What a stored policy asks: by the number of a question and the count of choices, the choice.
pub type Closure = Box<dyn Fn(u64, u64) -> u64>;

/// A stored closure as a policy. It keeps the fact that the closure may be asked each question, and
/// has one answer to it, which is one of the choices.
#[derive(Drop)]
pub struct Policy {
    /// What it asks.
    pub pick: Closure,
    ghost callable: { (question count : ℕ) → question < 2 ^ 64 → 0 < count → count < 2 ^ 64 → Closure.pre pick question count },
    ghost lawful: { ∥ Lawful (Closure.pre pick) (Closure.post pick) ∥₁ },
}

impl Policy {
    /// The policy that asks this closure, which the caller has boxed.
    pub fn new(pick: Closure) -> Policy
        requires lawful { Lawful (Closure.pre pick) (Closure.post pick) }
        ensures same { result.pick ≡ pick }
    {
        Policy { pick }
    }

    fn ask(&self, question: u64, count: u64) -> u64
        requires { 0 < count }
        ensures { Closure.post self.now.pick question count result }
    {
        (self.pick)(question, count)
    }
}

impl Chooser for Policy {
    ghost gives = { λ policy. AnswersBelow (Closure.post policy.pick) };

    fn choose(&self, question: u64, count: u64) -> u64 {
        self.ask(question, count)
    }

    ghost one = { λ policy. one_answer _ _ policy.lawful };

    ghost some = { λ policy. some_answer _ _ policy.lawful };
}
