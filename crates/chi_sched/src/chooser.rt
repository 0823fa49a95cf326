ghost use Rattle.std.specs.Prelude.{ℕ, ◌<◌};
ghost use Rattle.chi_sched.specs.Policies.{GivesOne, GivesSome};

/// What picks one of some choices at each question of a run. Questions are numbered from 0.
pub trait Chooser {
    /// By the number of a question and the count of choices, the answers that may be given.
    ghost gives: { Self → ℕ → ℕ → ℕ → Type 0 };

    /// The choice that is picked, counted from 0.
    fn choose(&self, question: u64, count: u64) -> u64
        requires { 0 < count }
        ensures given { gives self.now question count result }
        ensures below { result < count };

    /// There is one answer to each question.
    ghost one: { (chooser : Self) → GivesOne (gives chooser) };

    /// There is an answer to each question, among the choices.
    ghost some: { (chooser : Self) → GivesSome (gives chooser) };
}
