ghost use Rattle.std.specs.Prelude.{◌≡◌, ◌<◌};
ghost use Rattle.std.proofs.Common.{◌∙◌, sym};
ghost use Rattle.chi_sched.specs.Policies.{first, last, listed, spread};
ghost use Rattle.chi_sched.specs.Formulas.{by_formula, first_below, last_below, spread_below, listed_below};

use crate::Chooser;

/// Always the first choice.
#[derive(Clone, Copy, Debug)]
pub struct First;

/// Always the last choice.
#[derive(Clone, Copy, Debug)]
pub struct Last;

/// Choices that a salt spreads.
#[derive(Clone, Copy, Debug)]
pub struct Spread {
    pub salt: u64,
}

/// The choices that a list has, in the order of the questions, and the first choice where it has none.
#[derive(Debug, Drop)]
pub struct Listed {
    pub picks: Vec<u64>,
}

/// The first choice.
pub fn first_of(_question: u64, count: u64) -> u64
    requires { 0 < count }
    ensures formula { result ≡ first _question count }
    ensures below { result < count }
{
    0
}

/// The last choice.
pub fn last_of(_question: u64, count: u64) -> u64
    requires { 0 < count }
    ensures formula { result ≡ last _question count }
    ensures below { result < count }
{
    count - 1
}

/// A choice that a salt spreads.
pub fn spread_of(salt: u64, question: u64, count: u64) -> u64
    requires { 0 < count }
    ensures formula { result ≡ spread salt question count }
    ensures below { result < count }
{
    let word = salt
        .wrapping_mul(31)
        .wrapping_add(question.wrapping_mul(2_654_435_761))
        .wrapping_add(12_345);
    word / 65_536 % count
}

/// The choice that a list has for the question, or the first where it has none below the count.
pub fn listed_of(picks: &[u64], question: u64, count: u64) -> u64
    requires { 0 < count }
    ensures formula { result ≡ listed picks.now question count }
    ensures below { result < count }
{
    match picks.get(question as usize) {
        Some(&pick) if pick < count => pick,
        _ => 0,
    }
}

impl Chooser for First {
    ghost gives = { λ _ question count answer. answer ≡ first question count };

    fn choose(&self, question: u64, count: u64) -> u64 {
        first_of(question, count)
    }

    ghost one = { λ _ question count answer other asked a b. a ∙ sym b };

    ghost some = { λ _. by_formula (λ question count. first question count) first_below };
}

impl Chooser for Last {
    ghost gives = { λ _ question count answer. answer ≡ last question count };

    fn choose(&self, question: u64, count: u64) -> u64 {
        last_of(question, count)
    }

    ghost one = { λ _ question count answer other asked a b. a ∙ sym b };

    ghost some = { λ _. by_formula (λ question count. last question count) last_below };
}

impl Chooser for Spread {
    ghost gives = { λ spread_by question count answer. answer ≡ spread spread_by.salt question count };

    fn choose(&self, question: u64, count: u64) -> u64 {
        spread_of(self.salt, question, count)
    }

    ghost one = { λ _ question count answer other asked a b. a ∙ sym b };

    ghost some = { λ spread_by. by_formula (λ question count. spread spread_by.salt question count) (spread_below spread_by.salt) };
}

impl Chooser for Listed {
    ghost gives = { λ listing question count answer. answer ≡ listed listing.picks.items question count };

    fn choose(&self, question: u64, count: u64) -> u64 {
        listed_of(&self.picks, question, count)
    }

    ghost one = { λ _ question count answer other asked a b. a ∙ sym b };

    ghost some = { λ listing. by_formula (λ question count. listed listing.picks.items question count) (listed_below listing.picks.items) };
}
