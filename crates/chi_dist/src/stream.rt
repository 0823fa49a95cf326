ghost use Rattle.std.specs.Prelude.{◌≡◌, ◌≤◌, ℕ, count_by};
ghost use Rattle.chi_dist.specs.Draws.{draw, draws_from, next_draw, succeeds, taken_after};
ghost use Rattle.chi_dist.specs.Streams.{IsKept, past_draw};

use crate::shares::succeeds;
use chi_num::Real;
use rand_pcg::Lcg64Xsh32;
use rand_pcg::rand_core::utils::NextWord;

/// A stream, as it is kept: the state of the generator of its words, and how many draws were taken
/// from it. That number may wrap, since a stream begins again after 2^63 draws.
#[derive(Clone, Copy, Drop)]
pub struct Stream {
    pub state: u64,
    pub taken: u64,
}

impl Stream {
    /// The stream of a seed that has this number, before its first draw.
    #[tactic(auto, using(crate::proofs::Kept::kept_new))]
    pub fn new(seed: u64, number: u64) -> Stream
        ensures taken { result.taken ≡ 0 }
        ensures kept { IsKept seed number result }
    {
        Stream {
            state: Lcg64Xsh32::new(seed, number).state(),
            taken: 0,
        }
    }

    /// The stream of a seed that has this number, after so many draws, in a time that doesn't grow with them.
    #[tactic(auto, using(crate::proofs::Kept::kept_after))]
    pub fn after(seed: u64, number: u64, taken: u64) -> Stream
        ensures taken { result.taken ≡ taken }
        ensures kept { IsKept seed number result }
    {
        let mut words = Lcg64Xsh32::new(seed, number);
        words.advance(taken.wrapping_mul(2));
        Stream {
            state: words.state(),
            taken,
        }
    }

    /// The next draw of the stream of this number.
    #[tactic(auto, using(crate::proofs::Kept::kept_draws, crate::proofs::Kept::kept_past))]
    pub fn draw(&mut self, number: u64) -> u64
        ensures draw { (seed : ℕ) → IsKept seed number self.old → result ≡ draw seed number self.old.taken }
        ensures kept { (seed : ℕ) → IsKept seed number self.old → IsKept seed number self.new }
        ensures taken { self.new.taken ≡ taken_after self.old.taken 1 }
    {
        let mut words = Lcg64Xsh32::from_state(self.state, number);
        let draw = next_draw(&mut words);
        self.state = words.state();
        self.taken = self.taken.wrapping_add(1);
        draw
    }

    /// How many of the next so many draws of the stream of this number are successes of a chance.
    pub fn successes(&mut self, number: u64, trials: u32, chance: Real) -> u32
        ensures count { (seed : ℕ) → IsKept seed number self.old
            → result ≡ count_by (succeeds chance) (draws_from seed number self.old.taken trials) }
        ensures kept { (seed : ℕ) → IsKept seed number self.old → IsKept seed number self.new }
        ensures taken { self.new.taken ≡ taken_after self.old.taken trials }
        ensures most { result ≤ trials }
    {
        let mut successes = 0;
        for _trial in 0..trials {
            successes += u32::from(succeeds(chance, self.draw(number)));
        }
        successes
    }
}

/// The next two words as one, the high one first.
fn next_draw(words: &mut Lcg64Xsh32) -> u64
    ensures draw { result ≡ next_draw words.old }
    ensures left { words.new ≡ past_draw words.old }
{
    let high = u64::from(words.next_word());
    let low = u64::from(words.next_word());
    high << 32 | low
}
