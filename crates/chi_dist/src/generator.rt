//! Sixty-four streams of random words.

use crate::counted::{draw_after, sample_after};
use crate::{DistFault, Drawn};
use chi_num::Dist;
use std::marker::Model;

/// The sixty-four streams of a seed. Draw k of stream i is a function of the seed, i and k alone.
/// Contracts see the seed, and how many draws were taken from each stream, which is all that is kept.
#[derive(Drop)]
pub struct Generator {
    seed: u64,
    taken: [u64; 64],
}

impl Model for Generator {
    ghost use Rattle.chi_dist.specs.Draws.{Draws, draws_of};

    ghost Value = { Draws };

    ghost view = { λ g. draws_of g.seed g.taken };
}

impl Generator {
    ghost use Rattle.std.specs.Prelude.{◌≡◌, ◌<◌, IfOk, IfErr, OnErr, IsSomeAnd, IsTrue, slice_get};
    ghost use Rattle.chi_dist.specs.Draws.{draw, stream_count, no_draws, after_draws, has_stream, sampled, draws, refuses};

    /// The streams of a seed, of which none is drawn from yet.
    pub fn new(seed: u64) -> Generator
        ensures { result ≡ no_draws seed }
    {
        Generator {
            seed,
            taken: [0; 64],
        }
    }

    /// The next draw of a stream. No other stream is changed.
    pub fn draw(&mut self, stream: u32) -> u64
        requires there { stream < stream_count }
        ensures draw { IsSomeAnd (slice_get self.old.taken stream)
            (λ k. (result ≡ draw self.old.seed stream k) × (self.new ≡ after_draws self.old stream k 1)) }
    {
        draw_after(self.seed, &mut self.taken, stream)
    }

    /// A value of a distribution, by the next draws of its stream. A fault draws nothing.
    pub fn sample(&mut self, dist: &Dist) -> Result<Drawn, DistFault>
        requires there { IsTrue (has_stream dist.now) }
        ensures value { IfOk result (λ x. sampled self.old.seed self.old.taken dist.now ≡ draws x self.new.taken) }
        ensures refused { IfErr result (λ fault. sampled self.old.seed self.old.taken dist.now ≡ refuses fault) }
        ensures unchanged { OnErr result (self.new ≡ self.old) }
        ensures seed { self.new.seed ≡ self.old.seed }
    {
        sample_after(self.seed, &mut self.taken, dist)
    }
}
