//! What distributions make of the draws of streams of which nothing is kept but how many draws were taken.

ghost use Rattle.std.specs.Prelude.{◌≡◌, ◌<◌, IfOk, IfErr, OnErr, IsSomeAnd, IsTrue, count_by, slice_get};
ghost use Rattle.chi_dist.specs.Draws.{draw, draws_from, stream_count, succeeds, draws_of, after_draws, has_stream, sampled, draws, refuses};

use crate::exponential::exponential_units;
use crate::parameters::{fault_of, trial_count};
use crate::shares::{between, succeeds};
use crate::stream::Stream;
use crate::{DistFault, Drawn};
use chi_num::{Dist, Real};

/// The next draw of a stream of a seed, where so many draws were taken from each.
pub fn draw_after(seed: u64, taken: &mut [u64; 64], stream: u32) -> u64
    requires there { stream < stream_count }
    ensures draw { IsSomeAnd (slice_get taken.old stream)
        (λ k. (result ≡ draw seed stream k) × (draws_of seed taken.new ≡ after_draws (draws_of seed taken.old) stream k 1)) }
{
    let number = u64::from(stream);
    let mut kept = Stream::after(seed, number, taken[stream as usize]);
    let word = kept.draw(number);
    taken[stream as usize] = kept.taken;
    word
}

/// How many of the next so many draws of a stream are successes of a chance.
fn successes_after(seed: u64, taken: &mut [u64; 64], stream: u32, trials: u32, chance: Real) -> u32
    requires there { stream < stream_count }
    ensures count { IsSomeAnd (slice_get taken.old stream)
        (λ k. (result ≡ count_by (succeeds chance) (draws_from seed stream k trials))
        × (draws_of seed taken.new ≡ after_draws (draws_of seed taken.old) stream k trials)) }
{
    let number = u64::from(stream);
    let mut kept = Stream::after(seed, number, taken[stream as usize]);
    let count = kept.successes(number, trials, chance);
    taken[stream as usize] = kept.taken;
    count
}

/// A value of a distribution, by the next draws of its stream, where so many draws were taken from
/// each stream of a seed. It takes no longer after many draws than after few. A fault draws nothing.
pub fn sample_after(seed: u64, taken: &mut [u64; 64], dist: &Dist) -> Result<Drawn, DistFault>
    requires there { IsTrue (has_stream dist.now) }
    ensures value { IfOk result (λ x. sampled seed taken.old dist.now ≡ draws x taken.new) }
    ensures refused { IfErr result (λ fault. sampled seed taken.old dist.now ≡ refuses fault) }
    ensures unchanged { OnErr result (taken.new ≡ taken.old) }
{
    if let Some(fault) = fault_of(dist) {
        return Err(fault);
    }
    match *dist {
        Dist::ConstBool(value) => Ok(Drawn::Bool(value)),
        Dist::ConstInt(value) => Ok(Drawn::Int(value)),
        Dist::ConstReal(value) => Ok(Drawn::Real(value)),
        Dist::UniformInt(from, to, stream) => {
            let word = draw_after(seed, taken, stream);
            Ok(Drawn::Int(between(from, to, word)))
        }
        Dist::UniformReal(from, to, stream) => {
            let word = draw_after(seed, taken, stream);
            let units = between(from.units(), to.units(), word);
            Ok(Drawn::Real(Real::from_units(units)))
        }
        Dist::Bernoulli(chance, stream) => {
            let word = draw_after(seed, taken, stream);
            Ok(Drawn::Bool(succeeds(chance, word)))
        }
        Dist::Binomial(trials, chance, stream) => {
            let count = successes_after(seed, taken, stream, trial_count(trials), chance);
            Ok(Drawn::Int(i64::from(count)))
        }
        Dist::Exponential(mean, stream) => {
            let word = draw_after(seed, taken, stream);
            Ok(Drawn::Real(exponential_units(mean, word)))
        }
    }
}
