//! What is wrong with the parameters of a distribution.

ghost use Rattle.std.specs.Prelude.{◌≡◌, ◌≤ℤ◌, pos, unsigned_abs};
ghost use Rattle.chi_dist.specs.Draws.{fault_of, bounds_fault, chance_fault, trials_fault, mean_fault, most_trials};

use crate::DistFault;
use crate::shares::UNITS_PER_ONE;
use chi_num::{Dist, Real};

/// The greatest number of trials.
const MOST_TRIALS: i64 = 10_000;

/// The greatest mean, in units.
const MOST_MEAN: i64 = 100_000_000_000_000_000;

pub fn fault_of(dist: &Dist) -> Option<DistFault>
    ensures { result ≡ fault_of dist.now }
{
    match *dist {
        Dist::ConstBool(_) | Dist::ConstInt(_) | Dist::ConstReal(_) => None,
        Dist::UniformInt(from, to, _) => bounds_fault(from, to),
        Dist::UniformReal(from, to, _) => bounds_fault(from.units(), to.units()),
        Dist::Bernoulli(chance, _) => chance_fault(chance),
        Dist::Binomial(trials, chance, _) => trials_fault(trials, chance),
        Dist::Exponential(mean, _) => mean_fault(mean),
    }
}

fn bounds_fault(from: i64, to: i64) -> Option<DistFault>
    ensures { result ≡ bounds_fault from to }
{
    if from < to {
        None
    } else {
        Some(DistFault::BadBounds)
    }
}

fn chance_fault(chance: Real) -> Option<DistFault>
    ensures { result ≡ chance_fault chance }
{
    if 0 <= chance.units() && chance.units() <= UNITS_PER_ONE as i64 {
        None
    } else {
        Some(DistFault::BadChance)
    }
}

fn trials_fault(trials: i64, chance: Real) -> Option<DistFault>
    ensures { result ≡ trials_fault trials chance }
{
    if trials < 0 {
        Some(DistFault::BadBounds)
    } else if trials > MOST_TRIALS {
        Some(DistFault::TooMany)
    } else {
        chance_fault(chance)
    }
}

fn mean_fault(mean: Real) -> Option<DistFault>
    ensures { result ≡ mean_fault mean }
{
    if 0 < mean.units() && mean.units() <= MOST_MEAN {
        None
    } else {
        Some(DistFault::BadBounds)
    }
}

/// A good number of trials.
pub fn trial_count(trials: i64) -> u32
    requires least { pos 0 ≤ℤ trials }
    requires most { trials ≤ℤ most_trials }
    ensures { result ≡ unsigned_abs trials }
{
    trials as u32
}
