//! What is made of one draw: a number between bounds, or whether a trial succeeds.

ghost use Rattle.std.specs.Prelude.{◌≡◌, ◌*◌, ◌/◌, ◌^◌, ◌<◌, ◌<ℤ◌};
ghost use Rattle.chi_dist.specs.Draws.{between, succeeds};

use chi_num::Real;

/// How many units of a real make 1.
pub const UNITS_PER_ONE: u64 = 1_000_000_000;

/// The number that a draw picks from the first bound to before the second.
pub fn between(from: i64, to: i64, draw: u64) -> i64
    requires { from <ℤ to }
    ensures { result ≡ between from to draw }
{
    from.saturating_add_unsigned(share_of(to.abs_diff(from), draw))
}

/// Whether a trial of this chance succeeds by a draw.
pub fn succeeds(chance: Real, draw: u64) -> bool
    ensures { result ≡ succeeds chance draw }
{
    i128::from(share_of(UNITS_PER_ONE, draw)) < i128::from(chance.units())
}

/// As much of a whole as a draw is of 2^64, rounded down.
fn share_of(whole: u64, draw: u64) -> u64
    ensures { result ≡ draw * whole / 2 ^ 64 }
{
    (u128::from(draw) * u128::from(whole) >> 64) as u64
}
