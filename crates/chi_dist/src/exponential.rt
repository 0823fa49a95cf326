//! Exponential draws: what a mean and a draw give, by a logarithm of forty binary digits.

ghost use Rattle.std.specs.Prelude.{◌≡◌, ◌*◌, ◌^◌, ◌<◌, ◌≤◌, ◌<ℤ◌, ◌≤ℤ◌, pos};
ghost use Rattle.chi_dist.specs.Exponential.{log_digit, log_rest, log_digits, log_parts, log_below, log_units, most_units, most_mean, exponential_units};

use crate::shares::UNITS_PER_ONE;
use chi_num::Real;

/// How many binary digits of a logarithm are computed, and of how many parts of 1 they tell.
const DIGITS: u32 = 40;

const PARTS: u64 = 1 << DIGITS;

/// The natural logarithm of 2, in units.
const LOG_OF_TWO: u64 = 693_147_181;

/// 2, where numbers are told in parts of 2^63.
const TWO: u128 = 1 << 64;

/// The real that a mean and a draw give. It takes no memory.
pub fn exponential_units(mean: Real, word: u64) -> Real
    requires above { pos 0 <ℤ mean }
    requires most { mean ≤ℤ most_mean }
    ensures { result ≡ exponential_units mean word }
{
    let whole = u128::from(mean.units().unsigned_abs()) * u128::from(log_units(word));
    let units = whole / u128::from(UNITS_PER_ONE);
    Real::from_units(units as i64)
}

/// By how many units a draw multiplies each unit of the mean.
fn log_units(word: u64) -> u64
    ensures units { result ≡ log_units word }
    ensures most { result ≤ most_units }
{
    (u128::from(log_below(word)) * u128::from(LOG_OF_TWO) / u128::from(PARTS)) as u64
}

/// How far the logarithm of a draw and one lies below 64.
fn log_below(word: u64) -> u64
    ensures below { result ≡ log_below word }
    ensures most { result ≤ 64 * 2 ^ 40 }
{
    match word.checked_add(1) {
        Some(x) => 64 * PARTS - log_parts(x),
        None => 0,
    }
}

/// The logarithm to base 2 of a number above 0.
fn log_parts(x: u64) -> u64
    requires { 0 < x }
    ensures parts { result ≡ log_parts x }
    ensures most { result ≤ 64 * 2 ^ 40 }
{
    let zeros = x.leading_zeros();
    let whole = 63 - u64::from(zeros);
    whole * PARTS + log_digits(x << zeros)
}

/// The binary digits of the logarithm of a number from 1 to before 2.
fn log_digits(number: u64) -> u64
    ensures digits { result ≡ log_digits 40 number }
    ensures most { result < 2 ^ 40 }
{
    let mut digits = 0;
    let mut rest = number;
    for _digit in 0..DIGITS {
        let (digit, left) = next_digit(rest);
        digits = 2 * digits + digit;
        rest = left;
    }
    digits
}

/// The next digit, and what the others are of.
#[tactic(auto, using(crate::proofs::Leading::square_most))]
fn next_digit(rest: u64) -> (u64, u64)
    ensures digit { result.0 ≡ log_digit rest }
    ensures rest { result.1 ≡ log_rest rest }
{
    let square = u128::from(rest) * u128::from(rest) >> 63;
    if square < TWO {
        (0, square as u64)
    } else {
        (1, (square >> 1) as u64)
    }
}
