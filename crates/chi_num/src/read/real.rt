ghost use Rattle.std.specs.Prelude.{◌≡◌, ◌++◌, ◌*◌, ◌≤◌, ◌<◌, ◌^◌, ◌↔◌, IsTrue, length};
ghost use Rattle.std.specs.Option.{SomeIff};
ghost use Rattle.chi_num.specs.Decimal.{AreDigits, number_of};
ghost use Rattle.chi_num.specs.Nearest.{nearest};
ghost use Rattle.chi_num.specs.TextNumbers.{answer_of, real_meant};

use super::ReadFault;
use super::digits::followed_by;
use super::numeral::real_numeral;
use super::signed::signed;
use crate::Real;

/// Reads a real: an optional minus, one or more digits, and maybe a point and one or more digits.
/// What has more than nine decimals is rounded to the nearest unit, a tie away from zero.
pub fn read_real(text: &[u8]) -> Result<Real, ReadFault>
    ensures { result ≡ answer_of (real_meant text.now) }
{
    let Some(numeral) = real_numeral(text) else {
        return Err(ReadFault::Form);
    };
    let Some(size) = units_of(numeral.whole, numeral.fraction) else {
        return Err(ReadFault::Range);
    };
    match signed(numeral.minus, size) {
        Some(units) => Ok(Real::from_units(units)),
        None => Err(ReadFault::Range),
    }
}

/// The units of a billionth that digits before and after a point mean, rounded, a tie up, where
/// 64 bits hold them.
fn units_of(whole: &[u8], fraction: &[u8]) -> Option<u64>
    requires whole { AreDigits whole.now }
    requires fraction { AreDigits fraction.now }
    ensures value { let units = nearest (number_of (whole.now ++ fraction.now) * 1_000_000_000)
        (10 ^ length fraction.now) in SomeIff result (units < 2 ^ 64) units }
{
    let (kept, rest) = fraction.split_at(fraction.len().min(9));
    let number = followed_by(followed_by(0, whole)?, kept)?;
    let units = number.checked_mul(10u64.pow(9 - kept.len() as u32))?;
    if is_half(rest) {
        units.checked_add(1)
    } else {
        Some(units)
    }
}

/// Whether digits after a point mean a half or more.
#[tactic(auto, using(crate::proofs::Units::no_half, crate::proofs::Units::half_tells))]
fn is_half(digits: &[u8]) -> bool
    requires { AreDigits digits.now }
    ensures tells { IsTrue result ↔ (10 ^ length digits.now ≤ 2 * number_of digits.now) }
{
    match digits.split_first() {
        Some((first, _)) => *first >= b'5',
        None => false,
    }
}
