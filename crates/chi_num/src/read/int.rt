ghost use Rattle.std.specs.Prelude.{◌≡◌};
ghost use Rattle.chi_num.specs.TextNumbers.{answer_of, int_meant};

use super::ReadFault;
use super::digits::followed_by;
use super::numeral::int_numeral;
use super::signed::signed;

/// Reads an int: an optional minus, and one or more digits.
pub fn read_int(text: &[u8]) -> Result<i64, ReadFault>
    ensures { result ≡ answer_of (int_meant text.now) }
{
    let Some((minus, digits)) = int_numeral(text) else {
        return Err(ReadFault::Form);
    };
    let Some(size) = followed_by(0, digits) else {
        return Err(ReadFault::Range);
    };
    match signed(minus, size) {
        Some(int) => Ok(int),
        None => Err(ReadFault::Range),
    }
}
