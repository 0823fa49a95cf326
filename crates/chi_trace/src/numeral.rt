ghost use Rattle.std.specs.Prelude.{◌≡◌, ◌^◌};
ghost use Rattle.chi_trace.specs.Told.{number_told};

use itoa::Buffer;
use std::str;

/// The number of 64 bits that has these digits, with no zero before them.
#[tactic(auto, using(crate::proofs::Reading::not_utf8))]
pub fn turn(digits: &[u8]) -> Option<u64>
    ensures number { result ≡ number_told (2 ^ 64) digits.now }
{
    let text = str::from_utf8(digits).ok()?;
    let number = text.parse::<u64>().ok()?;
    if digits == Buffer::new().format(number).as_bytes() {
        Some(number)
    } else {
        None
    }
}

/// The same of 32 bits.
#[tactic(auto, using(crate::proofs::Reading::less_told, crate::proofs::Reading::small_told))]
pub fn number(digits: &[u8]) -> Option<u32>
    ensures number { result ≡ number_told (2 ^ 32) digits.now }
{
    let number = turn(digits)?;
    if number > u64::from(u32::MAX) {
        return None;
    }
    Some(number as u32)
}
