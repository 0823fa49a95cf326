ghost use Rattle.std.specs.Prelude.{◌≡◌, ◌≤◌, IfOk};
ghost use Rattle.std.specs.Fmt.{decimal};
ghost use Rattle.chi_num.specs.Decimal.{last_digits, spelling};

use chi_base::NoMemory;
use itoa::Buffer;
use std::alloc::Global;

/// The digits of the last `count` places of a number.
#[tactic(auto, using(crate::proofs::Decimal::power_pos), unfolding(crate::specs::Decimal::last_digits))]
pub(super) fn last_digits(alloc: Global, number: u64, count: u8) -> Result<Vec<u8>, NoMemory>
    requires { count ≤ 9 }
    ensures digits { IfOk result (λ digits. digits.items ≡ last_digits count number) }
{
    let mut digits = Vec::new(alloc);
    for place in (0..count).rev() {
        let digit = number / 10u64.pow(place.into()) % 10;
        digits.push(b'0' + digit as u8)?;
    }
    Ok(digits)
}

/// A sign, the whole part, and a point and the digits after it, if there are any.
pub(super) fn spelling(
    alloc: Global,
    minus: bool,
    whole: u64,
    fraction: &[u8],
) -> Result<Vec<u8>, NoMemory>
    ensures text { IfOk result (λ text. text.items ≡ spelling minus (decimal whole) fraction.now) }
{
    let mut text = Vec::new(alloc);
    if minus {
        text.push(b'-')?;
    }
    text.extend_from_slice(Buffer::new().format(whole).as_bytes())?;
    if !fraction.is_empty() {
        text.push(b'.')?;
    }
    text.extend_from_slice(fraction)?;
    Ok(text)
}
