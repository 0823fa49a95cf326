ghost use Rattle.std.specs.Prelude.{◌≡◌, ◌++◌, ◌-◌, ◌^◌, ◌<◌, ◌≤◌, ℤ, pos, int_lt, OnOk, OnErr};
ghost use Rattle.chi_num.specs.Decimal.{signed};
ghost use Rattle.chi_num.specs.FixedText.{fixed_text_of};
ghost use Rattle.chi_num.specs.Nearest.{IsNearest, nearest};

use super::digits::{last_digits, spelling};
use crate::Real;
use chi_base::NoMemory;
use std::alloc::Global;

/// Appends a real rounded to `k` decimals, a tie away from zero. With none there is no point, and
/// a minus stands only where the rounded number isn't 0.
#[tactic(auto, using(crate::proofs::Decimal::power_pos))]
pub fn fixed_text(alloc: Global, a: Real, k: u8, out: &mut Vec<u8>) -> Result<(), NoMemory>
    requires { k ≤ 9 }
    ensures ok { OnOk result ((r : ℤ) × IsNearest a (10 ^ (9 - k)) r
        × (out.new.items ≡ out.old.items ++ fixed_text_of k r)) }
    ensures err { OnErr result (out.new.items ≡ out.old.items) }
{
    let steps = rounded(a.units(), 10u64.pow(9 - u32::from(k)));
    let digits = last_digits(alloc, steps.size, k)?;
    let whole = steps.size / 10u64.pow(k.into());
    let text = spelling(alloc, steps.minus, whole, digits.as_slice())?;
    out.extend_from_slice(text.as_slice())?;
    Ok(())
}

/// A whole number: its size, and whether it is below 0.
#[derive(Clone, Copy)]
struct Whole {
    minus: bool,
    size: u64,
}

/// `units / step`, rounded to the nearest whole number, a tie away from zero.
#[tactic(auto, using(crate::proofs::Nearest::rounded_to_nothing, crate::proofs::Nearest::is_minus))]
fn rounded(units: i64, step: u64) -> Whole
    requires { 0 < step }
    ensures nearest { IsNearest units step (signed result.minus result.size) }
    ensures minus { int_lt (signed result.minus result.size) (pos 0) ≡ result.minus }
{
    let size = nearest(units.unsigned_abs(), step);
    if size == 0 {
        return Whole { minus: false, size };
    }
    Whole {
        minus: units < 0,
        size,
    }
}

/// `size / step`, rounded to the nearest whole number, a tie up.
fn nearest(size: u64, step: u64) -> u64
    requires step { 0 < step }
    requires size { size ≤ 2 ^ 63 }
    ensures nearest { result ≡ nearest size step }
{
    let whole = size / step;
    if size % step >= step - size % step {
        whole + 1
    } else {
        whole
    }
}
