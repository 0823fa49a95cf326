ghost use Rattle.std.specs.Prelude.{◌≡◌, ◌++◌, OnOk, OnErr};
ghost use Rattle.chi_num.specs.RealText.{trimmed, real_text_of};

use super::digits::{last_digits, spelling};
use crate::Real;
use chi_base::NoMemory;
use std::alloc::Global;

/// Appends a real as a decimal: one to nine decimals, and no zero at the end but a first one.
pub fn real_text(alloc: Global, a: Real, out: &mut Vec<u8>) -> Result<(), NoMemory>
    ensures ok { OnOk result (out.new.items ≡ out.old.items ++ real_text_of a) }
    ensures err { OnErr result (out.new.items ≡ out.old.items) }
{
    let units = a.units();
    let size = units.unsigned_abs();
    let digits = last_digits(alloc, size, 9)?;
    let text = spelling(
        alloc,
        units < 0,
        size / 1_000_000_000,
        trimmed(digits.as_slice()),
    )?;
    out.extend_from_slice(text.as_slice())?;
    Ok(())
}

/// Digits without the zeros that end them; the first one stays.
#[tactic(auto, using(crate::proofs::RealText::trimmed_zero, crate::proofs::RealText::trimmed_other, crate::proofs::RealText::trimmed_one))]
fn trimmed(digits: &[u8]) -> &[u8]
    ensures trimmed { result.now ≡ trimmed digits.now }
{
    let mut kept = digits;
    while let Some((b'0', front)) = kept.split_last() {
        if front.is_empty() {
            break;
        }
        kept = front;
    }
    kept
}
