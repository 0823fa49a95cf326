ghost use Rattle.std.specs.Prelude.{◌≡◌, ◌≢◌, ◌++◌, ◌↔◌, ℕ, List, IsTrue, MatchOption};
ghost use Rattle.chi_num.specs.Decimal.{last_digits, sign_text};
ghost use Rattle.chi_num.specs.RealText.{real_text_of, trimmed};
ghost use Rattle.chi_trace.specs.Told.{time_told};

use chi_num::read_real;
use itoa::Buffer;

/// How many units of a real make 1.
const UNITS_PER_ONE: u64 = 1_000_000_000;

/// The units of a real of which this is the text.
#[tactic(auto, using(crate::proofs::Reading::time_not_read, crate::proofs::Reading::time_of_other, crate::proofs::Reading::time_of_this))]
pub fn units(text: &[u8]) -> Option<i64>
    ensures units { result ≡ time_told text.now }
{
    match read_real(text) {
        Ok(real) => {
            if is_text_of(real.units(), text) {
                Some(real.units())
            } else {
                None
            }
        }
        Err(_) => None,
    }
}

/// Whether a text is that of a real of so many units.
fn is_text_of(units: i64, text: &[u8]) -> bool
    ensures tells { IsTrue result ↔ (text.now ≡ real_text_of units) }
{
    let size = units.unsigned_abs();
    let Some(unsigned) = after(sign_of(units < 0), text) else {
        return false;
    };
    let mut buffer = Buffer::new();
    let Some(fraction) = after(buffer.format(size / UNITS_PER_ONE).as_bytes(), unsigned) else {
        return false;
    };
    let Some(decimals) = after(b".", fraction) else {
        return false;
    };
    decimals == trimmed(&last_digits(size))
}

/// A minus, or nothing.
fn sign_of(minus: bool) -> &'static [u8]
    ensures text { result.now ≡ sign_text minus }
{
    if minus { b"-" } else { b"" }
}

/// What comes after a part with which a text begins.
pub fn after<'a>(part: &[u8], text: &'a [u8]) -> Option<&'a [u8]>
    ensures rest { MatchOption result ((rest : List ℕ) → text.now ≢ part.now ++ rest) (λ rest. text.now ≡ part.now ++ rest.now) }
{
    text.strip_prefix(part)
}

/// The digits of the last nine places of a number.
#[tactic(auto, unfolding(chi_num::specs::Decimal::last_digits))]
fn last_digits(number: u64) -> [u8; 9]
    ensures digits { result ≡ last_digits 9 number }
{
    let digit = |power: u64| b'0' + (number / power % 10) as u8;
    [
        digit(100_000_000),
        digit(10_000_000),
        digit(1_000_000),
        digit(100_000),
        digit(10_000),
        digit(1_000),
        digit(100),
        digit(10),
        digit(1),
    ]
}

/// Digits without the zeros that end them; the first one stays.
#[tactic(auto, using(chi_num::proofs::RealText::trimmed_zero, chi_num::proofs::RealText::trimmed_other, chi_num::proofs::RealText::trimmed_one))]
fn trimmed(digits: &[u8]) -> &[u8]
    ensures trimmed { result.now ≡ trimmed digits.now }
{
    let mut kept = digits;
    while let Some((b'0', front)) = kept.split_last() {
        if front.is_empty() {
            break;
        }
        kept = front;
    }
    kept
}
