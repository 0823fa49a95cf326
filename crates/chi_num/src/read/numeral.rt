ghost use Rattle.std.specs.Prelude.{◌≡◌, ◌≢◌, ◌++◌, ◌<◌, ◌↔◌, List, ℕ, Some, IsTrue, MatchOption, length, slice_get};
ghost use Rattle.chi_num.specs.Decimal.{AreDigits, point_and, sign_text};
ghost use Rattle.chi_num.specs.ReadInt.{IsInt, HasIntForm};
ghost use Rattle.chi_num.specs.ReadReal.{IsDecimal, HasRealForm};

use super::digits::{are_digits, split_digits};

/// A text of a number, cut into its parts.
#[derive(Clone, Copy)]
pub(super) struct Numeral<'a> {
    pub minus: bool,
    /// The digits before the point.
    pub whole: &'a [u8],
    /// The digits after the point; none where there is no point.
    pub fraction: &'a [u8],
}

/// The parts of an int's text.
pub(super) fn int_numeral(text: &[u8]) -> Option<(bool, &[u8])>
    ensures parts { MatchOption result (¬ (HasIntForm text.now)) (λ p. IsInt text.now p.0 p.1.now) }
{
    let (minus, digits) = split_sign(text);
    if are_digits(digits) {
        Some((minus, digits))
    } else {
        None
    }
}

/// The parts of a real's text.
pub(super) fn real_numeral(text: &[u8]) -> Option<Numeral<'_>>
    ensures parts { MatchOption result (¬ (HasRealForm text.now))
        (λ n. IsDecimal text.now n.minus n.whole.now n.fraction.now) }
{
    let (minus, unsigned) = split_sign(text);
    let (whole, after) = split_digits(unsigned);
    if whole.is_empty() {
        return None;
    }
    match after_point(after) {
        Some(fraction) => Some(Numeral {
            minus,
            whole,
            fraction,
        }),
        None => None,
    }
}

/// Whether a text begins with a minus, and what comes after it.
fn split_sign(text: &[u8]) -> (bool, &[u8])
    ensures whole { text.now ≡ sign_text result.0 ++ result.1.now }
    ensures minus { IsTrue result.0 ↔ (slice_get text.now 0 ≡ Some 45) }
{
    match text.split_first() {
        Some((b'-', rest)) => (true, rest),
        _ => (false, text),
    }
}

/// The digits after a point, or none where the text has ended.
fn after_point(text: &[u8]) -> Option<&[u8]>
    ensures digits { MatchOption result
        ((fraction : List ℕ) → AreDigits fraction → text.now ≢ point_and fraction)
        (λ fraction. AreDigits fraction.now × (text.now ≡ point_and fraction.now)) }
{
    match text.split_first() {
        None => Some(text),
        Some((b'.', digits)) if are_digits(digits) => Some(digits),
        _ => None,
    }
}
