//! What stands at the front of a format.

ghost use Rattle.std.specs.Prelude.{◌≡◌, ◌≤◌, ◌<◌, None, Some, MatchOption, IfSome, length};
ghost use Rattle.std.specs.Char.{is_ascii_digit};
ghost use Rattle.std.specs.List.{prefix_len};
ghost use Rattle.chi_num.specs.Decimal.{AreDigits};
ghost use Rattle.chi_format.specs.Front.{next_part, percent_after, side_after, field_after, point_after, width_of};

use chi_num::read_int;
use chi_value::{Field, Piece};

/// What is taken from the front of a format: a byte of a plain piece, or a code.
#[derive(Drop)]
pub(super) enum Taken {
    Byte(u8),
    Code(Piece),
}

/// What comes first, and what is left after it.
#[tactic(auto, unfolding(crate::specs::Front::next_part))]
pub(super) fn next_part(text: &[u8]) -> Option<(Taken, &[u8])>
    ensures read { MatchOption result (next_part text.now ≡ None) (λ read. next_part text.now ≡ Some (read.0, read.1.now)) }
{
    match text.split_first() {
        Some((b'%', rest)) => percent_after(rest),
        Some((byte, rest)) => Some((Taken::Byte(*byte), rest)),
        None => None,
    }
}

/// What a percent sign begins.
#[tactic(auto, unfolding(crate::specs::Front::percent_after))]
fn percent_after(text: &[u8]) -> Option<(Taken, &[u8])>
    ensures read { MatchOption result (percent_after text.now ≡ None) (λ read. percent_after text.now ≡ Some (read.0, read.1.now)) }
{
    match text.split_first() {
        Some((b'%', rest)) => Some((Taken::Byte(b'%'), rest)),
        Some((b'-', rest)) => side_after(true, rest),
        Some((_, _)) => side_after(false, text),
        None => None,
    }
}

/// A code after its side: a width, if there is one, and a letter.
#[tactic(auto, using(chi_num::proofs::Decimal::front_digits), unfolding(crate::specs::Front::side_after))]
fn side_after(left: bool, text: &[u8]) -> Option<(Taken, &[u8])>
    ensures read { MatchOption result (side_after left text.now ≡ None) (λ read. side_after left text.now ≡ Some (read.0, read.1.now)) }
{
    let (digits, rest) = text.split_at(digit_count(text));
    let width = width_of(digits)?;
    field_after(Field { left, width }, rest)
}

/// How many digits a text begins with.
fn digit_count(text: &[u8]) -> usize
    ensures count { result ≡ prefix_len is_ascii_digit text.now }
    ensures within { result ≤ length text.now }
{
    text.iter().take_while(|byte| byte.is_ascii_digit()).count()
}

/// The width that digits write, 0 where there are none.
#[tactic(auto, unfolding(crate::specs::Front::width_of))]
fn width_of(digits: &[u8]) -> Option<u8>
    requires { AreDigits digits.now }
    ensures { result ≡ width_of digits.now }
{
    match digits.first() {
        None => return Some(0),
        Some(b'0') => return None,
        Some(_) => {}
    }
    let Ok(width) = read_int(digits) else {
        return None;
    };
    u8::try_from(width).ok()
}

/// A code after its field: a letter, or a point and a digit before it.
#[tactic(auto, unfolding(crate::specs::Front::field_after))]
fn field_after(field: Field, text: &[u8]) -> Option<(Taken, &[u8])>
    ensures read { MatchOption result (field_after field text.now ≡ None) (λ read. field_after field text.now ≡ Some (read.0, read.1.now)) }
{
    match text.split_first() {
        Some((b's', rest)) => Some((Taken::Code(Piece::Any(field)), rest)),
        Some((b'd', rest)) => Some((Taken::Code(Piece::Whole(field)), rest)),
        Some((b'f', rest)) => Some((Taken::Code(Piece::Fixed(field, 6)), rest)),
        Some((b'.', rest)) => point_after(field, rest),
        Some((_, _)) => None,
        None => None,
    }
}

/// A code after its point: a digit and `f`.
#[tactic(auto, unfolding(crate::specs::Front::point_after))]
fn point_after(field: Field, text: &[u8]) -> Option<(Taken, &[u8])>
    ensures read { MatchOption result (point_after field text.now ≡ None) (λ read. point_after field text.now ≡ Some (read.0, read.1.now)) }
{
    let (digit, after) = text.split_first()?;
    let (letter, rest) = after.split_first()?;
    if digit.is_ascii_digit() && *letter == b'f' {
        Some((Taken::Code(Piece::Fixed(field, *digit - b'0')), rest))
    } else {
        None
    }
}
