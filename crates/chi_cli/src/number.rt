ghost use Rattle.std.specs.Prelude.{◌≡◌, ◌<◌, ◌^◌, IsTrue, option_map};
ghost use Rattle.std.specs.Option.{SomeIff};
ghost use Rattle.std.specs.Char.{digit_value, is_ascii_digit};
ghost use Rattle.std.specs.List.{list_all};
ghost use Rattle.std.specs.Str.Parse.{digits_value};
ghost use Rattle.chi_num.specs.TextNumbers.{has_minus};
ghost use Rattle.chi_cli.specs.Numbers.{is_numeral, number_in, number_or, number_sought, time_in, time_or_none};

use chi_num::{Real, read_real};

/// The number that a text is, where it is a numeral and from the least to the most.
pub fn number_in(least: u64, most: u64, text: &[u8]) -> Option<u64>
    ensures { result ≡ number_in least most text.now }
{
    if !is_numeral(text) {
        return None;
    }
    match digits_value(text) {
        Some(number) if least <= number && number <= most => Some(number),
        _ => None,
    }
}

/// The same of an option's value, or the default where the option isn't given.
pub fn number_or(default: u64, least: u64, most: u64, value: Option<&[u8]>) -> Option<u64>
    ensures { result ≡ number_or default least most (option_map (λ text. text.now) value.entry) }
{
    match value {
        Some(text) => number_in(least, most, text),
        None => Some(default),
    }
}

/// The number of an instance or a channel that a text is.
pub fn number_sought(text: &[u8]) -> Option<u32>
    ensures { result ≡ number_sought text.now }
{
    if text.len() > 10 {
        return None;
    }
    match number_in(0, u64::from(u32::MAX), text) {
        Some(number) => Some(number as u32),
        None => None,
    }
}

/// Whether a text is 1 to 20 decimal digits.
fn is_numeral(text: &[u8]) -> bool
    ensures { result ≡ is_numeral text.now }
{
    !text.is_empty() && text.len() <= 20 && are_digits(text)
}

fn are_digits(text: &[u8]) -> bool
    ensures { result ≡ list_all is_ascii_digit text.now }
{
    text.iter().all(u8::is_ascii_digit)
}

/// The number that digits mean, where 64 bits hold it.
#[tactic(auto, using(crate::proofs::Digits::value_grows))]
fn digits_value(digits: &[u8]) -> Option<u64>
    requires { IsTrue (list_all is_ascii_digit digits.now) }
    ensures { let number = digits_value 10 digits.now in SomeIff result (number < 2 ^ 64) number }
{
    let mut number: u64 = 0;
    let mut rest = digits;
    while let Some((digit, after)) = rest.split_first() {
        number = number.checked_mul(10)?.checked_add(digit_value(*digit))?;
        rest = after;
    }
    Some(number)
}

#[tactic(auto, using(crate::proofs::Digits::digit_counts))]
fn digit_value(digit: u8) -> u64
    requires { IsTrue (is_ascii_digit digit) }
    ensures { result ≡ digit_value digit }
{
    u64::from(digit - b'0')
}

/// The stopping time of an option's value, or none where the option isn't given; the outer `None`
/// where the value is no time.
pub fn time_or_none(value: Option<&[u8]>) -> Option<Option<Real>>
    ensures { result ≡ time_or_none (option_map (λ text. text.now) value.entry) }
{
    match value {
        Some(text) => match time_in(text) {
            Some(time) => Some(Some(time)),
            None => None,
        },
        None => Some(None),
    }
}

/// The time that a text is: a real without a minus.
fn time_in(text: &[u8]) -> Option<Real>
    ensures { result ≡ time_in text.now }
{
    if begins_with_minus(text) {
        return None;
    }
    read_real(text).ok()
}

fn begins_with_minus(text: &[u8]) -> bool
    ensures { result ≡ has_minus text.now }
{
    matches!(text, [b'-', ..])
}
