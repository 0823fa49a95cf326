ghost use Rattle.std.specs.Prelude.{◌≡◌, ◌++◌, ◌<◌, ◌^◌, ◌↔◌, IsTrue, length};
ghost use Rattle.std.specs.Option.{SomeIff};
ghost use Rattle.std.specs.Char.{is_ascii_digit};
ghost use Rattle.std.specs.List.{list_all, prefix_len};
ghost use Rattle.chi_num.specs.Decimal.{AreDigits, IsAfterDigits, followed_by};

/// Whether a text is one or more digits, and nothing else.
pub(super) fn are_digits(text: &[u8]) -> bool
    ensures tells { IsTrue result ↔ ((0 < length text.now) × AreDigits text.now) }
{
    if text.is_empty() {
        false
    } else {
        all_digits(text)
    }
}

fn all_digits(text: &[u8]) -> bool
    ensures { result ≡ list_all is_ascii_digit text.now }
{
    text.iter().all(u8::is_ascii_digit)
}

/// The digits that a text begins with, and what comes after them.
#[tactic(auto, using(crate::proofs::Decimal::front_digits, crate::proofs::Decimal::after_front_digits, crate::proofs::Decimal::front_within))]
pub(super) fn split_digits(text: &[u8]) -> (&[u8], &[u8])
    ensures whole { text.now ≡ result.0.now ++ result.1.now }
    ensures digits { AreDigits result.0.now }
    ensures rest { IsAfterDigits result.1.now }
{
    text.split_at(digit_count(text))
}

/// How many digits a text begins with.
fn digit_count(text: &[u8]) -> usize
    ensures { result ≡ prefix_len is_ascii_digit text.now }
{
    text.iter().take_while(|byte| byte.is_ascii_digit()).count()
}

/// A number with more digits after it, where 64 bits hold it.
#[tactic(auto, using(crate::proofs::Decimal::followed_by_more, crate::proofs::Decimal::followed_by_least_more, crate::proofs::Decimal::followed_by_done))]
pub(super) fn followed_by(number: u64, digits: &[u8]) -> Option<u64>
    requires { AreDigits digits.now }
    ensures value { let whole = followed_by number digits.now in SomeIff result (whole < 2 ^ 64) whole }
{
    let mut whole = number;
    for digit in digits {
        whole = whole
            .checked_mul(10)?
            .checked_add(u64::from(*digit - b'0'))?;
    }
    Some(whole)
}
