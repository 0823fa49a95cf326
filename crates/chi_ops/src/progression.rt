//! Ints by equal steps, in 128 bits, so that no step leaves them.

ghost use Rattle.std.specs.Prelude.{◌≡◌, ◌≢◌, ◌<◌, ◌≤◌, ◌^◌, pos, ◌+ℤ◌, ◌-ℤ◌, unsigned_abs};
ghost use Rattle.chi_ops.specs.Progression.{comes_before, count_from, steps_over};

/// Whether one int comes before another in the direction of a step.
pub(crate) fn comes_before(by: i128, a: i128, b: i128) -> bool
    ensures value { result ≡ comes_before by a b }
{
    if by < 0 { b < a } else { a < b }
}

/// How many ints stand from the first to before the last, by a step.
pub(crate) fn count_from(first: i64, last: i64, by: i64) -> u128
    requires { by ≢ pos 0 }
    ensures value { result ≡ count_from first last by }
{
    if comes_before(by as i128, first as i128, last as i128) {
        steps_over(distance(first as i128, last as i128), by.unsigned_abs())
    } else {
        0
    }
}

/// How far it is from one int of 64 bits to another.
fn distance(first: i128, last: i128) -> u128
    requires first { unsigned_abs first ≤ 2 ^ 63 }
    requires last { unsigned_abs last ≤ 2 ^ 63 }
    ensures value { result ≡ unsigned_abs (last -ℤ first) }
    ensures bound { result ≤ 2 ^ 64 }
{
    let difference = last - first;
    difference.unsigned_abs()
}

fn steps_over(distance: u128, size: u64) -> u128
    requires bound { distance ≤ 2 ^ 64 }
    requires some { 0 < size }
    ensures value { result ≡ steps_over distance size }
{
    let size = size as u128;
    (distance + size - 1) / size
}
