//! The whole numbers next to a fraction.

ghost use Rattle.std.specs.Prelude.{◌≡◌, ◌≢◌, ◌+◌, ◌/◌, ◌^◌, ◌<◌, ◌≤◌, pos, unsigned_abs};
ghost use Rattle.chi_num.specs.Rounding.{IsFloor, IsNearest};

/// `number / divisor` rounded down.
pub fn floor_of(number: i128, divisor: i64) -> i128
    requires divides { divisor ≢ pos 0 }
    requires small { unsigned_abs number ≤ 2 ^ 126 }
    ensures { IsFloor number divisor result }
{
    if divisor < 0 {
        floor_over(-number, divisor.unsigned_abs())
    } else {
        floor_over(number, divisor.unsigned_abs())
    }
}

fn floor_over(number: i128, divisor: u64) -> i128
    requires divides { 0 < divisor }
    ensures { IsFloor number (pos divisor) result }
{
    number.div_euclid(divisor as i128)
}

/// The whole number nearest to `number / divisor`, a tie away from zero.
pub fn nearest_to(number: i128, divisor: i64) -> i128
    requires divides { divisor ≢ pos 0 }
    requires small { unsigned_abs number ≤ 2 ^ 126 }
    ensures { IsNearest number divisor result }
{
    if divisor < 0 {
        nearest_over(-number, divisor.unsigned_abs())
    } else {
        nearest_over(number, divisor.unsigned_abs())
    }
}

fn nearest_over(number: i128, divisor: u64) -> i128
    requires divides { 0 < divisor }
    requires small { unsigned_abs number ≤ 2 ^ 126 }
    ensures { IsNearest number (pos divisor) result }
{
    let size = nearest_size(number.unsigned_abs(), divisor);
    if number < 0 { -size } else { size }
}

fn nearest_size(number: u128, divisor: u64) -> i128
    requires divides { 0 < divisor }
    requires small { number ≤ 2 ^ 126 }
    ensures { result ≡ pos ((number + divisor / 2) / divisor) }
{
    let divisor = divisor as u128;
    ((number + divisor / 2) / divisor) as i128
}
