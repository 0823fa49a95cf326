//! What is said of each kind of fault, as the table of "Faults" in `docs/LANGUAGE.md` has it.

ghost use Rattle.std.specs.Prelude.{◌≡◌};
ghost use Rattle.chi_explain_endings.specs.Faults.{fault_words};

use chi_core::FaultKind;

pub const INT_RANGE: &str = "an int would be below -2^63 or above 2^63 - 1";

pub const REAL_RANGE: &str =
    "a real, or the time at which a timer or a delay is due, would be below -9223372036.854775808 or above 9223372036.854775807";

pub const DIVIDE_BY_ZERO: &str = "the right operand of `/`, `div` or `mod` is 0";

pub const BAD_POWER: &str = "the right operand of `^` is below 0";

pub const INDEX_RANGE: &str = "an index of a list or a string is below -size or above size - 1";

pub const KEY_MISSING: &str =
    "the dictionary doesn't have this key, and only the last key of a target that is assigned is added";

pub const EMPTY_POP: &str = "`pop` is called on an empty list, set or dictionary";

pub const TOO_LARGE: &str =
    "a list, set or dictionary would have more than 1,048,576 elements, a string more bytes, a written text more than 4,194,304, or a select more than 65,536 alternatives; or the size of a list is below 0";

pub const SLICE_STEP: &str = "the step of a slice or of `range` is 0";

pub const BAD_TEXT: &str =
    "the string that `int`, `real` or `bool` is called with isn't the text of one";

pub const CALL_DEPTH: &str = "a function is called within 500 calls that haven't returned";

pub const NO_RETURN: &str = "a function has come to its end without `return`";

pub const NEGATIVE_DELAY: &str = "the length of a delay is below 0";

pub const BAD_DISTRIBUTION: &str =
    "a distribution is sampled, and its parameters aren't those of one";

pub const TOO_MANY_INSTANCES: &str =
    "`run` or `start` would make instance 100,001 of the run; those that have finished count too";

pub const TOO_MANY_CHANNELS: &str = "a declaration would make channel 1,000,001 of the run";

/// What is said of a fault of this kind.
pub fn fault_words(kind: FaultKind) -> &'static str
    ensures { result.now ≡ fault_words kind }
{
    match kind {
        FaultKind::IntRange => INT_RANGE,
        FaultKind::RealRange => REAL_RANGE,
        FaultKind::DivideByZero => DIVIDE_BY_ZERO,
        FaultKind::BadPower => BAD_POWER,
        FaultKind::IndexRange => INDEX_RANGE,
        FaultKind::KeyMissing => KEY_MISSING,
        FaultKind::EmptyPop => EMPTY_POP,
        FaultKind::TooLarge => TOO_LARGE,
        FaultKind::SliceStep => SLICE_STEP,
        FaultKind::BadText => BAD_TEXT,
        FaultKind::CallDepth => CALL_DEPTH,
        FaultKind::NoReturn => NO_RETURN,
        FaultKind::NegativeDelay => NEGATIVE_DELAY,
        FaultKind::BadDistribution => BAD_DISTRIBUTION,
        FaultKind::TooManyInstances => TOO_MANY_INSTANCES,
        FaultKind::TooManyChannels => TOO_MANY_CHANNELS,
    }
}
