use chi_value::{Names, Value};

/// What operators read beside their operands.
#[derive(Clone, Copy, Debug)]
pub struct Scenery<'a> {
    /// The names of the enumeration values.
    pub names: &'a Names,
    pub seed: u64,
    /// The time in units of a real.
    pub clock: i64,
    /// The values of the constants.
    pub constants: &'a [Value],
    /// Whether it is finished, for each instance that there was before the step.
    pub finished: &'a [bool],
}
