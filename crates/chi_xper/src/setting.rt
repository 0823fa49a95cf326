use chi_core::Core;
use chi_value::Value;

/// What an experiment is run with.
#[derive(Clone, Copy, Debug)]
pub struct Setting<'a> {
    pub core: &'a Core,
    /// The values of its constants.
    pub constants: &'a [Value],
    /// That of the first run. Each run has the next one.
    pub seed: u64,
    /// On the costs of the experiment's own items and of the functions that they call. Each run of a model has its own.
    pub bound: u64,
}
