use chi_code::Code;
use chi_core_apply::Scenery;
use std::alloc::Global;

/// What a run of an instance works within, and doesn't change.
#[derive(Clone, Copy)]
pub struct Within<'a> {
    pub alloc: Global,
    pub code: &'a Code,
    /// A hint at each instruction.
    pub hints: &'a [u8],
    /// What operators read. It has a truth value for each instance that there was before the step.
    pub scenery: Scenery<'a>,
}
