use chi_types::Ty;
use std::alloc::Global;

/// What an offer is generated within.
#[derive(Clone, Copy)]
pub struct Offered<'a> {
    pub alloc: Global,
    /// The types of the slots.
    pub slots: &'a [Ty],
    /// The names of the unwinds around it.
    pub names: &'a [u32],
    /// Where its body begins.
    pub body: u64,
}
