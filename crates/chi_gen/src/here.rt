use chi_base::Items;
use chi_code::Around;
use chi_gen_sizes::Measured;
use chi_types::Ty;
use std::alloc::Global;

/// What statements are generated within.
#[derive(Clone, Copy)]
pub(crate) struct Here<'a> {
    pub alloc: Global,
    /// Whether it is a process, whose turns are marked with their lines.
    pub process: bool,
    /// The types of its slots.
    pub slots: &'a [Ty],
    /// The nearest loop around.
    pub near: Option<Around>,
}

/// Statements, branches or alternatives, and how many instructions each of them has.
#[derive(Drop)]
pub(crate) struct Parts<'a, T> {
    pub items: &'a Items<T>,
    pub sizes: &'a Items<Measured>,
}
