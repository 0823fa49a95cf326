use crate::calls::Headroom;
use crate::surroundings::Surroundings;
use std::alloc::Global;

/// What is evaluated within, and no evaluation changes.
#[derive(Clone, Copy)]
pub struct Here<'a> {
    pub alloc: Global,
    pub surroundings: &'a Surroundings<'a>,
    /// What it has below it.
    pub room: Headroom,
}
