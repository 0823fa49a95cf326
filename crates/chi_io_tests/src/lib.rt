//! Tests of the lowest crates: lists and boxes, shelves and sinks, the source of a factory, and policies.
#![tactic(auto)]

#[cfg(test)]
mod factories;
#[cfg(test)]
mod lists;
#[cfg(test)]
mod policies;
#[cfg(test)]
mod shelves;
