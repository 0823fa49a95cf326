//! Tests of what a run computes with: numbers, draws, values and their texts, types, sets and dictionaries, operations on
//! containers up to the greatest sizes, and formats; and the conditions of texts, of rendering and of operations as tests.
#![tactic(auto)]

#[cfg(test)]
mod build;
#[cfg(test)]
mod conditions;
#[cfg(test)]
mod defaults;
#[cfg(test)]
mod draws;
#[cfg(test)]
mod large;
#[cfg(test)]
mod names;
#[cfg(test)]
mod numbers;
#[cfg(test)]
mod orders;
#[cfg(test)]
mod pieces;
#[cfg(test)]
mod reading;
#[cfg(test)]
mod rendering;
#[cfg(test)]
mod sets;
#[cfg(test)]
mod texts;
#[cfg(test)]
mod types;
