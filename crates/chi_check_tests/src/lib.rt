//! Tests of the checker, over sources: one for each rule, some that break none, and experiments. More are in rows/, and what cores do.
#![tactic(auto)]

#[cfg(test)]
mod accepted;
#[cfg(test)]
mod experiments;
#[cfg(test)]
mod rules;
#[cfg(test)]
mod sources;
