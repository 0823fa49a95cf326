//! Tests of the machine, over sources: what constants and expressions come to by their code, and runs in pieces.
#![tactic(auto)]

#[cfg(test)]
mod expressions;
#[cfg(test)]
mod programs;
#[cfg(test)]
mod runs;
#[cfg(test)]
mod shown;
