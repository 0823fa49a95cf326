//! Tests of the typing of expressions and types, over sources. Most are in rows/: here is what no command shows.
#![tactic(auto)]

#[cfg(test)]
mod answers;
#[cfg(test)]
mod cores;
#[cfg(test)]
mod names;
#[cfg(test)]
mod shown;
#[cfg(test)]
mod sources;
