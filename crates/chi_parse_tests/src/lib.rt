//! Tests of the front: tokens and the lexer, the parsers, the tree with its spelling and its laws, and the canonical layout.
#![tactic(auto)]

#[cfg(test)]
mod expressions;
#[cfg(test)]
mod layouts;
#[cfg(test)]
mod lexing;
#[cfg(test)]
mod programs;
#[cfg(test)]
mod shapes;
#[cfg(test)]
mod sources;
#[cfg(test)]
mod spellings;
#[cfg(test)]
mod tokens;
#[cfg(test)]
mod trees;
