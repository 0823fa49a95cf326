//! Tests of explanations: of bytes, of tokens, of broken rules, of arguments, and of endings.
#![tactic(auto)]

#[cfg(test)]
mod arguments;
#[cfg(test)]
mod endings;
#[cfg(test)]
mod expected;
#[cfg(test)]
mod lexical;
#[cfg(test)]
mod sources;
#[cfg(test)]
mod typing;
