//! With what a program is run, beside its arguments: one record, from the words to what runs it.
#![tactic(auto)]

mod terms;

pub use terms::Terms;
