//! The parser of expressions and types.
#![tactic(auto)]

mod blanks;
mod braces;
mod compounds;
mod level;
mod levels;
mod nodes;
mod parse;
mod postfixes;
mod primaries;
mod sequences;
mod terms;
mod types;

pub use chi_grammar::ParseFault;
pub use levels::expr;
pub use parse::{parse_expr, parse_type};
pub use postfixes::{boxed_expr, field};
pub use sequences::{arguments, exprs, more_exprs};
pub use types::{any_type, boxed_type, built_type};
