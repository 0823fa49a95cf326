//! The lexer: takes the bytes of a source apart into tokens, each the longest that stands there.
#![tactic(auto)]

mod cursor;
mod fault;
mod laws;
mod lexer;
mod number;
mod piece;
mod scan;
mod sign;
mod text;
mod word;

pub use fault::LexFault;
pub use laws::{one_reading_law, span_law, spelling_law};
pub use lexer::{MOST_BYTES, end_place, lex};
