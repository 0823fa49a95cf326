//! The parser: makes of a source's tokens the tree of which they are the spelling, or says which token is the first
//! that none has there.
#![tactic(auto)]

mod blocks;
mod communications;
mod declared;
mod definitions;
mod formal;
mod launches;
mod offers;
mod program;
mod selects;
mod semicolon;
mod simple;
mod targets;
mod walks;

pub use chi_grammar::ParseFault;
pub use program::parse;
