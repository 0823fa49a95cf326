//! What could stand at a token of a source: makes of the tokens before it the classes of tokens that can follow them, and
//! tells whether a statement would be too deep there.
#![tactic(auto)]

mod classes;
mod copies;
mod depth;
mod following;
mod laws;

pub use depth::is_block_too_deep;
pub use following::expected;
pub use laws::{block_depth_law, expected_law};
