//! The tokens of a Chi 3 source: what they are, which bytes spell them, and where they stand.
#![tactic(auto)]

mod bytes;
mod escape;
mod keyword;
mod place;
mod sign;
mod spell;
mod table;
mod token;

pub use bytes::Bytes;
pub use escape::{ESCAPES, escaped, quoted};
pub use keyword::{KEYWORDS, Keyword};
pub use place::{Place, Spanned};
pub use sign::{SIGNS, Sign};
pub use spell::spelling;
pub use token::Token;
