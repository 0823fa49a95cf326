//! The values of Chi 3: their copies and their order, the default of each shape, and their texts.
#![tactic(auto)]

mod copying;
mod defaults;
mod format;
mod laws;
mod names;
mod ordering;
mod shape;
mod text;
mod value;

pub use defaults::{DefaultFault, MOST_CHANNELS, default_of};
pub use format::{Field, Kind, Piece};
pub use laws::order_is_total;
pub use names::Names;
pub use ordering::{compare, compare_any};
pub use shape::Shape;
pub use text::{MOST_TEXT, TextFault, append, quoted_of, text_of};
pub use value::{Items, MOST_ELEMENTS, Row, Value};
