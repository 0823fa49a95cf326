//! Formats: how they are read, and the text of their pieces with values.
#![tactic(auto)]

mod format_fault;
mod laws;
mod reading;
mod render_fault;
mod rendering;

pub use chi_value::{Field, Piece};
pub use format_fault::FormatFault;
pub use laws::{one_reading_is_meant, rendered_where_allowed};
pub use reading::read_format;
pub use render_fault::RenderFault;
pub use rendering::render;
