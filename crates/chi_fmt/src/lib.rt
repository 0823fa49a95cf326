//! The canonical layout: writes the tree of a source in one way, with the comments of the source.
#![tactic(auto)]

mod comment;
mod definitions;
mod draft;
mod elements;
mod exprs;
mod fault;
mod found;
mod laws;
mod line;
mod lines;
mod page;
mod parts;
mod simple;
mod space;
mod spot;
mod statements;
mod types;
mod written;

pub use comment::Comment;
pub use fault::FmtFault;
pub use found::comments;
pub use laws::{comments_law, layout_law, row_law, text_law};
pub use written::canonical;
