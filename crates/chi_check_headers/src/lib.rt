//! What the definitions of a program are by their names: enumerations, types, constants and headers, and the names that bodies see.
#![tactic(auto)]

mod early;
mod header;
mod headers;
mod late;
mod naming;
mod sketch;

pub use early::define_all_early;
pub use header::Header;
pub use headers::all_types;
pub use late::{add_all_headed, add_all_late, headers_in};
pub use naming::{after, name_all};
pub use sketch::{Early, Named, Sketch};
