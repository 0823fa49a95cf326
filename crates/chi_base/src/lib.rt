//! What every crate of the project shares: the one refusal for want of memory, the list and the box of which trees are
//! made, and the lists whose copies share their elements.
#![tactic(auto)]

mod boxed;
mod items;
mod no_memory;
mod row;
mod shared;

pub use boxed::Boxed;
pub use items::Items;
pub use no_memory::NoMemory;
pub use row::Row;
pub use shared::{Copied, Shared, copies_of};
