//! The operations on strings, lists, sets and dictionaries, and stores into parts of values.
#![tactic(auto)]

mod building;
mod fault;
mod laws;
mod made;
mod path;
mod place;
mod popping;
mod progression;
mod ranges;
mod reading;
mod room;
mod sequences;
mod slices;
mod sorted;
mod storing;
mod walk;

pub use building::build;
pub use chi_value::Kind;
pub use fault::OpFault;
pub use laws::{
    operations_on_more_have_outcomes, operations_on_one_have_outcomes, slices_at_one_bound_join,
    what_is_stored_is_read,
};
pub use path::Path;
pub use popping::{pop, popped};
pub use ranges::range;
pub use reading::{has, index, lookup, size};
pub use sequences::{del, deleted, enumerate, insert_at, inserted, join, joined};
pub use slices::{slice, sliced};
pub use sorted::{keys, meet, minus, minus_keys, sub, union, values};
pub use storing::put;
