//! One function a rule of literals, names, calls, indexes, slices and fields: what is made of typed parts, or
//! that the rule is broken.
#![tactic(auto)]

mod calls;
mod containers;
mod dictionaries;
mod literals;
mod named;
mod part_nodes;
mod parts;

pub use calls::call_of;
pub use containers::{empty_list, empty_set, list_of, set_of, tuple_of};
pub use dictionaries::{dict_of, empty_dict};
pub use literals::{bool_literal, int_literal, real_literal, text_literal};
pub use named::{named_value, time_of};
pub use part_nodes::{field_of, index_of, slice_of};
