//! The rules of expressions as definitions, and what all of them need: parts that have types,
//! conversions, and what a broken rule leaves.
#![tactic(auto)]

mod conversions;
mod fields;
mod lists;
mod nodes;
mod parts;
mod refusals;
mod sites;
mod taking;
mod types;

pub use chi_check_types::is_int;
pub use conversions::{
    all_converted, both_as, compared, converted, on_one, on_two, passed, wanting, with_cores,
};
pub use fields::field_in;
pub use lists::{list_of_one, list_of_two, one_more};
pub use nodes::{all_made, settle};
pub use parts::Contents;
pub use refusals::{both_refused, refused, unless};
pub use sites::{model_call_rule, note_calling, note_running, note_running_if};
pub use taking::{core_and_type, core_of, on_it, type_meant, type_of};
pub use types::{are_ints, number_of};
