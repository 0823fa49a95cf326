//! Sets and dictionaries as ascending lists of values: found by halves, merged, and sorted.
#![tactic(auto)]

mod laws;
mod merging;
mod order;
mod searching;
mod sorting;

pub use laws::{
    dictionaries_are_combined, dictionaries_have_their_values, entries_are_set,
    entries_stay_entries, sets_are_combined, sets_have_their_members,
};
pub use merging::{dictionary_union, is_subset, minus_keys, set_meet, set_minus, set_union};
pub use order::{key_of, value_of};
pub use searching::{find, find_key, has, has_key, value_at, with_entry};
pub use sorting::{dictionary_of, set_of};
