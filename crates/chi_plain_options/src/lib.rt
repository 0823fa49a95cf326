//! The options of instances: how many an instance has, and which. They are found without a look at all instances, by
//! lists of those that communicate on channels or wait for others.
#![tactic(auto)]

mod acting;
mod choices;
mod listing;
mod parties;

pub use acting::has_option;
pub use choices::{option_at, option_count};
pub use listing::{cover, cover_from, cover_joiners, relist, relist_from};
pub use parties::{Listed, ListedAt, Parties};
