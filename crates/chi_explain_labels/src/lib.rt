//! Explanations of the bound on steps: which instances took the most labels.
#![tactic(auto)]

mod counts;
mod ranks;
mod text;

pub use counts::count_label;
pub use ranks::MOST_RANKED;
pub use text::put_labels;
