//! What statements are made of: new names and their slots, expressions and targets, declarations, the other statements without blocks, and
//! statements of what their blocks come to.
#![tactic(auto)]

mod blocks;
mod copies;
mod declarations;
mod growing;
mod lines;
mod lists;
mod names;
mod state;
mod values;

pub use blocks::{
    branched, chosen, guarded, loop_word, looped, offered, ran, selected, started, walked,
};
pub use declarations::{add_declared, declare, declare_one, open_walk, type_of};
pub use growing::Growing;
pub use lines::{
    communicating, communication_in, element_in, exit_in, finish_in, return_in, write_in,
};
pub use lists::{joined, nothing, one};
pub use names::{add_name, add_variable, bind, copied, next_slot, note_new_name};
pub use state::{Binder, Opened, State};
pub use values::{assignment_in, guard_in, target_in, test_in, value_in, values_in};
