//! The rules of typing: by their numbers, the first that is broken, the visible names, and each construct of a type.
#![tactic(auto)]

mod defaults;
mod fault;
mod known;
mod laws;
mod meant;
mod predefined;
pub mod rules;
mod scope;
mod site;
mod table;
mod tuple_rules;
mod type_laws;
mod type_rules;

pub use defaults::{default_of, shape_of};
pub use fault::{Fault, TypeFault, note};
pub use known::{Known, NameKind};
pub use laws::first_is_the_least;
pub use meant::{Made, Meant};
pub use predefined::{PREDEFINED, Predefined, is_predefined, predefined_of};
pub use scope::Scope;
pub use site::Site;
pub use tuple_rules::tuple_of;
pub use type_laws::{defaults_are_sound, types_are_exact, types_are_sound};
pub use type_rules::{
    MOST_TYPE_DEPTH, chan_of, dict_of, dist_of, is_deep, is_drawn, is_int, list_of, named_type,
    note_if, set_of, sized_list_of, void_chan_of, word_of,
};
