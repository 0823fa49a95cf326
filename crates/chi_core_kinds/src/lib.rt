//! What every step of a sound program keeps: configurations stay kinded, so nothing in a run is amiss;
//! and what operators, literals, defaults and stores give is of its kind. Laws alone: no function computes anything.
#![tactic(auto)]

mod operator_laws;
mod step_laws;

pub use operator_laws::{
    defaults_keep_kinds, literal_values, literals_keep_kinds, operators_keep_kinds,
    stores_keep_kinds, texts_are_there,
};
pub use step_laws::kinded_law;
