//! Configurations of a run as a runner keeps them: how a run begins, and what each label does.
#![tactic(auto)]

mod beginning;
mod configuration;
mod deed;
mod ending;
mod meeting;
mod performing;
mod planning;
mod stepping;

pub use beginning::{Begun, begin};
pub use configuration::Configuration;
pub use deed::Deed;
pub use ending::Ending;
pub use performing::own_statement;
pub use stepping::Went;
