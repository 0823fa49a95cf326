//! What comes of the models that an experiment runs, and of the constants before it. The functions compute nothing: their contracts are
//! the laws.
#![tactic(auto)]

mod laws;

pub use laws::{
    constants_law, ending_run_law, exits_law, one_experiment_law, outcomes_law, verdict_law,
};
