//! The words of the command line as a request, and the arguments of a model as its values.
#![tactic(auto)]

mod args;
mod command;
mod fault;
mod laws;
mod number;
mod one_run;
mod parsing;
mod policy;
mod probe;
mod reading;
mod request;
mod two_files;
mod words;

pub use args::ArgFault;
pub use fault::CliFault;
pub use laws::{
    faults_of_arguments_name_them, numbers_are_in_range, one_request_law, values_are_of_parameters,
};
pub use number::number_in;
pub use reading::read_args;
pub use request::{Pick, Request};
pub use words::{MOST_STEPS, STEPS, read_words};
