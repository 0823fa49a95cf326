use crate::term::Term;
use chi_core::View;
use chi_core_frame::Variables;

/// How far an experiment has come.
#[derive(Debug, Drop)]
pub struct Course<'a> {
    pub variables: Variables,
    /// What is left to do.
    pub term: Term<'a>,
    pub view: View,
    /// Of the runs that were made.
    pub count: u64,
}
