use chi_core::{FaultKind, Verdict};

/// How an experiment has ended.
#[derive(Debug, Drop)]
pub enum XEnd {
    /// Its body has ended, after so many runs.
    Done(u64),
    /// The run of this number, counted from 0, of the model of this number has ended so, at this time, without a value
    /// for the experiment.
    Run(u64, u32, Verdict, i64),
    /// A fault in this line of the experiment, after so many runs.
    Fault(FaultKind, u32, u64),
    /// The next statement costs more than is left of the bound, after so many runs.
    Spent(u64),
    NoMemory,
}
