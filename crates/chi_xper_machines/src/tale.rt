/// How an experiment has ended.
#[derive(Clone, Copy, Debug, PartialEq, Eq)]
pub enum Ended {
    /// There is none.
    Missing,
    /// Its body has ended.
    Completed,
    /// A run of it has ended well, but without a value.
    WithoutValue,
    /// A run of it is in a deadlock.
    Deadlocked,
    /// A fault in a constant, in a line of its own or in a run.
    Faulted,
    /// Its own items or those of a run cost more than the bound.
    OutOfSteps,
}

/// What is told of an experiment.
#[derive(Debug, Drop)]
pub struct Tale {
    pub ended: Ended,
    /// What it wrote, and what its runs wrote.
    pub out: Vec<u8>,
    /// The line that tells how it ended.
    pub log: Vec<u8>,
}
