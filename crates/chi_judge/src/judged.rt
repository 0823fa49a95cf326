/// What is said of a text that may be the log of a run.
#[derive(Debug, Drop)]
pub enum Judged {
    /// It is the log of the run that these picks make.
    Yes(Vec<u64>),
    /// It isn't a log, and this is its first wrong line, counted from 1.
    No(u32),
    NoMemory,
}
