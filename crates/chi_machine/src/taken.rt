use chi_core::Verdict;

/// What taking a label came to.
#[derive(Debug, Drop)]
pub enum Taken {
    /// So much is left of the bound.
    On(u64),
    /// The run is over.
    Over(Verdict),
    /// It costs more than is left.
    Spent,
}
