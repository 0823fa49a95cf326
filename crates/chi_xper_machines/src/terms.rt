use chi_cli::Pick;

/// On what terms an experiment is made. Each of its runs has a seed of its own, no stopping time and no trace.
#[derive(Clone, Copy, Debug)]
pub struct ExperimentTerms {
    /// That of its first run.
    pub seed: u64,
    /// On the costs of its own items, and for each run the same.
    pub bound: u64,
    /// What picks among the labels of a run that may come.
    pub pick: Pick,
}
