use thiserror::Error;

/// Why a distribution can't be sampled.
#[derive(Clone, Copy, Debug, PartialEq, Eq, Error)]
pub enum DistFault {
    /// No number lies from the first bound to before the second, the number of trials is below 0, or the
    /// mean isn't above 0.0 and at most 100,000,000.0.
    #[error("bad bounds")]
    BadBounds = 1,
    /// The chance isn't from 0.0 to 1.0.
    #[error("bad chance")]
    BadChance = 2,
    /// There are more than 10,000 trials.
    #[error("too many trials")]
    TooMany = 3,
}
