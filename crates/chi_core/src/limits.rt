/// How deep calls of functions may be.
pub const MOST_CALLS: usize = 500;

/// How many offers one opened select may have.
pub const MOST_OFFERS: usize = 65_536;

/// How many instances a run may make.
pub const MOST_INSTANCES: usize = 100_000;
