/// Rooms at which something may change: words of 64 bits, and words by powers of 4.
pub const ROOMS: [u32; 7] = [0, 1, 63, 64, 65, 4_096, 100_000];

/// Numbers in an order that looks random, always the same.
#[derive(Drop)]
pub struct Random {
    state: u64,
}

impl Random {
    pub fn new() -> Random {
        Random { state: 42 }
    }

    /// The next one, below 2 ^ 31.
    pub fn next(&mut self) -> u32 {
        self.state = self
            .state
            .wrapping_mul(6_364_136_223_846_793_005)
            .wrapping_add(1_442_695_040_888_963_407);
        (self.state >> 33) as u32
    }
}
