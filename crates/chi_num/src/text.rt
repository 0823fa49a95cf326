//! Numbers as texts: a real with the decimals that it has, or with a fixed number of them.

mod digits;
mod fixed;
mod real;

pub use fixed::fixed_text;
pub use real::real_text;
