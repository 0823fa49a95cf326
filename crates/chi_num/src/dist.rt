use crate::Real;

/// A distribution that `sample` can draw from, by its parameters. Whether they are good is told
/// when it is sampled, not here. Where it draws, the last field is the stream that it draws from.
#[derive(Clone, Copy, Debug, PartialEq, Eq)]
pub enum Dist {
    ConstBool(bool),
    ConstInt(i64),
    ConstReal(Real),
    /// An int from the first to before the second.
    UniformInt(i64, i64, u32),
    /// A real from the first to before the second.
    UniformReal(Real, Real, u32),
    /// True with this chance, from 0.0 to 1.0.
    Bernoulli(Real, u32),
    /// How many of so many trials succeed, each with this chance.
    Binomial(i64, Real, u32),
    /// A real with this mean, above 0.0 and at most 100,000,000.0, exponentially distributed.
    Exponential(Real, u32),
}
