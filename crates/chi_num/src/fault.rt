use thiserror::Error;

/// Why an operation on numbers has no answer.
#[derive(Clone, Copy, Debug, PartialEq, Eq, Error)]
pub enum NumFault {
    /// 64 bits don't hold the exact result.
    #[error("out of range")]
    Range = 1,
    /// The divisor is 0.
    #[error("division by zero")]
    Zero = 2,
    /// The exponent is below 0.
    #[error("negative exponent")]
    Power = 3,
}
