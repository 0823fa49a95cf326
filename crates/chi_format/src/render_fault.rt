use chi_value::TextFault;
use std::alloc::AllocError;
use thiserror::Error;

/// Why pieces and values have no text.
#[derive(Clone, Copy, Debug, PartialEq, Eq, Error)]
pub enum RenderFault {
    /// The text would have more bytes than a text may have.
    #[error("formatted text too long")]
    Limit,
    #[error("out of memory")]
    NoMemory,
}

impl From<TextFault> for RenderFault {
    ghost use Rattle.std.specs.Prelude.{◌≡◌};
    ghost use Rattle.chi_format.specs.Refusal.{refusal_of};

    ghost from_gives = { λ refused fault. fault ≡ refusal_of refused };

    fn from(refused: TextFault) -> RenderFault {
        match refused {
            TextFault::Limit => RenderFault::Limit,
            TextFault::NoMemory => RenderFault::NoMemory,
        }
    }
}
