ghost use Rattle.std.specs.Prelude.{◌≡◌, ◌+◌, ◌≤◌, IfOk, IfErr, map};
ghost use Rattle.chi_value.specs.Default.{default, in_turn, tuple_of, PastChannels};

use crate::{Items, Row, Shape, Value};
use chi_base::{Boxed, NoMemory};
use chi_num::{Dist, Real};
use chi_token::Bytes;
use std::alloc::{AllocFailed, Global};
use thiserror::Error;

/// How many channels there may be.
pub const MOST_CHANNELS: u32 = 1_000_000;

/// Why there is no default.
#[derive(Clone, Copy, Debug, PartialEq, Eq, Error)]
pub enum DefaultFault {
    /// There would be more channels than there may be.
    #[error("too many channels")]
    TooManyChannels,
    #[error("out of memory")]
    NoMemory,
}

impl From<NoMemory> for DefaultFault {
    ghost use Rattle.std.specs.Prelude.{◌≡◌};
    ghost use Rattle.chi_value.specs.declared.defaults.DefaultFault.TheVariants.{NoMemory};

    ghost from_gives = { λ _ fault. fault ≡ NoMemory };

    fn from(_refused: NoMemory) -> DefaultFault {
        DefaultFault::NoMemory
    }
}

impl<T: Drop> From<AllocFailed<T>> for DefaultFault {
    ghost use Rattle.std.specs.Prelude.{◌≡◌};
    ghost use Rattle.chi_value.specs.declared.defaults.DefaultFault.TheVariants.{NoMemory};

    ghost from_gives = { λ _ fault. fault ≡ NoMemory };

    fn from(_refused: AllocFailed<T>) -> DefaultFault {
        DefaultFault::NoMemory
    }
}

/// The default of a shape, where there are so many channels so far, and how many there are then.
#[tactic(auto, using(crate::proofs::Growth::default_grows))]
pub fn default_of(alloc: Global, shape: &Shape, channels: u32) -> Result<(Value, u32), DefaultFault>
    ensures value { IfOk result (λ made. made ≡ default shape.now channels) }
    ensures within { IfOk result (λ made. made.1 ≤ MOST_CHANNELS) }
    ensures refused { IfErr result (λ fault. PastChannels fault (default shape.now channels).1) }
{
    if channels > MOST_CHANNELS {
        return Err(DefaultFault::TooManyChannels);
    }
    Ok(make_default(shape, alloc, channels)?)
}

#[cycle(make_default)]
fn make_default(shape: &Shape, alloc: Global, channels: u32) -> Result<(Value, u32), DefaultFault>
    requires { channels ≤ MOST_CHANNELS }
    ensures value { IfOk result (λ made. made ≡ default shape.now channels) }
    ensures within { IfOk result (λ made. made.1 ≤ MOST_CHANNELS) }
    ensures refused { IfErr result (λ fault. PastChannels fault (default shape.now channels).1) }
{
    let value = match shape {
        Shape::Bool => Value::Bool(false),
        Shape::Int => Value::Int(0),
        Shape::Real => Value::Real(Real::from_units(0)),
        Shape::Text => Value::Text(Bytes::copy_of(alloc, b"")?),
        Shape::Choice(kind) => Value::Choice(*kind, 0),
        Shape::TupleOf(parts) => return Ok(make_tuple(parts.as_slice(), alloc, channels)?),
        Shape::ListOf => Value::ListOf(Row::of(alloc, Vec::new(alloc))?),
        Shape::SetOf => Value::SetOf(Items::of(alloc, Vec::new(alloc))?),
        Shape::DictOf => Value::DictOf(Items::of(alloc, Vec::new(alloc))?),
        Shape::Chan => return Ok(make_channel(channels)?),
        Shape::DistBool => Value::Dist(Boxed::new(alloc, Dist::ConstBool(false))?),
        Shape::DistInt => Value::Dist(Boxed::new(alloc, Dist::ConstInt(0))?),
        Shape::DistReal => Value::Dist(Boxed::new(alloc, Dist::ConstReal(Real::from_units(0)))?),
        Shape::Timer => Value::Timer(0),
        Shape::Inst => Value::Inst(None),
    };
    Ok((value, channels))
}

fn make_channel(channels: u32) -> Result<(Value, u32), DefaultFault>
    requires { channels ≤ MOST_CHANNELS }
    ensures value { IfOk result (λ made. made ≡ (Value.Chan channels, channels + 1)) }
    ensures within { IfOk result (λ made. made.1 ≤ MOST_CHANNELS) }
    ensures refused { IfErr result (λ fault. PastChannels fault (channels + 1)) }
{
    if channels >= MOST_CHANNELS {
        return Err(DefaultFault::TooManyChannels);
    }
    Ok((Value::Chan(channels), channels + 1))
}

#[cycle(make_default)]
fn make_tuple(parts: &[Shape], alloc: Global, channels: u32) -> Result<(Value, u32), DefaultFault>
    requires { channels ≤ MOST_CHANNELS }
    ensures value { IfOk result (λ made. made ≡ tuple_of (in_turn (map default parts.now) channels)) }
    ensures within { IfOk result (λ made. made.1 ≤ MOST_CHANNELS) }
    ensures refused { IfErr result (λ fault. PastChannels fault (in_turn (map default parts.now) channels).1) }
{
    let mut made = Vec::new(alloc);
    let mut count = channels;
    for part in parts {
        let (value, next) = make_default(part, alloc, count)?;
        made.push(value)?;
        count = next;
    }
    Ok((Value::TupleOf(Items::of(alloc, made)?), count))
}
