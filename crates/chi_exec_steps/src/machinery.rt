ghost use Rattle.std.specs.Prelude.{◌≡◌, [], IfOk, IfErr};
ghost use Rattle.chi_core_frame.specs.declared.stop.Stop.TheVariants.{NoMemory};

use chi_core::View;
use chi_core_frame::{Elements, Stop, Variables};
use chi_value::Value;
use std::alloc::Global;

/// What is under way within a body.
#[derive(Debug, Drop)]
pub enum Turning {
    /// A walk, with the elements that are left.
    Walking(Elements),
    /// An insertion: the list, the element, and how many elements were passed.
    Scanning(Value, Value, usize),
    /// A repetition: how many values are wanted yet, and those that are there.
    Repeating(u32, Vec<Value>),
}

/// What a body has: its variables, and what is under way in it, the innermost last.
#[derive(Debug, Drop)]
pub struct Frame {
    pub variables: Variables,
    pub under: Vec<Turning>,
}

/// A caller that waits: where it goes on, and what it has.
#[derive(Debug, Drop)]
pub struct Caller {
    pub back: usize,
    pub frame: Box<Frame>,
}

/// The machine.
#[derive(Debug, Drop)]
pub struct Machine {
    /// The place in the code.
    pub at: usize,
    /// The topmost value is last.
    pub stack: Vec<Value>,
    /// What the body that runs has.
    pub frame: Box<Frame>,
    /// The nearest caller is last.
    pub callers: Vec<Caller>,
    /// Frames of calls that are over, for calls to come.
    pub spare: Vec<Box<Frame>>,
    pub view: View,
    /// Why it stopped, once it has.
    pub stop: Stop,
}

/// A frame with nothing in it.
pub fn fresh_frame(alloc: Global) -> Result<Box<Frame>, Stop>
    ensures idle { IfOk result (λ frame. frame.value.under.items ≡ []) }
    ensures none { IfOk result (λ frame. frame.value.variables ≡ []) }
    ensures stops { IfErr result (λ stop. stop ≡ NoMemory) }
{
    let variables = Variables::new(alloc, 0, Vec::new(alloc))?;
    let under = Vec::new(alloc);
    Ok(Box::new(alloc, Frame { variables, under })?)
}
