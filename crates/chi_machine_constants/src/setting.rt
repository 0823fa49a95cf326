//! One constant after another.

ghost use Rattle.std.specs.Prelude.{◌≡◌, [], length, IfOk};
ghost use Rattle.chi_core.specs.Beginning.{constant_view};
ghost use Rattle.chi_exec.specs.Ends.{EndedAt};
ghost use Rattle.chi_exec.specs.Hints.{AreRight};
ghost use Rattle.chi_exec_steps.specs.Views.{state_of};
ghost use Rattle.chi_exec_law.specs.Laws.{begun};
ghost use Rattle.chi_exec_law.specs.Machine.{in_expressions, step};
ghost use Rattle.chi_machine_laws.specs.Beginning.{scene_before};
ghost use Rattle.chi_machine_constants.specs.Moves.{Moved};
ghost use Rattle.chi_machine_constants.specs.Settings.{HaveCome, MayBegin};

use crate::lines::line_from;
use chi_base::NoMemory;
use chi_code::Code;
use chi_core::{FaultKind, View};
use chi_core_apply::Scenery;
use chi_core_frame::Stop;
use chi_exec::{Extent, Machine, fresh_frame, pop, run_on};
use chi_value::Value;
use std::alloc::Global;

/// What the constants came to.
#[derive(Debug, Drop)]
pub enum Constants {
    /// All are set: their values.
    Set(Vec<Value>),
    /// A fault in one of them, and its line.
    Broken(FaultKind, u32),
}

/// What one constant came to.
#[derive(Debug, Drop)]
enum Next {
    /// It is set, and the code of the next begins at this place.
    Set(usize),
    /// There is none.
    Over,
    /// A fault, and the constant's line.
    Broken(FaultKind, u32),
}

/// A machine that stands at a place, with nothing on its stack and nothing under way, and nothing used up.
pub fn fresh_machine(alloc: Global, at: usize) -> Result<Machine, NoMemory>
    ensures { IfOk result (λ m. state_of m ≡ begun at [] constant_view) }
{
    let frame = match fresh_frame(alloc) {
        Ok(frame) => frame,
        Err(_) => return Err(NoMemory),
    };
    Ok(Machine {
        at,
        stack: Vec::new(alloc),
        frame,
        callers: Vec::new(alloc),
        spare: Vec::new(alloc),
        view: View {
            left: 0,
            draws: [0; 64],
            channels: 0,
            instances: 0,
        },
        stop: Stop::NoMemory,
    })
}

/// How many values there are.
fn height(stack: &Vec<Value>) -> usize
    ensures { result ≡ length stack.now.items }
{
    stack.len()
}

/// Why a constant, whose code begins at a place, wasn't set.
fn broken(code: &Code, seed: u64, at: usize, before: &[Value], stop: Stop) -> Result<Next, NoMemory>
    requires may { MayBegin code.now seed at before.now }
    requires ended { EndedAt (step (in_expressions code.now (scene_before code.now seed before.now))) (begun at [] constant_view) stop }
    ensures { IfOk result (λ next. Moved code.now seed at before.now next before.now) }
{
    let kind = match stop {
        Stop::Fault(kind) => kind,
        Stop::Spent => unreachable!(),
        Stop::NoMemory => return Err(NoMemory),
    };
    match line_from(code.instrs.as_slice(), at) {
        Some(line) => Ok(Next::Broken(kind, line)),
        None => unreachable!(),
    }
}

/// Sets the next constant, if there is one.
fn set_next(
    alloc: Global,
    code: &Code,
    hints: &[u8],
    seed: u64,
    at: usize,
    values: &mut Vec<Value>,
) -> Result<Next, NoMemory>
    requires right { AreRight hints.now code.now.instrs }
    requires may { MayBegin code.now seed at values.old.items }
    ensures { IfOk result (λ next. Moved code.now seed at values.old.items next values.new.items) }
{
    // the length of code that is there bounds its places
    let _size = code.instrs.as_slice().len();
    let mut m = fresh_machine(alloc, at)?;
    let scenery = Scenery {
        names: &code.names,
        seed,
        clock: 0,
        constants: values.as_slice(),
        finished: &[],
    };
    if !run_on(&mut m, alloc, &scenery, code, hints, Extent::Expressions) {
        return broken(code, seed, at, values.as_slice(), m.stop);
    }
    if height(&m.stack) == 0 {
        return Ok(Next::Over);
    }
    values.push(pop(&mut m.stack))?;
    Ok(Next::Set(m.at + 1))
}

/// Sets all constants, in the order of their code.
pub fn set_constants(
    alloc: Global,
    code: &Code,
    hints: &[u8],
    seed: u64,
) -> Result<Constants, NoMemory>
    requires right { AreRight hints.now code.now.instrs }
    requires may { MayBegin code.now seed 0 [] }
    ensures { IfOk result (λ constants. HaveCome code.now seed constants) }
{
    let mut values = Vec::new(alloc);
    let mut at = 0;
    for _constant in 0..u64::MAX {
        let next = set_next(alloc, code, hints, seed, at, &mut values)?;
        match next {
            Next::Set(place) => at = place,
            Next::Over => return Ok(Constants::Set(values)),
            Next::Broken(kind, line) => return Ok(Constants::Broken(kind, line)),
        }
    }
    Err(NoMemory)
}
