//! A run of a program's code, call by call.

ghost use Rattle.std.specs.Prelude.{◌≡◌, ℕ, List, ◌++◌, IfOk, IfSome};
ghost use Rattle.std.specs.Option.{option_copied};
ghost use Rattle.chi_sched.specs.Policies.{Answers};
ghost use Rattle.chi_core.specs.Picks.{Pick};
ghost use Rattle.chi_machine_laws.specs.Beginning.{broken_at};
ghost use Rattle.chi_machine.specs.Calls.{IsMachine, MayBegin, StartsSo, CallsTo, verdict_at, clock_at};

use crate::beginning::Begun;
use crate::course::Course;
use crate::world::World;
use chi_base::NoMemory;
use chi_code::Code;
use chi_core::{FaultKind, Verdict};
use chi_core_kinds::kinded_law;
use chi_machine_agenda::Ending;
use chi_machine_laws::start_law;
use chi_sched::{Chooser, chooser_law};
use chi_token::Bytes;
use chi_value::Value;
use std::alloc::Global;

/// How a run stands after a call.
#[derive(Clone, Copy, Debug)]
pub enum After {
    Going,
    Ended,
    NoMemory,
}

/// A run of a program's code.
#[derive(Drop)]
pub enum Machine {
    Going(Course),
    Ended(Ending),
    /// Memory was wanting.
    Lost,
}

// The end of a run with a fault in a constant, in its line.
fn broken(alloc: Global, kind: FaultKind, line: u32) -> Result<Ending, NoMemory>
    ensures { IfOk result (λ end. end ≡ broken_at kind line) }
{
    let name = Bytes::copy_of(alloc, b"const")?;
    Ok(Ending::of(Verdict::Fault(kind, name, line), 0))
}

impl Machine {
    /// The start of a run, with the arguments of the model, a seed for its draws, and the time at which it is stopped, in
    /// units of a real, where there is one, within a bound.
    pub fn begin(
        alloc: Global,
        code: &Code,
        arguments: Vec<Value>,
        seed: u64,
        until: Option<i64>,
        bound: u64,
    ) -> Result<Machine, NoMemory>
        requires { MayBegin code.now arguments.items bound }
        ensures { IfOk result (λ machine. StartsSo code.now arguments.items seed until bound machine) }
    {
        start_law();
        kinded_law();
        match World::begin(alloc, code, arguments, seed, until)? {
            Begun::Ready(world) => {
                let turn = 0;
                let left = bound;
                Ok(Machine::Going(Course { world, turn, left }))
            }
            Begun::Broken(kind, line) => Ok(Machine::Ended(broken(alloc, kind, line)?)),
        }
    }

    /// So many turns, or fewer where the run ends. What they write goes to the end of the output, that of whole labels alone
    /// where memory is wanting. After the end nothing is done any more, nor after memory was wanting.
    pub fn advance<C: Chooser>(
        &mut self,
        code: &Code,
        chooser: &C,
        turns: u64,
        out: &mut Vec<u8>,
    ) -> After
        requires { IsMachine code.now self.old }
        ensures kept { IsMachine code.now self.new }
        ensures called { (text : List ℕ) × (out.new.items ≡ out.old.items ++ text)
            × ((pick : Pick) → Answers (C.gives chooser.now) pick → CallsTo code.now pick turns self.old self.new text result) }
    {
        chooser_law(chooser);
        let came = match self {
            Machine::Going(course) => course.advance(code, chooser, turns, out),
            Machine::Ended(_) => return After::Ended,
            Machine::Lost => return After::NoMemory,
        };
        match came {
            Ok(None) => After::Going,
            Ok(Some(ending)) => {
                *self = Machine::Ended(ending);
                After::Ended
            }
            Err(_) => {
                *self = Machine::Lost;
                After::NoMemory
            }
        }
    }

    /// The verdict, once the run has ended.
    pub fn verdict(&self) -> Option<&Verdict>
        ensures { option_copied result ≡ verdict_at self.now }
    {
        match self {
            Machine::Going(_) => None,
            Machine::Ended(ending) => Some(ending.verdict()),
            Machine::Lost => None,
        }
    }

    /// The time, in units of a real: that of the ending, where there is one.
    pub fn clock(&self) -> i64
        ensures { IfSome (clock_at self.now) (λ time. result ≡ time) }
    {
        match self {
            Machine::Going(course) => course.world.crowd.agenda.clock(),
            Machine::Ended(ending) => ending.clock(),
            Machine::Lost => 0,
        }
    }
}
