//! What each instruction does.

ghost use Rattle.std.specs.Prelude.{◌≡◌, ◌≢◌, ◌+◌, ◌<◌, ◌^◌, Some, IfErr, OnOk};
ghost use Rattle.chi_core_apply.specs.Scenery.{scene_of};
ghost use Rattle.chi_exec_law.specs.Runs.{Goes, Stuck};
ghost use Rattle.chi_exec_law.specs.Instructions.{act};
ghost use Rattle.chi_exec_steps.specs.Views.{state_of, Ended};

use crate::assigning::assign;
use crate::calling::{call, ret};
use crate::inserting::{found, place, probe, scan};
use crate::machinery::Machine;
use crate::making::{build, constant, default, literal, part, spread};
use crate::operating::operate;
use crate::repeating::{add, more, repeat};
use crate::simple::{and, if_false, jump, load, or, store, tick};
use crate::walking::{leave, next, walk};
use chi_code::{Entry, Instr};
use chi_core::FaultKind;
use chi_core_apply::Scenery;
use chi_core_frame::Stop;
use std::alloc::Global;

/// Does one instruction.
#[inline(never)]
pub fn act(
    m: &mut Machine,
    alloc: Global,
    s: &Scenery<'_>,
    functions: &[Entry],
    instr: &Instr,
) -> Result<(), Stop>
    requires place { m.old.at + 1 < 2 ^ 64 }
    requires sound { act (scene_of s.now) functions.now (Some instr.now) (state_of m.old) ≢ Stuck }
    ensures goes { OnOk result (act (scene_of s.now) functions.now (Some instr.now) (state_of m.old) ≡ Goes (state_of m.new)) }
    ensures ends { IfErr result (λ stop. Ended stop (act (scene_of s.now) functions.now (Some instr.now) (state_of m.old))) }
{
    match instr {
        Instr::Tick => tick(m),
        Instr::Push(x) => literal(m, alloc, x),
        Instr::Load(k) => load(m, alloc, *k),
        Instr::Const(k) => constant(m, alloc, s, *k),
        Instr::Op(name, n) => operate(m, alloc, s, *name, *n),
        Instr::And(to) => and(m, alloc, *to),
        Instr::Or(to) => or(m, alloc, *to),
        Instr::Build(kind, n) => build(m, alloc, *kind, *n),
        Instr::Part(k) => part(m, alloc, *k),
        Instr::Call(k) => call(m, alloc, functions, *k),
        Instr::Scan => scan(m),
        Instr::Probe(to) => probe(m, alloc, *to),
        Instr::Found(to) => found(m, *to),
        Instr::Place => place(m, alloc),
        Instr::Default(shape) => default(m, alloc, shape),
        Instr::Repeat => repeat(m, alloc),
        Instr::More(to) => more(m, alloc, *to),
        Instr::Add => add(m),
        Instr::Jump(to) => {
            jump(m, *to);
            Ok(())
        }
        Instr::Store(k) => {
            store(m, *k);
            Ok(())
        }
        Instr::Spread(_) => spread(m, alloc),
        Instr::Assign(aims) => assign(m, alloc, aims.as_slice()),
        Instr::IfFalse(to) => {
            if_false(m, *to);
            Ok(())
        }
        Instr::Walk => walk(m),
        Instr::Next(end, slots) => next(m, alloc, *end, slots.as_slice()),
        Instr::Drop => {
            leave(m);
            Ok(())
        }
        Instr::Ret => ret(m),
        Instr::NoRet => Err(Stop::Fault(FaultKind::NoReturn)),
        Instr::Mark(_)
        | Instr::SetConst(_, _)
        | Instr::Done
        | Instr::Exit(_)
        | Instr::Write(_)
        | Instr::Wait
        | Instr::Send(_, _)
        | Instr::SendVoid(_, _)
        | Instr::Receive(_, _, _)
        | Instr::ReceiveVoid(_, _)
        | Instr::Delay(_, _)
        | Instr::Timer(_, _)
        | Instr::Make(_, _)
        | Instr::Join
        | Instr::Finish(_) => unreachable!(),
    }
}
