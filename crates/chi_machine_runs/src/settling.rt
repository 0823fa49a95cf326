//! Jumps, which an instance follows once it waits no longer.

ghost use Rattle.std.specs.Prelude.{◌≡◌, ℕ, Some, IfSome, IfNone};
ghost use Rattle.chi_exec_law.specs.Runs.{Goes, Ends, Rests, Reaches, Halts};
ghost use Rattle.chi_machine_laws.specs.Labels.{jumps, jumps_from};

use chi_code::{Code, Instr};

/// A place from which jumps come to an end.
#[derive(Drop)]
pub struct Way<'a> {
    code: &'a Code,
    from: usize,
    ghost ends: { ∥ Halts (jumps code.now.instrs) from ∥₁ },
}

// Where a jump leads; no other instruction leads anywhere.
#[inline(always)]
fn goal_of(instr: &Instr) -> Option<u64>
    ensures leads { IfSome result (λ goal. (place : ℕ) → jumps_from (Some instr.now) place ≡ Goes goal) }
    ensures rests { IfNone result ((place : ℕ) → jumps_from (Some instr.now) place ≡ Ends (Rests place)) }
{
    match instr {
        Instr::Jump(goal) => Some(*goal),
        _ => None,
    }
}

// The same for the instruction that stands at a place.
#[inline(always)]
fn goal_at(code: &Code, at: usize) -> Option<usize>
    ensures leads { IfSome result (λ goal. jumps code.now.instrs at ≡ Goes goal) }
    ensures rests { IfNone result (jumps code.now.instrs at ≡ Ends (Rests at)) }
{
    match code.instrs.as_slice().get(at) {
        Some(instr) => match goal_of(instr) {
            Some(goal) => Some(goal as usize),
            None => None,
        },
        None => None,
    }
}

fn follow(way: Way<'_>) -> usize
    ensures { Reaches (jumps way.entry.code.now.instrs) way.entry.from (Rests result) }
{
    let Way { code, from } = way;
    let mut at = from;
    while let Some(goal) = goal_at(code, at) {
        at = goal;
    }
    at
}

/// From a place through jumps, to the instruction that is next to be done.
pub fn settle(code: &Code, at: usize) -> usize
    requires { Halts (jumps code.now.instrs) at }
    ensures { Reaches (jumps code.now.instrs) at (Rests result) }
{
    let way = Way { code, from: at };
    follow(way)
}
