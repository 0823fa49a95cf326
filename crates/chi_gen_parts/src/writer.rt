//! What code is written with.

ghost use Rattle.std.specs.Prelude.{◌≡◌, ◌+◌, ◌<◌, length, set, OnOk, IfOk};
ghost use Rattle.chi_gen_parts.specs.Added.{AddsHole, AddsOne};

use chi_base::{Items, NoMemory};
use chi_code::Instr;
use chi_gen_sizes::plus;

/// Writes an instruction at the end.
#[tactic(auto, using(crate::proofs::Growing::one_added))]
pub fn put(code: &mut Vec<Instr>, instr: Instr) -> Result<(), NoMemory>
    ensures { OnOk result (AddsOne instr code.old.items code.new.items) }
{
    code.push(instr)?;
    Ok(())
}

/// Leaves room for an instruction whose goal isn't known yet: its place.
pub(crate) fn hole(code: &mut Vec<Instr>) -> Result<u64, NoMemory>
    ensures { IfOk result (λ at. AddsHole at code.old.items code.new.items) }
{
    let at = place(code);
    put(code, Instr::Jump(at))?;
    Ok(at)
}

/// Writes the instruction for which there was room.
pub(crate) fn fill(code: &mut Vec<Instr>, at: u64, instr: Instr)
    requires { at < length code.old.items }
    ensures { code.new.items ≡ set code.old.items at instr }
{
    code[at as usize] = instr;
}

/// The place of the next instruction.
pub fn place(code: &Vec<Instr>) -> u64
    ensures { result ≡ length code.now.items }
{
    code.len() as u64
}

/// The place behind the next instruction and so many more.
pub fn behind(code: &Vec<Instr>, size: u64) -> Result<u64, NoMemory>
    ensures { IfOk result (λ n. n ≡ length code.now.items + 1 + size) }
{
    let next = plus(place(code), 1)?;
    plus(next, size)
}

/// How many there are.
pub fn number_of<T>(parts: &Items<T>) -> Result<u32, NoMemory>
    ensures { IfOk result (λ n. n ≡ length parts.now) }
{
    match u32::try_from(parts.as_slice().len()) {
        Ok(n) => Ok(n),
        Err(_) => Err(NoMemory),
    }
}

/// The next number.
pub fn plus_one(number: u32) -> Result<u32, NoMemory>
    ensures { IfOk result (λ n. n ≡ number + 1) }
{
    number.checked_add(1).ok_or(NoMemory)
}
