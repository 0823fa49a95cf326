//! Statements without blocks, to their code.

ghost use Rattle.std.specs.Prelude.{◌≡◌, OnOk, true};
ghost use Rattle.chi_core.specs.declared.statement.CStat.TheVariants as statement;
ghost use Rattle.chi_gen_parts.specs.Added.{AddsOne, AddsStat, turn_at};
ghost use Rattle.chi_gen.specs.Soundness.{in_loop};

use crate::here::Here;
use chi_base::{Items, NoMemory};
use chi_code::Instr;
use chi_core::{CElem, CExpr, CTarget};
use chi_gen_parts::{
    aims, all_elements, expression, expressions, indexes, number_of, pieces_copy, put, spread,
};
use chi_value::Piece;

/// The instruction at which a turn begins.
pub(crate) fn turn(process: bool, line: u32, code: &mut Vec<Instr>) -> Result<(), NoMemory>
    ensures { OnOk result (AddsOne (turn_at process line) code.old.items code.new.items) }
{
    if process {
        put(code, Instr::Mark(line))?;
        Ok(())
    } else {
        put(code, Instr::Tick)?;
        Ok(())
    }
}

pub(crate) fn declare(
    here: &Here<'_>,
    line: u32,
    slot: u32,
    e: &CExpr,
    code: &mut Vec<Instr>,
) -> Result<(), NoMemory>
    ensures { OnOk result (AddsStat here.now.process here.now.slots.now here.now.near (statement.Declare line slot e.now) code.old.items code.new.items) }
{
    turn(here.process, line, code)?;
    expression(here.alloc, e, code)?;
    put(code, Instr::Store(slot))?;
    Ok(())
}

pub(crate) fn assign(
    here: &Here<'_>,
    line: u32,
    targets: &Items<CTarget>,
    es: &Items<CExpr>,
    code: &mut Vec<Instr>,
) -> Result<(), NoMemory>
    ensures { OnOk result (AddsStat here.now.process here.now.slots.now here.now.near (statement.Assign line targets.now es.now) code.old.items code.new.items) }
{
    turn(here.process, line, code)?;
    expressions(here.alloc, es, code)?;
    spread(targets, es, code)?;
    let places = targets.as_slice();
    indexes(here.alloc, places, code)?;
    put(code, Instr::Assign(aims(here.alloc, places)?))?;
    Ok(())
}

/// Leaves the nearest loop.
pub(crate) fn leave(here: &Here<'_>, line: u32, code: &mut Vec<Instr>) -> Result<(), NoMemory>
    requires { in_loop here.now.near ≡ true }
    ensures { OnOk result (AddsStat here.now.process here.now.slots.now here.now.near (statement.Break line) code.old.items code.new.items) }
{
    match here.near {
        Some(near) => {
            turn(here.process, line, code)?;
            if near.walks {
                put(code, Instr::Drop)?;
                put(code, Instr::Jump(near.end))?;
                Ok(())
            } else {
                put(code, Instr::Jump(near.end))?;
                Ok(())
            }
        }
        None => unreachable!(),
    }
}

/// Goes on with the next turn of the nearest loop.
pub(crate) fn again(here: &Here<'_>, line: u32, code: &mut Vec<Instr>) -> Result<(), NoMemory>
    requires { in_loop here.now.near ≡ true }
    ensures { OnOk result (AddsStat here.now.process here.now.slots.now here.now.near (statement.Continue line) code.old.items code.new.items) }
{
    match here.near {
        Some(near) => {
            turn(here.process, line, code)?;
            put(code, Instr::Jump(near.top))?;
            Ok(())
        }
        None => unreachable!(),
    }
}

pub(crate) fn pass(here: &Here<'_>, line: u32, code: &mut Vec<Instr>) -> Result<(), NoMemory>
    ensures { OnOk result (AddsStat here.now.process here.now.slots.now here.now.near (statement.Pass line) code.old.items code.new.items) }
{
    turn(here.process, line, code)?;
    Ok(())
}

pub(crate) fn give_back(
    here: &Here<'_>,
    line: u32,
    e: &CExpr,
    code: &mut Vec<Instr>,
) -> Result<(), NoMemory>
    ensures { OnOk result (AddsStat here.now.process here.now.slots.now here.now.near (statement.Return line e.now) code.old.items code.new.items) }
{
    turn(here.process, line, code)?;
    expression(here.alloc, e, code)?;
    put(code, Instr::Ret)?;
    Ok(())
}

pub(crate) fn exit(
    here: &Here<'_>,
    line: u32,
    value: &Option<CExpr>,
    code: &mut Vec<Instr>,
) -> Result<(), NoMemory>
    ensures { OnOk result (AddsStat here.now.process here.now.slots.now here.now.near (statement.Exit line value.now) code.old.items code.new.items) }
{
    turn(here.process, line, code)?;
    match value {
        None => {
            put(code, Instr::Exit(false))?;
            Ok(())
        }
        Some(e) => {
            expression(here.alloc, e, code)?;
            put(code, Instr::Exit(true))?;
            Ok(())
        }
    }
}

pub(crate) fn write(
    here: &Here<'_>,
    line: u32,
    pieces: &Items<Piece>,
    es: &Items<CExpr>,
    code: &mut Vec<Instr>,
) -> Result<(), NoMemory>
    ensures { OnOk result (AddsStat here.now.process here.now.slots.now here.now.near (statement.Write line pieces.now es.now) code.old.items code.new.items) }
{
    turn(here.process, line, code)?;
    expressions(here.alloc, es, code)?;
    put(code, Instr::Write(pieces_copy(here.alloc, pieces)?))?;
    Ok(())
}

pub(crate) fn run(
    here: &Here<'_>,
    line: u32,
    xs: &Items<CElem>,
    code: &mut Vec<Instr>,
) -> Result<(), NoMemory>
    ensures { OnOk result (AddsStat here.now.process here.now.slots.now here.now.near (statement.Run line xs.now) code.old.items code.new.items) }
{
    turn(here.process, line, code)?;
    all_elements(here.alloc, xs, code)?;
    put(code, Instr::Join)?;
    Ok(())
}

pub(crate) fn start(
    here: &Here<'_>,
    line: u32,
    xs: &Items<CElem>,
    code: &mut Vec<Instr>,
) -> Result<(), NoMemory>
    ensures { OnOk result (AddsStat here.now.process here.now.slots.now here.now.near (statement.Start line xs.now) code.old.items code.new.items) }
{
    turn(here.process, line, code)?;
    all_elements(here.alloc, xs, code)?;
    Ok(())
}

pub(crate) fn finish(
    here: &Here<'_>,
    line: u32,
    es: &Items<CExpr>,
    code: &mut Vec<Instr>,
) -> Result<(), NoMemory>
    ensures { OnOk result (AddsStat here.now.process here.now.slots.now here.now.near (statement.Finish line es.now) code.old.items code.new.items) }
{
    turn(here.process, line, code)?;
    expressions(here.alloc, es, code)?;
    put(code, Instr::Finish(number_of(es)?))?;
    Ok(())
}
