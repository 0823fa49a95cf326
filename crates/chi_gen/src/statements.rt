//! Statements and blocks to their code.

ghost use Rattle.std.specs.Prelude.{OnOk, [], ◌∷◌, true, false};
ghost use Rattle.chi_core.specs.declared.statement.CStat.TheVariants as statement;
ghost use Rattle.chi_core.specs.Kinds.{Every};
ghost use Rattle.chi_gen_sizes.specs.Measuring.{AltMeasured, AltsMeasured, BlockMeasured, BranchMeasured, BranchesMeasured, StatMeasured};
ghost use Rattle.chi_gen_parts.specs.Added.{AddsBlock, AddsStat, walks_in};
ghost use Rattle.chi_gen.specs.Passes.{AddsBodies, AddsTests};
ghost use Rattle.chi_gen.specs.Soundness.{in_loop, SoundAlternativeAt, SoundAt, SoundBranchAt};

use crate::here::{Here, Parts};
use crate::selects::fronts;
use crate::simple::{
    again, assign, declare, exit, finish, give_back, leave, pass, run, start, turn, write,
};
use chi_base::{Items, NoMemory};
use chi_code::{Around, Instr};
use chi_core::{Branch, CAlt, CExpr, CStat};
use chi_gen_parts::{behind, expression, place, put, slots_copy};
use chi_gen_sizes::{Measured, plus, total_of};

#[cycle(statement)]
fn statement(
    here: &Here<'_>,
    x: &CStat,
    sizes: &Measured,
    code: &mut Vec<Instr>,
) -> Result<(), NoMemory>
    requires sound { SoundAt here.now.slots.now (in_loop here.now.near) x.now }
    requires measured { StatMeasured (walks_in here.now.near) x.now sizes.now }
    ensures { OnOk result (AddsStat here.now.process here.now.slots.now here.now.near x.now code.old.items code.new.items) }
{
    match x {
        CStat::Declare(line, slot, e) => declare(here, *line, *slot, e, code),
        CStat::Assign(line, targets, es) => assign(here, *line, targets, es, code),
        CStat::If(line, tests, otherwise) => {
            let first = Parts {
                items: tests,
                sizes: &sizes.parts,
            };
            let last = Parts {
                items: otherwise,
                sizes: &sizes.others,
            };
            choose(here, *line, &first, &last, code)
        }
        CStat::While(line, test, inner) => {
            let inner = Parts {
                items: inner,
                sizes: &sizes.parts,
            };
            repeat(here, *line, test, &inner, code)
        }
        CStat::For(line, names, e, inner) => {
            let inner = Parts {
                items: inner,
                sizes: &sizes.parts,
            };
            walk(here, *line, names, e, &inner, code)
        }
        CStat::Break(line) => leave(here, *line, code),
        CStat::Continue(line) => again(here, *line, code),
        CStat::Pass(line) => pass(here, *line, code),
        CStat::Return(line, e) => give_back(here, *line, e, code),
        CStat::Exit(line, value) => exit(here, *line, value, code),
        CStat::Write(line, pieces, es) => write(here, *line, pieces, es, code),
        CStat::Select(line, alternatives) => {
            let inner = Parts {
                items: alternatives,
                sizes: &sizes.parts,
            };
            select(here, *line, &inner, code)
        }
        CStat::Run(line, xs) => run(here, *line, xs, code),
        CStat::Start(line, xs) => start(here, *line, xs, code),
        CStat::Finish(line, es) => finish(here, *line, es, code),
    }
}

/// Statements in turn.
#[cycle(statement)]
pub(crate) fn block(
    here: &Here<'_>,
    xs: &[CStat],
    sizes: &[Measured],
    code: &mut Vec<Instr>,
) -> Result<(), NoMemory>
    requires sound { Every (SoundAt here.now.slots.now (in_loop here.now.near)) xs.now }
    requires measured { BlockMeasured (walks_in here.now.near) xs.now sizes.now }
    ensures { OnOk result (AddsBlock here.now.process here.now.slots.now here.now.near xs.now code.old.items code.new.items) }
{
    for i in 0..xs.len() {
        statement(here, &xs[i], &sizes[i], code)?;
    }
    Ok(())
}

#[cycle(statement)]
fn choose(
    here: &Here<'_>,
    line: u32,
    first: &Parts<'_, Branch>,
    last: &Parts<'_, CStat>,
    code: &mut Vec<Instr>,
) -> Result<(), NoMemory>
    requires first { Every (SoundBranchAt here.now.slots.now (in_loop here.now.near)) first.now.items.now }
    requires last { Every (SoundAt here.now.slots.now (in_loop here.now.near)) last.now.items.now }
    requires measured { BranchesMeasured (walks_in here.now.near) first.now.items.now first.now.sizes.now }
    requires measured_last { BlockMeasured (walks_in here.now.near) last.now.items.now last.now.sizes.now }
    ensures { OnOk result (AddsStat here.now.process here.now.slots.now here.now.near (statement.If line first.now.items.now last.now.items.now) code.old.items code.new.items) }
{
    let tests = first.items.as_slice();
    let parts = first.sizes.as_slice();
    let otherwise = last.items.as_slice();
    let others = last.sizes.as_slice();
    turn(here.process, line, code)?;
    let size = plus(total_of(parts)?, total_of(others)?)?;
    let end = plus(place(code), size)?;
    branches(here, end, tests, parts, code)?;
    block(here, otherwise, others, code)?;
    Ok(())
}

#[cycle(statement)]
fn branches(
    here: &Here<'_>,
    end: u64,
    xs: &[Branch],
    sizes: &[Measured],
    code: &mut Vec<Instr>,
) -> Result<(), NoMemory>
    requires sound { Every (SoundBranchAt here.now.slots.now (in_loop here.now.near)) xs.now }
    requires measured { BranchesMeasured (walks_in here.now.near) xs.now sizes.now }
    ensures { OnOk result (AddsTests here.now.process here.now.slots.now here.now.near end xs.now code.old.items code.new.items) }
{
    for i in 0..xs.len() {
        branch(here, end, &xs[i], &sizes[i], code)?;
    }
    Ok(())
}

#[cycle(statement)]
fn branch(
    here: &Here<'_>,
    end: u64,
    x: &Branch,
    sizes: &Measured,
    code: &mut Vec<Instr>,
) -> Result<(), NoMemory>
    requires sound { SoundBranchAt here.now.slots.now (in_loop here.now.near) x.now }
    requires measured { BranchMeasured (walks_in here.now.near) x.now sizes.now }
    ensures { OnOk result (AddsTests here.now.process here.now.slots.now here.now.near end (x.now ∷ []) code.old.items code.new.items) }
{
    let inner = x.block.as_slice();
    let parts = sizes.parts.as_slice();
    expression(here.alloc, &x.test, code)?;
    let next = behind(code, plus(total_of(parts)?, 1)?)?;
    put(code, Instr::IfFalse(next))?;
    block(here, inner, parts, code)?;
    put(code, Instr::Jump(end))?;
    Ok(())
}

#[cycle(statement)]
fn repeat(
    here: &Here<'_>,
    line: u32,
    test: &CExpr,
    inner: &Parts<'_, CStat>,
    code: &mut Vec<Instr>,
) -> Result<(), NoMemory>
    requires sound { Every (SoundAt here.now.slots.now true) inner.now.items.now }
    requires measured { BlockMeasured false inner.now.items.now inner.now.sizes.now }
    ensures { OnOk result (AddsStat here.now.process here.now.slots.now here.now.near (statement.While line test.now inner.now.items.now) code.old.items code.new.items) }
{
    let xs = inner.items.as_slice();
    let sizes = inner.sizes.as_slice();
    let top = place(code);
    turn(here.process, line, code)?;
    expression(here.alloc, test, code)?;
    let end = behind(code, plus(total_of(sizes)?, 1)?)?;
    put(code, Instr::IfFalse(end))?;
    let inside = Here {
        alloc: here.alloc,
        process: here.process,
        slots: here.slots,
        near: Some(Around {
            top,
            end,
            walks: false,
        }),
    };
    block(&inside, xs, sizes, code)?;
    put(code, Instr::Jump(top))?;
    Ok(())
}

#[cycle(statement)]
fn walk(
    here: &Here<'_>,
    line: u32,
    names: &Items<u32>,
    e: &CExpr,
    inner: &Parts<'_, CStat>,
    code: &mut Vec<Instr>,
) -> Result<(), NoMemory>
    requires sound { Every (SoundAt here.now.slots.now true) inner.now.items.now }
    requires measured { BlockMeasured true inner.now.items.now inner.now.sizes.now }
    ensures { OnOk result (AddsStat here.now.process here.now.slots.now here.now.near (statement.For line names.now e.now inner.now.items.now) code.old.items code.new.items) }
{
    let xs = inner.items.as_slice();
    let sizes = inner.sizes.as_slice();
    turn(here.process, line, code)?;
    expression(here.alloc, e, code)?;
    put(code, Instr::Walk)?;
    let top = place(code);
    turn(here.process, line, code)?;
    let end = behind(code, plus(total_of(sizes)?, 1)?)?;
    put(code, Instr::Next(end, slots_copy(here.alloc, names)?))?;
    let inside = Here {
        alloc: here.alloc,
        process: here.process,
        slots: here.slots,
        near: Some(Around {
            top,
            end,
            walks: true,
        }),
    };
    block(&inside, xs, sizes, code)?;
    put(code, Instr::Jump(top))?;
    Ok(())
}

#[cycle(statement)]
fn select(
    here: &Here<'_>,
    line: u32,
    inner: &Parts<'_, CAlt>,
    code: &mut Vec<Instr>,
) -> Result<(), NoMemory>
    requires sound { Every (SoundAlternativeAt here.now.slots.now (in_loop here.now.near)) inner.now.items.now }
    requires measured { AltsMeasured (walks_in here.now.near) inner.now.items.now inner.now.sizes.now }
    ensures { OnOk result (AddsStat here.now.process here.now.slots.now here.now.near (statement.Select line inner.now.items.now) code.old.items code.new.items) }
{
    let xs = inner.items.as_slice();
    let sizes = inner.sizes.as_slice();
    turn(here.process, line, code)?;
    let first = behind(code, total_of(sizes)?)?;
    let end = fronts(here, &[], first, xs, sizes, code)?;
    put(code, Instr::Wait)?;
    bodies(here, end, xs, sizes, code)?;
    Ok(())
}

/// The bodies of alternatives.
#[cycle(statement)]
fn bodies(
    here: &Here<'_>,
    end: u64,
    xs: &[CAlt],
    sizes: &[Measured],
    code: &mut Vec<Instr>,
) -> Result<(), NoMemory>
    requires sound { Every (SoundAlternativeAt here.now.slots.now (in_loop here.now.near)) xs.now }
    requires measured { AltsMeasured (walks_in here.now.near) xs.now sizes.now }
    ensures { OnOk result (AddsBodies here.now.process here.now.slots.now here.now.near end xs.now code.old.items code.new.items) }
{
    for i in 0..xs.len() {
        body(here, end, &xs[i], &sizes[i], code)?;
    }
    Ok(())
}

#[cycle(statement)]
fn body(
    here: &Here<'_>,
    end: u64,
    x: &CAlt,
    sizes: &Measured,
    code: &mut Vec<Instr>,
) -> Result<(), NoMemory>
    requires sound { SoundAlternativeAt here.now.slots.now (in_loop here.now.near) x.now }
    requires measured { AltMeasured (walks_in here.now.near) x.now sizes.now }
    ensures { OnOk result (AddsBodies here.now.process here.now.slots.now here.now.near end (x.now ∷ []) code.old.items code.new.items) }
{
    match x {
        CAlt::Guarded(_, _, inner) => {
            let inner = inner.as_slice();
            let parts = sizes.parts.as_slice();
            block(here, inner, parts, code)?;
            put(code, Instr::Jump(end))?;
            Ok(())
        }
        CAlt::Unwind(_, _, alternatives) => {
            let inner = alternatives.as_slice();
            let parts = sizes.parts.as_slice();
            bodies(here, end, inner, parts, code)?;
            Ok(())
        }
    }
}
