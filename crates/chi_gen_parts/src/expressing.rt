//! Expressions to their code.

ghost use Rattle.std.specs.Prelude.{OnOk};
ghost use Rattle.chi_gen_parts.specs.Added.{AddsExpr, AddsExprs};

use crate::copies::shape_copy;
use crate::writer::{behind, fill, hole, number_of, place, put};
use chi_base::{Boxed, Items, NoMemory};
use chi_code::Instr;
use chi_core::CExpr;
use std::alloc::Global;

/// An expression.
#[cycle(expression)]
#[tactic(auto, using(crate::proofs::AddedExpressions::add_lit, crate::proofs::AddedExpressions::add_var, crate::proofs::AddedExpressions::add_const, crate::proofs::AddedExpressions::add_default))]
pub fn expression(alloc: Global, x: &CExpr, code: &mut Vec<Instr>) -> Result<(), NoMemory>
    ensures { OnOk result (AddsExpr x.now code.old.items code.new.items) }
{
    match x {
        CExpr::Lit(v) => {
            put(code, Instr::Push(v.copy(alloc)?))?;
            Ok(())
        }
        CExpr::Var(slot) => {
            put(code, Instr::Load(*slot))?;
            Ok(())
        }
        CExpr::Const(number) => {
            put(code, Instr::Const(*number))?;
            Ok(())
        }
        CExpr::Op(name, parts) => {
            expressions(alloc, parts, code)?;
            put(code, Instr::Op(*name, number_of(parts)?))?;
            Ok(())
        }
        CExpr::And(a, b) => {
            boxed(alloc, a, code)?;
            let at = hole(code)?;
            boxed(alloc, b, code)?;
            let end = place(code);
            fill(code, at, Instr::And(end));
            Ok(())
        }
        CExpr::Or(a, b) => {
            boxed(alloc, a, code)?;
            let at = hole(code)?;
            boxed(alloc, b, code)?;
            let end = place(code);
            fill(code, at, Instr::Or(end));
            Ok(())
        }
        CExpr::Build(kind, parts) => {
            expressions(alloc, parts, code)?;
            put(code, Instr::Build(*kind, number_of(parts)?))?;
            Ok(())
        }
        CExpr::Part(a, number) => {
            boxed(alloc, a, code)?;
            put(code, Instr::Part(*number))?;
            Ok(())
        }
        CExpr::Call(number, parts) => {
            expressions(alloc, parts, code)?;
            put(code, Instr::Call(*number))?;
            Ok(())
        }
        CExpr::InsertBy(a, b, number) => {
            boxed(alloc, a, code)?;
            boxed(alloc, b, code)?;
            put(code, Instr::Scan)?;
            let top = place(code);
            let end = behind(code, 2)?;
            put(code, Instr::Probe(end))?;
            put(code, Instr::Call(*number))?;
            put(code, Instr::Found(top))?;
            put(code, Instr::Place)?;
            Ok(())
        }
        CExpr::Default(shape) => {
            put(code, Instr::Default(shape_copy(alloc, shape)?))?;
            Ok(())
        }
        CExpr::Repeat(a, b) => {
            boxed(alloc, a, code)?;
            put(code, Instr::Repeat)?;
            let top = hole(code)?;
            boxed(alloc, b, code)?;
            put(code, Instr::Add)?;
            put(code, Instr::Jump(top))?;
            let end = place(code);
            fill(code, top, Instr::More(end));
            Ok(())
        }
    }
}

#[cycle(expression)]
fn boxed(alloc: Global, x: &Boxed<CExpr>, code: &mut Vec<Instr>) -> Result<(), NoMemory>
    ensures { OnOk result (AddsExpr x.now code.old.items code.new.items) }
{
    expression(alloc, x.get(), code)
}

/// Expressions, one after another.
#[cycle(expression)]
pub fn expressions(alloc: Global, xs: &Items<CExpr>, code: &mut Vec<Instr>) -> Result<(), NoMemory>
    ensures { OnOk result (AddsExprs xs.now code.old.items code.new.items) }
{
    all(alloc, xs.as_slice(), code)
}

#[cycle(expression)]
fn all(alloc: Global, xs: &[CExpr], code: &mut Vec<Instr>) -> Result<(), NoMemory>
    ensures { OnOk result (AddsExprs xs.now code.old.items code.new.items) }
{
    for x in xs {
        expression(alloc, x, code)?;
    }
    Ok(())
}
