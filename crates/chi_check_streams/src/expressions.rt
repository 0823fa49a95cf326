//! Expressions with their streams. Each function moves the count of the calls on to what it is at the end.

ghost use Rattle.std.specs.Prelude.{◌≡◌, Err, map, IfOk, OnOk};
ghost use Rattle.chi_core.specs.OperatorKinds.{has_stream};
ghost use Rattle.chi_check_streams.specs.Streams as spec;

use chi_base::{Boxed, Items, NoMemory};
use chi_core::{CExpr, OpName};
use chi_value::Value;
use std::alloc::Global;

/// How many streams there are.
const STREAMS: u64 = 64;

fn has_stream(name: OpName) -> bool
    ensures { result ≡ has_stream name }
{
    match name {
        OpName::Uniform | OpName::Bernoulli | OpName::Binomial | OpName::Exponential => true,
        _ => false,
    }
}

/// An operation with its stream, if it has one.
fn operation(
    alloc: Global,
    name: OpName,
    operands: Items<CExpr>,
    count: &mut u64,
) -> Result<CExpr, NoMemory>
    ensures part { IfOk result (λ e. e ≡ (spec.operation name (record { next = count.old; part = operands })).part) }
    ensures next { OnOk result (count.new ≡ (spec.operation name (record { next = count.old; part = operands })).next) }
{
    if !has_stream(name) {
        return Ok(CExpr::Op(name, operands));
    }
    // At most 2^64 - 1 calls make distributions: no source within 1,048,576 bytes comes to more.
    let Some(next) = count.checked_add(1) else {
        return Err(NoMemory);
    };
    let stream = (*count % STREAMS) as i64;
    let mut operands = operands.into_vec(alloc)?;
    operands.push(CExpr::Lit(Value::Int(stream)))?;
    *count = next;
    Ok(CExpr::Op(name, Items::of(alloc, operands)?))
}

/// No memory: the part that isn't done is let go.
fn refused(part: Boxed<CExpr>, refusal: NoMemory) -> Result<CExpr, NoMemory>
    ensures { result ≡ Err refusal }
{
    drop(part);
    Err(refusal)
}

#[cycle(expression)]
#[tactic(auto, using(crate::proofs::Equations::part_lit, crate::proofs::Equations::next_lit, crate::proofs::Equations::part_var, crate::proofs::Equations::next_var, crate::proofs::Equations::part_const, crate::proofs::Equations::next_const, crate::proofs::Equations::part_op, crate::proofs::Equations::next_op, crate::proofs::Equations::part_and, crate::proofs::Equations::next_and, crate::proofs::Equations::part_or, crate::proofs::Equations::next_or, crate::proofs::Equations::part_build, crate::proofs::Equations::next_build, crate::proofs::Equations::part_part, crate::proofs::Equations::next_part, crate::proofs::Equations::part_call, crate::proofs::Equations::next_call, crate::proofs::Equations::part_insert_by, crate::proofs::Equations::next_insert_by, crate::proofs::Equations::part_default, crate::proofs::Equations::next_default, crate::proofs::Equations::part_repeat, crate::proofs::Equations::next_repeat))]
pub(crate) fn expression(alloc: Global, e: CExpr, count: &mut u64) -> Result<CExpr, NoMemory>
    ensures part { IfOk result (λ r. r ≡ (spec.of_expression e count.old).part) }
    ensures next { OnOk result (count.new ≡ (spec.of_expression e count.old).next) }
{
    match e {
        CExpr::Lit(value) => Ok(CExpr::Lit(value)),
        CExpr::Var(slot) => Ok(CExpr::Var(slot)),
        CExpr::Const(number) => Ok(CExpr::Const(number)),
        CExpr::Op(name, operands) => {
            let operands = expressions(alloc, operands, count)?;
            operation(alloc, name, operands, count)
        }
        CExpr::And(left, right) => match boxed(alloc, left, count) {
            Ok(left) => {
                let (left, right) = after(alloc, right, left, count)?;
                Ok(CExpr::And(left, right))
            }
            Err(refusal) => refused(right, refusal),
        },
        CExpr::Or(left, right) => match boxed(alloc, left, count) {
            Ok(left) => {
                let (left, right) = after(alloc, right, left, count)?;
                Ok(CExpr::Or(left, right))
            }
            Err(refusal) => refused(right, refusal),
        },
        CExpr::Build(kind, parts) => Ok(CExpr::Build(kind, expressions(alloc, parts, count)?)),
        CExpr::Part(whole, number) => Ok(CExpr::Part(boxed(alloc, whole, count)?, number)),
        CExpr::Call(number, arguments) => {
            Ok(CExpr::Call(number, expressions(alloc, arguments, count)?))
        }
        CExpr::InsertBy(list, new, number) => match boxed(alloc, list, count) {
            Ok(list) => {
                let (list, new) = after(alloc, new, list, count)?;
                Ok(CExpr::InsertBy(list, new, number))
            }
            Err(refusal) => refused(new, refusal),
        },
        CExpr::Default(shape) => Ok(CExpr::Default(shape)),
        CExpr::Repeat(size, inner) => match boxed(alloc, size, count) {
            Ok(size) => {
                let (size, inner) = after(alloc, inner, size, count)?;
                Ok(CExpr::Repeat(size, inner))
            }
            Err(refusal) => refused(inner, refusal),
        },
    }
}

#[cycle(expression)]
fn boxed(alloc: Global, e: Boxed<CExpr>, count: &mut u64) -> Result<Boxed<CExpr>, NoMemory>
    ensures part { IfOk result (λ r. r ≡ (spec.of_expression e count.old).part) }
    ensures next { OnOk result (count.new ≡ (spec.of_expression e count.old).next) }
{
    let e = expression(alloc, e.into_inner(), count)?;
    Ok(Boxed::new(alloc, e)?)
}

/// A part, after one that is done.
#[cycle(expression)]
fn after(
    alloc: Global,
    second: Boxed<CExpr>,
    first: Boxed<CExpr>,
    count: &mut u64,
) -> Result<(Boxed<CExpr>, Boxed<CExpr>), NoMemory>
    ensures first { IfOk result (λ r. r.0 ≡ first) }
    ensures second { IfOk result (λ r. r.1 ≡ (spec.of_expression second count.old).part) }
    ensures next { OnOk result (count.new ≡ (spec.of_expression second count.old).next) }
{
    match boxed(alloc, second, count) {
        Ok(second) => Ok((first, second)),
        Err(refusal) => {
            drop(first);
            Err(refusal)
        }
    }
}

#[cycle(expression)]
pub(crate) fn expressions(
    alloc: Global,
    es: Items<CExpr>,
    count: &mut u64,
) -> Result<Items<CExpr>, NoMemory>
    ensures part { IfOk result (λ r. r ≡ (spec.of_expressions es count.old).part) }
    ensures next { OnOk result (count.new ≡ (spec.of_expressions es count.old).next) }
{
    let mut done = Vec::new(alloc);
    for e in es.into_vec(alloc)? {
        done.push(expression(alloc, e, count)?)?;
    }
    Ok(Items::of(alloc, done)?)
}
