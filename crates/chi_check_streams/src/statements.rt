//! Statements with their streams. Where memory is refused, expressions at hand are let go by calls of `drop`: what
//! goes out of scope where a function returns is laid out part by part in its proof.

ghost use Rattle.std.specs.Prelude.{◌≡◌, Err, map, IfOk, OnOk};
ghost use Rattle.chi_core.specs.declared.statement.CAlt.{CAlt-F};
ghost use Rattle.chi_core.specs.declared.statement.CStat.{CStat-F};
ghost use Rattle.chi_check_streams.specs.Streams as spec;

use crate::expressions::{expression, expressions};
use crate::parts::{elements, followed, offered, some_expression, targets};
use chi_base::{Items, NoMemory};
use chi_core::{Branch, CAlt, CComm, CExpr, CStat, CTarget};
use chi_value::Piece;
use std::alloc::Global;

fn assignment(
    alloc: Global,
    line: u32,
    to: Items<CTarget>,
    values: Items<CExpr>,
    count: &mut u64,
) -> Result<CStat, NoMemory>
    ensures part { IfOk result (λ r. r ≡ (spec.statement_step (CStat-F.Assign line to values) count.old).part) }
    ensures next { OnOk result (count.new ≡ (spec.statement_step (CStat-F.Assign line to values) count.old).next) }
{
    let to = targets(alloc, to, count)?;
    let values = expressions(alloc, values, count)?;
    Ok(CStat::Assign(line, to, values))
}

fn write(
    alloc: Global,
    line: u32,
    pieces: Items<Piece>,
    values: Items<CExpr>,
    count: &mut u64,
) -> Result<CStat, NoMemory>
    ensures part { IfOk result (λ r. r ≡ (spec.statement_step (CStat-F.Write line pieces values) count.old).part) }
    ensures next { OnOk result (count.new ≡ (spec.statement_step (CStat-F.Write line pieces values) count.old).next) }
{
    let values = expressions(alloc, values, count)?;
    Ok(CStat::Write(line, pieces, values))
}

/// No memory: the expression that was made is let go.
fn refused(made: CExpr, refusal: NoMemory) -> Result<CStat, NoMemory>
    ensures { result ≡ Err refusal }
{
    drop(made);
    Err(refusal)
}

#[cycle(statement)]
#[tactic(auto, using(crate::proofs::Equations::part_declare, crate::proofs::Equations::next_declare, crate::proofs::Equations::part_assign, crate::proofs::Equations::next_assign, crate::proofs::Equations::part_if, crate::proofs::Equations::next_if, crate::proofs::Equations::part_while, crate::proofs::Equations::next_while, crate::proofs::Equations::part_for, crate::proofs::Equations::next_for, crate::proofs::Equations::part_break, crate::proofs::Equations::next_break, crate::proofs::Equations::part_continue, crate::proofs::Equations::next_continue, crate::proofs::Equations::part_pass, crate::proofs::Equations::next_pass, crate::proofs::Equations::part_return, crate::proofs::Equations::next_return, crate::proofs::Equations::part_exit, crate::proofs::Equations::next_exit, crate::proofs::Equations::part_write, crate::proofs::Equations::next_write, crate::proofs::Equations::part_select, crate::proofs::Equations::next_select, crate::proofs::Equations::part_run, crate::proofs::Equations::next_run, crate::proofs::Equations::part_start, crate::proofs::Equations::next_start, crate::proofs::Equations::part_finish, crate::proofs::Equations::next_finish))]
pub(crate) fn statement(alloc: Global, s: CStat, count: &mut u64) -> Result<CStat, NoMemory>
    ensures part { IfOk result (λ r. r ≡ (spec.of_statement s count.old).part) }
    ensures next { OnOk result (count.new ≡ (spec.of_statement s count.old).next) }
{
    match s {
        CStat::Declare(line, slot, value) => {
            Ok(CStat::Declare(line, slot, expression(alloc, value, count)?))
        }
        CStat::Assign(line, to, values) => assignment(alloc, line, to, values, count),
        CStat::If(line, each, otherwise) => {
            let each = branches(alloc, each, count)?;
            Ok(CStat::If(line, each, statements(alloc, otherwise, count)?))
        }
        CStat::While(line, test, block) => {
            let test = expression(alloc, test, count)?;
            match statements(alloc, block, count) {
                Ok(block) => Ok(CStat::While(line, test, block)),
                Err(refusal) => refused(test, refusal),
            }
        }
        CStat::For(line, slots, container, block) => {
            let container = expression(alloc, container, count)?;
            match statements(alloc, block, count) {
                Ok(block) => Ok(CStat::For(line, slots, container, block)),
                Err(refusal) => refused(container, refusal),
            }
        }
        CStat::Break(line) => Ok(CStat::Break(line)),
        CStat::Continue(line) => Ok(CStat::Continue(line)),
        CStat::Pass(line) => Ok(CStat::Pass(line)),
        CStat::Return(line, value) => Ok(CStat::Return(line, expression(alloc, value, count)?)),
        CStat::Exit(line, value) => Ok(CStat::Exit(line, some_expression(alloc, value, count)?)),
        CStat::Write(line, pieces, values) => write(alloc, line, pieces, values, count),
        CStat::Select(line, each) => Ok(CStat::Select(line, alternatives(alloc, each, count)?)),
        CStat::Run(line, each) => Ok(CStat::Run(line, elements(alloc, each, count)?)),
        CStat::Start(line, each) => Ok(CStat::Start(line, elements(alloc, each, count)?)),
        CStat::Finish(line, each) => Ok(CStat::Finish(line, expressions(alloc, each, count)?)),
    }
}

#[cycle(statement)]
pub(crate) fn statements(
    alloc: Global,
    all: Items<CStat>,
    count: &mut u64,
) -> Result<Items<CStat>, NoMemory>
    ensures part { IfOk result (λ r. r ≡ (spec.each (map spec.of_statement all) count.old).part) }
    ensures next { OnOk result (count.new ≡ (spec.each (map spec.of_statement all) count.old).next) }
{
    let mut done = Vec::new(alloc);
    for part in all.into_vec(alloc)? {
        done.push(statement(alloc, part, count)?)?;
    }
    Ok(Items::of(alloc, done)?)
}

#[cycle(statement)]
#[tactic(auto, using(crate::proofs::Equations::part_branch, crate::proofs::Equations::next_branch))]
fn branch(alloc: Global, b: Branch, count: &mut u64) -> Result<Branch, NoMemory>
    ensures part { IfOk result (λ r. r ≡ (spec.of_branch b count.old).part) }
    ensures next { OnOk result (count.new ≡ (spec.of_branch b count.old).next) }
{
    let Branch { test, block } = b;
    let test = expression(alloc, test, count)?;
    match statements(alloc, block, count) {
        Ok(block) => Ok(Branch { test, block }),
        Err(refusal) => {
            drop(test);
            Err(refusal)
        }
    }
}

#[cycle(statement)]
fn branches(alloc: Global, all: Items<Branch>, count: &mut u64) -> Result<Items<Branch>, NoMemory>
    ensures part { IfOk result (λ r. r ≡ (spec.each (map spec.of_branch all) count.old).part) }
    ensures next { OnOk result (count.new ≡ (spec.each (map spec.of_branch all) count.old).next) }
{
    let mut done = Vec::new(alloc);
    for part in all.into_vec(alloc)? {
        done.push(branch(alloc, part, count)?)?;
    }
    Ok(Items::of(alloc, done)?)
}

#[cycle(statement)]
fn guarded(
    alloc: Global,
    guard: Option<CExpr>,
    comm: CComm,
    block: Items<CStat>,
    count: &mut u64,
) -> Result<CAlt, NoMemory>
    ensures part { IfOk result (λ r. r ≡ (spec.alternative_step (CAlt-F.Guarded guard comm (map spec.of_statement block)) count.old).part) }
    ensures next { OnOk result (count.new ≡ (spec.alternative_step (CAlt-F.Guarded guard comm (map spec.of_statement block)) count.old).next) }
{
    let offer = offered(alloc, guard, comm, count)?;
    match statements(alloc, block, count) {
        Ok(block) => Ok(followed(offer, block)),
        Err(refusal) => {
            drop(offer);
            Err(refusal)
        }
    }
}

#[cycle(statement)]
#[tactic(auto, using(crate::proofs::Equations::part_guarded, crate::proofs::Equations::next_guarded, crate::proofs::Equations::part_unwind_alternatives, crate::proofs::Equations::next_unwind_alternatives))]
fn alternative(alloc: Global, a: CAlt, count: &mut u64) -> Result<CAlt, NoMemory>
    ensures part { IfOk result (λ r. r ≡ (spec.of_alternative a count.old).part) }
    ensures next { OnOk result (count.new ≡ (spec.of_alternative a count.old).next) }
{
    match a {
        CAlt::Guarded(guard, offer, block) => guarded(alloc, guard, offer, block, count),
        CAlt::Unwind(slots, container, inner) => {
            let container = expression(alloc, container, count)?;
            match alternatives(alloc, inner, count) {
                Ok(inner) => Ok(CAlt::Unwind(slots, container, inner)),
                Err(refusal) => {
                    drop(container);
                    Err(refusal)
                }
            }
        }
    }
}

#[cycle(statement)]
fn alternatives(alloc: Global, all: Items<CAlt>, count: &mut u64) -> Result<Items<CAlt>, NoMemory>
    ensures part { IfOk result (λ r. r ≡ (spec.each (map spec.of_alternative all) count.old).part) }
    ensures next { OnOk result (count.new ≡ (spec.each (map spec.of_alternative all) count.old).next) }
{
    let mut done = Vec::new(alloc);
    for part in all.into_vec(alloc)? {
        done.push(alternative(alloc, part, count)?)?;
    }
    Ok(Items::of(alloc, done)?)
}
