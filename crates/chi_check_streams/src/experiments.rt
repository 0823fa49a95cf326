//! Statements of experiments with their streams. Where memory is refused, expressions at hand are let go by calls of `drop`.

ghost use Rattle.std.specs.Prelude.{◌≡◌, Err, map, IfOk, OnOk};
ghost use Rattle.chi_core.specs.declared.experiment.XStat.{XStat-F};
ghost use Rattle.chi_check_streams.specs.Streams as spec;

use crate::expressions::{expression, expressions};
use crate::parts::target;
use crate::statements::statement;
use chi_base::{Items, NoMemory};
use chi_core::{CExpr, CTarget, XBranch, XStat, XperDef};
use std::alloc::Global;

/// A run of a model, but for its target and its arguments.
struct Ran {
    line: u32,
    model: u32,
    widens: bool,
}

fn run(
    alloc: Global,
    ran: Ran,
    to: CTarget,
    arguments: Items<CExpr>,
    count: &mut u64,
) -> Result<XStat, NoMemory>
    ensures part { IfOk result (λ r. r ≡ (spec.xstat_step (XStat-F.RunModel ran.line to ran.model arguments ran.widens) count.old).part) }
    ensures next { OnOk result (count.new ≡ (spec.xstat_step (XStat-F.RunModel ran.line to ran.model arguments ran.widens) count.old).next) }
{
    let Ran {
        line,
        model,
        widens,
    } = ran;
    let to = target(alloc, to, count)?;
    match expressions(alloc, arguments, count) {
        Ok(arguments) => Ok(XStat::RunModel(line, to, model, arguments, widens)),
        Err(refusal) => {
            drop(to);
            Err(refusal)
        }
    }
}

/// No memory: the expression that was made is let go.
fn refused(made: CExpr, refusal: NoMemory) -> Result<XStat, NoMemory>
    ensures { result ≡ Err refusal }
{
    drop(made);
    Err(refusal)
}

#[cycle(experiment)]
#[tactic(auto, using(crate::proofs::TrialEquations::part_line, crate::proofs::TrialEquations::next_line, crate::proofs::TrialEquations::part_if, crate::proofs::TrialEquations::next_if, crate::proofs::TrialEquations::part_while, crate::proofs::TrialEquations::next_while, crate::proofs::TrialEquations::part_for, crate::proofs::TrialEquations::next_for, crate::proofs::TrialEquations::part_run, crate::proofs::TrialEquations::next_run))]
fn trial(alloc: Global, x: XStat, count: &mut u64) -> Result<XStat, NoMemory>
    ensures part { IfOk result (λ r. r ≡ (spec.of_xstat x count.old).part) }
    ensures next { OnOk result (count.new ≡ (spec.of_xstat x count.old).next) }
{
    match x {
        XStat::Line(s) => Ok(XStat::Line(statement(alloc, s, count)?)),
        XStat::If(line, each, otherwise) => {
            let each = branches(alloc, each, count)?;
            Ok(XStat::If(line, each, trials(alloc, otherwise, count)?))
        }
        XStat::While(line, test, block) => {
            let test = expression(alloc, test, count)?;
            match trials(alloc, block, count) {
                Ok(block) => Ok(XStat::While(line, test, block)),
                Err(refusal) => refused(test, refusal),
            }
        }
        XStat::For(line, slots, container, block) => {
            let container = expression(alloc, container, count)?;
            match trials(alloc, block, count) {
                Ok(block) => Ok(XStat::For(line, slots, container, block)),
                Err(refusal) => refused(container, refusal),
            }
        }
        XStat::RunModel(line, to, model, arguments, widens) => {
            let ran = Ran {
                line,
                model,
                widens,
            };
            run(alloc, ran, to, arguments, count)
        }
    }
}

#[cycle(experiment)]
fn trials(alloc: Global, all: Items<XStat>, count: &mut u64) -> Result<Items<XStat>, NoMemory>
    ensures part { IfOk result (λ r. r ≡ (spec.each (map spec.of_xstat all) count.old).part) }
    ensures next { OnOk result (count.new ≡ (spec.each (map spec.of_xstat all) count.old).next) }
{
    let mut done = Vec::new(alloc);
    for part in all.into_vec(alloc)? {
        done.push(trial(alloc, part, count)?)?;
    }
    Ok(Items::of(alloc, done)?)
}

#[cycle(experiment)]
#[tactic(auto, using(crate::proofs::TrialEquations::part_branch, crate::proofs::TrialEquations::next_branch))]
fn branch(alloc: Global, b: XBranch, count: &mut u64) -> Result<XBranch, NoMemory>
    ensures part { IfOk result (λ r. r ≡ (spec.of_xbranch b count.old).part) }
    ensures next { OnOk result (count.new ≡ (spec.of_xbranch b count.old).next) }
{
    let XBranch { test, block } = b;
    let test = expression(alloc, test, count)?;
    match trials(alloc, block, count) {
        Ok(block) => Ok(XBranch { test, block }),
        Err(refusal) => {
            drop(test);
            Err(refusal)
        }
    }
}

#[cycle(experiment)]
fn branches(alloc: Global, all: Items<XBranch>, count: &mut u64) -> Result<Items<XBranch>, NoMemory>
    ensures part { IfOk result (λ r. r ≡ (spec.each (map spec.of_xbranch all) count.old).part) }
    ensures next { OnOk result (count.new ≡ (spec.each (map spec.of_xbranch all) count.old).next) }
{
    let mut done = Vec::new(alloc);
    for part in all.into_vec(alloc)? {
        done.push(branch(alloc, part, count)?)?;
    }
    Ok(Items::of(alloc, done)?)
}

fn experiment(alloc: Global, x: XperDef, count: &mut u64) -> Result<XperDef, NoMemory>
    ensures part { IfOk result (λ r. r ≡ (spec.of_experiment x count.old).part) }
    ensures next { OnOk result (count.new ≡ (spec.of_experiment x count.old).next) }
{
    let XperDef { name, slots, body } = x;
    let body = trials(alloc, body, count)?;
    Ok(XperDef { name, slots, body })
}

pub(crate) fn experiments(
    alloc: Global,
    all: Items<XperDef>,
    count: &mut u64,
) -> Result<Items<XperDef>, NoMemory>
    ensures part { IfOk result (λ r. r ≡ (spec.each (map spec.of_experiment all) count.old).part) }
    ensures next { OnOk result (count.new ≡ (spec.each (map spec.of_experiment all) count.old).next) }
{
    let mut done = Vec::new(alloc);
    for part in all.into_vec(alloc)? {
        done.push(experiment(alloc, part, count)?)?;
    }
    Ok(Items::of(alloc, done)?)
}
