ghost use Rattle.std.specs.Prelude.{◌≡◌, map, IfOk, OnOk};
ghost use Rattle.chi_check_streams.specs.Streams as spec;

use crate::experiments::experiments;
use crate::expressions::expression;
use crate::statements::statements;
use chi_base::{Items, NoMemory};
use chi_core::{ConstDef, Core, FuncDef, ProcDef};
use std::alloc::Global;

fn constant(alloc: Global, c: ConstDef, count: &mut u64) -> Result<ConstDef, NoMemory>
    ensures part { IfOk result (λ r. r ≡ (spec.of_constant c count.old).part) }
    ensures next { OnOk result (count.new ≡ (spec.of_constant c count.old).next) }
{
    let ConstDef { line, ty, value } = c;
    let value = expression(alloc, value, count)?;
    Ok(ConstDef { line, ty, value })
}

fn constants(
    alloc: Global,
    all: Items<ConstDef>,
    count: &mut u64,
) -> Result<Items<ConstDef>, NoMemory>
    ensures part { IfOk result (λ r. r ≡ (spec.each (map spec.of_constant all) count.old).part) }
    ensures next { OnOk result (count.new ≡ (spec.each (map spec.of_constant all) count.old).next) }
{
    let mut done = Vec::new(alloc);
    for part in all.into_vec(alloc)? {
        done.push(constant(alloc, part, count)?)?;
    }
    Ok(Items::of(alloc, done)?)
}

fn function(alloc: Global, f: FuncDef, count: &mut u64) -> Result<FuncDef, NoMemory>
    ensures part { IfOk result (λ r. r ≡ (spec.of_function f count.old).part) }
    ensures next { OnOk result (count.new ≡ (spec.of_function f count.old).next) }
{
    let FuncDef {
        name,
        arity,
        result: outcome,
        slots,
        body,
    } = f;
    let body = statements(alloc, body, count)?;
    Ok(FuncDef {
        name,
        arity,
        result: outcome,
        slots,
        body,
    })
}

fn functions(
    alloc: Global,
    all: Items<FuncDef>,
    count: &mut u64,
) -> Result<Items<FuncDef>, NoMemory>
    ensures part { IfOk result (λ r. r ≡ (spec.each (map spec.of_function all) count.old).part) }
    ensures next { OnOk result (count.new ≡ (spec.each (map spec.of_function all) count.old).next) }
{
    let mut done = Vec::new(alloc);
    for part in all.into_vec(alloc)? {
        done.push(function(alloc, part, count)?)?;
    }
    Ok(Items::of(alloc, done)?)
}

fn process(alloc: Global, p: ProcDef, count: &mut u64) -> Result<ProcDef, NoMemory>
    ensures part { IfOk result (λ r. r ≡ (spec.of_process p count.old).part) }
    ensures next { OnOk result (count.new ≡ (spec.of_process p count.old).next) }
{
    let ProcDef {
        name,
        params,
        exit,
        slots,
        body,
    } = p;
    let body = statements(alloc, body, count)?;
    Ok(ProcDef {
        name,
        params,
        exit,
        slots,
        body,
    })
}

fn processes(
    alloc: Global,
    all: Items<ProcDef>,
    count: &mut u64,
) -> Result<Items<ProcDef>, NoMemory>
    ensures part { IfOk result (λ r. r ≡ (spec.each (map spec.of_process all) count.old).part) }
    ensures next { OnOk result (count.new ≡ (spec.each (map spec.of_process all) count.old).next) }
{
    let mut done = Vec::new(alloc);
    for part in all.into_vec(alloc)? {
        done.push(process(alloc, part, count)?)?;
    }
    Ok(Items::of(alloc, done)?)
}

/// The program with a stream for each call that makes a distribution.
#[tactic(auto, unfolding(crate::specs::Streams::with_streams))]
pub fn with_streams(alloc: Global, core: Core) -> Result<Core, NoMemory>
    ensures streams { IfOk result (λ core'. core' ≡ spec.with_streams core) }
{
    let Core {
        consts,
        funcs,
        procs,
        model,
        names,
        xpers,
    } = core;
    let mut count = 0;
    let consts = constants(alloc, consts, &mut count)?;
    let funcs = functions(alloc, funcs, &mut count)?;
    let procs = processes(alloc, procs, &mut count)?;
    let xpers = experiments(alloc, xpers, &mut count)?;
    Ok(Core {
        consts,
        funcs,
        procs,
        model,
        names,
        xpers,
    })
}
