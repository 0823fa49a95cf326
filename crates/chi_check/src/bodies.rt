//! The bodies of functions, processes and models.

#![tactic(auto, using(chi_check_types::proofs::Firsts::first_of_none, chi_check_types::proofs::Firsts::first_of_append))]

ghost use Rattle.std.specs.Prelude.{◌≡◌, ◌++◌, Some, [], false, map, take, IfOk, OnOk};
ghost use Rattle.chi_check_types.specs.Faults.{first_of};
ghost use Rattle.chi_check_stat_lines.specs.Stated.{in_turn};
ghost use Rattle.chi_check_stat.specs.Statements.{stating_all};
ghost use Rattle.chi_check_headers.specs.Headers as header;
ghost use Rattle.chi_check.specs.Bodies as spec;

use crate::definitions::{function_made, process_made};
use chi_base::{Items, NoMemory};
use chi_check_headers::Header;
use chi_check_stat::check_all;
use chi_check_stat_lines::{Binder, Growing, State, bind, joined, nothing};
use chi_check_types::{Fault, Scope};
use chi_core::{CStat, FuncDef, ProcDef};
use chi_tree::{Definition, Formal, Item, Name, Step};
use chi_types::Ty;
use std::alloc::Global;

#[tactic(auto, using(chi_check_types::proofs::Firsts::first_of_none, chi_check_types::proofs::Firsts::first_of_append, chi_check_stat_lines::proofs::Turns::joined_more, chi_check_stat_lines::proofs::Turns::joined_end))]
fn bind_formals(
    alloc: Global,
    formals: &[Formal],
    types: &[Option<Ty>],
    state: &mut State,
    kept: &mut Option<Fault>,
) -> Result<Option<Items<u32>>, NoMemory>
    ensures next { OnOk result (state.new ≡ (in_turn (spec.formals_bound formals.now types.now) state.old).next) }
    ensures made { IfOk result (λ slots. slots ≡ (in_turn (spec.formals_bound formals.now types.now) state.old).made) }
    ensures noted { OnOk result (kept.new ≡ first_of kept.old (in_turn (spec.formals_bound formals.now types.now) state.old).faults) }
{
    let mut all = nothing(alloc)?;
    let mut others = types;
    for formal in formals {
        let Some((ty, rest)) = others.split_first() else {
            return Ok(all);
        };
        let made = bind(
            alloc,
            Binder::Variable,
            &formal.name,
            ty.as_ref(),
            state,
            kept,
        )?;
        all = joined(alloc, all, made)?;
        others = rest;
    }
    Ok(all)
}

/// What is made of a body, with the types of its slots, where its formals were bound.
fn body_made(
    bound: Option<Items<u32>>,
    body: Option<Items<CStat>>,
    slots: Items<Ty>,
) -> Option<(Items<CStat>, Items<Ty>)>
    ensures { result ≡ spec.body_made bound body slots }
{
    let Some(bound) = bound else {
        drop(body);
        drop(slots);
        return None;
    };
    drop(bound);
    let Some(body) = body else {
        drop(slots);
        return None;
    };
    Some((body, slots))
}

/// The slots of the formals, and the statements of a body.
fn bound_and_body(
    alloc: Global,
    header: &Header,
    formals: &[Formal],
    steps: &[Step],
    state: &mut State,
    kept: &mut Option<Fault>,
) -> Result<(Option<Items<u32>>, Option<Items<CStat>>), NoMemory>
    ensures next { let fs = in_turn (spec.formals_bound formals.now header.now.formals) state.old in
        OnOk result (state.new ≡ (stating_all header.now.home false steps.now fs.next).next) }
    ensures bound { let fs = in_turn (spec.formals_bound formals.now header.now.formals) state.old in
        IfOk result (λ r. r.0 ≡ fs.made) }
    ensures body { let fs = in_turn (spec.formals_bound formals.now header.now.formals) state.old in
        IfOk result (λ r. r.1 ≡ (stating_all header.now.home false steps.now fs.next).made) }
    ensures noted { let fs = in_turn (spec.formals_bound formals.now header.now.formals) state.old in
        OnOk result (kept.new ≡ first_of kept.old (fs.faults ++ (stating_all header.now.home false steps.now fs.next).faults)) }
{
    let bound = bind_formals(alloc, formals, header.formals.as_slice(), state, kept)?;
    match check_all(alloc, &header.home, steps, false, state, kept) {
        Ok(body) => Ok((bound, body)),
        Err(refusal) => {
            drop(bound);
            Err(refusal)
        }
    }
}

/// The first names after a body, and what is made of it.
fn closed(
    alloc: Global,
    count: u32,
    state: State,
    bound: Option<Items<u32>>,
    body: Option<Items<CStat>>,
) -> Result<(Scope, Option<(Items<CStat>, Items<Ty>)>), NoMemory>
    ensures next { IfOk result (λ r. r.0 ≡ take count state.names) }
    ensures made { IfOk result (λ r. r.1 ≡ spec.body_made bound body state.slots) }
{
    let State { names, slots } = state;
    let mut names = names;
    names.cut(count);
    match slots.into_items(alloc) {
        Ok(slots) => Ok((names, body_made(bound, body, slots))),
        Err(refusal) => {
            drop(names);
            drop(bound);
            drop(body);
            Err(refusal)
        }
    }
}

/// A body, and the names that are visible after it as they were before.
fn check_body(
    alloc: Global,
    header: &Header,
    formals: &[Formal],
    steps: &[Step],
    names: Scope,
    kept: &mut Option<Fault>,
) -> Result<(Scope, Option<(Items<CStat>, Items<Ty>)>), NoMemory>
    ensures next { IfOk result (λ r. r.0 ≡ (spec.body_in header.now formals.now steps.now names).next) }
    ensures made { IfOk result (λ r. r.1 ≡ (spec.body_in header.now formals.now steps.now names).made) }
    ensures noted { OnOk result (kept.new ≡ first_of kept.old (spec.body_in header.now formals.now steps.now names).faults) }
{
    let count = names.count();
    let slots = Growing::new(alloc);
    let mut state = State { names, slots };
    match bound_and_body(alloc, header, formals, steps, &mut state, kept) {
        Ok((bound, body)) => closed(alloc, count, state, bound, body),
        Err(refusal) => {
            drop(state);
            Err(refusal)
        }
    }
}

/// The names as they are, with no definition.
pub(crate) fn none_in<T: Drop>(
    alloc: Global,
    names: Scope,
) -> Result<(Scope, Option<Items<T>>), NoMemory>
    ensures next { IfOk result (λ r. r.0 ≡ names) }
    ensures made { IfOk result (λ r. r.1 ≡ Some []) }
{
    match nothing(alloc) {
        Ok(none) => Ok((names, none)),
        Err(refusal) => {
            drop(names);
            Err(refusal)
        }
    }
}

fn function_in(
    alloc: Global,
    name: &Name,
    header: &Header,
    formals: &[Formal],
    steps: &[Step],
    names: Scope,
    kept: &mut Option<Fault>,
) -> Result<(Scope, Option<Items<FuncDef>>), NoMemory>
    ensures next { IfOk result (λ r. r.0 ≡ (spec.function_defined name.now header.now formals.now steps.now names).next) }
    ensures made { IfOk result (λ r. r.1 ≡ (spec.function_defined name.now header.now formals.now steps.now names).made) }
    ensures noted { OnOk result (kept.new ≡ first_of kept.old (spec.function_defined name.now header.now formals.now steps.now names).faults) }
{
    let (names, body) = check_body(alloc, header, formals, steps, names, kept)?;
    match function_made(alloc, &name.text, header, body) {
        Ok(made) => Ok((names, made)),
        Err(refusal) => {
            drop(names);
            Err(refusal)
        }
    }
}

fn define_function(
    alloc: Global,
    definition: &Definition,
    header: &Option<Header>,
    names: Scope,
    kept: &mut Option<Fault>,
) -> Result<(Scope, Option<Items<FuncDef>>), NoMemory>
    ensures next { IfOk result (λ r. r.0 ≡ (spec.function_of definition.now header.now names).next) }
    ensures made { IfOk result (λ r. r.1 ≡ (spec.function_of definition.now header.now names).made) }
    ensures noted { OnOk result (kept.new ≡ first_of kept.old (spec.function_of definition.now header.now names).faults) }
{
    match (definition, header) {
        (
            Definition::Func {
                name,
                formals,
                block,
                ..
            },
            Some(header),
        ) => {
            let formals = formals.as_slice();
            let steps = block.as_slice();
            function_in(alloc, name, header, formals, steps, names, kept)
        }
        (_, _) => none_in(alloc, names),
    }
}

fn process_in(
    alloc: Global,
    name: &Name,
    header: &Header,
    formals: &[Formal],
    steps: &[Step],
    names: Scope,
    kept: &mut Option<Fault>,
) -> Result<(Scope, Option<Items<ProcDef>>), NoMemory>
    ensures next { IfOk result (λ r. r.0 ≡ (spec.process_defined name.now header.now formals.now steps.now names).next) }
    ensures made { IfOk result (λ r. r.1 ≡ (spec.process_defined name.now header.now formals.now steps.now names).made) }
    ensures noted { OnOk result (kept.new ≡ first_of kept.old (spec.process_defined name.now header.now formals.now steps.now names).faults) }
{
    let (names, body) = check_body(alloc, header, formals, steps, names, kept)?;
    match process_made(alloc, &name.text, header, body) {
        Ok(made) => Ok((names, made)),
        Err(refusal) => {
            drop(names);
            Err(refusal)
        }
    }
}

fn define_process(
    alloc: Global,
    definition: &Definition,
    header: &Option<Header>,
    names: Scope,
    kept: &mut Option<Fault>,
) -> Result<(Scope, Option<Items<ProcDef>>), NoMemory>
    ensures next { IfOk result (λ r. r.0 ≡ (spec.process_of definition.now header.now names).next) }
    ensures made { IfOk result (λ r. r.1 ≡ (spec.process_of definition.now header.now names).made) }
    ensures noted { OnOk result (kept.new ≡ first_of kept.old (spec.process_of definition.now header.now names).faults) }
{
    match (definition, header) {
        (
            Definition::Proc {
                name,
                formals,
                block,
                ..
            }
            | Definition::Model {
                name,
                formals,
                block,
                ..
            },
            Some(header),
        ) => {
            let formals = formals.as_slice();
            let steps = block.as_slice();
            process_in(alloc, name, header, formals, steps, names, kept)
        }
        (_, _) => none_in(alloc, names),
    }
}

/// All functions.
#[tactic(auto, using(chi_check_types::proofs::Firsts::first_of_none, chi_check_types::proofs::Firsts::first_of_append, chi_check_stat_lines::proofs::Turns::joined_more, chi_check_stat_lines::proofs::Turns::joined_end))]
pub(crate) fn define_functions(
    alloc: Global,
    items: &[Item],
    headers: &[Option<Header>],
    names: Scope,
    kept: &mut Option<Fault>,
) -> Result<(Scope, Option<Items<FuncDef>>), NoMemory>
    ensures next { IfOk result (λ r. r.0 ≡ (in_turn (spec.functions_of (map (λ item. item.definition) items.now) headers.now) names).next) }
    ensures made { IfOk result (λ r. r.1 ≡ (in_turn (spec.functions_of (map (λ item. item.definition) items.now) headers.now) names).made) }
    ensures noted { OnOk result (kept.new ≡ first_of kept.old (in_turn (spec.functions_of (map (λ item. item.definition) items.now) headers.now) names).faults) }
{
    let mut scope = names;
    let mut all = nothing(alloc)?;
    let mut others = headers;
    for item in items {
        let Some((header, rest)) = others.split_first() else {
            return Ok((scope, all));
        };
        let (next, made) = define_function(alloc, &item.definition, header, scope, kept)?;
        scope = next;
        all = joined(alloc, all, made)?;
        others = rest;
    }
    Ok((scope, all))
}

/// All processes and models.
#[tactic(auto, using(chi_check_types::proofs::Firsts::first_of_none, chi_check_types::proofs::Firsts::first_of_append, chi_check_stat_lines::proofs::Turns::joined_more, chi_check_stat_lines::proofs::Turns::joined_end))]
pub(crate) fn define_processes(
    alloc: Global,
    items: &[Item],
    headers: &[Option<Header>],
    names: Scope,
    kept: &mut Option<Fault>,
) -> Result<(Scope, Option<Items<ProcDef>>), NoMemory>
    ensures next { IfOk result (λ r. r.0 ≡ (in_turn (spec.processes_of (map (λ item. item.definition) items.now) headers.now) names).next) }
    ensures made { IfOk result (λ r. r.1 ≡ (in_turn (spec.processes_of (map (λ item. item.definition) items.now) headers.now) names).made) }
    ensures noted { OnOk result (kept.new ≡ first_of kept.old (in_turn (spec.processes_of (map (λ item. item.definition) items.now) headers.now) names).faults) }
{
    let mut scope = names;
    let mut all = nothing(alloc)?;
    let mut others = headers;
    for item in items {
        let Some((header, rest)) = others.split_first() else {
            return Ok((scope, all));
        };
        let (next, made) = define_process(alloc, &item.definition, header, scope, kept)?;
        scope = next;
        all = joined(alloc, all, made)?;
        others = rest;
    }
    Ok((scope, all))
}
