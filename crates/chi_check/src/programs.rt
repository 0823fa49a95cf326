//! Programs: the names of all definitions, then types and constants, then headers, then bodies.

#![tactic(auto, using(chi_check_types::proofs::Firsts::first_of_none, chi_check_types::proofs::Firsts::first_of_append))]

ghost use Rattle.std.specs.Prelude.{◌≡◌, Some, map, IfOk, OnOk};
ghost use Rattle.chi_check_types.specs.Faults.{first_of};
ghost use Rattle.chi_check.specs.Programs as spec;

use crate::late::{Bodies, define_late};
use chi_base::{Items, NoMemory};
use chi_check_headers::{Early, Sketch, after, define_all_early, name_all};
use chi_check_streams::with_streams;
use chi_check_types::{Fault, Scope, TypeFault, note, rules};
use chi_core::{ConstDef, Core, FuncDef, ProcDef, XperDef};
use chi_token::{Bytes, Place};
use chi_tree::{Definition, Item, Program};
use chi_value::Names;
use std::alloc::Global;

/// The place of the first model among processes and models.
fn first_model(items: &[Item]) -> Result<Option<u32>, NoMemory>
    ensures { IfOk result (λ model. model ≡ spec.first_model 0 (map (λ item. item.definition) items.now)) }
{
    let mut number = 0;
    for item in items {
        match &item.definition {
            Definition::Model { .. } => return Ok(Some(number)),
            Definition::Proc { .. } => number = after(number)?,
            Definition::Func { .. }
            | Definition::Enum { .. }
            | Definition::Const { .. }
            | Definition::TypeWord { .. }
            | Definition::Xper { .. } => {}
        }
    }
    Ok(None)
}

fn note_no_model(last: Place, model: Option<u32>, kept: &mut Option<Fault>)
    ensures { kept.new ≡ first_of kept.old (spec.model_rule last model) }
{
    if model.is_none() {
        note(kept, rules::MODEL, last);
    }
}

fn core_of(
    enumerations: Option<Items<Items<Bytes>>>,
    consts: Option<Items<ConstDef>>,
    bodies: Bodies,
    model: Option<u32>,
) -> Option<Core>
    ensures { result ≡ spec.core_of enumerations consts bodies.funcs bodies.procs bodies.xpers model }
{
    let Some(kinds) = enumerations else {
        drop(consts);
        drop(bodies);
        return None;
    };
    let Some(consts) = consts else {
        drop(kinds);
        drop(bodies);
        return None;
    };
    let Bodies {
        funcs,
        procs,
        xpers,
    } = bodies;
    core_with(kinds, consts, funcs, procs, xpers, model)
}

fn core_with(
    kinds: Items<Items<Bytes>>,
    consts: Items<ConstDef>,
    funcs: Option<Items<FuncDef>>,
    procs: Option<Items<ProcDef>>,
    xpers: Option<Items<XperDef>>,
    model: Option<u32>,
) -> Option<Core>
    ensures { result ≡ spec.core_of (Some kinds) (Some consts) funcs procs xpers model }
{
    let Some(funcs) = funcs else {
        drop(kinds);
        drop(consts);
        drop(procs);
        drop(xpers);
        return None;
    };
    let Some(procs) = procs else {
        drop(kinds);
        drop(consts);
        drop(funcs);
        drop(xpers);
        return None;
    };
    core_around(kinds, consts, funcs, procs, xpers, model)
}

fn core_around(
    kinds: Items<Items<Bytes>>,
    consts: Items<ConstDef>,
    funcs: Items<FuncDef>,
    procs: Items<ProcDef>,
    xpers: Option<Items<XperDef>>,
    model: Option<u32>,
) -> Option<Core>
    ensures { result ≡ spec.core_of (Some kinds) (Some consts) (Some funcs) (Some procs) xpers model }
{
    let Some(xpers) = xpers else {
        drop(kinds);
        drop(consts);
        drop(funcs);
        drop(procs);
        return None;
    };
    let Some(model) = model else {
        drop(kinds);
        drop(consts);
        drop(funcs);
        drop(procs);
        drop(xpers);
        return None;
    };
    let names = Names { kinds };
    Some(Core {
        consts,
        funcs,
        procs,
        model,
        names,
        xpers,
    })
}

fn check_definitions(
    alloc: Global,
    items: &[Item],
    last: Place,
    kept: &mut Option<Fault>,
) -> Result<Option<Core>, NoMemory>
    ensures made { IfOk result (λ core. core ≡ (spec.definitions_checked (map (λ item. item.definition) items.now) last).made) }
    ensures noted { OnOk result (kept.new ≡ first_of kept.old (spec.definitions_checked (map (λ item. item.definition) items.now) last).faults) }
{
    let mut sketch = Sketch {
        all: Scope::new(alloc),
        early: Scope::new(alloc),
        enumerations: 0,
        processes: 0,
        experiments: 0,
    };
    let enumerations = name_all(alloc, items, &mut sketch, kept)?;
    let Sketch { all, early, .. } = sketch;
    let mut early = Early {
        names: early,
        constants: 0,
    };
    let consts = define_all_early(alloc, &all, items, &mut early, kept)?;
    let bodies = define_late(alloc, &all, items, early.names, kept)?;
    let model = first_model(items)?;
    note_no_model(last, model, kept);
    Ok(core_of(enumerations, consts, bodies, model))
}

/// The core of a program in which no rule is broken, each distribution with its stream; else the first rule that is broken.
#[tactic(auto, unfolding(crate::specs::Programs::checked))]
pub fn check(alloc: Global, tree: &Program) -> Result<Core, TypeFault>
    ensures answers { spec.Answers result (spec.checked tree.now) }
{
    let mut kept = None;
    let made = check_definitions(alloc, tree.items.as_slice(), tree.last, &mut kept)?;
    match kept {
        Some(Fault { rule, place }) => Err(TypeFault::Broken { rule, place }),
        None => match made {
            Some(core) => Ok(with_streams(alloc, core)?),
            // No parsed program comes here (`parsed_programs_are_sound`): each formal has a type before it.
            None => Err(TypeFault::NoMemory),
        },
    }
}
