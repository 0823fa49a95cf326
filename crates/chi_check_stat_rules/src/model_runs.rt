//! Calls of models, as whole values in experiments. What is refused is dropped by calls of `drop`, as endings drop theirs.

#![tactic(auto, using(chi_check_types::proofs::Firsts::first_of_none, chi_check_types::proofs::Firsts::first_of_append, chi_check_expr_rules::proofs::Barred::made_barred, chi_check_expr_rules::proofs::Barred::faults_barred, crate::proofs::Runs::made_ran, crate::proofs::Runs::faults_ran))]

ghost use Rattle.std.specs.Prelude.{◌≡◌, not, option_map, IfOk, OnOk};
ghost use Rattle.std.specs.List.{list_all};
ghost use Rattle.std.specs.Option.{option_and_then, option_copied};
ghost use Rattle.chi_types.specs.declared.ty.Ty.{out-Ty};
ghost use Rattle.chi_types.specs.Fits.{widens};
ghost use Rattle.chi_types.specs.Plain.{is_plain};
ghost use Rattle.chi_check_types.specs.Faults.{first_of, are_none};
ghost use Rattle.chi_check_stat_rules.specs.ModelRuns as spec;

use crate::parts::{Aim, ModelRun, Modelled};
use chi_base::{Items, NoMemory};
use chi_check_expr_rules::{all_made, passed, settle, unless};
use chi_check_types::{Fault, Known, Made, NameKind, note, rules};
use chi_core::{CExpr, CTarget, XStat};
use chi_token::Place;
use chi_types::{Ty, fits, is_plain};
use std::alloc::Global;

fn untyped_model(kind: NameKind) -> Option<Option<Modelled>>
    ensures { result ≡ spec.untyped_model kind }
{
    match kind {
        NameKind::Model => Some(None),
        _ => None,
    }
}

fn copies(alloc: Global, types: &[Ty]) -> Result<Items<Ty>, NoMemory>
    ensures { IfOk result (λ copies. copies ≡ types.now) }
{
    let mut copies = Vec::new(alloc);
    for ty in types {
        copies.push(ty.copy(alloc)?)?;
    }
    Ok(Items::of(alloc, copies)?)
}

fn copied(alloc: Global, ty: &Option<Ty>) -> Result<Option<Ty>, NoMemory>
    ensures { IfOk result (λ copy. copy ≡ ty.now) }
{
    match ty {
        None => Ok(None),
        Some(ty) => Ok(Some(ty.copy(alloc)?)),
    }
}

fn modelled(
    alloc: Global,
    number: u32,
    params: &[Ty],
    exit: &Option<Ty>,
) -> Result<Modelled, NoMemory>
    ensures number { IfOk result (λ m. m.number ≡ number) }
    ensures params { IfOk result (λ m. m.params ≡ params.now) }
    ensures exit { IfOk result (λ m. m.exit ≡ exit.now) }
{
    let params = copies(alloc, params)?;
    match copied(alloc, exit) {
        Ok(exit) => Ok(Modelled {
            number,
            params,
            exit,
        }),
        Err(refusal) => {
            drop(params);
            Err(refusal)
        }
    }
}

/// What is called, where that is a model; one of whose types breaks a rule has no type.
pub fn model_known(
    alloc: Global,
    known: Option<&Known>,
) -> Result<Option<Option<Modelled>>, NoMemory>
    ensures { IfOk result (λ m. m ≡ spec.model_known (option_copied known.entry)) }
{
    match known {
        None => Ok(None),
        Some(Known::Model(number, params, exit)) => {
            let model = modelled(alloc, *number, params.as_slice(), exit)?;
            Ok(Some(Some(model)))
        }
        Some(Known::Untyped(kind)) => Ok(untyped_model(*kind)),
        Some(_) => Ok(None),
    }
}

fn are_plain(types: &[Ty]) -> bool
    ensures { result ≡ list_all is_plain types.now }
{
    for ty in types {
        if !is_plain(ty) {
            return false;
        }
    }
    true
}

/// Notes a model that gives no value or takes one that isn't plain, and tells whether it is one.
fn note_model(place: Place, model: &Modelled, kept: &mut Option<Fault>) -> bool
    ensures barred { result ≡ not (are_none (spec.model_rule place model.now)) }
    ensures noted { kept.new ≡ first_of kept.old (spec.model_rule place model.now) }
{
    if model.exit.is_some() && are_plain(model.params.as_slice()) {
        return false;
    }
    note(kept, rules::MODEL_CALL, place);
    true
}

fn ran(number: u32, exit: Option<Ty>, arguments: Option<Items<CExpr>>) -> Option<ModelRun>
    ensures { result ≡ option_and_then (λ exit. option_map (spec.model_run number exit) arguments) exit }
{
    let Some(exit) = exit else {
        drop(arguments);
        return None;
    };
    let Some(arguments) = arguments else {
        drop(exit);
        return None;
    };
    Some(ModelRun {
        model: number,
        arguments,
        exit,
    })
}

fn arguments_of(
    alloc: Global,
    place: Place,
    params: &[Ty],
    arguments: Items<Option<Made>>,
    kept: &mut Option<Fault>,
) -> Result<Option<Items<CExpr>>, NoMemory>
    ensures made { IfOk result (λ es. es ≡ (spec.arguments_of place params.now arguments).made) }
    ensures noted { OnOk result (kept.new ≡ first_of kept.old (spec.arguments_of place params.now arguments).faults) }
{
    if arguments.as_slice().len() != params.len() {
        note(kept, rules::CALL_ARGUMENTS, place);
        return Ok(None);
    }
    let Some(arguments) = all_made(alloc, arguments)? else {
        return Ok(None);
    };
    let made = passed(alloc, arguments, params)?;
    Ok(settle(made, rules::CALL_ARGUMENTS, place, kept))
}

/// A run of a model with arguments. The place is that of the model's name.
pub fn run_of(
    alloc: Global,
    place: Place,
    model: Option<Modelled>,
    arguments: Items<Option<Made>>,
    kept: &mut Option<Fault>,
) -> Result<Option<ModelRun>, NoMemory>
    ensures made { IfOk result (λ r. r ≡ (spec.run_of place model arguments).made) }
    ensures noted { OnOk result (kept.new ≡ first_of kept.old (spec.run_of place model arguments).faults) }
{
    let Some(model) = model else {
        drop(arguments);
        return Ok(None);
    };
    let barred = note_model(place, &model, kept);
    let Modelled {
        number,
        params,
        exit,
    } = model;
    match arguments_of(alloc, place, params.as_slice(), arguments, kept) {
        Ok(arguments) => Ok(unless(barred, ran(number, exit, arguments))),
        Err(refusal) => {
            drop(exit);
            Err(refusal)
        }
    }
}

fn widens(given: &Ty, wanted: &Ty) -> bool
    ensures { result ≡ widens (out-Ty given.now) (out-Ty wanted.now) }
{
    match (given, wanted) {
        (Ty::Int, Ty::Real) => true,
        (_, _) => false,
    }
}

fn run_into(line: u32, target: CTarget, ty: &Ty, run: ModelRun) -> Option<XStat>
    ensures { result ≡ spec.run_into line target ty.now run }
{
    if !fits(&run.exit, ty) {
        drop(target);
        drop(run);
        return None;
    }
    let widened = widens(&run.exit, ty);
    let ModelRun {
        model,
        arguments,
        exit,
    } = run;
    drop(exit);
    Some(XStat::RunModel(line, target, model, arguments, widened))
}

fn run_at(line: u32, aim: Aim, run: ModelRun) -> Option<XStat>
    ensures { result ≡ spec.run_at line aim run }
{
    let Aim { target, ty } = aim;
    run_into(line, target, &ty, run)
}

/// A run whose value is stored, by an assignment whose `=` stands at the place.
pub fn assigned_run(
    line: u32,
    equals: Place,
    aim: Option<Aim>,
    run: Option<ModelRun>,
    kept: &mut Option<Fault>,
) -> Option<XStat>
    ensures made { result ≡ (spec.assigned_run line equals aim run).made }
    ensures noted { kept.new ≡ first_of kept.old (spec.assigned_run line equals aim run).faults }
{
    let Some(aim) = aim else {
        drop(run);
        return None;
    };
    let Some(run) = run else {
        drop(aim);
        return None;
    };
    settle(run_at(line, aim, run), rules::ASSIGNED_VALUE, equals, kept)
}

fn first_run(
    alloc: Global,
    line: u32,
    slot: u32,
    ty: &Ty,
    run: ModelRun,
) -> Result<Option<XStat>, NoMemory>
    ensures { IfOk result (λ s. s ≡ spec.first_run line slot ty.now run) }
{
    match Items::of(alloc, Vec::new(alloc)) {
        Ok(steps) => Ok(run_into(line, CTarget { slot, steps }, ty, run)),
        Err(refusal) => {
            drop(run);
            Err(refusal)
        }
    }
}

/// A run whose value a variable begins with, by a declaration whose `=` stands at the place.
pub fn initial_run(
    alloc: Global,
    line: u32,
    slot: u32,
    equals: Place,
    ty: Option<&Ty>,
    run: Option<ModelRun>,
    kept: &mut Option<Fault>,
) -> Result<Option<XStat>, NoMemory>
    ensures made { IfOk result (λ s. s ≡ (spec.initial_run line slot equals (option_copied ty.entry) run).made) }
    ensures noted { OnOk result (kept.new ≡ first_of kept.old (spec.initial_run line slot equals (option_copied ty.entry) run).faults) }
{
    let Some(run) = run else {
        return Ok(None);
    };
    let Some(ty) = ty else {
        drop(run);
        return Ok(None);
    };
    let first = first_run(alloc, line, slot, ty, run)?;
    Ok(settle(first, rules::INITIAL_VALUE, equals, kept))
}
