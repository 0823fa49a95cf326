//! What is run and started.

#![tactic(auto, using(chi_check_types::proofs::Firsts::first_of_none, chi_check_types::proofs::Firsts::first_of_append, chi_check_expr_rules::proofs::Barred::made_barred, chi_check_expr_rules::proofs::Barred::faults_barred))]

ghost use Rattle.std.specs.Prelude.{◌≡◌, not, IfOk, OnOk};
ghost use Rattle.std.specs.Option.{option_copied};
ghost use Rattle.chi_types.specs.declared.ty.Ty.{out-Ty};
ghost use Rattle.chi_check_types.specs.Faults.{first_of, are_none};
ghost use Rattle.chi_check_stat_rules.specs.Elements as spec;

use crate::taking::target_of;
use chi_base::{Items, NoMemory};
use chi_check_expr_rules::{all_made, passed, settle};
use chi_check_stat_rules::{Aim, ExitType, Home, Started, is_inst};
use chi_check_types::{Fault, Known, Made, NameKind, Scope, is_predefined, note, rules};
use chi_core::{CElem, CTarget};
use chi_token::Place;
use chi_tree::Name;
use chi_types::{Ty, same};
use std::alloc::Global;

fn as_instance_target(aim: Aim) -> Option<CTarget>
    ensures { result ≡ spec.as_instance_target aim }
{
    if is_inst(&aim.ty) {
        Some(target_of(aim))
    } else {
        drop(aim);
        None
    }
}

/// The target of an element, at its first token.
pub fn instance_target(place: Place, aim: Option<Aim>, kept: &mut Option<Fault>) -> Option<CTarget>
    ensures made { result ≡ (spec.instance_target place aim).made }
    ensures noted { kept.new ≡ first_of kept.old (spec.instance_target place aim).faults }
{
    let Some(aim) = aim else {
        return None;
    };
    settle(as_instance_target(aim), rules::ELEMENT_TARGET, place, kept)
}

/// Whether a definition with these exits may start a process with exits of a type.
fn is_other_exit(own: &ExitType, ty: &Ty) -> bool
    ensures { result ≡ spec.is_other_exit own.now ty.now }
{
    match own {
        ExitType::Nothing => true,
        ExitType::Untyped => false,
        ExitType::Given(own) => !same(ty, own),
    }
}

fn note_exit(home: &Home, place: Place, ty: &Option<Ty>, kept: &mut Option<Fault>) -> bool
    ensures barred { result ≡ not (are_none (spec.exit_rule home.now place ty.now)) }
    ensures noted { kept.new ≡ first_of kept.old (spec.exit_rule home.now place ty.now) }
{
    let Some(ty) = ty else {
        return false;
    };
    let Home::Process(own) = home else {
        return false;
    };
    if !is_other_exit(own, ty) {
        return false;
    }
    note(kept, rules::STARTED_EXIT, place);
    true
}

fn started(
    alloc: Global,
    process: u32,
    params: &[Ty],
    arguments: Items<Made>,
) -> Result<Option<Started>, NoMemory>
    ensures { IfOk result (λ s. s ≡ spec.started process params.now arguments) }
{
    let Some(arguments) = passed(alloc, arguments, params)? else {
        return Ok(None);
    };
    Ok(Some(Started { process, arguments }))
}

fn process_start(
    alloc: Global,
    place: Place,
    process: u32,
    params: &[Ty],
    arguments: Items<Option<Made>>,
    kept: &mut Option<Fault>,
) -> Result<Option<Started>, NoMemory>
    ensures made { IfOk result (λ s. s ≡ (spec.process_start place process params.now arguments).made) }
    ensures noted { OnOk result (kept.new ≡ first_of kept.old (spec.process_start place process params.now arguments).faults) }
{
    if arguments.as_slice().len() != params.len() {
        note(kept, rules::ELEMENT_ARGUMENTS, place);
        return Ok(None);
    }
    let Some(arguments) = all_made(alloc, arguments)? else {
        return Ok(None);
    };
    let made = started(alloc, process, params, arguments)?;
    Ok(settle(made, rules::ELEMENT_ARGUMENTS, place, kept))
}

fn untyped_start(place: Place, kind: NameKind, kept: &mut Option<Fault>)
    ensures { kept.new ≡ first_of kept.old (spec.untyped_start place kind).faults }
{
    match kind {
        NameKind::Process => {}
        _ => note(kept, rules::NAME_KIND, place),
    }
}

fn visible_start(
    alloc: Global,
    home: &Home,
    place: Place,
    known: Option<&Known>,
    arguments: Items<Option<Made>>,
    kept: &mut Option<Fault>,
) -> Result<Option<Started>, NoMemory>
    ensures made { IfOk result (λ s. s ≡ (spec.visible_start home.now place (option_copied known.entry) arguments).made) }
    ensures noted { OnOk result (kept.new ≡ first_of kept.old (spec.visible_start home.now place (option_copied known.entry) arguments).faults) }
{
    match known {
        None => {
            note(kept, rules::VISIBLE_NAME, place);
            Ok(None)
        }
        Some(Known::Proc(process, params, exit)) => {
            let barred = note_exit(home, place, exit, kept);
            let params = params.as_slice();
            let made = process_start(alloc, place, *process, params, arguments, kept)?;
            Ok(if barred { None } else { made })
        }
        Some(Known::Untyped(kind)) => {
            untyped_start(place, *kind, kept);
            Ok(None)
        }
        Some(_) => {
            note(kept, rules::NAME_KIND, place);
            Ok(None)
        }
    }
}

/// What a name with arguments starts.
pub fn start_of(
    alloc: Global,
    home: &Home,
    scope: &Scope,
    name: &Name,
    arguments: Items<Option<Made>>,
    kept: &mut Option<Fault>,
) -> Result<Option<Started>, NoMemory>
    ensures made { IfOk result (λ s. s ≡ (spec.start_of home.now scope.now name.now arguments).made) }
    ensures noted { OnOk result (kept.new ≡ first_of kept.old (spec.start_of home.now scope.now name.now arguments).faults) }
{
    if is_predefined(&name.text) {
        note(kept, rules::NAME_KIND, name.place);
        return Ok(None);
    }
    visible_start(
        alloc,
        home,
        name.place,
        scope.known(&name.text),
        arguments,
        kept,
    )
}

/// The element, where its target has a type, if it has a target, and so has what is started.
pub fn element_made(target: Option<Option<CTarget>>, started: Option<Started>) -> Option<CElem>
    ensures { result ≡ spec.element_made target started }
{
    let Some(Started { process, arguments }) = started else {
        return None;
    };
    match target {
        None => Some(CElem::Make(None, process, arguments)),
        Some(None) => None,
        Some(Some(target)) => Some(CElem::Make(Some(target), process, arguments)),
    }
}
