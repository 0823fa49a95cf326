//! Calls of functions.

#![tactic(auto, using(chi_check_types::proofs::Firsts::first_of_none, chi_check_types::proofs::Firsts::first_of_append, chi_check_expr_rules::proofs::Barred::made_barred, chi_check_expr_rules::proofs::Barred::faults_barred))]

ghost use Rattle.std.specs.Prelude.{◌≡◌, Some, IfOk, OnOk};
ghost use Rattle.std.specs.Option.{option_copied};
ghost use Rattle.chi_core.specs.declared.expression.CExpr.TheVariants as expression;
ghost use Rattle.chi_check_types.specs.Faults.{first_of};
ghost use Rattle.chi_check_expr_rules.specs.Calls as spec;
ghost use Rattle.chi_check_expr_rules.specs.Conversions as conversion;

use chi_base::{Items, NoMemory};
use chi_check_expr_rules::{all_made, model_call_rule, note_calling, passed, settle, unless};
use chi_check_types::{Fault, Known, Made, NameKind, Site, note, rules};
use chi_core::CExpr;
use chi_token::Place;
use chi_types::Ty;
use std::alloc::Global;

fn calling(
    alloc: Global,
    number: u32,
    cores: Items<CExpr>,
    outcome: &Ty,
) -> Result<Option<Made>, NoMemory>
    ensures { IfOk result (λ m. m ≡ Some (conversion.made (expression.Call number cores) outcome.now)) }
{
    let ty = outcome.copy(alloc)?;
    let core = CExpr::Call(number, cores);
    Ok(Some(Made { core, ty }))
}

fn called(
    alloc: Global,
    number: u32,
    params: &[Ty],
    outcome: &Ty,
    arguments: Items<Made>,
) -> Result<Option<Made>, NoMemory>
    ensures { IfOk result (λ m. m ≡ spec.called number params.now outcome.now arguments) }
{
    match passed(alloc, arguments, params)? {
        Some(cores) => calling(alloc, number, cores, outcome),
        None => Ok(None),
    }
}

/// A call of a function of these types.
fn function_call(
    alloc: Global,
    place: Place,
    number: u32,
    params: &[Ty],
    outcome: &Ty,
    arguments: Items<Option<Made>>,
    kept: &mut Option<Fault>,
) -> Result<Option<Made>, NoMemory>
    ensures made { IfOk result (λ m. m ≡ (spec.function_call place number params.now outcome.now arguments).made) }
    ensures noted { OnOk result (kept.new ≡ first_of kept.old (spec.function_call place number params.now outcome.now arguments).faults) }
{
    if arguments.as_slice().len() != params.len() {
        note(kept, rules::CALL_ARGUMENTS, place);
        return Ok(None);
    }
    let Some(arguments) = all_made(alloc, arguments)? else {
        return Ok(None);
    };
    let made = called(alloc, number, params, outcome, arguments)?;
    Ok(settle(made, rules::CALL_ARGUMENTS, place, kept))
}

fn untyped_call(site: Site, place: Place, kind: NameKind, kept: &mut Option<Fault>)
    ensures { kept.new ≡ first_of kept.old (spec.untyped_call site place kind).faults }
{
    match kind {
        NameKind::Function => {
            note_calling(site, place, kept);
        }
        NameKind::Model => note(kept, model_call_rule(site), place),
        _ => note(kept, rules::NAME_KIND, place),
    }
}

/// A call of what is known of a name that isn't predefined. The place is that of the name.
pub fn call_of(
    alloc: Global,
    site: Site,
    place: Place,
    known: Option<&Known>,
    arguments: Items<Option<Made>>,
    kept: &mut Option<Fault>,
) -> Result<Option<Made>, NoMemory>
    ensures made { IfOk result (λ m. m ≡ (spec.call_of site place (option_copied known.entry) arguments).made) }
    ensures noted { OnOk result (kept.new ≡ first_of kept.old (spec.call_of site place (option_copied known.entry) arguments).faults) }
{
    match known {
        None => {
            note(kept, rules::VISIBLE_NAME, place);
            drop(arguments);
            Ok(None)
        }
        Some(Known::Func(number, params, outcome)) => {
            let barred = note_calling(site, place, kept);
            let params = params.as_slice();
            let made = function_call(alloc, place, *number, params, outcome, arguments, kept)?;
            Ok(unless(barred, made))
        }
        Some(Known::Untyped(kind)) => {
            untyped_call(site, place, *kind, kept);
            drop(arguments);
            Ok(None)
        }
        Some(Known::Model(..)) => {
            note(kept, model_call_rule(site), place);
            drop(arguments);
            Ok(None)
        }
        Some(_) => {
            note(kept, rules::NAME_KIND, place);
            drop(arguments);
            Ok(None)
        }
    }
}
