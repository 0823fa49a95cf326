//! What a name comes to where an expression stands, and the time.

#![tactic(auto, using(chi_check_types::proofs::Firsts::first_of_none, chi_check_types::proofs::Ruled::faults_unless, chi_check_expr_rules::proofs::Barred::made_unless_barred))]

ghost use Rattle.std.specs.Prelude.{◌≡◌, IfOk, OnOk};
ghost use Rattle.std.specs.Option.{option_copied};
ghost use Rattle.chi_check_types.specs.Faults.{first_of};
ghost use Rattle.chi_check_expr_rules.specs.Named as spec;

use chi_base::{Items, NoMemory};
use chi_check_expr_rules::{note_running, unless};
use chi_check_types::{Fault, Known, Made, NameKind, Scope, Site, is_predefined, note, rules};
use chi_core::{CExpr, OpName};
use chi_token::Place;
use chi_tree::Name;
use chi_types::Ty;
use chi_value::Value;
use std::alloc::Global;

fn untyped_value(place: Place, kind: NameKind, kept: &mut Option<Fault>) -> Option<Made>
    ensures made { result ≡ (spec.untyped_value place kind).made }
    ensures noted { kept.new ≡ first_of kept.old (spec.untyped_value place kind).faults }
{
    match kind {
        NameKind::Variable | NameKind::Unwound | NameKind::Constant => None,
        NameKind::Type | NameKind::Function | NameKind::Process | NameKind::Model => {
            note(kept, rules::NAME_KIND, place);
            None
        }
    }
}

fn visible_value(
    alloc: Global,
    place: Place,
    known: Option<&Known>,
    kept: &mut Option<Fault>,
) -> Result<Option<Made>, NoMemory>
    ensures made { IfOk result (λ m. m ≡ (spec.visible_value place (option_copied known.entry)).made) }
    ensures noted { OnOk result (kept.new ≡ first_of kept.old (spec.visible_value place (option_copied known.entry)).faults) }
{
    match known {
        None => {
            note(kept, rules::VISIBLE_NAME, place);
            Ok(None)
        }
        Some(Known::Var(slot, ty)) => {
            let ty = ty.copy(alloc)?;
            let core = CExpr::Var(*slot);
            Ok(Some(Made { core, ty }))
        }
        Some(Known::Fixed(slot, ty)) => {
            let ty = ty.copy(alloc)?;
            let core = CExpr::Var(*slot);
            Ok(Some(Made { core, ty }))
        }
        Some(Known::Const(number, ty)) => {
            let ty = ty.copy(alloc)?;
            let core = CExpr::Const(*number);
            Ok(Some(Made { core, ty }))
        }
        Some(Known::Value(enumeration, position)) => {
            let core = CExpr::Lit(Value::Choice(*enumeration, *position));
            let ty = Ty::Choice(*enumeration);
            Ok(Some(Made { core, ty }))
        }
        Some(Known::Untyped(kind)) => Ok(untyped_value(place, *kind, kept)),
        Some(_) => {
            note(kept, rules::NAME_KIND, place);
            Ok(None)
        }
    }
}

/// What a name comes to where an expression stands.
pub fn named_value(
    alloc: Global,
    scope: &Scope,
    name: &Name,
    kept: &mut Option<Fault>,
) -> Result<Option<Made>, NoMemory>
    ensures made { IfOk result (λ m. m ≡ (spec.named_value scope.now name.now).made) }
    ensures noted { OnOk result (kept.new ≡ first_of kept.old (spec.named_value scope.now name.now).faults) }
{
    if is_predefined(&name.text) {
        note(kept, rules::NAME_KIND, name.place);
        return Ok(None);
    }
    visible_value(alloc, name.place, scope.known(&name.text), kept)
}

/// The time. The place is that of its word.
pub fn time_of(
    alloc: Global,
    site: Site,
    place: Place,
    kept: &mut Option<Fault>,
) -> Result<Option<Made>, NoMemory>
    ensures made { IfOk result (λ m. m ≡ (spec.time_of site place).made) }
    ensures noted { OnOk result (kept.new ≡ first_of kept.old (spec.time_of site place).faults) }
{
    let barred = note_running(site, place, kept);
    let operands = Items::of(alloc, Vec::new(alloc))?;
    let core = CExpr::Op(OpName::Time, operands);
    let made = Made { core, ty: Ty::Real };
    Ok(unless(barred, Some(made)))
}
