//! What ends a function or a run, and what ends a turn of a loop. Values that are refused are dropped by calls
//! of `drop`: what goes out of scope where a function returns is laid out part by part in its proof, on each
//! way out.

#![tactic(auto, using(chi_check_types::proofs::Firsts::first_of_none))]

ghost use Rattle.std.specs.Prelude.{◌≡◌, not, IfOk, OnOk};
ghost use Rattle.chi_check_types.specs.Faults.{first_of, are_none};
ghost use Rattle.chi_check_stat_rules.specs.Endings as spec;

use crate::home::{ExitType, Home};
use crate::values::fitted;
use chi_base::NoMemory;
use chi_check_expr_rules::settle;
use chi_check_types::{Fault, Made, note, rules};
use chi_core::CStat;
use chi_token::Place;
use chi_types::{Ty, is_plain};
use std::alloc::Global;

fn returning(alloc: Global, line: u32, ty: &Ty, made: Made) -> Result<Option<CStat>, NoMemory>
    ensures { IfOk result (λ s. s ≡ spec.returning line ty.now made) }
{
    let Some(value) = fitted(alloc, made, ty)? else {
        return Ok(None);
    };
    Ok(Some(CStat::Return(line, value)))
}

fn return_as(
    alloc: Global,
    place: Place,
    ty: &Option<Ty>,
    made: Option<Made>,
    kept: &mut Option<Fault>,
) -> Result<Option<CStat>, NoMemory>
    ensures made { IfOk result (λ s. s ≡ (spec.return_as place ty.now made).made) }
    ensures noted { OnOk result (kept.new ≡ first_of kept.old (spec.return_as place ty.now made).faults) }
{
    let Some(ty) = ty else {
        drop(made);
        return Ok(None);
    };
    let Some(made) = made else {
        return Ok(None);
    };
    Ok(settle(
        returning(alloc, place.line, ty, made)?,
        rules::RETURN,
        place,
        kept,
    ))
}

/// A return, whose word stands at the place.
pub fn return_of(
    alloc: Global,
    home: &Home,
    place: Place,
    made: Option<Made>,
    kept: &mut Option<Fault>,
) -> Result<Option<CStat>, NoMemory>
    ensures made { IfOk result (λ s. s ≡ (spec.return_of home.now place made).made) }
    ensures noted { OnOk result (kept.new ≡ first_of kept.old (spec.return_of home.now place made).faults) }
{
    match home {
        Home::Function(ty) => return_as(alloc, place, ty, made, kept),
        Home::Process(_) | Home::Experiment => {
            note(kept, rules::RETURN, place);
            drop(made);
            Ok(None)
        }
    }
}

fn exiting(alloc: Global, line: u32, ty: &Ty, made: Made) -> Result<Option<CStat>, NoMemory>
    ensures { IfOk result (λ s. s ≡ spec.exiting line ty.now made) }
{
    if !is_plain(&made.ty) {
        drop(made);
        return Ok(None);
    }
    let Some(value) = fitted(alloc, made, ty)? else {
        return Ok(None);
    };
    Ok(Some(CStat::Exit(line, Some(value))))
}

fn plain_exit(place: Place, made: Option<Made>, kept: &mut Option<Fault>)
    ensures { kept.new ≡ first_of kept.old (spec.plain_exit place made).faults }
{
    let Some(made) = made else {
        return;
    };
    let plain = is_plain(&made.ty);
    drop(made);
    if !plain {
        note(kept, rules::EXIT, place);
    }
}

fn exit_value(
    alloc: Global,
    own: &ExitType,
    place: Place,
    made: Option<Made>,
    kept: &mut Option<Fault>,
) -> Result<Option<CStat>, NoMemory>
    ensures made { IfOk result (λ s. s ≡ (spec.exit_value own.now place made).made) }
    ensures noted { OnOk result (kept.new ≡ first_of kept.old (spec.exit_value own.now place made).faults) }
{
    match own {
        ExitType::Nothing => {
            note(kept, rules::EXIT, place);
            drop(made);
            Ok(None)
        }
        ExitType::Untyped => {
            plain_exit(place, made, kept);
            Ok(None)
        }
        ExitType::Given(ty) => {
            let Some(made) = made else {
                return Ok(None);
            };
            Ok(settle(
                exiting(alloc, place.line, ty, made)?,
                rules::EXIT,
                place,
                kept,
            ))
        }
    }
}

fn exit_bare(own: &ExitType, place: Place, kept: &mut Option<Fault>) -> Option<CStat>
    ensures made { result ≡ (spec.exit_bare own.now place).made }
    ensures noted { kept.new ≡ first_of kept.old (spec.exit_bare own.now place).faults }
{
    match own {
        ExitType::Nothing => Some(CStat::Exit(place.line, None)),
        ExitType::Untyped | ExitType::Given(_) => {
            note(kept, rules::EXIT, place);
            None
        }
    }
}

fn exit_with(
    alloc: Global,
    own: &ExitType,
    place: Place,
    value: Option<Option<Made>>,
    kept: &mut Option<Fault>,
) -> Result<Option<CStat>, NoMemory>
    ensures made { IfOk result (λ s. s ≡ (spec.exit_with own.now place value).made) }
    ensures noted { OnOk result (kept.new ≡ first_of kept.old (spec.exit_with own.now place value).faults) }
{
    match value {
        None => Ok(exit_bare(own, place, kept)),
        Some(made) => exit_value(alloc, own, place, made, kept),
    }
}

/// An exit, whose word stands at the place, with a value where one stands there; that may have no type.
pub fn exit_of(
    alloc: Global,
    home: &Home,
    place: Place,
    value: Option<Option<Made>>,
    kept: &mut Option<Fault>,
) -> Result<Option<CStat>, NoMemory>
    ensures made { IfOk result (λ s. s ≡ (spec.exit_of home.now place value).made) }
    ensures noted { OnOk result (kept.new ≡ first_of kept.old (spec.exit_of home.now place value).faults) }
{
    match home {
        Home::Function(_) => {
            note(kept, rules::IN_FUNCTION, place);
            drop(value);
            Ok(None)
        }
        Home::Process(own) => exit_with(alloc, own, place, value, kept),
        Home::Experiment => {
            note(kept, rules::IN_EXPERIMENT, place);
            drop(value);
            Ok(None)
        }
    }
}

/// Notes a word of loops that stands in none, and tells whether it does.
pub fn note_loop_word(looped: bool, place: Place, kept: &mut Option<Fault>) -> bool
    ensures barred { result ≡ not (are_none (spec.loop_rule looped place)) }
    ensures noted { kept.new ≡ first_of kept.old (spec.loop_rule looped place) }
{
    if looped {
        return false;
    }
    note(kept, rules::LOOP_WORD, place);
    true
}
