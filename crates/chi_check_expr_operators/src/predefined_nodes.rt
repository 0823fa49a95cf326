//! Calls of predefined names, whose arguments may have no type.

#![tactic(auto, using(chi_check_types::proofs::Firsts::first_of_none, chi_check_types::proofs::Firsts::first_of_append, chi_check_expr_rules::proofs::Barred::made_barred, chi_check_expr_rules::proofs::Barred::faults_barred))]

ghost use Rattle.std.specs.Prelude.{◌≡◌, not, IfOk, OnOk};
ghost use Rattle.std.specs.Option.{option_copied};
ghost use Rattle.chi_check_types.specs.Faults.{first_of, are_none};
ghost use Rattle.chi_check_expr_rules.specs.PredefinedCalls as spec;

use crate::arguments::is_count;
use crate::insertions::insert_call;
use crate::predefined::predefined;
use chi_base::{Items, NoMemory};
use chi_check_expr_rules::{all_made, note_calling, note_running, settle, unless};
use chi_check_types::{Fault, Known, Made, Predefined, Site, note, rules};
use chi_token::Place;
use std::alloc::Global;

fn note_predefined(site: Site, name: Predefined, place: Place, kept: &mut Option<Fault>) -> bool
    ensures barred { result ≡ not (are_none (spec.predefined_rule site name place)) }
    ensures noted { kept.new ≡ first_of kept.old (spec.predefined_rule site name place) }
{
    match name {
        Predefined::Ready => note_running(site, place, kept),
        Predefined::Finished => note_running(site, place, kept),
        Predefined::Insert => note_calling(site, place, kept),
        _ => false,
    }
}

fn plain_call(
    alloc: Global,
    place: Place,
    name: Predefined,
    arguments: Items<Option<Made>>,
    kept: &mut Option<Fault>,
) -> Result<Option<Made>, NoMemory>
    ensures made { IfOk result (λ n. n ≡ (spec.plain_call place name arguments).made) }
    ensures noted { OnOk result (kept.new ≡ first_of kept.old (spec.plain_call place name arguments).faults) }
{
    if !is_count(name, arguments.as_slice().len()) {
        note(kept, rules::PREDEFINED, place);
        return Ok(None);
    }
    let Some(arguments) = all_made(alloc, arguments)? else {
        return Ok(None);
    };
    let made = predefined(alloc, name, arguments)?;
    Ok(settle(made, rules::PREDEFINED, place, kept))
}

fn is_insert(name: Predefined) -> bool
    ensures { result ≡ spec.is_insert name }
{
    match name {
        Predefined::Insert => true,
        _ => false,
    }
}

fn predefined_made(
    alloc: Global,
    place: Place,
    name: Predefined,
    arguments: Items<Option<Made>>,
    known: Option<&Known>,
    kept: &mut Option<Fault>,
) -> Result<Option<Made>, NoMemory>
    ensures made { IfOk result (λ n. n ≡ (spec.predefined_made place name arguments (option_copied known.entry)).made) }
    ensures noted { OnOk result (kept.new ≡ first_of kept.old (spec.predefined_made place name arguments (option_copied known.entry)).faults) }
{
    if is_insert(name) {
        insert_call(alloc, place, arguments, known, kept)
    } else {
        plain_call(alloc, place, name, arguments, kept)
    }
}

/// A call of a predefined name, with what is known of the name that stands third. The place is
/// that of the predefined name.
pub fn predefined_call(
    alloc: Global,
    site: Site,
    place: Place,
    name: Predefined,
    arguments: Items<Option<Made>>,
    known: Option<&Known>,
    kept: &mut Option<Fault>,
) -> Result<Option<Made>, NoMemory>
    ensures made { IfOk result (λ n. n ≡ (spec.predefined_call site place name arguments (option_copied known.entry)).made) }
    ensures noted { OnOk result (kept.new ≡ first_of kept.old (spec.predefined_call site place name arguments (option_copied known.entry)).faults) }
{
    let barred = note_predefined(site, name, place, kept);
    let made = predefined_made(alloc, place, name, arguments, known, kept)?;
    Ok(unless(barred, made))
}
