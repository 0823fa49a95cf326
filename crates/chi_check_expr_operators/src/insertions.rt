//! Insertions into a list by a function.

#![tactic(auto, using(chi_check_types::proofs::Firsts::first_of_none))]

ghost use Rattle.std.specs.Prelude.{◌≡◌, ◌&&◌, Some, IfOk, OnOk};
ghost use Rattle.std.specs.Option.{option_copied};
ghost use Rattle.chi_types.specs.Same.{same};
ghost use Rattle.chi_types.specs.declared.ty.Ty.{out-Ty};
ghost use Rattle.chi_types.specs.declared.ty.Ty.TheVariants as ty;
ghost use Rattle.chi_core.specs.declared.expression.CExpr.TheVariants as expression;
ghost use Rattle.chi_check_types.specs.Faults.{first_of};
ghost use Rattle.chi_check_expr_rules.specs.Conversions as conversion;
ghost use Rattle.chi_check_expr_rules.specs.PredefinedCalls as spec;

use crate::arguments::before_third;
use chi_base::{Boxed, Items, NoMemory};
use chi_check_expr_rules::{both_refused, converted, core_and_type, settle};
use chi_check_types::{Fault, Known, Made, NameKind, note, rules};
use chi_core::CExpr;
use chi_token::Place;
use chi_types::{Ty, fits, same};
use std::alloc::Global;

/// Whether a function that takes two values of these types tells which of two elements stands first.
fn tells_order_of(element: &Ty, a: &Ty, b: &Ty, outcome: &Ty) -> bool
    ensures { result ≡ (same a.now element.now && same b.now element.now && same outcome.now ty.Bool) }
{
    same(a, element) && same(b, element) && same(outcome, &Ty::Bool)
}

/// Whether a function of these types tells which of two elements stands first.
#[tactic(auto, using(crate::proofs::ShortLists::tells_of_two, crate::proofs::ShortLists::tells_of_others))]
fn tells_order(element: &Ty, params: &[Ty], outcome: &Ty) -> bool
    ensures { result ≡ spec.tells_order element.now params.now outcome.now }
{
    match params {
        [a, b] => tells_order_of(element, a, b, outcome),
        _ => false,
    }
}

fn insert_core(alloc: Global, list: CExpr, x: CExpr, number: u32) -> Result<CExpr, NoMemory>
    ensures { IfOk result (λ e. e ≡ expression.InsertBy list x number) }
{
    let list = Boxed::new(alloc, list)?;
    Ok(CExpr::InsertBy(list, Boxed::new(alloc, x)?, number))
}

/// With an element that is converted already.
fn inserting_core(
    alloc: Global,
    list: Made,
    x: CExpr,
    number: u32,
) -> Result<Option<Made>, NoMemory>
    ensures { IfOk result (λ n. n ≡ Some (conversion.made (expression.InsertBy list.core x number) list.ty)) }
{
    let (list, ty) = core_and_type(list);
    let core = insert_core(alloc, list, x, number)?;
    Ok(Some(Made { core, ty }))
}

fn inserting(
    alloc: Global,
    element: &Ty,
    list: Made,
    x: Made,
    number: u32,
) -> Result<Option<Made>, NoMemory>
    ensures { IfOk result (λ n. n ≡ Some (spec.inserting element.now list x number)) }
{
    match converted(alloc, x, element) {
        Ok(x) => inserting_core(alloc, list, x, number),
        Err(refusal) => {
            drop(list);
            Err(refusal)
        }
    }
}

fn inserted_by(
    alloc: Global,
    element: &Ty,
    list: Made,
    x: Made,
    known: &Known,
) -> Result<Option<Made>, NoMemory>
    ensures { IfOk result (λ n. n ≡ spec.inserted_by element.now list x known.now) }
{
    match known {
        Known::Func(number, params, outcome) => {
            if fits(&x.ty, element) && tells_order(element, params.as_slice(), outcome) {
                inserting(alloc, element, list, x, *number)
            } else {
                Ok(both_refused(list, x))
            }
        }
        _ => Ok(both_refused(list, x)),
    }
}

fn inserted(alloc: Global, list: Made, x: Made, known: &Known) -> Result<Option<Made>, NoMemory>
    ensures { IfOk result (λ n. n ≡ spec.inserted_in (out-Ty list.ty) list x known.now) }
{
    match &list.ty {
        Ty::ListOf(element) => match element.get().copy(alloc) {
            Ok(element) => inserted_by(alloc, &element, list, x, known),
            Err(refusal) => {
                drop(list);
                drop(x);
                Err(refusal)
            }
        },
        _ => Ok(both_refused(list, x)),
    }
}

fn is_untyped_function(known: &Known) -> bool
    ensures { result ≡ spec.is_untyped_function known.now }
{
    match known {
        Known::Untyped(kind) => is_function(*kind),
        _ => false,
    }
}

fn is_function(kind: NameKind) -> bool
    ensures { result ≡ spec.is_function kind }
{
    match kind {
        NameKind::Function => true,
        _ => false,
    }
}

fn insertion(
    alloc: Global,
    place: Place,
    list: Made,
    x: Made,
    known: Option<&Known>,
    kept: &mut Option<Fault>,
) -> Result<Option<Made>, NoMemory>
    ensures made { IfOk result (λ n. n ≡ (spec.insertion place list x (option_copied known.entry)).made) }
    ensures noted { OnOk result (kept.new ≡ first_of kept.old (spec.insertion place list x (option_copied known.entry)).faults) }
{
    let Some(known) = known else {
        note(kept, rules::PREDEFINED, place);
        return Ok(both_refused(list, x));
    };
    if is_untyped_function(known) {
        return Ok(both_refused(list, x));
    }
    let made = inserted(alloc, list, x, known)?;
    Ok(settle(made, rules::PREDEFINED, place, kept))
}

fn insertion_of(
    alloc: Global,
    place: Place,
    list: Option<Made>,
    x: Option<Made>,
    known: Option<&Known>,
    kept: &mut Option<Fault>,
) -> Result<Option<Made>, NoMemory>
    ensures made { IfOk result (λ n. n ≡ (spec.insertion_of place list x (option_copied known.entry)).made) }
    ensures noted { OnOk result (kept.new ≡ first_of kept.old (spec.insertion_of place list x (option_copied known.entry)).faults) }
{
    let Some(list) = list else {
        drop(x);
        return Ok(None);
    };
    let Some(x) = x else {
        drop(list);
        return Ok(None);
    };
    insertion(alloc, place, list, x, known, kept)
}

/// An insertion with these arguments, and what is known of the name that stands third.
pub(crate) fn insert_call(
    alloc: Global,
    place: Place,
    arguments: Items<Option<Made>>,
    known: Option<&Known>,
    kept: &mut Option<Fault>,
) -> Result<Option<Made>, NoMemory>
    ensures made { IfOk result (λ n. n ≡ (spec.insert_call place arguments (option_copied known.entry)).made) }
    ensures noted { OnOk result (kept.new ≡ first_of kept.old (spec.insert_call place arguments (option_copied known.entry)).faults) }
{
    let Some((list, x)) = before_third(alloc, arguments)? else {
        note(kept, rules::PREDEFINED, place);
        return Ok(None);
    };
    insertion_of(alloc, place, list, x, known, kept)
}
