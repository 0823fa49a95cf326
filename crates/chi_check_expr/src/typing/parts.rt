//! Indexes, slices and fields. Where memory is refused, typed parts at hand are let go by calls of `drop`: what goes
//! out of scope where a function returns is laid out part by part in its proof.

ghost use Rattle.std.specs.Prelude.{◌≡◌, [], map, IfOk, OnOk, option_map};
ghost use Rattle.chi_check_types.specs.Faults.{first_of};
ghost use Rattle.chi_check_expr_rules.specs.Parts as parts;
ghost use Rattle.chi_check_expr.specs.Expressions as expressions;
ghost use Rattle.chi_check_expr.specs.Reads as reads;
ghost use Rattle.chi_check_expr.specs.Typing as spec;

use crate::typing::type_in;
use chi_base::{Boxed, NoMemory};
use chi_check_expr_parts as rule;
use chi_check_types::{Fault, Made, Scope, Site};
use chi_token::Place;
use chi_tree::{Expr, Postfix};
use std::alloc::Global;

/// A part of a part, from the left.
#[cycle(typing)]
pub(super) fn type_parts(
    alloc: Global,
    postfixes: &[Postfix],
    whole: Option<Made>,
    scope: &Scope,
    site: Site,
    kept: &mut Option<Fault>,
) -> Result<Option<Made>, NoMemory>
    ensures made { IfOk result (λ m. m ≡ (expressions.parted whole (map (spec.taken site scope.now) postfixes.now)).made) }
    ensures noted { OnOk result (kept.new ≡ first_of kept.old (expressions.parted whole (map (spec.taken site scope.now) postfixes.now)).faults) }
{
    let mut part = whole;
    for postfix in postfixes {
        part = type_part(alloc, postfix, part, scope, site, kept)?;
    }
    Ok(part)
}

#[cycle(typing)]
fn type_part(
    alloc: Global,
    postfix: &Postfix,
    whole: Option<Made>,
    scope: &Scope,
    site: Site,
    kept: &mut Option<Fault>,
) -> Result<Option<Made>, NoMemory>
    ensures made { IfOk result (λ m. m ≡ (expressions.part_of whole (spec.taken site scope.now postfix.now)).made) }
    ensures noted { OnOk result (kept.new ≡ first_of kept.old (expressions.part_of whole (spec.taken site scope.now postfix.now)).faults) }
{
    match postfix {
        Postfix::Index { place, index } => {
            type_index(alloc, *place, whole, index.get(), scope, site, kept)
        }
        Postfix::Slice {
            place,
            from,
            upto,
            second_colon: _,
            by,
        } => {
            let from = type_bound(alloc, from, scope, site, kept)?;
            let upto = type_bound(alloc, upto, scope, site, kept)?;
            type_slice(alloc, *place, whole, from, upto, by, scope, site, kept)
        }
        Postfix::Field(name) => rule::field_of(alloc, name, whole, kept),
    }
}

/// An index.
#[cycle(typing)]
fn type_index(
    alloc: Global,
    place: Place,
    whole: Option<Made>,
    index: &Expr,
    scope: &Scope,
    site: Site,
    kept: &mut Option<Fault>,
) -> Result<Option<Made>, NoMemory>
    ensures made { IfOk result (λ m. m ≡ (parts.index_of place whole (spec.typing site scope.now index.now).made).made) }
    ensures noted { OnOk result (kept.new ≡ first_of (first_of kept.old (spec.typing site scope.now index.now).faults) (parts.index_of place whole (spec.typing site scope.now index.now).made).faults) }
{
    match type_in(alloc, index, scope, site, kept) {
        Ok(index) => rule::index_of(alloc, place, whole, index, kept),
        Err(refusal) => {
            drop(whole);
            Err(refusal)
        }
    }
}

/// A slice, with its last bound.
#[cycle(typing)]
fn type_slice(
    alloc: Global,
    place: Place,
    whole: Option<Made>,
    from: Option<Option<Made>>,
    upto: Option<Option<Made>>,
    by: &Option<Boxed<Expr>>,
    scope: &Scope,
    site: Site,
    kept: &mut Option<Fault>,
) -> Result<Option<Made>, NoMemory>
    ensures made { IfOk result (λ m. m ≡ (parts.slice_of place whole (record { from = from; upto = upto; by = option_map reads.made_of (option_map (spec.typing site scope.now) by.now) })).made) }
    ensures noted { OnOk result (kept.new ≡ first_of (first_of kept.old (reads.all_faults (parts.if_given (option_map (spec.typing site scope.now) by.now) []))) (parts.slice_of place whole (record { from = from; upto = upto; by = option_map reads.made_of (option_map (spec.typing site scope.now) by.now) })).faults) }
{
    match type_bound(alloc, by, scope, site, kept) {
        Ok(by) => rule::slice_of(alloc, place, whole, from, upto, by, kept),
        Err(refusal) => {
            drop(whole);
            drop(from);
            drop(upto);
            Err(refusal)
        }
    }
}

/// A bound of a slice, where one is written.
#[cycle(typing)]
#[tactic(auto, using(crate::proofs::PartEquations::one_noted, crate::proofs::PartEquations::none_noted))]
fn type_bound(
    alloc: Global,
    bound: &Option<Boxed<Expr>>,
    scope: &Scope,
    site: Site,
    kept: &mut Option<Fault>,
) -> Result<Option<Option<Made>>, NoMemory>
    ensures made { IfOk result (λ m. m ≡ option_map reads.made_of (option_map (spec.typing site scope.now) bound.now)) }
    ensures noted { OnOk result (kept.new ≡ first_of kept.old (reads.all_faults (parts.if_given (option_map (spec.typing site scope.now) bound.now) []))) }
{
    match bound {
        None => Ok(None),
        Some(bound) => Ok(Some(type_in(alloc, bound.get(), scope, site, kept)?)),
    }
}
