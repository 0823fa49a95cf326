//! Indexes, slices and fields of what may have no type.

#![tactic(auto, using(chi_check_types::proofs::Firsts::first_of_none))]

ghost use Rattle.std.specs.Prelude.{◌≡◌, ◌++◌, [], IfOk, OnOk};
ghost use Rattle.chi_check_types.specs.Faults.{first_of};
ghost use Rattle.chi_check_expr_rules.specs.Nodes.{all_made};
ghost use Rattle.chi_check_expr_rules.specs.Parts as spec;

use crate::parts::{field, indexed, sliced};
use chi_base::{Items, NoMemory};
use chi_check_expr_rules::{all_made, settle};
use chi_check_types::{Fault, Made, rules};
use chi_token::Place;
use chi_tree::Name;
use std::alloc::Global;

/// An index. The place is that of `[`.
pub fn index_of(
    alloc: Global,
    place: Place,
    whole: Option<Made>,
    index: Option<Made>,
    kept: &mut Option<Fault>,
) -> Result<Option<Made>, NoMemory>
    ensures made { IfOk result (λ m. m ≡ (spec.index_of place whole index).made) }
    ensures noted { OnOk result (kept.new ≡ first_of kept.old (spec.index_of place whole index).faults) }
{
    let Some(whole) = whole else {
        drop(index);
        return Ok(None);
    };
    let Some(index) = index else {
        drop(whole);
        return Ok(None);
    };
    Ok(settle(indexed(alloc, whole, index)?, rules::INDEX, place, kept))
}

fn with_given(
    parts: Vec<Option<Made>>,
    bound: Option<Option<Made>>,
) -> Result<Vec<Option<Made>>, NoMemory>
    ensures { IfOk result (λ more. more.items ≡ parts.items ++ spec.if_given bound []) }
{
    let mut parts = parts;
    if let Some(bound) = bound {
        parts.push(bound)?;
    }
    Ok(parts)
}

fn given_last(
    alloc: Global,
    parts: Vec<Option<Made>>,
    by: Option<Option<Made>>,
) -> Result<Items<Option<Made>>, NoMemory>
    ensures { IfOk result (λ all. all ≡ parts.items ++ spec.if_given by []) }
{
    let parts = with_given(parts, by)?;
    Ok(Items::of(alloc, parts)?)
}

fn given_after(
    alloc: Global,
    parts: Vec<Option<Made>>,
    upto: Option<Option<Made>>,
    by: Option<Option<Made>>,
) -> Result<Items<Option<Made>>, NoMemory>
    ensures { IfOk result (λ all. all ≡ (parts.items ++ spec.if_given upto []) ++ spec.if_given by []) }
{
    match with_given(parts, upto) {
        Ok(parts) => given_last(alloc, parts, by),
        Err(refusal) => {
            drop(by);
            Err(refusal)
        }
    }
}

/// Those bounds that are given, in order.
#[tactic(auto, using(crate::proofs::Given::one_by_one))]
fn given(
    alloc: Global,
    from: Option<Option<Made>>,
    upto: Option<Option<Made>>,
    by: Option<Option<Made>>,
) -> Result<Items<Option<Made>>, NoMemory>
    ensures { IfOk result (λ parts. parts ≡ spec.given (record { from = from; upto = upto; by = by })) }
{
    match with_given(Vec::new(alloc), from) {
        Ok(parts) => given_after(alloc, parts, upto, by),
        Err(refusal) => {
            drop(upto);
            drop(by);
            Err(refusal)
        }
    }
}

fn bounds_made(
    alloc: Global,
    from: Option<Option<Made>>,
    upto: Option<Option<Made>>,
    by: Option<Option<Made>>,
) -> Result<Option<Items<Made>>, NoMemory>
    ensures { IfOk result (λ bounds. bounds ≡ all_made (spec.given (record { from = from; upto = upto; by = by }))) }
{
    all_made(alloc, given(alloc, from, upto, by)?)
}

/// A slice, with those of its bounds that are given. The place is that of `[`.
pub fn slice_of(
    alloc: Global,
    place: Place,
    whole: Option<Made>,
    from: Option<Option<Made>>,
    upto: Option<Option<Made>>,
    by: Option<Option<Made>>,
    kept: &mut Option<Fault>,
) -> Result<Option<Made>, NoMemory>
    ensures made { IfOk result (λ m. m ≡ (spec.slice_of place whole (record { from = from; upto = upto; by = by })).made) }
    ensures noted { OnOk result (kept.new ≡ first_of kept.old (spec.slice_of place whole (record { from = from; upto = upto; by = by })).faults) }
{
    let (has_from, has_upto, has_by) = (from.is_some(), upto.is_some(), by.is_some());
    let bounds = match bounds_made(alloc, from, upto, by) {
        Ok(bounds) => bounds,
        Err(refusal) => {
            drop(whole);
            return Err(refusal);
        }
    };
    let Some(whole) = whole else {
        drop(bounds);
        return Ok(None);
    };
    let Some(bounds) = bounds else {
        drop(whole);
        return Ok(None);
    };
    let made = sliced(alloc, has_from, has_upto, has_by, whole, bounds)?;
    Ok(settle(made, rules::INDEX, place, kept))
}

/// A field. The place is that of its name.
pub fn field_of(
    alloc: Global,
    name: &Name,
    m: Option<Made>,
    kept: &mut Option<Fault>,
) -> Result<Option<Made>, NoMemory>
    ensures made { IfOk result (λ n. n ≡ (spec.field_of name.now m).made) }
    ensures noted { OnOk result (kept.new ≡ first_of kept.old (spec.field_of name.now m).faults) }
{
    let Some(m) = m else {
        return Ok(None);
    };
    Ok(settle(field(alloc, &name.text, m)?, rules::FIELD, name.place, kept))
}
