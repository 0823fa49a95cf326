//! Literals of containers, with parts and without.

ghost use Rattle.std.specs.Prelude.{◌≡◌, map, false, IfOk, OnOk};
ghost use Rattle.chi_check_types.specs.Faults.{first_of};
ghost use Rattle.chi_check_expr_rules.specs.Containers as literals;
ghost use Rattle.chi_check_expr.specs.Reads as reads;
ghost use Rattle.chi_check_expr.specs.Typing as spec;

use crate::typing::type_in;
use crate::typing::type_trees::mean_in;
use chi_base::{Items, NoMemory};
use chi_check_expr_parts as rule;
use chi_check_types::{Fault, Made, Meant, Scope, Site};
use chi_token::Place;
use chi_tree::{Entry, Expr, TypeTree};
use std::alloc::Global;

/// What each expression of a list comes to.
#[cycle(typing)]
pub(super) fn type_all(
    alloc: Global,
    parts: &[Expr],
    scope: &Scope,
    site: Site,
    kept: &mut Option<Fault>,
) -> Result<Items<Option<Made>>, NoMemory>
    ensures made { IfOk result (λ ms. ms ≡ map reads.made_of (map (spec.typing site scope.now) parts.now)) }
    ensures noted { OnOk result (kept.new ≡ first_of kept.old (reads.all_faults (map (spec.typing site scope.now) parts.now))) }
{
    let mut all = Vec::new(alloc);
    for part in parts {
        let made = type_in(alloc, part, scope, site, kept)?;
        all.push(made)?;
    }
    Ok(Items::of(alloc, all)?)
}

/// What the keys and the values of a dictionary come to.
#[cycle(typing)]
fn type_entries(
    alloc: Global,
    entries: &[Entry],
    scope: &Scope,
    site: Site,
    kept: &mut Option<Fault>,
) -> Result<(Items<Option<Made>>, Items<Option<Made>>), NoMemory>
    ensures keys { IfOk result (λ r. r.0 ≡ map reads.key_made (map (spec.paired site scope.now) entries.now)) }
    ensures values { IfOk result (λ r. r.1 ≡ map reads.value_made (map (spec.paired site scope.now) entries.now)) }
    ensures noted { OnOk result (kept.new ≡ first_of kept.old (reads.entry_faults (map (spec.paired site scope.now) entries.now))) }
{
    let mut keys = Vec::new(alloc);
    let mut values = Vec::new(alloc);
    for entry in entries {
        let key = type_in(alloc, &entry.key, scope, site, kept)?;
        let value = type_in(alloc, &entry.value, scope, site, kept)?;
        keys.push(key)?;
        values.push(value)?;
    }
    let keys = Items::of(alloc, keys)?;
    let values = Items::of(alloc, values)?;
    Ok((keys, values))
}

/// A tuple.
#[cycle(typing)]
pub(super) fn type_tuple(
    alloc: Global,
    place: Place,
    parts: &[Expr],
    scope: &Scope,
    site: Site,
    kept: &mut Option<Fault>,
) -> Result<Option<Made>, NoMemory>
    ensures made { IfOk result (λ m. m ≡ (literals.tuple_of place (map reads.made_of (map (spec.typing site scope.now) parts.now))).made) }
    ensures noted { OnOk result (kept.new ≡ first_of (first_of kept.old (reads.all_faults (map (spec.typing site scope.now) parts.now))) (literals.tuple_of place (map reads.made_of (map (spec.typing site scope.now) parts.now))).faults) }
{
    let parts = type_all(alloc, parts, scope, site, kept)?;
    rule::tuple_of(alloc, place, parts, kept)
}

/// A list.
#[cycle(typing)]
pub(super) fn type_list(
    alloc: Global,
    place: Place,
    elements: &[Expr],
    scope: &Scope,
    site: Site,
    kept: &mut Option<Fault>,
) -> Result<Option<Made>, NoMemory>
    ensures made { IfOk result (λ m. m ≡ (literals.list_of place (map reads.made_of (map (spec.typing site scope.now) elements.now))).made) }
    ensures noted { OnOk result (kept.new ≡ first_of (first_of kept.old (reads.all_faults (map (spec.typing site scope.now) elements.now))) (literals.list_of place (map reads.made_of (map (spec.typing site scope.now) elements.now))).faults) }
{
    let elements = type_all(alloc, elements, scope, site, kept)?;
    rule::list_of(alloc, place, elements, kept)
}

/// A set.
#[cycle(typing)]
pub(super) fn type_set(
    alloc: Global,
    place: Place,
    elements: &[Expr],
    scope: &Scope,
    site: Site,
    kept: &mut Option<Fault>,
) -> Result<Option<Made>, NoMemory>
    ensures made { IfOk result (λ m. m ≡ (literals.set_of place (map reads.made_of (map (spec.typing site scope.now) elements.now))).made) }
    ensures noted { OnOk result (kept.new ≡ first_of (first_of kept.old (reads.all_faults (map (spec.typing site scope.now) elements.now))) (literals.set_of place (map reads.made_of (map (spec.typing site scope.now) elements.now))).faults) }
{
    let elements = type_all(alloc, elements, scope, site, kept)?;
    rule::set_of(alloc, place, elements, kept)
}

/// A dictionary.
#[cycle(typing)]
pub(super) fn type_dict(
    alloc: Global,
    place: Place,
    entries: &[Entry],
    scope: &Scope,
    site: Site,
    kept: &mut Option<Fault>,
) -> Result<Option<Made>, NoMemory>
    ensures made { IfOk result (λ m. m ≡ (literals.dict_of place (map reads.key_made (map (spec.paired site scope.now) entries.now)) (map reads.value_made (map (spec.paired site scope.now) entries.now))).made) }
    ensures noted { OnOk result (kept.new ≡ first_of (first_of kept.old (reads.entry_faults (map (spec.paired site scope.now) entries.now))) (literals.dict_of place (map reads.key_made (map (spec.paired site scope.now) entries.now)) (map reads.value_made (map (spec.paired site scope.now) entries.now))).faults) }
{
    let (keys, values) = type_entries(alloc, entries, scope, site, kept)?;
    rule::dict_of(alloc, place, keys, values, kept)
}

/// An empty list.
#[cycle(typing)]
pub(super) fn type_empty_list(
    alloc: Global,
    place: Place,
    element: &TypeTree,
    scope: &Scope,
    site: Site,
    kept: &mut Option<Fault>,
) -> Result<Option<Made>, NoMemory>
    ensures made { IfOk result (λ m. m ≡ (literals.empty_list place (spec.reading site scope.now element.now false).made).made) }
    ensures noted { OnOk result (kept.new ≡ first_of (first_of kept.old (spec.reading site scope.now element.now false).faults) (literals.empty_list place (spec.reading site scope.now element.now false).made).faults) }
{
    let element = mean_in(alloc, element, scope, site, false, kept)?;
    rule::empty_list(alloc, place, element, kept)
}

/// An empty set.
#[cycle(typing)]
pub(super) fn type_empty_set(
    alloc: Global,
    place: Place,
    element: &TypeTree,
    scope: &Scope,
    site: Site,
    kept: &mut Option<Fault>,
) -> Result<Option<Made>, NoMemory>
    ensures made { IfOk result (λ m. m ≡ (literals.empty_set place (spec.reading site scope.now element.now false).made).made) }
    ensures noted { OnOk result (kept.new ≡ first_of (first_of kept.old (spec.reading site scope.now element.now false).faults) (literals.empty_set place (spec.reading site scope.now element.now false).made).faults) }
{
    let element = mean_in(alloc, element, scope, site, false, kept)?;
    rule::empty_set(alloc, place, element, kept)
}

/// An empty dictionary, with the type of its values.
#[cycle(typing)]
pub(super) fn type_empty_dict(
    alloc: Global,
    place: Place,
    key: Option<Meant>,
    value: &TypeTree,
    scope: &Scope,
    site: Site,
    kept: &mut Option<Fault>,
) -> Result<Option<Made>, NoMemory>
    ensures made { IfOk result (λ m. m ≡ (literals.empty_dict place key (spec.reading site scope.now value.now false).made).made) }
    ensures noted { OnOk result (kept.new ≡ first_of (first_of kept.old (spec.reading site scope.now value.now false).faults) (literals.empty_dict place key (spec.reading site scope.now value.now false).made).faults) }
{
    match mean_in(alloc, value, scope, site, false, kept) {
        Ok(value) => rule::empty_dict(alloc, place, key, value, kept),
        Err(refusal) => {
            drop(key);
            Err(refusal)
        }
    }
}
