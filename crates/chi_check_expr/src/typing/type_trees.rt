//! The walk over types, in the same way.

ghost use Rattle.std.specs.Prelude.{◌≡◌, map, false, None, IfOk, OnOk};
ghost use Rattle.chi_check_types.specs.Faults.{first_of};
ghost use Rattle.chi_check_types.specs.TypeRules as rules;
ghost use Rattle.chi_check_expr.specs.TypeTrees as trees;
ghost use Rattle.chi_check_expr.specs.Typing as spec;

use crate::fields::{note_first, with_field};
use crate::typing::type_in;
use chi_base::{Items, NoMemory};
use chi_check_expr_rules::type_of;
use chi_check_types::{Fault, Made, Meant, Scope, Site};
use chi_token::{Bytes, Place};
use chi_tree::{Formal, TypeTree, Way};
use chi_types::Ty;
use std::alloc::Global;

/// What a type tree means, if it is a type. `sizes` says whether a size may stand there.
#[cycle(typing)]
pub fn mean_in(
    alloc: Global,
    tree: &TypeTree,
    scope: &Scope,
    site: Site,
    sizes: bool,
    kept: &mut Option<Fault>,
) -> Result<Option<Meant>, NoMemory>
    ensures made { IfOk result (λ m. m ≡ (spec.reading site scope.now tree.now sizes).made) }
    ensures noted { OnOk result (kept.new ≡ first_of kept.old (spec.reading site scope.now tree.now sizes).faults) }
{
    match tree {
        TypeTree::Word { word, place } => chi_check_types::word_of(alloc, *place, *word, kept),
        TypeTree::Defined(name) => chi_check_types::named_type(alloc, scope, name, kept),
        TypeTree::List {
            place,
            size,
            element,
        } => match size {
            None => mean_list(alloc, *place, element.get(), scope, site, kept),
            Some(size) => {
                let size = type_in(alloc, size.get(), scope, site, kept)?;
                mean_sized(alloc, *place, size, element.get(), scope, site, sizes, kept)
            }
        },
        TypeTree::Set { place, element } => {
            mean_set(alloc, *place, element.get(), scope, site, kept)
        }
        TypeTree::Dist { place, drawn } => {
            mean_dist(alloc, *place, drawn.get(), scope, site, kept)
        }
        TypeTree::Dict { place, key, value } => {
            let key = mean_in(alloc, key.get(), scope, site, false, kept)?;
            mean_dict(alloc, *place, key, value.get(), scope, site, kept)
        }
        TypeTree::Tuple { place, fields } => {
            mean_tuple(alloc, *place, fields.as_slice(), scope, site, kept)
        }
        TypeTree::Chan {
            place,
            way,
            carried,
        } => match carried {
            None => chi_check_types::void_chan_of(alloc, *place, *way, kept),
            Some(carried) => mean_chan(alloc, *place, *way, carried.get(), scope, site, kept),
        },
    }
}

/// A list without a size.
#[cycle(typing)]
fn mean_list(
    alloc: Global,
    place: Place,
    element: &TypeTree,
    scope: &Scope,
    site: Site,
    kept: &mut Option<Fault>,
) -> Result<Option<Meant>, NoMemory>
    ensures made { IfOk result (λ m. m ≡ (rules.list_of place (spec.reading site scope.now element.now false).made).made) }
    ensures noted { OnOk result (kept.new ≡ first_of (first_of kept.old (spec.reading site scope.now element.now false).faults) (rules.list_of place (spec.reading site scope.now element.now false).made).faults) }
{
    let element = mean_in(alloc, element, scope, site, false, kept)?;
    chi_check_types::list_of(alloc, place, element, kept)
}

/// A set.
#[cycle(typing)]
fn mean_set(
    alloc: Global,
    place: Place,
    element: &TypeTree,
    scope: &Scope,
    site: Site,
    kept: &mut Option<Fault>,
) -> Result<Option<Meant>, NoMemory>
    ensures made { IfOk result (λ m. m ≡ (rules.set_of place (spec.reading site scope.now element.now false).made).made) }
    ensures noted { OnOk result (kept.new ≡ first_of (first_of kept.old (spec.reading site scope.now element.now false).faults) (rules.set_of place (spec.reading site scope.now element.now false).made).faults) }
{
    let element = mean_in(alloc, element, scope, site, false, kept)?;
    chi_check_types::set_of(alloc, place, element, kept)
}

/// A distribution.
#[cycle(typing)]
fn mean_dist(
    alloc: Global,
    place: Place,
    drawn: &TypeTree,
    scope: &Scope,
    site: Site,
    kept: &mut Option<Fault>,
) -> Result<Option<Meant>, NoMemory>
    ensures made { IfOk result (λ m. m ≡ (rules.dist_of place (spec.reading site scope.now drawn.now false).made).made) }
    ensures noted { OnOk result (kept.new ≡ first_of (first_of kept.old (spec.reading site scope.now drawn.now false).faults) (rules.dist_of place (spec.reading site scope.now drawn.now false).made).faults) }
{
    let drawn = mean_in(alloc, drawn, scope, site, false, kept)?;
    chi_check_types::dist_of(alloc, place, drawn, kept)
}

/// A list with a size, whose elements may have one too.
#[cycle(typing)]
fn mean_sized(
    alloc: Global,
    place: Place,
    size: Option<Made>,
    element: &TypeTree,
    scope: &Scope,
    site: Site,
    sizes: bool,
    kept: &mut Option<Fault>,
) -> Result<Option<Meant>, NoMemory>
    ensures made { IfOk result (λ m. m ≡ (rules.sized_list_of place sizes size (spec.reading site scope.now element.now sizes).made).made) }
    ensures noted { OnOk result (kept.new ≡ first_of (first_of kept.old (spec.reading site scope.now element.now sizes).faults) (rules.sized_list_of place sizes size (spec.reading site scope.now element.now sizes).made).faults) }
{
    match mean_in(alloc, element, scope, site, sizes, kept) {
        Ok(element) => { chi_check_types::sized_list_of(alloc, place, sizes, size, element, kept) }
        Err(refusal) => {
            drop(size);
            Err(refusal)
        }
    }
}

/// A dictionary, with the type of its values.
#[cycle(typing)]
fn mean_dict(
    alloc: Global,
    place: Place,
    key: Option<Meant>,
    value: &TypeTree,
    scope: &Scope,
    site: Site,
    kept: &mut Option<Fault>,
) -> Result<Option<Meant>, NoMemory>
    ensures made { IfOk result (λ m. m ≡ (rules.dict_of place key (spec.reading site scope.now value.now false).made).made) }
    ensures noted { OnOk result (kept.new ≡ first_of (first_of kept.old (spec.reading site scope.now value.now false).faults) (rules.dict_of place key (spec.reading site scope.now value.now false).made).faults) }
{
    match mean_in(alloc, value, scope, site, false, kept) {
        Ok(value) => chi_check_types::dict_of(alloc, place, key, value, kept),
        Err(refusal) => {
            drop(key);
            Err(refusal)
        }
    }
}

/// A tuple.
#[cycle(typing)]
fn mean_tuple(
    alloc: Global,
    place: Place,
    fields: &[Formal],
    scope: &Scope,
    site: Site,
    kept: &mut Option<Fault>,
) -> Result<Option<Meant>, NoMemory>
    ensures made { IfOk result (λ m. m ≡ (rules.tuple_of place (map (λ f. f.name) fields.now) (trees.parts_from None (map (spec.formal site scope.now) fields.now))).made) }
    ensures noted { OnOk result (kept.new ≡ first_of (first_of kept.old (trees.field_faults (map (spec.formal site scope.now) fields.now))) (rules.tuple_of place (map (λ f. f.name) fields.now) (trees.parts_from None (map (spec.formal site scope.now) fields.now))).faults) }
{
    let parts = mean_fields(alloc, fields, scope, site, kept)?;
    chi_check_types::tuple_of(alloc, place, fields, parts, kept)
}

/// A channel that carries values.
#[cycle(typing)]
fn mean_chan(
    alloc: Global,
    place: Place,
    way: Way,
    carried: &TypeTree,
    scope: &Scope,
    site: Site,
    kept: &mut Option<Fault>,
) -> Result<Option<Meant>, NoMemory>
    ensures made { IfOk result (λ m. m ≡ (rules.chan_of place way (spec.reading site scope.now carried.now false).made).made) }
    ensures noted { OnOk result (kept.new ≡ first_of (first_of kept.old (spec.reading site scope.now carried.now false).faults) (rules.chan_of place way (spec.reading site scope.now carried.now false).made).faults) }
{
    let carried = mean_in(alloc, carried, scope, site, false, kept)?;
    chi_check_types::chan_of(alloc, place, way, carried, kept)
}

/// The names and types of fields, if each has a type.
#[cycle(typing)]
fn mean_fields(
    alloc: Global,
    fields: &[Formal],
    scope: &Scope,
    site: Site,
    kept: &mut Option<Fault>,
) -> Result<Option<Items<(Bytes, Ty)>>, NoMemory>
    ensures made { IfOk result (λ ps. ps ≡ trees.parts_from None (map (spec.formal site scope.now) fields.now)) }
    ensures noted { OnOk result (kept.new ≡ first_of kept.old (trees.field_faults (map (spec.formal site scope.now) fields.now))) }
{
    note_first(fields, kept);
    let mut parts = Some(Items::of(alloc, Vec::new(alloc))?);
    let mut last = None;
    for field in fields {
        let ty = type_before(alloc, field, last, scope, site, kept)?;
        parts = with_field(alloc, parts, &field.name, &ty)?;
        last = ty;
    }
    Ok(parts)
}

/// The type before a field, or that of the field before it.
#[cycle(typing)]
fn type_before(
    alloc: Global,
    field: &Formal,
    last: Option<Ty>,
    scope: &Scope,
    site: Site,
    kept: &mut Option<Fault>,
) -> Result<Option<Ty>, NoMemory>
    ensures made { IfOk result (λ t. t ≡ trees.field_type last (spec.formal site scope.now field.now).ty) }
    ensures noted { OnOk result (kept.new ≡ first_of kept.old (trees.faults_of (spec.formal site scope.now field.now).ty)) }
{
    let Some(tree) = &field.ty else {
        return Ok(last);
    };
    drop(last);
    let meant = mean_in(alloc, tree.get(), scope, site, false, kept)?;
    Ok(type_of(meant))
}
