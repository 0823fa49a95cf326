//! Literals of dictionaries. Types and parts of which nothing is made are dropped by calls of `drop`, as those of
//! lists are.

#![tactic(auto, using(chi_check_types::proofs::Firsts::first_of_none, chi_check_types::proofs::Firsts::first_of_append, chi_check_types::proofs::Ruled::faults_unless, chi_check_types::proofs::Ruled::made_unless, chi_check_types::proofs::Ruled::made_deep))]

ghost use Rattle.std.specs.Prelude.{◌≡◌, ◌++◌, [], ◌∷◌, Some, IfOk, OnOk};
ghost use Rattle.chi_types.specs.declared.ty.Ty.TheVariants as ty;
ghost use Rattle.chi_check_types.specs.Faults.{first_of, are_none};
ghost use Rattle.chi_check_expr_rules.specs.Containers as spec;
ghost use Rattle.chi_check_expr_rules.specs.Conversions as made;

use crate::containers::{empty_literal, joined_all, literal_of, note_unplain};
use chi_base::{Boxed, Items, NoMemory};
use chi_check_expr_rules::{all_made, converted, type_meant};
use chi_check_types::{Fault, Made, Meant, note, rules};
use chi_core::CExpr;
use chi_token::Place;
use chi_types::Ty;
use chi_value::Kind;
use std::alloc::Global;

/// One more key, or what one has.
fn with_part(
    alloc: Global,
    entries: Vec<CExpr>,
    ty: &Ty,
    part: Made,
) -> Result<Vec<CExpr>, NoMemory>
    ensures { IfOk result (λ more. more.items ≡ entries.items ++ made.converted part ty.now ∷ []) }
{
    let core = converted(alloc, part, ty)?;
    let mut entries = entries;
    entries.push(core)?;
    Ok(entries)
}

/// One more entry: a key and what it has.
fn with_entry(
    alloc: Global,
    entries: Vec<CExpr>,
    key_type: &Ty,
    value_type: &Ty,
    key: Made,
    value: Made,
) -> Result<Vec<CExpr>, NoMemory>
    ensures { IfOk result (λ more. more.items ≡ entries.items ++ made.converted key key_type.now ∷ made.converted value value_type.now ∷ []) }
{
    match with_part(alloc, entries, key_type, key) {
        Ok(entries) => with_part(alloc, entries, value_type, value),
        Err(refusal) => {
            drop(value);
            Err(refusal)
        }
    }
}

/// Each key and what it has, in turn.
#[tactic(auto, using(crate::proofs::Entries::entries_of_none))]
fn entries(
    alloc: Global,
    key_type: &Ty,
    value_type: &Ty,
    keys: Items<Made>,
    values: Items<Made>,
) -> Result<Items<CExpr>, NoMemory>
    ensures { IfOk result (λ es. es ≡ spec.entries key_type.now value_type.now keys values) }
{
    let mut cores = Vec::new(alloc);
    let mut rest = values.into_vec(alloc)?.into_iter();
    for key in keys.into_vec(alloc)? {
        let Some(value) = rest.next() else {
            drop(key);
            return Ok(Items::of(alloc, cores)?);
        };
        cores = with_entry(alloc, cores, key_type, value_type, key, value)?;
    }
    Ok(Items::of(alloc, cores)?)
}

/// Notes what is amiss with the keys, and tells whether nothing is.
fn note_keys(place: Place, key: &Option<Ty>, kept: &mut Option<Fault>) -> bool
    ensures holds { result ≡ are_none (spec.keys_rule place key.now) }
    ensures noted { kept.new ≡ first_of kept.old (spec.keys_rule place key.now) }
{
    match key {
        None => {
            note(kept, rules::JOINED_PARTS, place);
            false
        }
        Some(key) => note_unplain(place, key, kept),
    }
}

fn note_values(place: Place, value: &Option<Ty>, kept: &mut Option<Fault>)
    ensures { kept.new ≡ first_of kept.old (spec.values_rule place value.now) }
{
    match value {
        None => note(kept, rules::JOINED_PARTS, place),
        Some(_) => {}
    }
}

fn dict_type(alloc: Global, key: Ty, value: Ty) -> Result<Ty, NoMemory>
    ensures { IfOk result (λ t. t ≡ ty.DictOf key value) }
{
    match Boxed::new(alloc, key) {
        Ok(key) => match Boxed::new(alloc, value) {
            Ok(value) => Ok(Ty::DictOf(key, value)),
            Err(refusal) => {
                drop(key);
                Err(refusal)
            }
        },
        Err(refusal) => {
            drop(value);
            Err(refusal)
        }
    }
}

/// A dictionary of keys that have a type in common, and of values that do.
fn dict_literal(
    alloc: Global,
    place: Place,
    keys: Items<Made>,
    values: Items<Made>,
    key: Ty,
    value: Ty,
    kept: &mut Option<Fault>,
) -> Result<Option<Made>, NoMemory>
    ensures made { IfOk result (λ m. m ≡ (spec.dict_joined place keys values (Some key) (Some value)).made) }
    ensures noted { OnOk result (kept.new ≡ first_of kept.old (spec.dict_joined place keys values (Some key) (Some value)).faults) }
{
    let plain = note_unplain(place, &key, kept);
    match entries(alloc, &key, &value, keys, values) {
        Ok(cores) => {
            let ty = dict_type(alloc, key, value)?;
            Ok(literal_of(place, plain, Kind::DictOf, cores, ty, kept))
        }
        Err(refusal) => {
            drop(key);
            drop(value);
            Err(refusal)
        }
    }
}

fn dict_joined(
    alloc: Global,
    place: Place,
    keys: Items<Made>,
    values: Items<Made>,
    key: Option<Ty>,
    value: Option<Ty>,
    kept: &mut Option<Fault>,
) -> Result<Option<Made>, NoMemory>
    ensures made { IfOk result (λ m. m ≡ (spec.dict_joined place keys values key value).made) }
    ensures noted { OnOk result (kept.new ≡ first_of kept.old (spec.dict_joined place keys values key value).faults) }
{
    match key {
        None => {
            note(kept, rules::JOINED_PARTS, place);
            note_values(place, &value, kept);
            drop(value);
            Ok(None)
        }
        Some(key) => match value {
            None => {
                note_unplain(place, &key, kept);
                note(kept, rules::JOINED_PARTS, place);
                drop(key);
                Ok(None)
            }
            Some(value) => dict_literal(alloc, place, keys, values, key, value, kept),
        },
    }
}

/// The types that the keys and the values have in common.
fn joined_types(
    alloc: Global,
    keys: &[Made],
    values: &[Made],
) -> Result<(Option<Ty>, Option<Ty>), NoMemory>
    ensures { IfOk result (λ types. types ≡ (spec.joined_all keys.now, spec.joined_all values.now)) }
{
    let key = joined_all(alloc, keys)?;
    match joined_all(alloc, values) {
        Ok(value) => Ok((key, value)),
        Err(refusal) => {
            drop(key);
            Err(refusal)
        }
    }
}

fn dict_parts(
    alloc: Global,
    place: Place,
    keys: Option<Items<Made>>,
    values: Option<Items<Made>>,
    kept: &mut Option<Fault>,
) -> Result<Option<Made>, NoMemory>
    ensures made { IfOk result (λ m. m ≡ (spec.dict_parts place keys values).made) }
    ensures noted { OnOk result (kept.new ≡ first_of kept.old (spec.dict_parts place keys values).faults) }
{
    match keys {
        None => match values {
            None => Ok(None),
            Some(values) => {
                let value = joined_all(alloc, values.as_slice())?;
                note_values(place, &value, kept);
                drop(value);
                Ok(None)
            }
        },
        Some(keys) => match values {
            None => {
                let key = joined_all(alloc, keys.as_slice())?;
                note_keys(place, &key, kept);
                drop(key);
                Ok(None)
            }
            Some(values) => {
                let (key, value) = joined_types(alloc, keys.as_slice(), values.as_slice())?;
                dict_joined(alloc, place, keys, values, key, value, kept)
            }
        },
    }
}

/// A dictionary of entries, one at least, by their keys and their values.
pub fn dict_of(
    alloc: Global,
    place: Place,
    keys: Items<Option<Made>>,
    values: Items<Option<Made>>,
    kept: &mut Option<Fault>,
) -> Result<Option<Made>, NoMemory>
    ensures made { IfOk result (λ m. m ≡ (spec.dict_of place keys values).made) }
    ensures noted { OnOk result (kept.new ≡ first_of kept.old (spec.dict_of place keys values).faults) }
{
    let keys = all_made(alloc, keys)?;
    let values = all_made(alloc, values)?;
    dict_parts(alloc, place, keys, values, kept)
}

/// An empty dictionary of types that are written.
pub fn empty_dict(
    alloc: Global,
    place: Place,
    key: Option<Meant>,
    value: Option<Meant>,
    kept: &mut Option<Fault>,
) -> Result<Option<Made>, NoMemory>
    ensures made { IfOk result (λ m. m ≡ (spec.empty_dict place key value).made) }
    ensures noted { OnOk result (kept.new ≡ first_of kept.old (spec.empty_dict place key value).faults) }
{
    let Some(key) = key else {
        drop(value);
        return Ok(None);
    };
    let plain = note_unplain(place, &key.ty, kept);
    let Some(value) = value else {
        drop(key);
        return Ok(None);
    };
    let ty = dict_type(alloc, type_meant(key), type_meant(value))?;
    empty_literal(alloc, place, plain, Kind::DictOf, ty, kept)
}
