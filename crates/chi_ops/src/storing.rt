ghost use Rattle.std.specs.Prelude.{◌≡◌, ◌<◌, false, length, slice_get, Some, List, IfOk, IfErr, IsTrue};
ghost use Rattle.std.specs.List.{list_all};
ghost use Rattle.chi_value.specs.declared.value.Value.{Value};
ghost use Rattle.chi_value.specs.declared.value.Value.TheVariants.{DictOf};
ghost use Rattle.chi_sets.specs.Dictionaries.{ascending_by_key, values};
ghost use Rattle.chi_ops.specs.Outcome.{gives};
ghost use Rattle.chi_ops.specs.Paths.{steps_of};
ghost use Rattle.chi_ops.specs.Refusal.{Refuses};
ghost use Rattle.chi_ops.specs.Store.{changed_at, fits_along, may_put, put, put_key, store_key, stored};
ghost use Rattle.chi_ops.specs.Tidy.{tidy, all_tidy};

use crate::OpFault;
use crate::made::pair;
use crate::path::{Path, index_of, key_of};
use crate::place::place_of;
use crate::room::test_room;
use chi_sets::{value_at, with_entry};
use chi_value::{Items, Row, Value};
use std::alloc::Global;

/// A value with another stored where a path leads. The first fault along the path decides. A last step to a key that
/// isn't there adds it. What is used up and not shared is changed where it is: a part is out of its container while it
/// is stored into, so that it isn't shared either.
pub fn put(alloc: Global, v: Value, path: &[Path], x: Value) -> Result<Value, OpFault>
    requires fits { IsTrue (may_put (steps_of path.now) x v) }
    ensures value { IfOk result (λ value. put (steps_of path.now) x v ≡ gives value) }
    ensures refused { IfErr result (λ fault. Refuses fault (put (steps_of path.now) x v)) }
{
    Ok(stored(path, alloc, v, x)?)
}

#[cycle(stored)]
fn stored(path: &[Path], alloc: Global, v: Value, x: Value) -> Result<Value, OpFault>
    requires tidy { IsTrue (tidy v) }
    requires fits { IsTrue (fits_along (steps_of path.now) x v) }
    ensures value { IfOk result (λ value. stored (steps_of path.now) x v ≡ gives value) }
    ensures refused { IfErr result (λ fault. Refuses fault (stored (steps_of path.now) x v)) }
{
    let Some((step, rest)) = path.split_first() else {
        return Ok(x);
    };
    match v {
        Value::ListOf(items) => match place_of(items.len(), index_of(step)) {
            Some(place) => Ok(Value::ListOf(stored_in(rest, alloc, items, place, x)?)),
            None => Err(OpFault::Index),
        },
        Value::DictOf(entries) => {
            let key = key_of(alloc, step)?;
            Ok(Value::DictOf(stored_key(rest, alloc, entries, key, x)?))
        }
        Value::TupleOf(parts) => match step {
            Path::Part(k) => Ok(Value::TupleOf(stored_at(rest, alloc, parts, *k as usize, x)?)),
            _ => unreachable!(),
        },
        _ => unreachable!(),
    }
}

/// Parts with the one at a place changed by a store into it.
#[cycle(stored)]
fn stored_at(
    path: &[Path],
    alloc: Global,
    items: Items,
    place: usize,
    x: Value,
) -> Result<Items, OpFault>
    requires inside { place < length items }
    requires tidy { (item : Value) → slice_get items place ≡ Some item → IsTrue (tidy item) }
    requires fits { (item : Value) → slice_get items place ≡ Some item → IsTrue (fits_along (steps_of path.now) x item) }
    ensures value { IfOk result (λ changed. (made : List Value → Value) →
        changed_at made items (stored (steps_of path.now) x) place (slice_get items place) ≡ gives (made changed)) }
    ensures refused { IfErr result (λ fault. (made : List Value → Value) →
        Refuses fault (changed_at made items (stored (steps_of path.now) x) place (slice_get items place))) }
{
    let mut items = items;
    let old = items.replace(alloc, place, Value::Bool(false))?;
    let new = stored(path, alloc, old, x)?;
    drop(items.replace(alloc, place, new)?);
    Ok(items)
}

/// As stored_at, in a list.
#[cycle(stored)]
fn stored_in(
    path: &[Path],
    alloc: Global,
    items: Row,
    place: usize,
    x: Value,
) -> Result<Row, OpFault>
    requires inside { place < length items }
    requires tidy { (item : Value) → slice_get items place ≡ Some item → IsTrue (tidy item) }
    requires fits { (item : Value) → slice_get items place ≡ Some item → IsTrue (fits_along (steps_of path.now) x item) }
    ensures value { IfOk result (λ changed. (made : List Value → Value) →
        changed_at made items (stored (steps_of path.now) x) place (slice_get items place) ≡ gives (made changed)) }
    ensures refused { IfErr result (λ fault. (made : List Value → Value) →
        Refuses fault (changed_at made items (stored (steps_of path.now) x) place (slice_get items place))) }
{
    let mut items = items;
    let old = items.replace(alloc, place, Value::Bool(false))?;
    let new = stored(path, alloc, old, x)?;
    drop(items.replace(alloc, place, new)?);
    Ok(items)
}

/// A dictionary with what a key has changed by a store into it, or with a key that is stored itself.
#[cycle(stored)]
#[tactic(auto, using(crate::proofs::Entries::with_entry_twice, chi_sets::proofs::DictionaryLaws::with_entry_ascends))]
fn stored_key(
    path: &[Path],
    alloc: Global,
    entries: Items,
    key: Value,
    x: Value,
) -> Result<Items, OpFault>
    requires ascending { IsTrue (ascending_by_key entries) }
    requires tidy { IsTrue (all_tidy (values entries)) }
    requires fits { IsTrue (list_all (fits_along (steps_of path.now) x) (values entries)) }
    ensures value { IfOk result (λ changed. store_key (steps_of path.now) entries key x (stored (steps_of path.now) x) ≡ gives (DictOf changed)) }
    ensures refused { IfErr result (λ fault. Refuses fault (store_key (steps_of path.now) entries key x (stored (steps_of path.now) x))) }
{
    if path.is_empty() {
        return Ok(put_key(alloc, entries, key, x)?);
    }
    let Some(has) = value_at(entries.as_slice(), &key) else {
        return Err(OpFault::Key);
    };
    let old = has.copy(alloc)?;
    let filler = pair(alloc, key.copy(alloc)?, Value::Bool(false))?;
    let entries = with_entry(alloc, entries, filler)?;
    let new = stored(path, alloc, old, x)?;
    Ok(with_entry(alloc, entries, pair(alloc, key, new)?)?)
}

/// A dictionary with a key that has a value.
fn put_key(alloc: Global, entries: Items, key: Value, x: Value) -> Result<Items, OpFault>
    requires ascending { IsTrue (ascending_by_key entries) }
    ensures value { IfOk result (λ changed. put_key entries key x ≡ gives (DictOf changed)) }
    ensures refused { IfErr result (λ fault. Refuses fault (put_key entries key x)) }
{
    if value_at(entries.as_slice(), &key).is_none() {
        test_room(entries.as_slice().len(), 1)?;
    }
    Ok(with_entry(alloc, entries, pair(alloc, key, x)?)?)
}
