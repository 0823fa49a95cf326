ghost use Rattle.std.specs.Prelude.{◌≡◌, cond, [], ◌∷◌, ◌++◌, IfOk, OnOk, IsTrue};
ghost use Rattle.chi_value.specs.Order.{order};
ghost use Rattle.chi_sets.specs.Ascending.{ascends, in_order};
ghost use Rattle.chi_sets.specs.By.{order_by};
ghost use Rattle.chi_sets.specs.Chosen.{chosen};
ghost use Rattle.chi_sets.specs.Dictionaries.{ascending_by_key, dictionary_union, key_among, minus_keys};
ghost use Rattle.chi_sets.specs.Sets.{is_ascending, is_subset, meet, minus, union};

use crate::order::{By, compare_by, key_of};
use crate::searching::has;
use chi_base::NoMemory;
use chi_value::{Items, Value, compare_any};
use std::alloc::Global;
use std::cmp::Ordering;

/// What is in either set.
pub fn set_union(alloc: Global, a: &[Value], b: &[Value]) -> Result<Items, NoMemory>
    requires left { IsTrue (is_ascending a.now) }
    requires right { IsTrue (is_ascending b.now) }
    ensures value { IfOk result (λ items. items ≡ union a.now b.now) }
{
    let merged = merge(alloc, By::Itself, a, b)?;
    Ok(Items::of(alloc, merged)?)
}

/// The entries of both dictionaries, of which the right one with one key wins.
pub fn dictionary_union(alloc: Global, a: &[Value], b: &[Value]) -> Result<Items, NoMemory>
    requires left { IsTrue (ascending_by_key a.now) }
    requires right { IsTrue (ascending_by_key b.now) }
    ensures value { IfOk result (λ items. items ≡ dictionary_union a.now b.now) }
{
    let merged = merge(alloc, By::Key, a, b)?;
    Ok(Items::of(alloc, merged)?)
}

fn merge(alloc: Global, by: By, a: &[Value], b: &[Value]) -> Result<Vec<Value>, NoMemory>
    requires left { IsTrue (ascends (order_by by) a.now) }
    requires right { IsTrue (ascends (order_by by) b.now) }
    ensures value { IfOk result (λ merged. merged.items ≡ in_order (order_by by) (a.now ++ b.now)) }
{
    let mut merged = Vec::new(alloc);
    let mut left = a;
    let mut right = b;
    while let Some((x, xs)) = left.split_first() {
        let Some((y, ys)) = right.split_first() else {
            push_copies(alloc, &mut merged, left)?;
            return Ok(merged);
        };
        match compare_by(by, x, y) {
            Ordering::Less => {
                push_copy(alloc, &mut merged, x)?;
                left = xs;
            }
            Ordering::Equal => {
                push_copy(alloc, &mut merged, y)?;
                left = xs;
                right = ys;
            }
            Ordering::Greater => {
                push_copy(alloc, &mut merged, y)?;
                right = ys;
            }
        }
    }
    push_copies(alloc, &mut merged, right)?;
    Ok(merged)
}

/// What is in both sets.
pub fn set_meet(alloc: Global, a: &[Value], b: &[Value]) -> Result<Items, NoMemory>
    requires left { IsTrue (is_ascending a.now) }
    requires right { IsTrue (is_ascending b.now) }
    ensures value { IfOk result (λ items. items ≡ meet a.now b.now) }
{
    let met = choose(alloc, a, b, true)?;
    Ok(Items::of(alloc, met)?)
}

/// What is in the first set and not in the second.
pub fn set_minus(alloc: Global, a: &[Value], b: &[Value]) -> Result<Items, NoMemory>
    requires left { IsTrue (is_ascending a.now) }
    requires right { IsTrue (is_ascending b.now) }
    ensures value { IfOk result (λ items. items ≡ minus a.now b.now) }
{
    let rest = choose(alloc, a, b, false)?;
    Ok(Items::of(alloc, rest)?)
}

/// The elements of the first set that are common to both, or those that aren't.
fn choose(alloc: Global, a: &[Value], b: &[Value], common: bool) -> Result<Vec<Value>, NoMemory>
    requires left { IsTrue (is_ascending a.now) }
    requires right { IsTrue (is_ascending b.now) }
    ensures value { IfOk result (λ kept. kept.items ≡ chosen order common a.now b.now) }
{
    let mut kept = Vec::new(alloc);
    let mut left = a;
    let mut right = b;
    while let Some((x, xs)) = left.split_first() {
        let Some((y, ys)) = right.split_first() else {
            push_copies_if(alloc, &mut kept, left, !common)?;
            return Ok(kept);
        };
        match compare_any(x, y) {
            Ordering::Less => {
                push_copy_if(alloc, &mut kept, x, !common)?;
                left = xs;
            }
            Ordering::Equal => {
                push_copy_if(alloc, &mut kept, x, common)?;
                left = xs;
                right = ys;
            }
            Ordering::Greater => right = ys,
        }
    }
    Ok(kept)
}

/// Whether each element of the first set is in the second.
pub fn is_subset(a: &[Value], b: &[Value]) -> bool
    requires left { IsTrue (is_ascending a.now) }
    requires right { IsTrue (is_ascending b.now) }
    ensures value { result ≡ is_subset a.now b.now }
{
    let mut left = a;
    let mut right = b;
    while let Some((x, xs)) = left.split_first() {
        let Some((y, ys)) = right.split_first() else {
            return false;
        };
        match compare_any(x, y) {
            Ordering::Less => return false,
            Ordering::Equal => {
                left = xs;
                right = ys;
            }
            Ordering::Greater => right = ys,
        }
    }
    true
}

/// The entries of a dictionary whose keys are not in a set.
pub fn minus_keys(alloc: Global, entries: &[Value], removed: &[Value]) -> Result<Items, NoMemory>
    requires ascending { IsTrue (is_ascending removed.now) }
    ensures value { IfOk result (λ items. items ≡ minus_keys entries.now removed.now) }
{
    let mut kept = Vec::new(alloc);
    for entry in entries {
        push_copy_if(alloc, &mut kept, entry, !key_among(removed, entry))?;
    }
    Ok(Items::of(alloc, kept)?)
}

/// Whether the key of an entry is in a set.
fn key_among(some_keys: &[Value], entry: &Value) -> bool
    requires ascending { IsTrue (is_ascending some_keys.now) }
    ensures value { result ≡ key_among some_keys.now entry.now }
{
    match key_of(entry) {
        Some(key) => has(some_keys, key),
        None => false,
    }
}

fn push_copy(alloc: Global, items: &mut Vec<Value>, value: &Value) -> Result<(), NoMemory>
    ensures pushed { OnOk result (items.new.items ≡ items.old.items ++ value.now ∷ []) }
{
    let copy = value.copy(alloc)?;
    items.push(copy)?;
    Ok(())
}

fn push_copies(alloc: Global, items: &mut Vec<Value>, values: &[Value]) -> Result<(), NoMemory>
    ensures pushed { OnOk result (items.new.items ≡ items.old.items ++ values.now) }
{
    for value in values {
        push_copy(alloc, items, value)?;
    }
    Ok(())
}

fn push_copy_if(
    alloc: Global,
    items: &mut Vec<Value>,
    value: &Value,
    wanted: bool,
) -> Result<(), NoMemory>
    ensures pushed { OnOk result (items.new.items ≡ cond wanted (items.old.items ++ value.now ∷ []) items.old.items) }
{
    if wanted {
        push_copy(alloc, items, value)?;
    }
    Ok(())
}

fn push_copies_if(
    alloc: Global,
    items: &mut Vec<Value>,
    values: &[Value],
    wanted: bool,
) -> Result<(), NoMemory>
    ensures pushed { OnOk result (items.new.items ≡ cond wanted (items.old.items ++ values.now) items.old.items) }
{
    if wanted {
        push_copies(alloc, items, values)?;
    }
    Ok(())
}
