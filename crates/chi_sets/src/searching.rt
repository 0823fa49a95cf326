ghost use Rattle.std.specs.Prelude.{◌≡◌, ◌<◌, length, find, slice_get, slice_set, option_and_then, option_copied, IfOk, IfSome, IsTrue};
ghost use Rattle.std.specs.List.{list_any};
ghost use Rattle.std.specs.List.Sorted.{IsBinarySearchResult, IsSearchInRange};
ghost use Rattle.chi_sets.specs.By.{order_by};
ghost use Rattle.chi_sets.specs.Dictionaries.{against_key, ascending_by_key, has, has_key, value_at, with_entry};
ghost use Rattle.chi_sets.specs.Sets.{among, is_ascending, ties};

use crate::order::{By, compare_by, compare_with_key, value_of};
use chi_base::NoMemory;
use chi_value::{Items, Value};
use std::alloc::Global;

/// Whether an element is in a set.
pub fn has(items: &[Value], x: &Value) -> bool
    requires ascending { IsTrue (is_ascending items.now) }
    ensures value { result ≡ among items.now x.now }
{
    search(By::Itself, items, x).is_ok()
}

/// Where an element is in a set.
pub fn find(items: &[Value], x: &Value) -> Option<usize>
    requires ascending { IsTrue (is_ascending items.now) }
    ensures value { option_and_then (slice_get items.now) result ≡ find (ties x.now) items.now }
    ensures within { IfSome result (λ at. at < length items.now) }
{
    search(By::Itself, items, x).ok()
}

/// Whether a key is in a dictionary.
pub fn has_key(entries: &[Value], key: &Value) -> bool
    requires ascending { IsTrue (ascending_by_key entries.now) }
    ensures value { result ≡ has entries.now key.now }
{
    search_key(entries, key).is_ok()
}

/// Where the entry with a key is in a dictionary.
pub fn find_key(entries: &[Value], key: &Value) -> Option<usize>
    requires ascending { IsTrue (ascending_by_key entries.now) }
    ensures value { option_and_then (slice_get entries.now) result ≡ find (has_key key.now) entries.now }
    ensures within { IfSome result (λ at. at < length entries.now) }
{
    search_key(entries, key).ok()
}

/// What a key has in a dictionary.
pub fn value_at<'a>(entries: &'a [Value], key: &Value) -> Option<&'a Value>
    requires ascending { IsTrue (ascending_by_key entries.now) }
    ensures value { option_copied result ≡ value_at entries.now key.now }
{
    match search_key(entries, key) {
        Ok(at) => value_of(&entries[at]),
        Err(_) => None,
    }
}

/// Where an element is, or where it would go.
fn search(by: By, items: &[Value], x: &Value) -> Result<usize, usize>
    ensures bound { IsSearchInRange result (length items.now) }
    ensures place { IsBinarySearchResult (λ y. order_by by y x.now) items.now result }
{
    items.binary_search_by(|item| compare_by(by, item, x))
}

/// Where the entry with a key is, or where it would go.
fn search_key(entries: &[Value], key: &Value) -> Result<usize, usize>
    ensures bound { IsSearchInRange result (length entries.now) }
    ensures place { IsBinarySearchResult (against_key key.now) entries.now result }
{
    entries.binary_search_by(|entry| compare_with_key(entry, key))
}

/// A dictionary with an entry in the place of its key, instead of the one that was there.
pub fn with_entry(alloc: Global, entries: Items, entry: Value) -> Result<Items, NoMemory>
    requires ascending { IsTrue (ascending_by_key entries) }
    ensures value { IfOk result (λ items. items ≡ with_entry entries entry) }
{
    let place = search(By::Key, entries.as_slice(), &entry);
    let mut items = entries.into_vec(alloc)?;
    match place {
        Ok(at) => Ok(Items::of(alloc, replaced(items, at, entry))?),
        Err(at) => {
            items.insert(at, entry)?;
            Ok(Items::of(alloc, items)?)
        }
    }
}

fn replaced(mut items: Vec<Value>, at: usize, value: Value) -> Vec<Value>
    requires inside { at < length items.items }
    ensures value { result.items ≡ slice_set items.items at value }
{
    items[at] = value;
    items
}
