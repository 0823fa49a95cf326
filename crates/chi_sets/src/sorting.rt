ghost use Rattle.std.specs.Prelude.{◌≡◌, IfOk};
ghost use Rattle.chi_sets.specs.Ascending.{in_order};
ghost use Rattle.chi_sets.specs.By.{order_by};
ghost use Rattle.chi_sets.specs.Dictionaries.{dictionary_of};
ghost use Rattle.chi_sets.specs.Sets.{set_of};

use crate::order::{By, compare_by};
use chi_base::NoMemory;
use chi_value::{Items, Value};
use std::alloc::Global;
use std::cmp::Ordering;

/// The set of some elements.
pub fn set_of(alloc: Global, values: Vec<Value>) -> Result<Items, NoMemory>
    ensures value { IfOk result (λ items. items ≡ set_of values.items) }
{
    let sorted = sorted(By::Itself, values)?;
    Ok(Items::of(alloc, sorted)?)
}

/// The dictionary of some entries, of which the later with one key wins.
pub fn dictionary_of(alloc: Global, entries: Vec<Value>) -> Result<Items, NoMemory>
    ensures value { IfOk result (λ items. items ≡ dictionary_of entries.items) }
{
    let sorted = sorted(By::Key, entries)?;
    Ok(Items::of(alloc, sorted)?)
}

/// Sorted the other way round first, so that the later of two that tie is the one that stays.
fn sorted(by: By, mut values: Vec<Value>) -> Result<Vec<Value>, NoMemory>
    ensures value { IfOk result (λ sorted. sorted.items ≡ in_order (order_by by) values.items) }
{
    values.reverse();
    values.sort_by(|a, b| compare_by(by, a, b))?;
    values.dedup_by(|later, kept| compare_by(by, later, kept) == Ordering::Equal);
    Ok(values)
}
