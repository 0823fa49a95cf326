ghost use Rattle.std.specs.Prelude.{◌≡◌, option_copied};
ghost use Rattle.std.specs.Option.{option_cmp};
ghost use Rattle.chi_value.specs.Order.{order};
ghost use Rattle.chi_sets.specs.By.{order_by};
ghost use Rattle.chi_sets.specs.Dictionaries.{by_key, against_key, key_of, value_of};

use chi_value::{Value, compare_any};
use std::cmp::Ordering;

/// By what a list ascends: a set's elements by themselves, a dictionary's entries by their keys.
#[derive(Clone, Copy)]
pub(crate) enum By {
    Itself,
    Key,
}

pub(crate) fn compare_by(by: By, a: &Value, b: &Value) -> Ordering
    ensures value { result ≡ order_by by a.now b.now }
{
    match by {
        By::Itself => compare_any(a, b),
        By::Key => compare_options(key_of(a), key_of(b)),
    }
}

/// How an entry stands to a key.
pub(crate) fn compare_with_key(entry: &Value, key: &Value) -> Ordering
    ensures value { result ≡ against_key key.now entry.now }
{
    compare_options(key_of(entry), Some(key))
}

/// The order of two keys. What has none stands first.
fn compare_options(a: Option<&Value>, b: Option<&Value>) -> Ordering
    ensures value { result ≡ option_cmp order (option_copied a.entry) (option_copied b.entry) }
{
    match (a, b) {
        (Some(a), Some(b)) => compare_any(a, b),
        (None, Some(_)) => Ordering::Less,
        (Some(_), None) => Ordering::Greater,
        (None, None) => Ordering::Equal,
    }
}

/// The key of an entry, if the value is one.
pub fn key_of(entry: &Value) -> Option<&Value>
    ensures value { option_copied result ≡ key_of entry.now }
{
    let Value::TupleOf(parts) = entry else {
        return None;
    };
    match parts.as_slice() {
        [key, _] => Some(key),
        _ => None,
    }
}

/// What the key of an entry has, if the value is one.
pub fn value_of(entry: &Value) -> Option<&Value>
    ensures value { option_copied result ≡ value_of entry.now }
{
    let Value::TupleOf(parts) = entry else {
        return None;
    };
    match parts.as_slice() {
        [_, has] => Some(has),
        _ => None,
    }
}
