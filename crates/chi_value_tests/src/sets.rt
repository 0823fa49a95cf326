ghost use Rattle.std.specs.Prelude.{IfOk, IsTrue};
ghost use Rattle.chi_sets.specs.Dictionaries.{ascending_by_key};
ghost use Rattle.chi_sets.specs.Sets.{is_ascending};

use chi_base::NoMemory;
use chi_sets::{
    dictionaries_have_their_values, dictionary_of, dictionary_union, find, find_key, has, has_key,
    is_subset, key_of, minus_keys, set_meet, set_minus, set_of, set_union, sets_have_their_members,
    value_at, value_of, with_entry,
};
use chi_value::{Items, Value};
use std::alloc::Global;
use std::test::Fail;

fn set(alloc: Global, numbers: &[i64]) -> Result<Items, NoMemory>
    ensures ascending { IfOk result (λ items. IsTrue (is_ascending items)) }
{
    let mut values = Vec::new(alloc);
    for number in numbers {
        values.push(Value::Int(*number))?;
    }
    sets_have_their_members();
    Ok(set_of(alloc, values)?)
}

fn entry(alloc: Global, key: i64, has: i64) -> Result<Value, NoMemory> {
    let mut parts = Vec::new(alloc);
    parts.push(Value::Int(key))?;
    parts.push(Value::Int(has))?;
    Ok(Value::TupleOf(Items::of(alloc, parts)?))
}

fn dictionary(alloc: Global, pairs: &[(i64, i64)]) -> Result<Items, NoMemory>
    ensures ascending { IfOk result (λ items. IsTrue (ascending_by_key items)) }
{
    let mut entries = Vec::new(alloc);
    for (key, has) in pairs {
        entries.push(entry(alloc, *key, *has)?)?;
    }
    dictionaries_have_their_values();
    Ok(dictionary_of(alloc, entries)?)
}

fn is_int(value: Option<&Value>, number: i64) -> bool {
    match value {
        Some(Value::Int(own)) => *own == number,
        _ => false,
    }
}

fn are(items: &Items, numbers: &[i64]) -> bool {
    let items = items.as_slice();
    items.len() == numbers.len()
        && items
            .iter()
            .zip(numbers)
            .all(|(item, number)| is_int(Some(item), *number))
}

fn are_pairs(items: &Items, pairs: &[(i64, i64)]) -> bool {
    let items = items.as_slice();
    items.len() == pairs.len()
        && items.iter().zip(pairs).all(|(item, pair)| is_int(key_of(item), pair.0)
            && is_int(value_of(item), pair.1))
}

/// More sets and dictionaries are combined in rows/.
#[test]
fn sets_are_combined(rt: HostRuntime) -> Result<(), Fail> {
    let alloc = rt.alloc();
    let a = set(alloc, &[2, 5, 1, 2])?;
    let b = set(alloc, &[5, 3, -1])?;
    assert!(rt;
        are(
            &set_union(alloc, a.as_slice(), b.as_slice())?,
            &[-1, 1, 2, 3, 5]
        )
    );
    assert!(rt; are(&set_meet(alloc, a.as_slice(), b.as_slice())?, &[5]));
    assert!(rt; are(&set_minus(alloc, a.as_slice(), b.as_slice())?, &[1, 2]));
    assert!(rt; !is_subset(a.as_slice(), b.as_slice()));
    Ok(())
}

#[test]
fn elements_are_found(rt: HostRuntime) -> Result<(), Fail> {
    let numbers = set(rt.alloc(), &[9, 5, 7, 3, 1])?;
    for (number, place) in [
        (0, None),
        (1, Some(0)),
        (2, None),
        (3, Some(1)),
        (5, Some(2)),
        (7, Some(3)),
        (8, None),
        (9, Some(4)),
        (10, None),
    ] {
        assert_eq!(rt; find(numbers.as_slice(), &Value::Int(number)), place);
        assert_eq!(rt;
            has(numbers.as_slice(), &Value::Int(number)),
            place.is_some()
        );
    }
    Ok(())
}

#[test]
fn the_later_entry_stays(rt: HostRuntime) -> Result<(), Fail> {
    let alloc = rt.alloc();
    let a = dictionary(alloc, &[(3, 30), (1, 10), (3, 31), (2, 20), (1, 11)])?;
    assert!(rt; are_pairs(&a, &[(1, 11), (2, 20), (3, 31)]));
    let b = dictionary(alloc, &[(4, 40), (3, 33), (0, 0)])?;
    assert!(rt;
        are_pairs(
            &dictionary_union(alloc, a.as_slice(), b.as_slice())?,
            &[(0, 0), (1, 11), (2, 20), (3, 33), (4, 40)]
        )
    );
    assert!(rt;
        are_pairs(
            &dictionary_union(alloc, b.as_slice(), a.as_slice())?,
            &[(0, 0), (1, 11), (2, 20), (3, 31), (4, 40)]
        )
    );
    let removed = set(alloc, &[3, 1, 5])?;
    assert!(rt;
        are_pairs(
            &minus_keys(alloc, a.as_slice(), removed.as_slice())?,
            &[(2, 20)]
        )
    );
    assert!(rt; is_int(value_at(a.as_slice(), &Value::Int(3)), 31));
    assert!(rt; value_at(a.as_slice(), &Value::Int(0)).is_none());
    assert_eq!(rt; find_key(a.as_slice(), &Value::Int(2)), Some(1));
    assert!(rt; !has_key(a.as_slice(), &Value::Int(4)));
    Ok(())
}

#[test]
fn an_entry_is_put_in_its_place(rt: HostRuntime) -> Result<(), Fail> {
    let alloc = rt.alloc();
    let entries = dictionary(alloc, &[(1, 10), (3, 30)])?;
    let entry = entry(alloc, 2, 5)?;
    let expected = [(1, 10), (2, 5), (3, 30)];
    assert!(rt; are_pairs(&with_entry(alloc, entries, entry)?, &expected));
    Ok(())
}

/// As many elements as a container may have, from the greatest down to 1.
fn falling(alloc: Global) -> Result<Items, NoMemory>
    ensures ascending { IfOk result (λ items. IsTrue (is_ascending items)) }
{
    let mut values = Vec::new(alloc);
    for smaller in 0..1_048_576u32 {
        values.push(Value::Int(i64::from(1_048_576 - smaller)))?;
    }
    sets_have_their_members();
    Ok(set_of(alloc, values)?)
}

#[test]
fn the_largest_set_is_built_from_falling_elements(rt: HostRuntime) -> Result<(), Fail> {
    let alloc = rt.alloc();
    let all = falling(alloc)?;
    assert_eq!(rt; all.as_slice().len(), 1_048_576);
    assert_eq!(rt; find(all.as_slice(), &Value::Int(1)), Some(0));
    assert_eq!(rt;
        find(all.as_slice(), &Value::Int(1_048_576)),
        Some(1_048_575)
    );
    let both = set_union(alloc, all.as_slice(), all.as_slice())?;
    assert_eq!(rt; both.as_slice().len(), 1_048_576);
    Ok(())
}
