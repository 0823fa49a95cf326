use chi_base::{Boxed, Copied, Items, NoMemory, Row, Shared};
use std::alloc::Global;
use std::test::Fail;

/// A number that is copied as shared values are.
#[derive(Clone, Copy, Debug, PartialEq, Eq)]
struct Number(u8);

impl Copied for Number {
    fn copied(&self, _alloc: Global) -> Result<Number, NoMemory> {
        Ok(Number(self.0))
    }
}

fn numbers(alloc: Global, first: u8, count: u8) -> Result<Vec<Number>, Fail> {
    let mut numbers = Vec::new(alloc);
    for step in 0..count {
        numbers.push(Number(first.saturating_add(step)))?;
    }
    Ok(numbers)
}

/// Whether a row has so many numbers in turn.
fn counts_from(row: &Row<Number>, first: u8, count: usize) -> bool {
    let mut next = first;
    for place in 0..row.len() {
        if row.get(place) != Some(&Number(next)) {
            return false;
        }
        next = next.saturating_add(1);
    }
    row.len() == count
}

#[test]
fn a_list_gives_back_what_it_was_made_of(rt: HostRuntime) -> Result<(), Fail> {
    let values = Vec::from_slice(rt.alloc(), &[3u8, 1, 2])?;
    let items = Items::of(rt.alloc(), values)?;
    assert_eq!(rt; items.as_slice(), [3u8, 1, 2].as_slice());
    let values = items.into_vec(rt.alloc())?;
    assert_eq!(rt; values.as_slice(), [3u8, 1, 2].as_slice());
    Ok(())
}

#[test]
fn a_box_gives_back_its_value(rt: HostRuntime) -> Result<(), Fail> {
    let boxed = Boxed::new(rt.alloc(), 7u8)?;
    assert_eq!(rt; *boxed.get(), 7);
    assert_eq!(rt; boxed.into_inner(), 7);
    Ok(())
}

#[test]
fn what_changes_a_copy_of_a_list_leaves_the_list(rt: HostRuntime) -> Result<(), Fail> {
    let list = Shared::of(rt.alloc(), numbers(rt.alloc(), 1, 3)?)?;
    assert_eq!(rt; list.as_slice().len(), 3);
    let mut copy = list.copy()?;
    let old = copy.replace(rt.alloc(), 0, Number(9))?;
    assert_eq!(rt; old, Number(1));
    assert_eq!(rt;
        list.as_slice(),
        [Number(1), Number(2), Number(3)].as_slice()
    );
    assert_eq!(rt;
        copy.as_slice(),
        [Number(9), Number(2), Number(3)].as_slice()
    );
    let first = copy.take_first(rt.alloc())?;
    assert_eq!(rt; first, Number(9));
    assert_eq!(rt; copy.as_slice(), [Number(2), Number(3)].as_slice());
    Ok(())
}

#[test]
fn what_changes_a_copy_of_a_row_leaves_the_row(rt: HostRuntime) -> Result<(), Fail> {
    let row = Row::of(rt.alloc(), numbers(rt.alloc(), 1, 3)?)?;
    assert_eq!(rt; row.len(), 3);
    let mut copy = row.copy()?;
    copy.push(rt.alloc(), Number(4))?;
    assert!(rt; counts_from(&row, 1, 3));
    assert!(rt; counts_from(&copy, 1, 4));
    let mut copy = row.copy()?;
    let first = copy.take_first(rt.alloc())?;
    assert_eq!(rt; first, Number(1));
    assert!(rt; counts_from(&row, 1, 3));
    assert!(rt; counts_from(&copy, 2, 2));
    let mut copy = row.copy()?;
    let second = copy.remove(rt.alloc(), 1)?;
    assert_eq!(rt; second, Number(2));
    copy.insert(rt.alloc(), 1, second)?;
    assert!(rt; counts_from(&row, 1, 3));
    assert!(rt; counts_from(&copy, 1, 3));
    Ok(())
}

#[test]
fn a_part_is_the_same_of_a_row_that_is_shared_or_not(rt: HostRuntime) -> Result<(), Fail> {
    let row = Row::of(rt.alloc(), numbers(rt.alloc(), 1, 5)?)?;
    assert_eq!(rt; row.len(), 5);
    let shared = row.copy()?.part(rt.alloc(), 1, 3)?;
    assert!(rt; counts_from(&shared, 2, 3));
    assert!(rt; counts_from(&row, 1, 5));
    let mut own = row.part(rt.alloc(), 1, 3)?;
    assert!(rt; counts_from(&own, 2, 3));
    let more = Row::of(rt.alloc(), numbers(rt.alloc(), 5, 2)?)?;
    own.extend(rt.alloc(), &more)?;
    assert!(rt; counts_from(&own, 2, 5));
    Ok(())
}
