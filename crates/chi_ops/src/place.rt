ghost use Rattle.std.specs.Prelude.{◌≡◌, ◌<◌, None, Some, IfSome, MatchOption};
ghost use Rattle.chi_ops.specs.Places.{place_of, at_place};

use chi_value::{Row, Value};

/// The place that an index names among so many elements.
pub(crate) fn place_of(size: usize, i: i64) -> Option<usize>
    ensures place { result ≡ place_of size i }
    ensures inside { IfSome result (λ place. place < size) }
{
    let distance = i.unsigned_abs() as usize;
    if i < 0 {
        if distance <= size {
            Some(size - distance)
        } else {
            None
        }
    } else {
        if distance < size {
            Some(distance)
        } else {
            None
        }
    }
}

/// The element that an index names.
pub(crate) fn at_place<T>(items: &[T], i: i64) -> Option<&T>
    ensures element { MatchOption result (at_place items.now i ≡ None) (λ item. at_place items.now i ≡ Some item.now) }
{
    match place_of(items.len(), i) {
        Some(place) => items.get(place),
        None => None,
    }
}

/// The element of a list that an index names.
pub(crate) fn in_row(items: &Row, i: i64) -> Option<&Value>
    ensures element { MatchOption result (at_place items.now i ≡ None) (λ item. at_place items.now i ≡ Some item.now) }
{
    match place_of(items.len(), i) {
        Some(place) => items.get(place),
        None => None,
    }
}
