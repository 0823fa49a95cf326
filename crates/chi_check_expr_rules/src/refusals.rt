//! Parts of which nothing is made. They are dropped by calls of `drop`: what goes out of scope where a
//! function returns is laid out part by part in its proof, on each way out.

ghost use Rattle.std.specs.Prelude.{◌≡◌, None, if◌then◌else◌};

use chi_check_types::Made;

/// Nothing is made of it.
pub fn refused<T: Drop, U>(given: T) -> Option<U>
    ensures { result ≡ None }
{
    drop(given);
    None
}

/// Nothing is made of either.
pub fn both_refused(a: Made, b: Made) -> Option<Made>
    ensures { result ≡ None }
{
    drop(a);
    drop(b);
    None
}

/// What is made, where no further rule bars it.
pub fn unless<T: Drop>(barred: bool, made: Option<T>) -> Option<T>
    ensures { result ≡ (if barred then None else made) }
{
    if barred {
        drop(made);
        None
    } else {
        made
    }
}
