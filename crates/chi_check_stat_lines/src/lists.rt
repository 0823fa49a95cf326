//! Lists that come of parts in turn.

ghost use Rattle.std.specs.Prelude.{◌≡◌, Some, [], IfOk};
ghost use Rattle.chi_check_stat_lines.specs.Stated as spec;

use chi_base::{Items, NoMemory};
use chi_check_expr_rules::list_of_one;
use std::alloc::Global;

/// A list of nothing.
pub fn nothing<T: Drop>(alloc: Global) -> Result<Option<Items<T>>, NoMemory>
    ensures { IfOk result (λ none. none ≡ Some []) }
{
    Ok(Some(Items::of(alloc, Vec::new(alloc))?))
}

/// A list of one, if there is one.
pub fn one<T: Drop>(alloc: Global, made: Option<T>) -> Result<Option<Items<T>>, NoMemory>
    ensures { IfOk result (λ list. list ≡ spec.one made) }
{
    match made {
        None => Ok(None),
        Some(made) => Ok(Some(list_of_one(alloc, made)?)),
    }
}

/// What was made before, and what is made now, where both are there.
pub fn joined<T: Drop>(
    alloc: Global,
    all: Option<Items<T>>,
    made: Option<Items<T>>,
) -> Result<Option<Items<T>>, NoMemory>
    ensures { IfOk result (λ list. list ≡ spec.joined all made) }
{
    let Some(all) = all else {
        drop(made);
        return Ok(None);
    };
    let Some(made) = made else {
        drop(all);
        return Ok(None);
    };
    let mut all = all.into_vec(alloc)?;
    let mut made = made.into_vec(alloc)?;
    all.append(&mut made)?;
    Ok(Some(Items::of(alloc, all)?))
}
