//! Short lists, and lists with one more.

ghost use Rattle.std.specs.Prelude.{◌≡◌, [], ◌∷◌, ◌++◌, IfOk};

use chi_base::{Items, NoMemory};
use std::alloc::Global;

/// The list of this element alone.
pub fn list_of_one<T: Drop>(alloc: Global, a: T) -> Result<Items<T>, NoMemory>
    ensures { IfOk result (λ list. list ≡ a ∷ []) }
{
    let mut list = Vec::new(alloc);
    list.push(a)?;
    Ok(Items::of(alloc, list)?)
}

/// The list of these two elements.
pub fn list_of_two<T: Drop>(alloc: Global, a: T, b: T) -> Result<Items<T>, NoMemory>
    ensures { IfOk result (λ list. list ≡ a ∷ b ∷ []) }
{
    let mut list = Vec::new(alloc);
    list.push(a)?;
    list.push(b)?;
    Ok(Items::of(alloc, list)?)
}

/// The list with one more at its end.
pub fn one_more<T: Drop>(alloc: Global, all: Items<T>, last: T) -> Result<Items<T>, NoMemory>
    ensures { IfOk result (λ list. list ≡ all ++ last ∷ []) }
{
    match all.into_vec(alloc) {
        Ok(all) => pushed(alloc, all, last),
        Err(refusal) => {
            drop(last);
            Err(refusal)
        }
    }
}

fn pushed<T: Drop>(alloc: Global, all: Vec<T>, last: T) -> Result<Items<T>, NoMemory>
    ensures { IfOk result (λ list. list ≡ all.items ++ last ∷ []) }
{
    let mut all = all;
    all.push(last)?;
    Items::of(alloc, all)
}
