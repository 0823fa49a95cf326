//! Types, whose lists may have sizes: the core of a variable of such a type begins with a list that is built.

ghost use Rattle.std.specs.Prelude.{◌≡◌, ◌-◌, ◌^◌, map, min};
ghost use Rattle.chi_tree_heights.specs.Heights.{type_height, formal_height, highest, where_some};
ghost use Rattle.std.specs.Option.{option_map};

use crate::expressions::{above, above_both, optional};
use chi_base::Boxed;
use chi_tree::{Formal, TypeTree};

/// The height that the core of the type's default has at most, or the greatest u32 where that is more.
#[cycle(height)]
pub fn type_height_of(t: &TypeTree) -> u32
    ensures { result ≡ min (type_height t.now) (2 ^ 32 - 1) }
{
    match t {
        TypeTree::List { size, element, .. } => above_both(
            optional(size),
            type_height_of(element.get()),
        ),
        TypeTree::Set { element, .. } => above(type_height_of(element.get())),
        TypeTree::Dist { drawn, .. } => above(type_height_of(drawn.get())),
        TypeTree::Dict { key, value, .. } => {
            above_both(type_height_of(key.get()), type_height_of(value.get()))
        }
        TypeTree::Tuple { fields, .. } => above(highest_field(fields.as_slice())),
        TypeTree::Chan { carried, .. } => above(optional_type(carried)),
        TypeTree::Word { .. } | TypeTree::Defined(_) => 1,
    }
}

/// The height of a type that may be left out.
#[cycle(height)]
fn optional_type(t: &Option<Boxed<TypeTree>>) -> u32
    ensures { result ≡ min (where_some (option_map type_height t.now)) (2 ^ 32 - 1) }
{
    match t {
        Some(t) => type_height_of(t.get()),
        None => 0,
    }
}

/// The height of the highest field.
#[cycle(height)]
fn highest_field(fields: &[Formal]) -> u32
    ensures { result ≡ min (highest (map formal_height fields.now)) (2 ^ 32 - 1) }
{
    let mut greatest = 0;
    for field in fields {
        greatest = optional_type(&field.ty).max(greatest);
    }
    greatest
}
