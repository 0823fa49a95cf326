//! Expressions. A chain of operators is flat in the tree and a pile in the core, for each of its operators takes
//! all that stands before it as an operand; so do indexes, slices and fields that follow one another.

ghost use Rattle.std.specs.Prelude.{◌≡◌, ◌+◌, ◌-◌, ◌^◌, map, max, min};
ghost use Rattle.chi_tree_heights.specs.Heights.{height, link_height, entry_height, part_height, where_some, highest};
ghost use Rattle.std.specs.Option.{option_map};

use crate::types::type_height_of;
use chi_base::Boxed;
use chi_tree::{Entry, Expr, Link, Postfix};

/// The height that the expression's core has at most, or the greatest u32 where that is more.
#[cycle(height)]
#[tactic(auto, using(crate::proofs::Capped::over_both))]
pub fn height_of(e: &Expr) -> u32
    ensures { result ≡ min (height e.now) (2 ^ 32 - 1) }
{
    match e {
        Expr::Chain { first, links } => {
            let highest = highest_link(links.as_slice());
            above_by(links.as_slice().len(), highest.max(height_of(first.get())))
        }
        Expr::Prefix { operand, .. } | Expr::Cast { operand, .. } => above(height_of(
            operand.get(),
        )),
        Expr::Round { inner, .. } => above(height_of(inner.get())),
        Expr::Relation { left, right, .. } => above_both(
            height_of(left.get()),
            height_of(right.get()),
        ),
        Expr::Power { base, exponent, .. } => above_both(
            height_of(base.get()),
            height_of(exponent.get()),
        ),
        Expr::Part { whole, postfixes } => {
            let highest = highest_postfix(postfixes.as_slice());
            above_by(
                postfixes.as_slice().len(),
                highest.max(height_of(whole.get())),
            )
        }
        Expr::Call { arguments, .. } => above(highest_of(arguments.as_slice())),
        Expr::TupleOf { parts, .. } => above(highest_of(parts.as_slice())),
        Expr::ListOf { elements, .. } | Expr::SetOf { elements, .. } => above(highest_of(
            elements.as_slice(),
        )),
        Expr::DictOf { entries, .. } => above(highest_entry(entries.as_slice())),
        Expr::EmptyList { element, .. } | Expr::EmptySet { element, .. } => above(type_height_of(
            element.get(),
        )),
        Expr::EmptyDict { key, value, .. } => {
            above_both(type_height_of(key.get()), type_height_of(value.get()))
        }
        Expr::Int { .. }
        | Expr::Real { .. }
        | Expr::Text { .. }
        | Expr::Bool { .. }
        | Expr::Time(_)
        | Expr::Named(_) => 1,
    }
}

/// One above what has this height.
pub(crate) fn above(part: u32) -> u32
    ensures { result ≡ min (1 + part) (2 ^ 32 - 1) }
{
    part.saturating_add(1)
}

/// One above both parts.
pub(crate) fn above_both(one: u32, other: u32) -> u32
    ensures { result ≡ min (1 + max one other) (2 ^ 32 - 1) }
{
    one.max(other).saturating_add(1)
}

/// So far above what has this height.
fn above_by(count: usize, part: u32) -> u32
    ensures { result ≡ min (count + part) (2 ^ 32 - 1) }
{
    match u32::try_from(count) {
        Ok(count) => part.saturating_add(count),
        Err(_) => u32::MAX,
    }
}

/// The height of the highest operand.
#[cycle(height)]
fn highest_link(links: &[Link]) -> u32
    ensures { result ≡ min (highest (map link_height links.now)) (2 ^ 32 - 1) }
{
    let mut greatest = 0;
    for link in links {
        greatest = height_of(&link.operand).max(greatest);
    }
    greatest
}

/// The height of the highest expression within indexes and slices.
#[cycle(height)]
fn highest_postfix(postfixes: &[Postfix]) -> u32
    ensures { result ≡ min (highest (map part_height postfixes.now)) (2 ^ 32 - 1) }
{
    let mut greatest = 0;
    for postfix in postfixes {
        greatest = height_within(postfix).max(greatest);
    }
    greatest
}

/// The height of the expressions within an index or a slice.
#[cycle(height)]
fn height_within(postfix: &Postfix) -> u32
    ensures { result ≡ min (part_height postfix.now) (2 ^ 32 - 1) }
{
    match postfix {
        Postfix::Index { index, .. } => height_of(index.get()),
        Postfix::Slice { from, upto, by, .. } => {
            optional(from).max(optional(upto)).max(optional(by))
        }
        Postfix::Field(_) => 0,
    }
}

/// The height of an expression that may be left out.
#[cycle(height)]
pub(crate) fn optional(e: &Option<Boxed<Expr>>) -> u32
    ensures { result ≡ min (where_some (option_map height e.now)) (2 ^ 32 - 1) }
{
    match e {
        Some(e) => height_of(e.get()),
        None => 0,
    }
}

/// The height of the highest of expressions that stand beside each other.
#[cycle(height)]
fn highest_of(parts: &[Expr]) -> u32
    ensures { result ≡ min (highest (map height parts.now)) (2 ^ 32 - 1) }
{
    let mut greatest = 0;
    for part in parts {
        greatest = height_of(part).max(greatest);
    }
    greatest
}

/// The height of the highest key or value.
#[cycle(height)]
fn highest_entry(entries: &[Entry]) -> u32
    ensures { result ≡ min (highest (map entry_height entries.now)) (2 ^ 32 - 1) }
{
    let mut greatest = 0;
    for entry in entries {
        greatest = height_of(&entry.key)
            .max(height_of(&entry.value))
            .max(greatest);
    }
    greatest
}
