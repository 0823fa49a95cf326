//! Empty literals, whose type is given.
ghost use Rattle.std.specs.Prelude.{◌^◌, ◌<◌, ◌≤◌, length};
ghost use Rattle.chi_grammar.specs.Rules.{part, ◌∣◌, pair};
ghost use Rattle.chi_parse_expr.specs.Passing.{Passes};
ghost use Rattle.chi_grammar.specs.Reads.{Reads};
ghost use Rattle.chi_tree.specs.Tables.{table};
ghost use Rattle.chi_tree.specs.Rules.{grammar, nested};
ghost use Rattle.chi_tree.specs.View.{Built, expr_of, blank};
ghost use Rattle.chi_tree.specs.Parts as s;

use crate::types::any_type;
use chi_base::Boxed;
use chi_grammar::{Nesting, ParseFault, Room};
use chi_parse_look::classes::{
    COLON, GREATER, LEFT_BRACE, LEFT_BRACKET, LESS, RIGHT_BRACE, RIGHT_BRACKET,
};
use chi_parse_look::{boxed, enter, is_next, take};
use chi_token::{Place, Spanned};
use chi_tree::{Expr, TypeTree};
use std::alloc::Global;

#[cycle(expr)]
pub fn blank(
    alloc: Global,
    tokens: &[Spanned],
    at: u32,
    room: Room,
) -> Result<(Expr, u32), ParseFault>
    requires short { length tokens.now < 2 ^ 32 }
    requires inside { at ≤ length tokens.now }
    ensures { Reads grammar table tokens.now expr_of room (part s.Blank) at result }
{
    let (word, start) = take(tokens, at, LESS)?;
    let (of, middle) = boxed(alloc, any_type(alloc, tokens, start, room))?;
    blank_end(alloc, tokens, middle, room, word.place, of)
}

#[cycle(expr)]
fn blank_end(
    alloc: Global,
    tokens: &[Spanned],
    at: u32,
    room: Room,
    place: Place,
    of: Boxed<TypeTree>,
) -> Result<(Expr, u32), ParseFault>
    requires short { length tokens.now < 2 ^ 32 }
    requires inside { at ≤ length tokens.now }
    ensures { Reads grammar table tokens.now (blank place of) room (part s.BlankEnd) at result }
{
    if is_next(tokens, at, &[GREATER]) {
        let (_, next) = take(tokens, at, GREATER)?;
        return blank_items(tokens, next, room, place, of);
    }
    let (_, start) = take(tokens, at, COLON)?;
    let (value, middle) = boxed(alloc, any_type(alloc, tokens, start, room))?;
    let (_, last) = take(tokens, middle, GREATER)?;
    let end = no_elements(tokens, last, room)?;
    Ok((
        Expr::EmptyDict {
            place,
            key: of,
            value,
        },
        end,
    ))
}

/// An empty list or an empty set, after its type.
fn blank_items(
    tokens: &[Spanned],
    at: u32,
    room: Room,
    place: Place,
    of: Boxed<TypeTree>,
) -> Result<(Expr, u32), ParseFault>
    requires short { length tokens.now < 2 ^ 32 }
    requires inside { at ≤ length tokens.now }
    ensures { (w : Built) → Reads grammar table tokens.now (λ u. blank place of (pair w u)) room (nested (part s.BlankItems) ∣ nested (part s.BlankElements)) at result }
{
    if is_next(tokens, at, &[LEFT_BRACKET]) {
        let end = no_items(tokens, at, room)?;
        return Ok((Expr::EmptyList { place, element: of }, end));
    }
    let end = no_elements(tokens, at, room)?;
    Ok((Expr::EmptySet { place, element: of }, end))
}

fn no_items(tokens: &[Spanned], at: u32, room: Room) -> Result<u32, ParseFault>
    requires short { length tokens.now < 2 ^ 32 }
    requires inside { at ≤ length tokens.now }
    ensures { Passes tokens.now room (nested (part s.BlankItems)) at result }
{
    enter(tokens, at, room, Nesting::Expression, &[LEFT_BRACKET])?;
    let (_, middle) = take(tokens, at, LEFT_BRACKET)?;
    let (_, end) = take(tokens, middle, RIGHT_BRACKET)?;
    Ok(end)
}

fn no_elements(tokens: &[Spanned], at: u32, room: Room) -> Result<u32, ParseFault>
    requires short { length tokens.now < 2 ^ 32 }
    requires inside { at ≤ length tokens.now }
    ensures { Passes tokens.now room (nested (part s.BlankElements)) at result }
{
    enter(tokens, at, room, Nesting::Expression, &[LEFT_BRACE])?;
    let (_, middle) = take(tokens, at, LEFT_BRACE)?;
    let (_, end) = take(tokens, middle, RIGHT_BRACE)?;
    Ok(end)
}
