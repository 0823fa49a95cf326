//! What stands after an expression and takes a part of it.
ghost use Rattle.std.specs.Prelude.{◌^◌, ◌<◌, ◌≤◌, length};
ghost use Rattle.chi_grammar.specs.Rules.{part, many, maybe};
ghost use Rattle.chi_grammar.specs.Reads.{Reads};
ghost use Rattle.chi_tree.specs.Tables.{table};
ghost use Rattle.chi_tree.specs.Rules.{grammar, nested};
ghost use Rattle.chi_tree.specs.View.{expr_of, postfixes_of, postfix_of, inside, indexed, sliced, stepped, optional};
ghost use Rattle.chi_grammar.specs.declared.room.Room.{Room};
ghost use Rattle.chi_tree.specs.Parts as s;

use crate::levels::expr;
use crate::nodes::parted;
use crate::primaries::primary;
use chi_base::{Boxed, Items};
use chi_grammar::{Nesting, ParseFault, Room};
use chi_parse_look::classes::{
    COLON, DOT, FIRST_OF_EXPR, FIRST_OF_POSTFIX, LEFT_BRACKET, RIGHT_BRACKET,
};
use chi_parse_look::{boxed, enter, followed, is_next, joined, take, take_name};
use chi_token::{Place, Spanned};
use chi_tree::{Expr, Postfix};
use std::alloc::Global;

/// The first element of a slice and the one past its last, each of which may be left out.
type Bounds = (Option<Boxed<Expr>>, Option<Boxed<Expr>>);

#[cycle(expr)]
pub fn post(
    alloc: Global,
    tokens: &[Spanned],
    at: u32,
    room: Room,
) -> Result<(Expr, u32), ParseFault>
    requires short { length tokens.now < 2 ^ 32 }
    requires inside { at ≤ length tokens.now }
    ensures { Reads grammar table tokens.now expr_of room (part s.Post) at result }
{
    let (whole, middle) = primary(alloc, tokens, at, room)?;
    let ((whole, parts), end) = joined(whole, postfixes(alloc, tokens, middle, room))?;
    let taken = parted(alloc, whole, parts)?;
    Ok((taken, end))
}

#[cycle(expr)]
fn postfixes(
    alloc: Global,
    tokens: &[Spanned],
    at: u32,
    room: Room,
) -> Result<(Items<Postfix>, u32), ParseFault>
    requires short { length tokens.now < 2 ^ 32 }
    requires inside { at ≤ length tokens.now }
    ensures { Reads grammar table tokens.now postfixes_of room (many (part s.Postfix)) at result }
{
    let mut found = Vec::new(alloc);
    let mut end = at;
    'turn: while is_next(tokens, end, &FIRST_OF_POSTFIX) {
        let (one, after) = postfix(alloc, tokens, end, room)?;
        found.push(one)?;
        end = after;
    }
    let items = Items::of(alloc, found)?;
    Ok((items, end))
}

#[cycle(expr)]
fn postfix(
    alloc: Global,
    tokens: &[Spanned],
    at: u32,
    room: Room,
) -> Result<(Postfix, u32), ParseFault>
    requires short { length tokens.now < 2 ^ 32 }
    requires inside { at ≤ length tokens.now }
    ensures { Reads grammar table tokens.now postfix_of room (part s.Postfix) at result }
{
    if is_next(tokens, at, &[LEFT_BRACKET]) {
        return bracket(alloc, tokens, at, room);
    }
    field(alloc, tokens, at)
}

/// A dot and the name of a field.
pub fn field(alloc: Global, tokens: &[Spanned], at: u32) -> Result<(Postfix, u32), ParseFault>
    requires short { length tokens.now < 2 ^ 32 }
    requires inside { at ≤ length tokens.now }
    ensures { (room : Room) → Reads grammar table tokens.now postfix_of room (part s.Field) at result }
{
    let (_, start) = take(tokens, at, DOT)?;
    let (name, end) = take_name(alloc, tokens, start)?;
    Ok((Postfix::Field(name), end))
}

#[cycle(expr)]
fn bracket(
    alloc: Global,
    tokens: &[Spanned],
    at: u32,
    room: Room,
) -> Result<(Postfix, u32), ParseFault>
    requires short { length tokens.now < 2 ^ 32 }
    requires inside { at ≤ length tokens.now }
    ensures { Reads grammar table tokens.now postfix_of room (nested (part s.Bracket)) at result }
{
    let inner = enter(tokens, at, room, Nesting::Expression, &[LEFT_BRACKET])?;
    let (word, start) = take(tokens, at, LEFT_BRACKET)?;
    let (postfix, middle) = bracketed(alloc, tokens, start, inner, word.place)?;
    let (postfix, end) = followed(postfix, tokens, middle, RIGHT_BRACKET)?;
    Ok((postfix, end))
}

#[cycle(expr)]
fn bracketed(
    alloc: Global,
    tokens: &[Spanned],
    at: u32,
    room: Room,
    place: Place,
) -> Result<(Postfix, u32), ParseFault>
    requires short { length tokens.now < 2 ^ 32 }
    requires inside { at ≤ length tokens.now }
    ensures { Reads grammar table tokens.now (inside place) room (part s.Inside) at result }
{
    if is_next(tokens, at, &FIRST_OF_EXPR) {
        let (from, middle) = boxed(alloc, expr(alloc, tokens, at, room))?;
        return indexed(alloc, tokens, middle, room, place, from);
    }
    sliced(alloc, tokens, at, room, place, None)
}

#[cycle(expr)]
fn indexed(
    alloc: Global,
    tokens: &[Spanned],
    at: u32,
    room: Room,
    place: Place,
    from: Boxed<Expr>,
) -> Result<(Postfix, u32), ParseFault>
    requires short { length tokens.now < 2 ^ 32 }
    requires inside { at ≤ length tokens.now }
    ensures { Reads grammar table tokens.now (indexed place from) room (maybe (part s.Upto)) at result }
{
    if is_next(tokens, at, &[COLON]) {
        return sliced(alloc, tokens, at, room, place, Some(from));
    }
    Ok((Postfix::Index { place, index: from }, at))
}

#[cycle(expr)]
fn sliced(
    alloc: Global,
    tokens: &[Spanned],
    at: u32,
    room: Room,
    place: Place,
    from: Option<Boxed<Expr>>,
) -> Result<(Postfix, u32), ParseFault>
    requires short { length tokens.now < 2 ^ 32 }
    requires inside { at ≤ length tokens.now }
    ensures { Reads grammar table tokens.now (sliced place from) room (grammar.rule_of s.Upto) at result }
{
    let (from, start) = followed(from, tokens, at, COLON)?;
    let (bounds, middle) = joined(from, optional_expr(alloc, tokens, start, room))?;
    stepped(alloc, tokens, middle, room, place, bounds)
}

#[cycle(expr)]
fn stepped(
    alloc: Global,
    tokens: &[Spanned],
    at: u32,
    room: Room,
    place: Place,
    bounds: Bounds,
) -> Result<(Postfix, u32), ParseFault>
    requires short { length tokens.now < 2 ^ 32 }
    requires inside { at ≤ length tokens.now }
    ensures { Reads grammar table tokens.now (stepped place bounds.0 bounds.1) room (maybe (part s.ByStep)) at result }
{
    if is_next(tokens, at, &[COLON]) {
        let (bounds, start) = followed(bounds, tokens, at, COLON)?;
        let (((from, upto), step), end) = joined(
            bounds,
            optional_expr(alloc, tokens, start, room),
        )?;
        return Ok((
            Postfix::Slice {
                place,
                from,
                upto,
                second_colon: true,
                by: step,
            },
            end,
        ));
    }
    let (from, upto) = bounds;
    Ok((
        Postfix::Slice {
            place,
            from,
            upto,
            second_colon: false,
            by: None,
        },
        at,
    ))
}

#[cycle(expr)]
fn optional_expr(
    alloc: Global,
    tokens: &[Spanned],
    at: u32,
    room: Room,
) -> Result<(Option<Boxed<Expr>>, u32), ParseFault>
    requires short { length tokens.now < 2 ^ 32 }
    requires inside { at ≤ length tokens.now }
    ensures { Reads grammar table tokens.now (λ t. optional t (expr_of t)) room (maybe (part s.Expr)) at result }
{
    if is_next(tokens, at, &FIRST_OF_EXPR) {
        let (value, end) = boxed(alloc, expr(alloc, tokens, at, room))?;
        return Ok((Some(value), end));
    }
    Ok((None, at))
}

/// An expression, in a box of its own.
pub fn boxed_expr(
    alloc: Global,
    tokens: &[Spanned],
    at: u32,
    room: Room,
) -> Result<(Boxed<Expr>, u32), ParseFault>
    requires short { length tokens.now < 2 ^ 32 }
    requires inside { at ≤ length tokens.now }
    ensures { Reads grammar table tokens.now expr_of room (part s.Expr) at result }
{
    boxed(alloc, expr(alloc, tokens, at, room))
}
