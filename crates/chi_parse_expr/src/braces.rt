//! Sets and dictionaries.
ghost use Rattle.std.specs.Prelude.{◌^◌, ◌<◌, ◌≤◌, length, ◌++◌};
ghost use Rattle.chi_grammar.specs.Rules.{part, many, maybe, ◌▸◌};
ghost use Rattle.chi_token.specs.declared.sign.Sign.TheVariants.{Colon};
ghost use Rattle.chi_grammar.specs.Reads.{Reads};
ghost use Rattle.chi_tree.specs.Tables.{table};
ghost use Rattle.chi_tree.specs.Rules.{grammar, nested, sign};
ghost use Rattle.chi_tree.specs.View.{expr_of, braced, entries_of, entry_of};
ghost use Rattle.chi_tree.specs.Parts as s;
ghost use Rattle.chi_parse_expr.specs.Values.{value_of};

use crate::levels::expr;
use crate::sequences::exprs_after;
use chi_base::Items;
use chi_grammar::{Nesting, ParseFault, Room};
use chi_parse_look::classes::{COLON, COMMA, LEFT_BRACE, RIGHT_BRACE};
use chi_parse_look::{enter, followed, is_next, joined, take};
use chi_token::{Place, Spanned};
use chi_tree::{Entry, Expr};
use std::alloc::Global;

#[cycle(expr)]
pub fn curly(
    alloc: Global,
    tokens: &[Spanned],
    at: u32,
    room: Room,
) -> Result<(Expr, u32), ParseFault>
    requires short { length tokens.now < 2 ^ 32 }
    requires inside { at ≤ length tokens.now }
    ensures { Reads grammar table tokens.now expr_of room (nested (part s.Curly)) at result }
{
    let inner = enter(tokens, at, room, Nesting::Expression, &[LEFT_BRACE])?;
    let (word, start) = take(tokens, at, LEFT_BRACE)?;
    let (first, middle) = expr(alloc, tokens, start, inner)?;
    let (value, last) = set_or_dict(alloc, tokens, middle, inner, word.place, first)?;
    let (value, end) = followed(value, tokens, last, RIGHT_BRACE)?;
    Ok((value, end))
}

#[cycle(expr)]
fn set_or_dict(
    alloc: Global,
    tokens: &[Spanned],
    at: u32,
    room: Room,
    place: Place,
    first: Expr,
) -> Result<(Expr, u32), ParseFault>
    requires short { length tokens.now < 2 ^ 32 }
    requires inside { at ≤ length tokens.now }
    ensures { Reads grammar table tokens.now (braced place first) room (maybe (part s.Contents)) at result }
{
    if is_next(tokens, at, &[COMMA, COLON]) {
        return contents(alloc, tokens, at, room, place, first);
    }
    let found = vec![in alloc; first]?;
    let values = Items::of(alloc, found)?;
    Ok((
        Expr::SetOf {
            place,
            elements: values,
        },
        at,
    ))
}

#[cycle(expr)]
fn contents(
    alloc: Global,
    tokens: &[Spanned],
    at: u32,
    room: Room,
    place: Place,
    first: Expr,
) -> Result<(Expr, u32), ParseFault>
    requires short { length tokens.now < 2 ^ 32 }
    requires inside { at ≤ length tokens.now }
    ensures { Reads grammar table tokens.now (braced place first) room (part s.Contents) at result }
{
    if is_next(tokens, at, &[COMMA]) {
        let (first, start) = followed(first, tokens, at, COMMA)?;
        let found = vec![in alloc; first]?;
        let (values, end) = exprs_after(alloc, tokens, start, room, found)?;
        return Ok((
            Expr::SetOf {
                place,
                elements: values,
            },
            end,
        ));
    }
    entries(alloc, tokens, at, room, place, first)
}

#[cycle(expr)]
fn entries(
    alloc: Global,
    tokens: &[Spanned],
    at: u32,
    room: Room,
    place: Place,
    key: Expr,
) -> Result<(Expr, u32), ParseFault>
    requires short { length tokens.now < 2 ^ 32 }
    requires inside { at ≤ length tokens.now }
    ensures { Reads grammar table tokens.now (braced place key) room (part s.Entries) at result }
{
    let (key, start) = followed(key, tokens, at, COLON)?;
    let ((key, value), middle) = joined(key, expr(alloc, tokens, start, room))?;
    let found = vec![in alloc; Entry { key, value }]?;
    let (values, end) = more_entries(alloc, tokens, middle, room, found)?;
    Ok((
        Expr::DictOf {
            place,
            entries: values,
        },
        end,
    ))
}

#[cycle(expr)]
fn more_entries(
    alloc: Global,
    tokens: &[Spanned],
    at: u32,
    room: Room,
    mut found: Vec<Entry>,
) -> Result<(Items<Entry>, u32), ParseFault>
    requires short { length tokens.now < 2 ^ 32 }
    requires inside { at ≤ length tokens.now }
    ensures { Reads grammar table tokens.now (λ t. found.items ++ entries_of t) room (many (part s.MoreEntry)) at result }
{
    let mut end = at;
    'turn: while is_next(tokens, end, &[COMMA]) {
        let (one, after) = more_entry(alloc, tokens, end, room)?;
        found.push(one)?;
        end = after;
    }
    let items = Items::of(alloc, found)?;
    Ok((items, end))
}

#[cycle(expr)]
fn more_entry(
    alloc: Global,
    tokens: &[Spanned],
    at: u32,
    room: Room,
) -> Result<(Entry, u32), ParseFault>
    requires short { length tokens.now < 2 ^ 32 }
    requires inside { at ≤ length tokens.now }
    ensures { Reads grammar table tokens.now entry_of room (part s.MoreEntry) at result }
{
    let (_, start) = take(tokens, at, COMMA)?;
    let (key, middle) = expr(alloc, tokens, start, room)?;
    let ((key, value), end) = joined(key, entry_value(alloc, tokens, middle, room))?;
    Ok((Entry { key, value }, end))
}

/// The value of an entry, after its key.
#[cycle(expr)]
fn entry_value(
    alloc: Global,
    tokens: &[Spanned],
    at: u32,
    room: Room,
) -> Result<(Expr, u32), ParseFault>
    requires short { length tokens.now < 2 ^ 32 }
    requires inside { at ≤ length tokens.now }
    ensures { Reads grammar table tokens.now value_of room (sign Colon ▸ part s.Expr) at result }
{
    let (_, start) = take(tokens, at, COLON)?;
    expr(alloc, tokens, start, room)
}
