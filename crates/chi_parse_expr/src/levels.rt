//! Expressions, from the level that binds least on.
ghost use Rattle.std.specs.Prelude.{◌^◌, ◌<◌, ◌≤◌, length};
ghost use Rattle.chi_grammar.specs.Rules.{part, many};
ghost use Rattle.chi_grammar.specs.Reads.{Reads};
ghost use Rattle.chi_tree.specs.Tables.{table};
ghost use Rattle.chi_tree.specs.Rules.{grammar, nested};
ghost use Rattle.chi_tree.specs.View.{expr_of, links_of, link_of, related};
ghost use Rattle.chi_tree.specs.Parts as s;
ghost use Rattle.chi_parse_expr.specs.Grouping.{chain_part, link_part, operand_part};

use crate::level::ChainLevel;
use crate::nodes::{chained, operator_of, relation_of};
use crate::terms::unary;
use chi_base::{Boxed, Items};
use chi_grammar::{Nesting, ParseFault, Room};
use chi_parse_look::classes::{NOT, RELATION_SIGNS};
use chi_parse_look::{boxed, enter, is_next, joined, take, take_one_of};
use chi_token::Spanned;
use chi_tree::{Expr, Link, PrefixSign};
use std::alloc::Global;

/// An expression.
#[cycle(expr)]
pub fn expr(
    alloc: Global,
    tokens: &[Spanned],
    at: u32,
    room: Room,
) -> Result<(Expr, u32), ParseFault>
    requires short { length tokens.now < 2 ^ 32 }
    requires inside { at ≤ length tokens.now }
    ensures { Reads grammar table tokens.now expr_of room (part s.Expr) at result }
{
    chain(alloc, tokens, at, room, ChainLevel::Or)
}

/// An operand of the level, with the links after it.
#[cycle(expr)]
fn chain(
    alloc: Global,
    tokens: &[Spanned],
    at: u32,
    room: Room,
    level: ChainLevel,
) -> Result<(Expr, u32), ParseFault>
    requires short { length tokens.now < 2 ^ 32 }
    requires inside { at ≤ length tokens.now }
    ensures { Reads grammar table tokens.now expr_of room (part (chain_part level)) at result }
{
    let (first, middle) = operand(alloc, tokens, at, room, level)?;
    let ((first, links), end) = joined(first, links(alloc, tokens, middle, room, level))?;
    let chain = chained(alloc, first, links)?;
    Ok((chain, end))
}

/// The links of the level that stand one after the other.
#[cycle(expr)]
fn links(
    alloc: Global,
    tokens: &[Spanned],
    at: u32,
    room: Room,
    level: ChainLevel,
) -> Result<(Items<Link>, u32), ParseFault>
    requires short { length tokens.now < 2 ^ 32 }
    requires inside { at ≤ length tokens.now }
    ensures { Reads grammar table tokens.now links_of room (many (part (link_part level))) at result }
{
    let mut found = Vec::new(alloc);
    let mut end = at;
    'turn: while is_next(tokens, end, level.signs()) {
        let (one, after) = link(alloc, tokens, end, room, level)?;
        found.push(one)?;
        end = after;
    }
    let items = Items::of(alloc, found)?;
    Ok((items, end))
}

/// An operator of the level, with the operand after it.
#[cycle(expr)]
fn link(
    alloc: Global,
    tokens: &[Spanned],
    at: u32,
    room: Room,
    level: ChainLevel,
) -> Result<(Link, u32), ParseFault>
    requires short { length tokens.now < 2 ^ 32 }
    requires inside { at ≤ length tokens.now }
    ensures { Reads grammar table tokens.now link_of room (part (link_part level)) at result }
{
    let (word, start) = take_one_of(tokens, at, level.signs())?;
    let (right, end) = operand(alloc, tokens, start, room, level)?;
    let link = Link {
        operator: operator_of(&word.token),
        place: word.place,
        operand: right,
    };
    Ok((link, end))
}

/// What the operators of the level stand between: it binds more than they do.
#[cycle(expr)]
fn operand(
    alloc: Global,
    tokens: &[Spanned],
    at: u32,
    room: Room,
    level: ChainLevel,
) -> Result<(Expr, u32), ParseFault>
    requires short { length tokens.now < 2 ^ 32 }
    requires inside { at ≤ length tokens.now }
    ensures { Reads grammar table tokens.now expr_of room (part (operand_part level)) at result }
{
    match level {
        ChainLevel::Or => chain(alloc, tokens, at, room, ChainLevel::And),
        ChainLevel::And => neg(alloc, tokens, at, room),
        ChainLevel::Sum => chain(alloc, tokens, at, room, ChainLevel::Product),
        ChainLevel::Product => unary(alloc, tokens, at, room),
    }
}

#[cycle(expr)]
fn neg(alloc: Global, tokens: &[Spanned], at: u32, room: Room) -> Result<(Expr, u32), ParseFault>
    requires short { length tokens.now < 2 ^ 32 }
    requires inside { at ≤ length tokens.now }
    ensures { Reads grammar table tokens.now expr_of room (part s.Neg) at result }
{
    if is_next(tokens, at, &[NOT]) {
        return not_neg(alloc, tokens, at, room);
    }
    rel(alloc, tokens, at, room)
}

#[cycle(expr)]
fn not_neg(
    alloc: Global,
    tokens: &[Spanned],
    at: u32,
    room: Room,
) -> Result<(Expr, u32), ParseFault>
    requires short { length tokens.now < 2 ^ 32 }
    requires inside { at ≤ length tokens.now }
    ensures { Reads grammar table tokens.now expr_of room (nested (part s.NotNeg)) at result }
{
    let inner = enter(tokens, at, room, Nesting::Expression, &[NOT])?;
    let (word, start) = take(tokens, at, NOT)?;
    let (operand, end) = boxed(alloc, neg(alloc, tokens, start, inner))?;
    Ok((
        Expr::Prefix {
            sign: PrefixSign::Not,
            place: word.place,
            operand,
        },
        end,
    ))
}

#[cycle(expr)]
fn rel(alloc: Global, tokens: &[Spanned], at: u32, room: Room) -> Result<(Expr, u32), ParseFault>
    requires short { length tokens.now < 2 ^ 32 }
    requires inside { at ≤ length tokens.now }
    ensures { Reads grammar table tokens.now expr_of room (part s.Rel) at result }
{
    let (left, middle) = chain(alloc, tokens, at, room, ChainLevel::Sum)?;
    if is_next(tokens, middle, &RELATION_SIGNS) {
        let boxed = Boxed::new(alloc, left)?;
        return rel_link(alloc, tokens, middle, room, boxed);
    }
    Ok((left, middle))
}

#[cycle(expr)]
fn rel_link(
    alloc: Global,
    tokens: &[Spanned],
    at: u32,
    room: Room,
    left: Boxed<Expr>,
) -> Result<(Expr, u32), ParseFault>
    requires short { length tokens.now < 2 ^ 32 }
    requires inside { at ≤ length tokens.now }
    ensures { Reads grammar table tokens.now (related left) room (part s.RelLink) at result }
{
    let (word, start) = take_one_of(tokens, at, &RELATION_SIGNS)?;
    let (right, end) = boxed(alloc, chain(alloc, tokens, start, room, ChainLevel::Sum))?;
    Ok((
        Expr::Relation {
            left,
            sign: relation_of(&word.token),
            place: word.place,
            right,
        },
        end,
    ))
}
