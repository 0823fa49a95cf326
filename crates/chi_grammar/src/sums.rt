//! A parser of the sample grammar: the shape of a parsing function for each kind of rule.
ghost use Rattle.std.specs.Prelude.{◌≡◌, ◌==◌, ◌+◌, ◌^◌, ◌<◌, ◌≤◌, [], ◌∷◌, true, false, Some, length, slice_get};
ghost use Rattle.chi_grammar.specs.declared.room.Room.{Room};
ghost use Rattle.chi_grammar.specs.Lookahead.{holds, starts_in};
ghost use Rattle.chi_grammar.specs.Rules.{part, many, maybe, word, ◌▸◌};
ghost use Rattle.chi_grammar.specs.Reads.{Reads, Takes, Refuses};
ghost use Rattle.chi_grammar.specs.Exact.{Parses, ParsesAll};
ghost use Rattle.chi_grammar.specs.Sample.{Line, Sum, Term, Round, sample, sample_table, has_round, plus, open_round};

use crate::{Nesting, ParseFault, Room};

pub const DIGIT: u8 = 0;

pub const PLUS: u8 = 1;

pub const OPEN: u8 = 2;

pub const CLOSE: u8 = 3;

pub const STOP: u8 = 4;

/// Whether the token is one of the signs.
fn is_one(token: u8, signs: &[u8]) -> bool
    ensures { result ≡ holds signs.now token }
{
    signs.iter().any(|sign| *sign == token)
}

/// Whether one of the signs stands at an index.
fn begins(tokens: &[u8], at: u32, signs: &[u8]) -> bool
    ensures { result ≡ starts_in (λ x. x) signs.now (slice_get tokens.now at) }
{
    match tokens.get(at as usize) {
        Some(token) => is_one(*token, signs),
        None => false,
    }
}

/// A sign that must stand here, with the index after it.
fn take(tokens: &[u8], at: u32, sign: u8) -> Result<(u8, u32), ParseFault>
    requires { length tokens.now < 2 ^ 32 }
    ensures { Takes sample tokens.now sign at result }
{
    if begins(tokens, at, &[sign]) {
        Ok((sign, at + 1))
    } else {
        Err(ParseFault::Syntax(at))
    }
}

/// Why nothing is read where there is no room: one of the signs would go too deep.
fn refuse(tokens: &[u8], at: u32, signs: &[u8]) -> ParseFault
    ensures { Refuses sample tokens.now signs.now at result }
{
    if begins(tokens, at, signs) {
        ParseFault::TooDeep(at)
    } else {
        ParseFault::Syntax(at)
    }
}

#[cycle(sums)]
fn sum(tokens: &[u8], at: u32, room: Room) -> Result<(bool, u32), ParseFault>
    requires short { length tokens.now < 2 ^ 32 }
    requires inside { at ≤ length tokens.now }
    ensures { Reads sample sample_table tokens.now has_round room (part Sum) at result }
{
    let (first, middle) = term(tokens, at, room)?;
    let (rest, end) = more_terms(tokens, middle, room)?;
    Ok((first | rest, end))
}

#[cycle(sums)]
fn more_terms(tokens: &[u8], at: u32, room: Room) -> Result<(bool, u32), ParseFault>
    requires short { length tokens.now < 2 ^ 32 }
    requires inside { at ≤ length tokens.now }
    ensures { Reads sample sample_table tokens.now has_round room (many (word plus ▸ part Term)) at result }
{
    let mut found = false;
    let mut end = at;
    'turn: while begins(tokens, end, &[PLUS]) {
        let (_, after) = take(tokens, end, PLUS)?;
        let (one, stop) = term(tokens, after, room)?;
        found = found | one;
        end = stop;
    }
    Ok((found, end))
}

#[cycle(sums)]
fn term(tokens: &[u8], at: u32, room: Room) -> Result<(bool, u32), ParseFault>
    requires short { length tokens.now < 2 ^ 32 }
    requires inside { at ≤ length tokens.now }
    ensures { Reads sample sample_table tokens.now has_round room (part Term) at result }
{
    if begins(tokens, at, &[DIGIT]) {
        let (_, end) = take(tokens, at, DIGIT)?;
        return Ok((false, end));
    }
    match room.inside(Nesting::Expression) {
        Some(inner) => round(tokens, at, inner),
        None => Err(refuse(tokens, at, &[OPEN])),
    }
}

#[cycle(sums)]
fn round(tokens: &[u8], at: u32, room: Room) -> Result<(bool, u32), ParseFault>
    requires short { length tokens.now < 2 ^ 32 }
    requires inside { at ≤ length tokens.now }
    ensures { Reads sample sample_table tokens.now has_round room (part Round) at result }
{
    let (_, after) = take(tokens, at, OPEN)?;
    let (_, middle) = sum(tokens, after, room)?;
    let (_, end) = take(tokens, middle, CLOSE)?;
    Ok((true, end))
}

/// A sign that may stand here; it is no bracket.
fn take_if(tokens: &[u8], at: u32, sign: u8) -> Result<(bool, u32), ParseFault>
    requires short { length tokens.now < 2 ^ 32 }
    requires inside { at ≤ length tokens.now }
    requires no_bracket { (sign == open_round) ≡ false }
    ensures { (room : Room) → Reads sample sample_table tokens.now has_round room (maybe (word sign)) at result }
{
    if begins(tokens, at, &[sign]) {
        let (_, end) = take(tokens, at, sign)?;
        return Ok((false, end));
    }
    Ok((false, at))
}

fn line(tokens: &[u8], at: u32, room: Room) -> Result<(bool, u32), ParseFault>
    requires short { length tokens.now < 2 ^ 32 }
    requires inside { at ≤ length tokens.now }
    ensures { Reads sample sample_table tokens.now has_round room (part Line) at result }
{
    let (sign, start) = take_if(tokens, at, PLUS)?;
    let (found, middle) = sum(tokens, start, room)?;
    if found {
        let (last, end) = take_if(tokens, middle, STOP)?;
        return Ok((sign | (found | last), end));
    }
    let (_, end) = take(tokens, middle, STOP)?;
    Ok((sign | found, end))
}

/// The line that stands at an index: whether a bracket stands in it, and the index after it.
pub fn parse_line(tokens: &[u8], at: u32, room: Room) -> Result<(bool, u32), ParseFault>
    requires short { length tokens.now < 2 ^ 32 }
    requires inside { at ≤ length tokens.now }
    ensures { Parses sample tokens.now has_round room (part Line) at result }
{
    line(tokens, at, room)
}

/// The sum that stands at an index: whether a bracket stands in it, and the index after it.
pub fn parse_sum(tokens: &[u8], at: u32, room: Room) -> Result<(bool, u32), ParseFault>
    requires short { length tokens.now < 2 ^ 32 }
    requires inside { at ≤ length tokens.now }
    ensures { Parses sample tokens.now has_round room (part Sum) at result }
{
    sum(tokens, at, room)
}

/// The sum that all the tokens are: whether a bracket stands in it.
pub fn parse_all(tokens: &[u8], room: Room) -> Result<bool, ParseFault>
    requires { length tokens.now < 2 ^ 32 }
    ensures { ParsesAll sample tokens.now has_round room (part Sum) result }
{
    let (shown, end) = parse_sum(tokens, 0, room)?;
    if (end as usize) < tokens.len() {
        Err(ParseFault::Syntax(end))
    } else {
        Ok(shown)
    }
}
