ghost use Rattle.std.specs.Prelude.{◌≡◌, ◌^◌, ◌<◌, ◌≤◌, ◌∷◌, length};
ghost use Rattle.chi_grammar.specs.Rules.{many, maybe, part, ◌▸◌};
ghost use Rattle.chi_grammar.specs.Reads.{Reads};
ghost use Rattle.chi_tree.specs.Parts as s;
ghost use Rattle.chi_tree.specs.Rules.{grammar, inner_block, keyword, sign};
ghost use Rattle.chi_tree.specs.Tables.{table};
ghost use Rattle.chi_token.specs.declared.keyword.Keyword.TheVariants.{AltWord, EndWord};
ghost use Rattle.chi_token.specs.declared.sign.Sign.TheVariants.{Colon};
ghost use Rattle.chi_tree.specs.declared.statement.Alternative.TheVariants as alternative;
ghost use Rattle.chi_tree.specs.Statements.{alternative_body_of, alternative_of, alternatives_of, more_alternatives_of, statement_of};
ghost use Rattle.chi_parse.specs.Rests.{repeated_alternatives_of};

use crate::blocks::inner;
use crate::offers::{GuardedCommunication, offer};
use crate::walks::walk;
use chi_base::Items;
use chi_grammar::{Nesting, ParseFault, Room};
use chi_parse_look::classes::FIRST_OF_ALTERNATIVES;
use chi_parse_look::{enter, is_next, joined, take};
use chi_token::{Keyword, Sign, Spanned};
use chi_tree::{Alternative, Block, Class, Statement};
use std::alloc::Global;

#[cycle(blocks)]
pub fn select(
    alloc: Global,
    tokens: &[Spanned],
    at: u32,
    room: Room,
) -> Result<(Statement, u32), ParseFault>
    requires short { length tokens.now < 2 ^ 32 }
    requires inside { at ≤ length tokens.now }
    ensures { Reads grammar table tokens.now statement_of room (part s.Select) at result }
{
    let (word, start) = take(tokens, at, Class::Word(Keyword::SelectWord))?;
    let (alternatives, middle) = alternatives(alloc, tokens, start, room)?;
    let (_, end) = take(tokens, middle, Class::Word(Keyword::EndWord))?;
    Ok((
        Statement::Select {
            place: word.place,
            alternatives,
        },
        end,
    ))
}

#[cycle(blocks)]
fn alternatives(
    alloc: Global,
    tokens: &[Spanned],
    at: u32,
    room: Room,
) -> Result<(Items<Alternative>, u32), ParseFault>
    requires short { length tokens.now < 2 ^ 32 }
    requires inside { at ≤ length tokens.now }
    ensures { Reads grammar table tokens.now alternatives_of room (part s.Alternatives) at result }
{
    let (first, middle) = alternative(alloc, tokens, at, room)?;
    more_alternatives(alloc, tokens, middle, room, first)
}

/// The alternatives after a first one.
#[cycle(blocks)]
fn more_alternatives(
    alloc: Global,
    tokens: &[Spanned],
    at: u32,
    room: Room,
    first: Alternative,
) -> Result<(Items<Alternative>, u32), ParseFault>
    requires short { length tokens.now < 2 ^ 32 }
    requires inside { at ≤ length tokens.now }
    ensures { Reads grammar table tokens.now (λ xs. first ∷ more_alternatives_of xs) room (many (keyword AltWord ▸ part s.Alternative)) at result }
{
    let mut alternatives = Vec::new(alloc);
    alternatives.push(first)?;
    let mut end = at;
    'turn: while is_next(tokens, end, &[Class::Word(Keyword::AltWord)]) {
        let (_, after) = take(tokens, end, Class::Word(Keyword::AltWord))?;
        let (next, stop) = alternative(alloc, tokens, after, room)?;
        alternatives.push(next)?;
        end = stop;
    }
    Ok((Items::of(alloc, alternatives)?, end))
}

#[cycle(blocks)]
fn alternative(
    alloc: Global,
    tokens: &[Spanned],
    at: u32,
    room: Room,
) -> Result<(Alternative, u32), ParseFault>
    requires short { length tokens.now < 2 ^ 32 }
    requires inside { at ≤ length tokens.now }
    ensures { Reads grammar table tokens.now alternative_of room (part s.Alternative) at result }
{
    if is_next(tokens, at, &[Class::Word(Keyword::UnwindWord)]) {
        return unwound_alternatives(alloc, tokens, at, room);
    }
    guarded_alternative(alloc, tokens, at, room)
}

#[cycle(blocks)]
fn unwound_alternatives(
    alloc: Global,
    tokens: &[Spanned],
    at: u32,
    room: Room,
) -> Result<(Alternative, u32), ParseFault>
    requires short { length tokens.now < 2 ^ 32 }
    requires inside { at ≤ length tokens.now }
    ensures { Reads grammar table tokens.now alternative_of room (part s.UnwoundAlternatives) at result }
{
    let (word, start) = take(tokens, at, Class::Word(Keyword::UnwindWord))?;
    let (walk, middle) = walk(alloc, tokens, start, room)?;
    let ((walk, alternatives), end) = joined(
        walk,
        repeated_alternatives(alloc, tokens, middle, room),
    )?;
    Ok((
        Alternative::Unwind {
            place: word.place,
            walk,
            alternatives,
        },
        end,
    ))
}

/// The alternatives that an unwind repeats, between `:` and `end`.
#[cycle(blocks)]
fn repeated_alternatives(
    alloc: Global,
    tokens: &[Spanned],
    at: u32,
    room: Room,
) -> Result<(Items<Alternative>, u32), ParseFault>
    requires short { length tokens.now < 2 ^ 32 }
    requires inside { at ≤ length tokens.now }
    ensures { Reads grammar table tokens.now repeated_alternatives_of room (sign Colon ▸ inner_block (part s.Alternatives) ▸ keyword EndWord) at result }
{
    let (_, from) = take(tokens, at, Class::Sign(Sign::Colon))?;
    let inner = enter(tokens, from, room, Nesting::Block, &FIRST_OF_ALTERNATIVES)?;
    let (alternatives, last) = alternatives(alloc, tokens, from, inner)?;
    let (_, end) = take(tokens, last, Class::Word(Keyword::EndWord))?;
    Ok((alternatives, end))
}

#[cycle(blocks)]
fn guarded_alternative(
    alloc: Global,
    tokens: &[Spanned],
    at: u32,
    room: Room,
) -> Result<(Alternative, u32), ParseFault>
    requires short { length tokens.now < 2 ^ 32 }
    requires inside { at ≤ length tokens.now }
    ensures { Reads grammar table tokens.now alternative_of room (part s.GuardedAlternative) at result }
{
    let (offer, middle) = offer(alloc, tokens, at, room)?;
    let ((offer, block), end) = joined(offer, alternative_body(alloc, tokens, middle, room))?;
    Ok((offered_block(offer, block), end))
}

/// An offer with the block after it.
fn offered_block(offer: GuardedCommunication, block: Block) -> Alternative
    ensures { result ≡ alternative.Guarded offer.guard offer.communication block }
{
    let GuardedCommunication {
        guard,
        communication,
    } = offer;
    Alternative::Guarded {
        guard,
        communication,
        block,
    }
}

/// The block of an alternative, empty where there is none.
#[cycle(blocks)]
fn alternative_body(
    alloc: Global,
    tokens: &[Spanned],
    at: u32,
    room: Room,
) -> Result<(Block, u32), ParseFault>
    requires short { length tokens.now < 2 ^ 32 }
    requires inside { at ≤ length tokens.now }
    ensures { Reads grammar table tokens.now alternative_body_of room (maybe (part s.AlternativeBody)) at result }
{
    if !is_next(tokens, at, &[Class::Sign(Sign::Colon)]) {
        return Ok((Items::of(alloc, Vec::new(alloc))?, at));
    }
    let (_, start) = take(tokens, at, Class::Sign(Sign::Colon))?;
    inner(alloc, tokens, start, room)
}
