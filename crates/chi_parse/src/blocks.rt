ghost use Rattle.std.specs.Prelude.{◌^◌, ◌<◌, ◌≤◌, ◌∷◌, length};
ghost use Rattle.chi_grammar.specs.Rules.{many, maybe, part, ◌▸◌};
ghost use Rattle.chi_token.specs.declared.sign.Sign.TheVariants.{Colon};
ghost use Rattle.chi_grammar.specs.Reads.{Reads};
ghost use Rattle.chi_tree.specs.Parts as s;
ghost use Rattle.chi_tree.specs.Rules.{grammar, sign};
ghost use Rattle.chi_tree.specs.Tables.{table};
ghost use Rattle.chi_tree.specs.Statements.{block_of, body_of, branch_of, elifs_of, else_of, inner_of, statement_of};
ghost use Rattle.chi_parse.specs.Heads.{shown, statement};
ghost use Rattle.chi_parse.specs.Branches.{opened_of};

use crate::launches::launch;
use crate::selects::select;
use crate::semicolon::optional_semicolon;
use crate::simple::open;
use crate::walks::walk;
use chi_base::Items;
use chi_grammar::{Nesting, ParseFault, Room};
use chi_parse_expr::expr;
use chi_parse_look::classes::{FIRST_OF_BLOCK, FIRST_OF_CLOSED, FIRST_OF_LAUNCH};
use chi_parse_look::{enter, is_next, joined, take};
use chi_token::{Keyword, Sign, Spanned};
use chi_tree::{Block, Branch, Class, Statement, Step};
use std::alloc::Global;

/// Statements in turn. The `;` after one may be left out where its last token is `end`.
#[cycle(blocks)]
fn block(alloc: Global, tokens: &[Spanned], at: u32, room: Room) -> Result<(Block, u32), ParseFault>
    requires short { length tokens.now < 2 ^ 32 }
    requires inside { at ≤ length tokens.now }
    ensures { Reads grammar table tokens.now block_of room (part s.Block) at result }
{
    let mut steps = Vec::new(alloc);
    let mut end = at;
    let mut more = true;
    'turn: while more {
        let ((statement, ends), middle) = statement(alloc, tokens, end, room)?;
        let (semicolon, stop) = optional_semicolon(tokens, middle);
        steps.push(Step {
            statement,
            semicolon,
        })?;
        let goes_on = is_next(tokens, stop, &FIRST_OF_BLOCK);
        more = (ends | semicolon) & goes_on;
        end = stop;
    }
    Ok((Items::of(alloc, steps)?, end))
}

/// A statement, and whether its last token is `end`.
#[cycle(blocks)]
fn statement(
    alloc: Global,
    tokens: &[Spanned],
    at: u32,
    room: Room,
) -> Result<((Statement, bool), u32), ParseFault>
    requires short { length tokens.now < 2 ^ 32 }
    requires inside { at ≤ length tokens.now }
    ensures { Reads grammar table tokens.now shown room statement at result }
{
    if is_next(tokens, at, &FIRST_OF_CLOSED) {
        let (statement, end) = closed(alloc, tokens, at, room)?;
        return Ok(((statement, true), end));
    }
    if is_next(tokens, at, &FIRST_OF_LAUNCH) {
        return launch(alloc, tokens, at, room);
    }
    let (statement, end) = open(alloc, tokens, at, room)?;
    Ok(((statement, false), end))
}

/// A statement that always ends in `end`.
#[cycle(blocks)]
fn closed(
    alloc: Global,
    tokens: &[Spanned],
    at: u32,
    room: Room,
) -> Result<(Statement, u32), ParseFault>
    requires short { length tokens.now < 2 ^ 32 }
    requires inside { at ≤ length tokens.now }
    ensures { Reads grammar table tokens.now statement_of room (part s.Closed) at result }
{
    if is_next(tokens, at, &[Class::Word(Keyword::SelectWord)]) {
        return select(alloc, tokens, at, room);
    }
    if is_next(tokens, at, &[Class::Word(Keyword::IfWord)]) {
        return branching(alloc, tokens, at, room);
    }
    if is_next(tokens, at, &[Class::Word(Keyword::WhileWord)]) {
        return repetition(alloc, tokens, at, room);
    }
    walking(alloc, tokens, at, room)
}

/// A block inside another part: one level deeper.
#[cycle(blocks)]
pub fn inner(
    alloc: Global,
    tokens: &[Spanned],
    at: u32,
    room: Room,
) -> Result<(Block, u32), ParseFault>
    requires short { length tokens.now < 2 ^ 32 }
    requires inside { at ≤ length tokens.now }
    ensures { Reads grammar table tokens.now inner_of room (part s.Inner) at result }
{
    let inner = enter(tokens, at, room, Nesting::Block, &FIRST_OF_BLOCK)?;
    block(alloc, tokens, at, inner)
}

/// A block between `:` and `end`.
#[cycle(blocks)]
pub fn body(
    alloc: Global,
    tokens: &[Spanned],
    at: u32,
    room: Room,
) -> Result<(Block, u32), ParseFault>
    requires short { length tokens.now < 2 ^ 32 }
    requires inside { at ≤ length tokens.now }
    ensures { Reads grammar table tokens.now body_of room (part s.Body) at result }
{
    let (_, start) = take(tokens, at, Class::Sign(Sign::Colon))?;
    let (block, middle) = inner(alloc, tokens, start, room)?;
    let (_, end) = take(tokens, middle, Class::Word(Keyword::EndWord))?;
    Ok((block, end))
}

#[cycle(blocks)]
fn branch(
    alloc: Global,
    tokens: &[Spanned],
    at: u32,
    room: Room,
) -> Result<(Branch, u32), ParseFault>
    requires short { length tokens.now < 2 ^ 32 }
    requires inside { at ≤ length tokens.now }
    ensures { Reads grammar table tokens.now branch_of room (part s.Branch) at result }
{
    let (condition, middle) = expr(alloc, tokens, at, room)?;
    let ((condition, block), end) = joined(condition, after_colon(alloc, tokens, middle, room))?;
    Ok((Branch { condition, block }, end))
}

/// A block after a `:`.
#[cycle(blocks)]
fn after_colon(
    alloc: Global,
    tokens: &[Spanned],
    at: u32,
    room: Room,
) -> Result<(Block, u32), ParseFault>
    requires short { length tokens.now < 2 ^ 32 }
    requires inside { at ≤ length tokens.now }
    ensures { Reads grammar table tokens.now opened_of room (sign Colon ▸ part s.Inner) at result }
{
    let (_, start) = take(tokens, at, Class::Sign(Sign::Colon))?;
    inner(alloc, tokens, start, room)
}

/// The branches after a first one.
#[cycle(blocks)]
fn more_branches(
    alloc: Global,
    tokens: &[Spanned],
    at: u32,
    room: Room,
    first: Branch,
) -> Result<(Items<Branch>, u32), ParseFault>
    requires short { length tokens.now < 2 ^ 32 }
    requires inside { at ≤ length tokens.now }
    ensures { Reads grammar table tokens.now (λ bs. first ∷ elifs_of bs) room (many (part s.Elif)) at result }
{
    let mut branches = Vec::new(alloc);
    branches.push(first)?;
    let mut end = at;
    'turn: while is_next(tokens, end, &[Class::Word(Keyword::ElifWord)]) {
        let (_, after) = take(tokens, end, Class::Word(Keyword::ElifWord))?;
        let (next, stop) = branch(alloc, tokens, after, room)?;
        branches.push(next)?;
        end = stop;
    }
    Ok((Items::of(alloc, branches)?, end))
}

/// The block of `else`, empty where there is none.
#[cycle(blocks)]
fn otherwise(
    alloc: Global,
    tokens: &[Spanned],
    at: u32,
    room: Room,
) -> Result<(Block, u32), ParseFault>
    requires short { length tokens.now < 2 ^ 32 }
    requires inside { at ≤ length tokens.now }
    ensures { Reads grammar table tokens.now else_of room (maybe (part s.Else)) at result }
{
    if !is_next(tokens, at, &[Class::Word(Keyword::ElseWord)]) {
        return Ok((Items::of(alloc, Vec::new(alloc))?, at));
    }
    let (_, middle) = take(tokens, at, Class::Word(Keyword::ElseWord))?;
    let (_, start) = take(tokens, middle, Class::Sign(Sign::Colon))?;
    inner(alloc, tokens, start, room)
}

#[cycle(blocks)]
fn branching(
    alloc: Global,
    tokens: &[Spanned],
    at: u32,
    room: Room,
) -> Result<(Statement, u32), ParseFault>
    requires short { length tokens.now < 2 ^ 32 }
    requires inside { at ≤ length tokens.now }
    ensures { Reads grammar table tokens.now statement_of room (part s.If) at result }
{
    let (word, start) = take(tokens, at, Class::Word(Keyword::IfWord))?;
    let (first, middle) = branch(alloc, tokens, start, room)?;
    let (branches, next) = more_branches(alloc, tokens, middle, room, first)?;
    let (other, last) = otherwise(alloc, tokens, next, room)?;
    let (_, end) = take(tokens, last, Class::Word(Keyword::EndWord))?;
    Ok((
        Statement::If {
            place: word.place,
            branches,
            otherwise: other,
        },
        end,
    ))
}

#[cycle(blocks)]
fn repetition(
    alloc: Global,
    tokens: &[Spanned],
    at: u32,
    room: Room,
) -> Result<(Statement, u32), ParseFault>
    requires short { length tokens.now < 2 ^ 32 }
    requires inside { at ≤ length tokens.now }
    ensures { Reads grammar table tokens.now statement_of room (part s.While) at result }
{
    let (word, start) = take(tokens, at, Class::Word(Keyword::WhileWord))?;
    let (condition, middle) = expr(alloc, tokens, start, room)?;
    let ((condition, block), end) = joined(condition, body(alloc, tokens, middle, room))?;
    Ok((
        Statement::While {
            place: word.place,
            condition,
            block,
        },
        end,
    ))
}

#[cycle(blocks)]
fn walking(
    alloc: Global,
    tokens: &[Spanned],
    at: u32,
    room: Room,
) -> Result<(Statement, u32), ParseFault>
    requires short { length tokens.now < 2 ^ 32 }
    requires inside { at ≤ length tokens.now }
    ensures { Reads grammar table tokens.now statement_of room (part s.For) at result }
{
    let (word, start) = take(tokens, at, Class::Word(Keyword::ForWord))?;
    let (walk, middle) = walk(alloc, tokens, start, room)?;
    let ((walk, block), end) = joined(walk, body(alloc, tokens, middle, room))?;
    Ok((
        Statement::For {
            place: word.place,
            walk,
            block,
        },
        end,
    ))
}
