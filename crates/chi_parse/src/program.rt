ghost use Rattle.std.specs.Prelude.{◌^◌, ◌<◌, ◌≤◌, ◌∷◌, length};
ghost use Rattle.chi_grammar.specs.Rules.{many, part};
ghost use Rattle.chi_grammar.specs.Exact.{ParsesAll};
ghost use Rattle.chi_grammar.specs.Reads.{Reads};
ghost use Rattle.chi_tree.specs.Parts as s;
ghost use Rattle.chi_tree.specs.Rules.{grammar};
ghost use Rattle.chi_tree.specs.Statements.{items_of, program_of};
ghost use Rattle.chi_tree.specs.Limits.{whole_room};
ghost use Rattle.chi_tree.specs.Tables.{table};

use crate::definitions::definition;
use chi_base::Items;
use chi_grammar::{ParseFault, Room};
use chi_parse_look::classes::FIRST_OF_DEFINITION;
use chi_parse_look::is_next;
use chi_token::{Place, Spanned};
use chi_tree::{Item, Program, whole_room};
use std::alloc::Global;

/// The definitions after a first one.
fn more_items(
    alloc: Global,
    tokens: &[Spanned],
    at: u32,
    room: Room,
    first: Item,
) -> Result<(Items<Item>, u32), ParseFault>
    requires short { length tokens.now < 2 ^ 32 }
    requires inside { at ≤ length tokens.now }
    ensures { Reads grammar table tokens.now (λ ts. first ∷ items_of ts) room (many (part s.Definition)) at result }
{
    let mut items = Vec::new(alloc);
    items.push(first)?;
    let mut end = at;
    'turn: while is_next(tokens, end, &FIRST_OF_DEFINITION) {
        let (next, stop) = definition(alloc, tokens, end, room)?;
        items.push(next)?;
        end = stop;
    }
    Ok((Items::of(alloc, items)?, end))
}

/// The definitions of a source, as far as they go.
fn items(
    alloc: Global,
    tokens: &[Spanned],
    at: u32,
    room: Room,
) -> Result<(Items<Item>, u32), ParseFault>
    requires short { length tokens.now < 2 ^ 32 }
    requires inside { at ≤ length tokens.now }
    ensures { Reads grammar table tokens.now (λ t. (program_of t).items) room (part s.Program) at result }
{
    let (first, middle) = definition(alloc, tokens, at, room)?;
    more_items(alloc, tokens, middle, room, first)
}

/// Reads all the tokens of a source as a program.
pub fn parse(alloc: Global, tokens: &[Spanned]) -> Result<Program, ParseFault>
    requires short { length tokens.now < 2 ^ 32 }
    ensures parsed { ParsesAll grammar tokens.now program_of whole_room (part s.Program) result }
{
    let (items, end) = items(alloc, tokens, 0, whole_room())?;
    if (end as usize) < tokens.len() {
        return Err(ParseFault::Syntax(end));
    }
    match tokens.last() {
        Some(spanned) => Ok(Program {
            items,
            last: spanned.place,
        }),
        None => Err(ParseFault::Syntax(0)),
    }
}
