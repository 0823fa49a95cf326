//! What a source is as a program, or why it is none.

ghost use Rattle.std.specs.Prelude.{◌≤◌, ◌<◌, ◌^◌, IfOk, length};
ghost use Rattle.chi_lex.specs.Reading.{Reads};
ghost use Rattle.chi_tool.specs.Readings.{IsReadingOf, IsSpelledAs};
ghost use Rattle.chi_tool.specs.Sources.{IsWritten};

use chi_base::NoMemory;
use chi_check::check;
use chi_check_parsed::parsed_programs_are_sound;
use chi_check_types::TypeFault;
use chi_core::Core;
use chi_grammar::ParseFault;
use chi_lex::{LexFault, MOST_BYTES, lex};
use chi_parse::parse;
use chi_token::{Place, Spanned};
use chi_tree::Program;
use chi_tree_laws::parsed_law;
use std::alloc::Global;

/// Why a source has no tree.
#[derive(Drop)]
pub enum Unparsed {
    /// Its bytes aren't those of tokens.
    Lexical(LexFault),
    /// Its tokens are no program.
    Syntax {
        tokens: Vec<Spanned>,
        fault: ParseFault,
    },
}

/// Why it is no program that can be run.
#[derive(Drop)]
pub enum Refusal {
    Unparsed(Unparsed),
    /// It is this program, which breaks this rule first, there.
    Broken {
        rule: u8,
        place: Place,
        tree: Program,
    },
}

/// What a source is, as it is written.
#[derive(Drop)]
pub enum Spelling {
    Unparsed(Unparsed),
    /// It has these tokens, which are this program.
    Written { tokens: Vec<Spanned>, tree: Program },
}

/// What a source comes to.
#[derive(Drop)]
pub enum Reading {
    Refused(Refusal),
    Program(Core),
}

/// Reads a source to its end, or to the first fault as it is written.
pub fn spelling_of(alloc: Global, source: &[u8]) -> Result<Spelling, NoMemory>
    requires { length source.now ≤ MOST_BYTES }
    ensures { IfOk result (IsSpelledAs source.now) }
{
    match lex(alloc, source) {
        Ok(tokens) => parsed_tokens(alloc, source, tokens),
        Err(LexFault::BadByte(place)) => Ok(Spelling::Unparsed(Unparsed::Lexical(LexFault::BadByte(
            place,
        )))),
        Err(LexFault::OpenString(place)) => Ok(Spelling::Unparsed(Unparsed::Lexical(
            LexFault::OpenString(place),
        ))),
        Err(LexFault::BadEscape(place)) => Ok(Spelling::Unparsed(Unparsed::Lexical(
            LexFault::BadEscape(place),
        ))),
        Err(LexFault::NoMemory) => Err(NoMemory),
    }
}

fn parsed_tokens(alloc: Global, source: &[u8], tokens: Vec<Spanned>) -> Result<Spelling, NoMemory>
    requires short { length tokens.items < 2 ^ 32 }
    requires read { Reads source.now tokens.items }
    ensures { IfOk result (IsSpelledAs source.now) }
{
    let _source = source;
    parsed_law();
    match parse(alloc, &tokens) {
        Ok(tree) => Ok(Spelling::Written { tokens, tree }),
        Err(ParseFault::Syntax(index)) => Ok(Spelling::Unparsed(Unparsed::Syntax {
            tokens,
            fault: ParseFault::Syntax(index),
        })),
        Err(ParseFault::TooDeep(index)) => Ok(Spelling::Unparsed(Unparsed::Syntax {
            tokens,
            fault: ParseFault::TooDeep(index),
        })),
        Err(ParseFault::NoMemory) => Err(NoMemory),
    }
}

/// Reads a source to its end, or to the first rule that it breaks.
pub fn reading_of(alloc: Global, source: &[u8]) -> Result<Reading, NoMemory>
    requires { length source.now ≤ MOST_BYTES }
    ensures { IfOk result (IsReadingOf source.now) }
{
    match spelling_of(alloc, source)? {
        Spelling::Unparsed(unparsed) => Ok(Reading::Refused(Refusal::Unparsed(unparsed))),
        Spelling::Written { tree, .. } => read_tree(alloc, source, tree),
    }
}

fn read_tree(alloc: Global, source: &[u8], tree: Program) -> Result<Reading, NoMemory>
    requires within { length source.now ≤ MOST_BYTES }
    requires written { IsWritten source.now tree }
    ensures { IfOk result (IsReadingOf source.now) }
{
    let _source = source;
    parsed_programs_are_sound();
    match check(alloc, &tree) {
        Ok(core) => Ok(Reading::Program(core)),
        Err(TypeFault::Broken { rule, place }) => {
            Ok(Reading::Refused(Refusal::Broken { rule, place, tree }))
        }
        Err(TypeFault::NoMemory) => Err(NoMemory),
    }
}
