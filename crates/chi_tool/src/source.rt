//! What a source comes to, with the line of its refusal.

ghost use Rattle.std.specs.Prelude.{◌≤◌, IfOk, length};
ghost use Rattle.chi_tool.specs.Readings.{IsParsedAs, IsReadAs};

use crate::reading::{Reading, Spelling, reading_of, spelling_of};
use crate::refusal::{told, told_unparsed};
use crate::report::Reported;
use chi_base::NoMemory;
use chi_core::Core;
use chi_lex::MOST_BYTES;
use chi_token::Spanned;
use chi_tree::Program;
use std::alloc::Global;

/// What a source is, as it is written.
#[derive(Drop)]
pub enum Parsed {
    Refused(Reported),
    /// It has these tokens, which are this program.
    Written { tokens: Vec<Spanned>, tree: Program },
}

/// What a source comes to.
#[derive(Debug, Drop)]
pub enum Source {
    Refused(Reported),
    Program(Core),
}

/// Reads a source to its end, or to the first fault as it is written.
pub fn as_written(alloc: Global, source: &[u8]) -> Result<Parsed, NoMemory>
    requires { length source.now ≤ MOST_BYTES }
    ensures { IfOk result (IsParsedAs source.now) }
{
    match spelling_of(alloc, source)? {
        Spelling::Unparsed(unparsed) => {
            let refusal = told_unparsed(alloc, source, unparsed)?;
            Ok(Parsed::Refused(refusal))
        }
        Spelling::Written { tokens, tree } => Ok(Parsed::Written { tokens, tree }),
    }
}

/// Reads a source to its end, or to the first rule that it breaks.
pub fn read(alloc: Global, source: &[u8]) -> Result<Source, NoMemory>
    requires { length source.now ≤ MOST_BYTES }
    ensures { IfOk result (IsReadAs source.now) }
{
    match reading_of(alloc, source)? {
        Reading::Refused(refused) => {
            let refusal = told(alloc, source, refused)?;
            Ok(Source::Refused(refusal))
        }
        Reading::Program(core) => Ok(Source::Program(core)),
    }
}
