//! The lines of refusals.

ghost use Rattle.std.specs.Prelude.{◌≡◌, ◌≤◌, ◌++◌, IfOk, length};
ghost use Rattle.std.specs.Fmt.{decimal};
ghost use Rattle.chi_tool.specs.Syntax.{placed};
ghost use Rattle.chi_tool.specs.Reported.{report_in};
ghost use Rattle.chi_check_types.specs.Faults.{fault};
ghost use Rattle.chi_tool.specs.Readings.{refusal_report, unparsed_report};
ghost use Rattle.chi_tool.specs.Refusals.{lexical, refused, syntax, typing};

use crate::reading::{Refusal, Unparsed};
use crate::report::Reported;
use crate::status::{LEXICAL, TYPING};
use crate::syntax::refused_token;
use chi_base::NoMemory;
use chi_grammar::ParseFault;
use chi_lex::{LexFault, MOST_BYTES};
use chi_token::{Place, Spanned};
use std::alloc::Global;

/// What is wrong, with the place of it in a source.
fn placed(alloc: Global, place: Place, what: &[u8]) -> Result<Vec<u8>, NoMemory>
    ensures { IfOk result (λ text. text.items ≡ placed place what.now) }
{
    let mut text = Vec::new(alloc);
    text.extend_from_slice(b"line ")?;
    let line = format!(in alloc; "{}", place.line)?;
    text.extend_from_slice(line.as_bytes())?;
    text.extend_from_slice(b" column ")?;
    let column = format!(in alloc; "{}", place.column)?;
    text.extend_from_slice(column.as_bytes())?;
    text.extend_from_slice(b": ")?;
    text.extend_from_slice(what)?;
    Ok(text)
}

/// Some words, and then the number of a line.
pub fn numbered(alloc: Global, words: &[u8], number: u64) -> Result<Vec<u8>, NoMemory>
    ensures { IfOk result (λ text. text.items ≡ words.now ++ decimal number) }
{
    let mut text = Vec::from_slice(alloc, words)?;
    let digits = format!(in alloc; "{number}")?;
    text.extend_from_slice(digits.as_bytes())?;
    Ok(text)
}

/// A report that is nothing but one line in the log.
pub fn one_line(alloc: Global, status: u8, text: &[u8]) -> Result<Reported, NoMemory>
    ensures { IfOk result (λ r. report_in r ≡ refused status text.now) }
{
    let mut log = Vec::from_slice(alloc, text)?;
    log.push(b'\n')?;
    let out = Vec::new(alloc);
    Ok(Reported { status, out, log })
}

/// The same, of what is wrong at a place of a source.
pub fn refused_at(
    alloc: Global,
    status: u8,
    place: Place,
    what: &[u8],
) -> Result<Reported, NoMemory>
    ensures { IfOk result (λ r. report_in r ≡ refused status (placed place what.now)) }
{
    let text = placed(alloc, place, what)?;
    one_line(alloc, status, &text)
}

/// The report of a program that breaks this rule first, there.
fn refused_rule(alloc: Global, place: Place, rule: u8) -> Result<Reported, NoMemory>
    ensures { IfOk result (λ r. report_in r ≡ typing (fault rule place)) }
{
    let what = format!(in alloc; "rule {rule}")?;
    refused_at(alloc, TYPING, place, what.as_bytes())
}

/// The report of a source with this fault of its bytes.
fn told_lexical(alloc: Global, fault: LexFault) -> Result<Reported, NoMemory>
    ensures { IfOk result (λ r. report_in r ≡ lexical fault) }
{
    match fault {
        LexFault::BadByte(place) => refused_at(alloc, LEXICAL, place, b"bad byte"),
        LexFault::OpenString(place) => refused_at(alloc, LEXICAL, place, b"open string"),
        LexFault::BadEscape(place) => refused_at(alloc, LEXICAL, place, b"bad escape"),
        LexFault::NoMemory => Err(NoMemory),
    }
}

/// The report of a source with this fault of its tokens.
fn told_syntax(
    alloc: Global,
    source: &[u8],
    tokens: &[Spanned],
    fault: ParseFault,
) -> Result<Reported, NoMemory>
    requires { length source.now ≤ MOST_BYTES }
    ensures { IfOk result (λ r. report_in r ≡ syntax source.now tokens.now fault) }
{
    match fault {
        ParseFault::Syntax(index) => refused_token(alloc, source, tokens, "syntax", index),
        ParseFault::TooDeep(index) => refused_token(alloc, source, tokens, "too deep", index),
        ParseFault::NoMemory => Err(NoMemory),
    }
}

/// The report of a source that has no tree.
pub fn told_unparsed(alloc: Global, source: &[u8], unparsed: Unparsed) -> Result<Reported, NoMemory>
    requires { length source.now ≤ MOST_BYTES }
    ensures { IfOk result (λ r. report_in r ≡ unparsed_report source.now unparsed) }
{
    match unparsed {
        Unparsed::Lexical(fault) => told_lexical(alloc, fault),
        Unparsed::Syntax { tokens, fault } => told_syntax(alloc, source, &tokens, fault),
    }
}

/// The report of a source that is no program which can be run.
pub fn told(alloc: Global, source: &[u8], refusal: Refusal) -> Result<Reported, NoMemory>
    requires { length source.now ≤ MOST_BYTES }
    ensures { IfOk result (λ r. report_in r ≡ refusal_report source.now refusal) }
{
    match refusal {
        Refusal::Unparsed(unparsed) => told_unparsed(alloc, source, unparsed),
        Refusal::Broken { rule, place, .. } => refused_rule(alloc, place, rule),
    }
}
