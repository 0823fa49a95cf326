//! The canonical layout of a source.

ghost use Rattle.std.specs.Prelude.{◌≤◌, IfOk, length};
ghost use Rattle.chi_lex.specs.Reading.{Reads};
ghost use Rattle.chi_tool.specs.Report.{IsReportOfLayout};
ghost use Rattle.chi_tool.specs.Reported.{report_in};
ghost use Rattle.chi_tool.specs.Syntax.{HasTree};

use crate::refusal::one_line;
use crate::report::Reported;
use crate::source::{Parsed, as_written};
use crate::status::{LAID_OUT, LAYOUT_TOO_LONG};
use chi_base::NoMemory;
use chi_fmt::{FmtFault, canonical, comments};
use chi_lex::MOST_BYTES;
use chi_token::Spanned;
use chi_tree::Program;
use std::alloc::Global;

/// The report of a source with these tokens, which are this program, as it is written.
fn laid_out(
    alloc: Global,
    source: &[u8],
    tokens: &[Spanned],
    tree: &Program,
) -> Result<Reported, NoMemory>
    requires within { length source.now ≤ MOST_BYTES }
    requires read { Reads source.now tokens.now }
    requires parsed { HasTree tokens.now tree.now }
    ensures { IfOk result (λ r. IsReportOfLayout source.now (report_in r)) }
{
    let comments = comments(alloc, source, tokens)?;
    match canonical(alloc, tree, &comments) {
        Ok(text) => Ok(Reported {
            status: LAID_OUT,
            out: text,
            log: Vec::new(alloc),
        }),
        Err(FmtFault::TooLong) => one_line(alloc, LAYOUT_TOO_LONG, b"formatted text too long"),
        Err(FmtFault::NoMemory) => Err(NoMemory),
    }
}

/// The report of a source that is to be laid out.
pub fn report_of_layout(alloc: Global, source: &[u8]) -> Result<Reported, NoMemory>
    requires { length source.now ≤ MOST_BYTES }
    ensures { IfOk result (λ r. IsReportOfLayout source.now (report_in r)) }
{
    match as_written(alloc, source)? {
        Parsed::Refused(refusal) => Ok(refusal),
        Parsed::Written { tokens, tree } => laid_out(alloc, source, &tokens, &tree),
    }
}
