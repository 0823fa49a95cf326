ghost use Rattle.std.specs.Prelude.{◌≡◌, ◌<◌, ◌≤◌, Err, IfOk, length};
ghost use Rattle.chi_fmt.specs.Definitions.{program_lines};
ghost use Rattle.chi_fmt.specs.Laws.{IsOfSource, IsReread};
ghost use Rattle.chi_fmt.specs.Layout.{layout};
ghost use Rattle.chi_fmt.specs.Reread.{AreComments};
ghost use Rattle.chi_fmt.specs.declared.fault.FmtFault.TheVariants.{TooLong};

use crate::comment::Comment;
use crate::fault::FmtFault;
use crate::line::Line;
use crate::lines::Lines;
use crate::page::Page;
use chi_base::NoMemory;
use chi_lex::MOST_BYTES;
use chi_tree::Program;
use std::alloc::Global;

/// The lines of a program.
fn lines_of(alloc: Global, tree: &Program) -> Result<Vec<Line>, NoMemory>
    ensures { IfOk result (λ lines. lines.items ≡ program_lines tree.now) }
{
    let mut lines = Lines {
        alloc,
        lines: Vec::new(alloc),
    };
    lines.items(tree.items.as_slice())?;
    let Lines { lines, .. } = lines;
    Ok(lines)
}

/// The canonical text of a tree and its comments. It is too long exactly where it has more bytes than a source may have, and
/// no byte past that limit is made. The text of a source is read as its tree again, but for its places and for the `;` that may be
/// left out, with the same comments; and its own canonical text is itself.
pub fn canonical(alloc: Global, tree: &Program, comments: &[Comment]) -> Result<Vec<u8>, FmtFault>
    ensures text { IfOk result (λ text. text.items ≡ layout tree.now comments.now) }
    ensures within { IfOk result (λ text. length text.items ≤ MOST_BYTES) }
    ensures too_long { result ≡ Err TooLong → MOST_BYTES < length (layout tree.now comments.now) }
    ensures reread { IsOfSource tree.now → AreComments comments.now → IfOk result (λ text. IsReread text.items tree.now comments.now) }
{
    let lines = lines_of(alloc, tree)?;
    let mut page = Page {
        alloc,
        bytes: Vec::new(alloc),
    };
    page.lines(lines.as_slice(), comments)?;
    let Page { bytes, .. } = page;
    Ok(bytes)
}
