//! What the checker makes of a layout. The functions compute nothing: their contracts are the laws.

ghost use Rattle.std.specs.Prelude.{ℕ, List, Ok};
ghost use Rattle.chi_token.specs.declared.place.Spanned.{Spanned};
ghost use Rattle.chi_lex.specs.Reading.{Reads};
ghost use Rattle.chi_tree.specs.declared.definition.Program.{Program};
ghost use Rattle.chi_tree_laws.specs.Answers.{IsProgram};
ghost use Rattle.chi_core.specs.declared.program.Core.{Core};
ghost use Rattle.chi_check_program_places.specs.Below.chi_check.specs.Programs.{checked, Answers};
ghost use Rattle.chi_fmt.specs.declared.comment.Comment.{Comment};
ghost use Rattle.chi_fmt.specs.Comments.{comments_of};
ghost use Rattle.chi_fmt.specs.Laws.{IsOfSource};
ghost use Rattle.chi_fmt.specs.Layout.{layout};
ghost use Rattle.chi_fmt.specs.Reread.{AreComments};
ghost use Rattle.chi_fmt_laws.specs.CheckedAlike.{IsCheckedAlike, IsAcceptedAs};

use chi_check_program_places::{programs_without_places, streams_without_lines};
use chi_fmt::{comments_law, layout_law};

/// The layout of a program of some source, with comments, is a program that comes to the same, but for places and lines.
pub fn laid_out_law()
    ensures { (program : Program) (comments : List Comment) → IsOfSource program → AreComments comments
        → IsCheckedAlike (layout program comments) program }
{
    layout_law();
    programs_without_places();
}

/// Where a source is accepted with a core, its layout with its comments is accepted with the same core, but for its lines.
pub fn laid_out_core_law()
    ensures { (source : List ℕ) (tokens : List Spanned) (tree : Program) (core : Core) → Reads source tokens → IsProgram tokens tree
        → Answers (Ok core) (checked tree) → IsAcceptedAs (layout tree (comments_of source tokens)) core }
{
    comments_law();
    laid_out_law();
    streams_without_lines();
}
