ghost use Rattle.std.specs.Prelude.{◌≡◌, ℕ, List, map, true};
ghost use Rattle.chi_token.specs.declared.place.Spanned.{Spanned};
ghost use Rattle.chi_lex.specs.Reading.{Reads};
ghost use Rattle.chi_tree.specs.declared.definition.Program.{Program};
ghost use Rattle.chi_tree.specs.declared.expr.Expr.{Expr};
ghost use Rattle.chi_tree.specs.declared.type_tree.TypeTree.{TypeTree};
ghost use Rattle.chi_tree_spell.specs.Expressions.{spelled_expr, spelled_type};
ghost use Rattle.chi_tree_spell.specs.Statements.{spelled};
ghost use Rattle.chi_tree_spell.specs.Words.{token_of};
ghost use Rattle.chi_tree_laws.specs.Definitions.{FormedProgram};
ghost use Rattle.chi_tree_laws.specs.Levels.{Level};
ghost use Rattle.chi_tree_laws.specs.Expressions.{FormedExpr, FormedType};
ghost use Rattle.chi_fmt.specs.declared.comment.Comment.{Comment};
ghost use Rattle.chi_fmt.specs.declared.line.Line.{Line};
ghost use Rattle.chi_fmt.specs.Comments.{comments_of};
ghost use Rattle.chi_fmt.specs.Definitions.{program_lines};
ghost use Rattle.chi_fmt.specs.Expressions.{expr_spots, type_spots};
ghost use Rattle.chi_fmt.specs.Laws.{IsOfSource, IsReread};
ghost use Rattle.chi_fmt.specs.Layout.{layout};
ghost use Rattle.chi_fmt.specs.Pages.{lines_text};
ghost use Rattle.chi_fmt.specs.Reread.{AreComments, HaveTokens, kept_spelling, moved, settled, source_of, token_at};
ghost use Rattle.chi_fmt.specs.Sound.{AreRows, AreSound, is_row};

/// The text of lines whose rows are sound is read as their kept tokens, with the same comments, each before the first token of
/// its line. Lines with these `;` and comments have the same text again.
pub fn text_law()
    ensures reads { (lines : List Line) (comments : List Comment) → AreRows lines → AreComments comments
        → (tokens : List Spanned) × Reads (lines_text 0 lines comments) tokens × (map token_of tokens ≡ kept_spelling lines)
        × (comments_of (lines_text 0 lines comments) tokens ≡ moved 0 0 lines comments) }
    ensures again { (lines : List Line) (comments : List Comment) → HaveTokens lines
        → lines_text 0 (map settled lines) (moved 0 0 lines comments) ≡ lines_text 0 lines comments }
{}

/// The spots of formed expressions and types show their tokens, and are sound rows. So are those of the lines of a formed program:
/// none is empty, and they have the tokens of the source.
pub fn row_law()
    ensures types { (d : ℕ) (t : TypeTree) → FormedType d t → (map token_at (type_spots t) ≡ spelled_type t) × (is_row (type_spots t) ≡ true) }
    ensures expressions { (level : Level) (d : ℕ) (e : Expr) → FormedExpr level d e
        → (map token_at (expr_spots e) ≡ spelled_expr e) × (is_row (expr_spots e) ≡ true) }
    ensures programs { (b d : ℕ) (program : Program) → FormedProgram b d program
        → AreSound (program_lines program) × HaveTokens (program_lines program) × (source_of (program_lines program) ≡ spelled program) }
{}

/// The layout of a program of some source, with comments, is read as that program with the `;` that are kept, but for its places; and
/// the layout of what is read, with the comments of the text, is the same text.
pub fn layout_law()
    ensures { (program : Program) (comments : List Comment) → IsOfSource program → AreComments comments
        → IsReread (layout program comments) program comments }
{}

/// Each comment of a source begins with a hash sign, and has no line feed.
pub fn comments_law()
    ensures { (source : List ℕ) (tokens : List Spanned) → AreComments (comments_of source tokens) }
{}
