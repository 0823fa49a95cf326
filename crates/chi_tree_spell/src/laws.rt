ghost use Rattle.std.specs.Prelude.{◌≡◌, ℕ, List, map, Ok};
ghost use Rattle.chi_grammar.specs.declared.room.Room.{Room};
ghost use Rattle.chi_grammar.specs.Exact.{ParsesAll};
ghost use Rattle.chi_grammar.specs.Rules.{part, spelling};
ghost use Rattle.chi_grammar.specs.Trees.{Is};
ghost use Rattle.chi_token.specs.declared.place.Spanned.{Spanned};
ghost use Rattle.chi_tree.specs.declared.definition.Program.{Program};
ghost use Rattle.chi_tree.specs.Parts as s;
ghost use Rattle.chi_tree.specs.Rules.{grammar};
ghost use Rattle.chi_tree.specs.View.{Built, type_of, expr_of};
ghost use Rattle.chi_tree.specs.Statements.{block_of, program_of};
ghost use Rattle.chi_tree_spell.specs.Marks.{Agree};
ghost use Rattle.chi_tree_spell.specs.Words.{token_of};
ghost use Rattle.chi_tree_spell.specs.Expressions.{spelled_expr, spelled_type, marked_expr, marked_type};
ghost use Rattle.chi_tree_spell.specs.Statements.{spelled_block, spelled, marked_block, AgreesWith};

/// Whatever the grammar builds is shown as a tree whose tokens are those of which it was built.
pub fn spelling_law()
    ensures types { (room : Room) (t : Built) → Is grammar room (part s.AnyType) t → spelled_type (type_of t) ≡ map token_of (spelling t) }
    ensures expressions { (room : Room) (t : Built) → Is grammar room (part s.Expr) t → spelled_expr (expr_of t) ≡ map token_of (spelling t) }
    ensures blocks { (room : Room) (t : Built) → Is grammar room (part s.Block) t → spelled_block (block_of t) ≡ map token_of (spelling t) }
    ensures programs { (room : Room) (t : Built) → Is grammar room (part s.Program) t → spelled (program_of t) ≡ map token_of (spelling t) }
{}

/// Each place that such a tree keeps is that of its token. So is each place of a program that all the tokens are parsed as.
pub fn places_law()
    ensures types { (room : Room) (t : Built) → Is grammar room (part s.AnyType) t → Agree (marked_type (type_of t)) (spelling t) }
    ensures expressions { (room : Room) (t : Built) → Is grammar room (part s.Expr) t → Agree (marked_expr (expr_of t)) (spelling t) }
    ensures blocks { (room : Room) (t : Built) → Is grammar room (part s.Block) t → Agree (marked_block (block_of t)) (spelling t) }
    ensures programs { (room : Room) (t : Built) → Is grammar room (part s.Program) t → AgreesWith (program_of t) (spelling t) }
    ensures parsed { (tokens : List Spanned) (room : Room) (program : Program)
        → ParsesAll grammar tokens program_of room (part s.Program) (Ok program) → AgreesWith program tokens }
{}
