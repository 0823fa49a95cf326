ghost use Rattle.std.specs.Prelude.{◌≡◌, ◌↔◌, ◌≤◌, ℕ, Bool, true, None, List, [], ◌∷◌, ◌++◌, length, map, Result, Ok, Err};
ghost use Rattle.chi_tree_laws.specs.Answers.{IsProgram, IsDepth, IsFault, IsAnswer, IsLongestExpr, IsExprStop, IsExprDepth, IsLongestType, IsTypeStop, IsTypeDepth};
ghost use Rattle.chi_tree_laws.specs.Definitions.{FormedItems, FormedProgram};
ghost use Rattle.chi_tree_laws.specs.Expressions.{FormedExpr, FormedType};
ghost use Rattle.chi_tree_laws.specs.ExprNestings.{expr_nestings, type_nestings};
ghost use Rattle.chi_tree_laws.specs.Levels as level;
ghost use Rattle.chi_tree_laws.specs.Nestings.{first_passing};
ghost use Rattle.chi_tree_laws.specs.StatementNestings.{block_nestings, nestings};
ghost use Rattle.chi_tree_laws.specs.Statements.{FormedBlock, FormedStatement};
ghost use Rattle.chi_tree_laws.specs.Unplaced.{unplaced_expr, unplaced_type};
ghost use Rattle.chi_tree_laws.specs.UnplacedStatements.{unplaced, unplaced_block};
ghost use Rattle.chi_grammar.specs.declared.fault.ParseFault.{ParseFault};
ghost use Rattle.chi_grammar.specs.declared.fault.ParseFault.TheVariants.{Syntax, TooDeep};
ghost use Rattle.chi_grammar.specs.declared.room.Room.{Room};
ghost use Rattle.chi_grammar.specs.Exact.{Parses, ParsesAll};
ghost use Rattle.chi_grammar.specs.Fine.{Fine};
ghost use Rattle.chi_grammar.specs.Rules.{part};
ghost use Rattle.chi_grammar.specs.Trees.{Is};
ghost use Rattle.chi_token.specs.declared.keyword.Keyword.TheVariants.{EndWord};
ghost use Rattle.chi_token.specs.declared.place.Spanned.{Spanned};
ghost use Rattle.chi_token.specs.declared.token.Token.TheVariants.{Word};
ghost use Rattle.chi_tree.specs.declared.definition.Item.{Item};
ghost use Rattle.chi_tree.specs.declared.definition.Program.{Program};
ghost use Rattle.chi_tree.specs.declared.expr.Expr.{Expr};
ghost use Rattle.chi_tree.specs.declared.statement.Statement.{Statement};
ghost use Rattle.chi_tree.specs.declared.statement.Step.{Step};
ghost use Rattle.chi_tree.specs.declared.type_tree.TypeTree.{TypeTree};
ghost use Rattle.chi_tree.specs.Limits.{whole_room};
ghost use Rattle.chi_tree.specs.Parts as s;
ghost use Rattle.chi_tree.specs.Rules.{grammar};
ghost use Rattle.chi_tree.specs.Tables.{table};
ghost use Rattle.chi_tree_spell.specs.Expressions.{spelled_expr, spelled_type};
ghost use Rattle.chi_tree_spell.specs.Statements.{spelled, spelled_block, spelled_statement, AgreesWith};
ghost use Rattle.chi_tree.specs.Statements.{block_of, program_of};
ghost use Rattle.chi_tree.specs.View.{Built, type_of, expr_of};
ghost use Rattle.chi_tree_spell.specs.Words.{Tokens, token_of};

/// The rules of the grammar build exactly the formed trees.
pub fn formed_law()
    ensures types { (room : Room) (ty : TypeTree)
        → FormedType room.expressions ty ↔ ((t : Built) × Is grammar room (part s.AnyType) t × (type_of t ≡ ty)) }
    ensures expressions { (room : Room) (e : Expr)
        → FormedExpr level.Expr room.expressions e ↔ ((t : Built) × Is grammar room (part s.Expr) t × (expr_of t ≡ e)) }
    ensures blocks { (room : Room) (block : List Step)
        → FormedBlock room.blocks room.expressions block ↔ ((t : Built) × Is grammar room (part s.Block) t × (block_of t ≡ block)) }
    ensures programs { (room : Room) (items : List Item)
        → FormedItems room.blocks room.expressions items
        ↔ ((t : Built) × Is grammar room (part s.Program) t × (let program : Program = program_of t in program.items ≡ items)) }
{}

/// Of the formed trees that spell a list of tokens no two differ but in their places, however deep they may nest.
pub fn one_tree_law()
    ensures types { (c d : ℕ) (t u : TypeTree) → FormedType c t → FormedType d u
        → spelled_type t ≡ spelled_type u → unplaced_type t ≡ unplaced_type u }
    ensures expressions { (c d : ℕ) (e f : Expr) → FormedExpr level.Expr c e → FormedExpr level.Expr d f
        → spelled_expr e ≡ spelled_expr f → unplaced_expr e ≡ unplaced_expr f }
    ensures blocks { (b c d e : ℕ) (block other : List Step) → FormedBlock b c block → FormedBlock d e other
        → spelled_block block ≡ spelled_block other → unplaced_block block ≡ unplaced_block other }
    ensures programs { (b c d e : ℕ) (program other : Program) → FormedProgram b c program → FormedProgram d e other
        → spelled program ≡ spelled other → unplaced program ≡ unplaced other }
{}

/// A statement's truth value tells whether its last token is `end`.
pub fn last_token_law()
    ensures { (ends : Bool) (b d : ℕ) (s : Statement) → FormedStatement ends b d s
        → (ends ≡ true) ↔ ((ts : Tokens) × (spelled_statement s ≡ ts ++ Word EndWord ∷ [])) }
{}

/// What an exact parser answers for all the tokens of a source, said of formed programs.
pub fn parsed_law()
    ensures tree { (tokens : List Spanned) (program : Program)
        → ParsesAll grammar tokens program_of whole_room (part s.Program) (Ok program) ↔ IsProgram tokens program }
    ensures every_tree { (tokens : List Spanned) (program : Program)
        → FormedProgram whole_room.blocks whole_room.expressions program → spelled program ≡ map token_of tokens
        → (parsed : Program) × ParsesAll grammar tokens program_of whole_room (part s.Program) (Ok parsed) × (unplaced parsed ≡ unplaced program) }
    ensures syntax { (tokens : List Spanned) (k : ℕ)
        → ParsesAll grammar tokens program_of whole_room (part s.Program) (Err (Syntax k)) ↔ IsFault tokens k }
    ensures too_deep { (tokens : List Spanned) (k : ℕ)
        → ParsesAll grammar tokens program_of whole_room (part s.Program) (Err (TooDeep k)) ↔ IsDepth tokens k }
{}

/// One token ahead decides the grammar of the language.
pub fn grammar_law()
    ensures { Fine grammar table }
{}

/// What is formed within limits on nesting is formed at all, and no token of it passes a limit; each token of a program has one
/// nesting.
pub fn nesting_law()
    ensures types { (b d : ℕ) (ty : TypeTree)
        → FormedType d ty ↔ ((c e : ℕ) × FormedType e ty × (first_passing b d (type_nestings ty) ≡ None)) }
    ensures expressions { (b d : ℕ) (x : Expr)
        → FormedExpr level.Expr d x ↔ ((c e : ℕ) × FormedExpr level.Expr e x × (first_passing b d (expr_nestings x) ≡ None)) }
    ensures blocks { (b d : ℕ) (block : List Step)
        → FormedBlock b d block ↔ ((c e : ℕ) × FormedBlock c e block × (first_passing b d (block_nestings block) ≡ None)) }
    ensures programs { (b d : ℕ) (program : Program)
        → FormedProgram b d program ↔ ((c e : ℕ) × FormedProgram c e program × (first_passing b d (nestings program) ≡ None)) }
    ensures of_each_token { (b d : ℕ) (program : Program) → FormedProgram b d program
        → length (nestings program) ≡ length (spelled program) }
{}

/// The tokens of a source are a program, or one of them is the first too deep, or they are at fault at one index: exactly one
/// of the three, with one program or one index.
pub fn answer_law()
    ensures some { (tokens : List Spanned) → (result : Result Program ParseFault) × IsAnswer tokens result }
    ensures one { (tokens : List Spanned) (result other : Result Program ParseFault)
        → IsAnswer tokens result → IsAnswer tokens other → result ≡ other }
{}

/// Programs that are formed and have the same tokens, with which the places of both agree, are the same.
pub fn one_program_law()
    ensures { (b c d e : ℕ) (program other : Program) (tokens : List Spanned) → FormedProgram b c program → FormedProgram d e other
        → AgreesWith program tokens → AgreesWith other tokens → unplaced program ≡ unplaced other → program ≡ other }
{}

/// What an exact parser answers of an expression or a type, from an index on, said of formed ones: the longest that stands
/// there; or the token with which none goes on, where none ends before it; or the first that is too deep.
pub fn parsed_part_law()
    ensures expr { (tokens : List Spanned) (at : ℕ) (room : Room) (e : Expr) (end : ℕ) → at ≤ length tokens
        → Parses grammar tokens expr_of room (part s.Expr) at (Ok (e, end)) ↔ IsLongestExpr tokens at room e end }
    ensures expr_syntax { (tokens : List Spanned) (at : ℕ) (room : Room) (k : ℕ) → at ≤ length tokens
        → Parses grammar tokens expr_of room (part s.Expr) at (Err (Syntax k)) ↔ IsExprStop tokens at room k }
    ensures expr_too_deep { (tokens : List Spanned) (at : ℕ) (room : Room) (k : ℕ) → at ≤ length tokens
        → Parses grammar tokens expr_of room (part s.Expr) at (Err (TooDeep k)) ↔ IsExprDepth tokens at room k }
    ensures any_type { (tokens : List Spanned) (at : ℕ) (room : Room) (ty : TypeTree) (end : ℕ) → at ≤ length tokens
        → Parses grammar tokens type_of room (part s.AnyType) at (Ok (ty, end)) ↔ IsLongestType tokens at room ty end }
    ensures type_syntax { (tokens : List Spanned) (at : ℕ) (room : Room) (k : ℕ) → at ≤ length tokens
        → Parses grammar tokens type_of room (part s.AnyType) at (Err (Syntax k)) ↔ IsTypeStop tokens at room k }
    ensures type_too_deep { (tokens : List Spanned) (at : ℕ) (room : Room) (k : ℕ) → at ≤ length tokens
        → Parses grammar tokens type_of room (part s.AnyType) at (Err (TooDeep k)) ↔ IsTypeDepth tokens at room k }
{}
