//! What holds of all parsed programs. The functions compute nothing: their contracts are the laws.

ghost use Rattle.std.specs.Prelude.{◌≤◌, ℕ, List, Ok, length};
ghost use Rattle.chi_token.specs.declared.place.Spanned.{Spanned};
ghost use Rattle.chi_lex.specs.declared.lexer.TheConstants.{MOST_BYTES};
ghost use Rattle.chi_lex.specs.Reading.{Reads};
ghost use Rattle.chi_tree.specs.declared.definition.Program.{Program};
ghost use Rattle.chi_tree_laws.specs.Answers.{IsProgram};
ghost use Rattle.chi_core.specs.declared.program.Core.{Core};
ghost use Rattle.chi_core.specs.Sound.{Sound};
ghost use Rattle.chi_check_laws.specs.Below.chi_check.specs.Programs.{checked, Answers};
ghost use Rattle.chi_check_laws.specs.Laws.{IsWhole};

use chi_check_laws::{programs_are_sound, unbroken_programs_come_to_cores};

/// A parsed program in which no rule is broken comes to a core. What the checker answers is sound, where the program
/// is that of a source that is short enough to be read.
pub fn parsed_programs_are_sound()
    ensures whole { (tokens : List Spanned) (tree : Program) → IsProgram tokens tree → IsWhole (checked tree) }
    ensures sound { (source : List ℕ) (tokens : List Spanned) (tree : Program) (core : Core) → length source ≤ MOST_BYTES → Reads source tokens → IsProgram tokens tree
        → Answers (Ok core) (checked tree) → Sound core }
{
    unbroken_programs_come_to_cores();
    programs_are_sound();
}
