//! What holds of all programs. The functions compute nothing: their contracts are the laws.

ghost use Rattle.std.specs.Prelude.{◌≡◌, [], Some, IsTrue};
ghost use Rattle.chi_tree.specs.declared.definition.Program.{Program};
ghost use Rattle.chi_core.specs.declared.program.Core.{Core};
ghost use Rattle.chi_core.specs.Sound.{Sound};
ghost use Rattle.chi_check.specs.Below.chi_check_streams.specs.Streams.{with_streams};
ghost use Rattle.chi_check.specs.Programs.{checked};
ghost use Rattle.chi_check_laws.specs.CheckedBodies.{BodiesAreWhole, TextsAreShort};
ghost use Rattle.chi_check_laws.specs.Formals.{formals_are_typed};
ghost use Rattle.chi_check_laws.specs.Laws.{IsWhole};
ghost use Rattle.chi_check_laws.specs.Spelled.{NamesAreNames};

/// A program in which no rule is broken comes to a core, if the formals of its headers have types.
pub fn unbroken_programs_come_to_cores()
    ensures whole { (tree : Program) → IsTrue (formals_are_typed tree) → IsWhole (checked tree) }
{}

/// The core of a program in which no rule is broken is sound with its streams, where names are names, bodies are whole
/// and text literals are short.
pub fn programs_are_sound()
    ensures sound { (tree : Program) (core : Core) → NamesAreNames tree → BodiesAreWhole tree → (checked tree).faults ≡ [] → (checked tree).made ≡ Some core
        → TextsAreShort core → Sound (with_streams core) }
{}
