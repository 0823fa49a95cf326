//! What is made of programs without places. The functions compute nothing: their contracts are the laws.

ghost use Rattle.std.specs.Prelude.{◌≡◌, Bool, List};
ghost use Rattle.chi_tree.specs.declared.definition.Program.{Program};
ghost use Rattle.chi_tree.specs.declared.statement.Step.{Step};
ghost use Rattle.chi_tree_laws.specs.UnplacedStatements.{unplaced, unplaced_block};
ghost use Rattle.chi_core.specs.declared.program.Core.{Core};
ghost use Rattle.chi_check.specs.Below.chi_check_stat_rules.specs.declared.home.Home.{Home};
ghost use Rattle.chi_check.specs.Below.chi_check_stat_lines.specs.declared.state.State.{State};
ghost use Rattle.chi_check.specs.Below.chi_check_stat.specs.Statements.{stating_all};
ghost use Rattle.chi_check.specs.Below.chi_check_experiments.specs.Experiments.{trying_all};
ghost use Rattle.chi_check.specs.Programs.{checked};
ghost use Rattle.chi_check.specs.Below.chi_check_streams.specs.Streams.{with_streams};
ghost use Rattle.chi_check_program_places.specs.Lineless.{lineless, lineless_stated, lineless_tried, lineless_typed};

/// What statements without their places come to is what they come to with them, but for the places of broken rules and
/// for lines; and the same is visible after them. So it is of the statements of experiments.
pub fn statements_without_places()
    ensures statements { (home : Home) (loop : Bool) (steps : List Step) (s : State) → stating_all home loop (unplaced_block steps) s ≡ lineless_stated (stating_all home loop steps s) }
    ensures experiments { (loop : Bool) (steps : List Step) (s : State) → trying_all loop (unplaced_block steps) s ≡ lineless_tried (trying_all loop steps s) }
{}

/// What a program without its places comes to is what it comes to with them, but for the places of broken rules and for
/// the lines in its core.
pub fn programs_without_places()
    ensures { (program : Program) → checked (unplaced program) ≡ lineless_typed (checked program) }
{}

/// The streams of a core are those of the core without its lines.
pub fn streams_without_lines()
    ensures { (core : Core) → with_streams (lineless core) ≡ lineless (with_streams core) }
{}
