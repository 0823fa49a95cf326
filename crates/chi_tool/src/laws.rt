ghost use Rattle.std.specs.Prelude.{◌≡◌, ◌≤◌, ℕ, All, List, length};
ghost use Rattle.chi_cli.specs.declared.request.Pick.{Pick};
ghost use Rattle.chi_code.specs.declared.code.Code.{Code};
ghost use Rattle.chi_code.specs.Codes.{Codes};
ghost use Rattle.chi_io.specs.Shelf.{Files};
ghost use Rattle.chi_tree_laws.specs.Answers.{IsProgram};
ghost use Rattle.chi_core.specs.declared.program.Core.{Core};
ghost use Rattle.chi_core.specs.Runs.{Told};
ghost use Rattle.chi_engine.specs.Courses.{ComesToOne, Course, IsRunOf, MayHave};
ghost use Rattle.chi_engine.specs.Settings.{Settings, policy_of};
ghost use Rattle.chi_lex.specs.declared.lexer.TheConstants.{MOST_BYTES};
ghost use Rattle.chi_lex.specs.Reading.{Reads};
ghost use Rattle.chi_tree_spell.specs.Statements.{spelled};
ghost use Rattle.chi_token.specs.declared.place.Spanned.{Spanned};
ghost use Rattle.chi_token.specs.Tokens.{IsToken};
ghost use Rattle.chi_sched.specs.Policies.{listed};
ghost use Rattle.chi_tool.specs.Call.{Call};
ghost use Rattle.chi_tool.specs.Headline.{Follows, Meets};
ghost use Rattle.chi_tool.specs.Layouts.{HasLayout};
ghost use Rattle.chi_tool.specs.Limits.{LimitsAre};
ghost use Rattle.chi_tool.specs.Refusals.{Report};
ghost use Rattle.chi_tool.specs.Report.{IsExplained, IsReport, IsReportFor, IsReportOfSource};
ghost use Rattle.chi_tool.specs.RuleNumbers.{RulesAre};
ghost use Rattle.chi_tool.specs.Running.{runs_for};
ghost use Rattle.chi_xper_machines.specs.declared.tale.Ended.{Ended};
ghost use Rattle.chi_xper_machines.specs.declared.terms.ExperimentTerms.{ExperimentTerms};
ghost use Rattle.chi_xper_machines.specs.Trials.{Trial, IsTrial, EndsSo, Logs};
ghost use Rattle.chi_tool.specs.declared.task.ProgramPurpose.TheVariants.{Experiment};
ghost use Rattle.chi_tool.specs.declared.task.Asked.{Asked};
ghost use Rattle.chi_tool.specs.declared.task.Purpose.TheVariants.{OfProgram, Explain};
ghost use Rattle.chi_tool.specs.declared.task.Task.TheVariants.{OfFile};
ghost use Rattle.chi_tool.specs.Settings.{Trying, Aim, IsShortFor, MayBeAimed, MayBeAimedAt, simulates, tries, wanted_of};
ghost use Rattle.chi_tool.specs.Words.{of_task, wish_of};
ghost use Rattle.chi_tool.specs.Simulations.{AreOwnPicks, IsDerived, course_of};
ghost use Rattle.chi_tool.specs.Sources.{ComesTo, IsWritten};
ghost use Rattle.chi_tree.specs.declared.definition.Program.{Program};
ghost use Rattle.chi_tree_laws.specs.UnplacedStatements.{unplaced};
ghost use Rattle.chi_fmt.specs.Kept.{kept};
ghost use Rattle.chi_fmt_laws.specs.CheckedAlike.{IsAcceptedAs};

use chi_check_parsed::parsed_programs_are_sound;
use chi_cli::{faults_of_arguments_name_them, numbers_are_in_range, values_are_of_parameters};
use chi_code::code_is_unique;
use chi_core_runs::own_numbers_law;
use chi_engine::{Engine, Machines, course_law};
use chi_explain::lexical_explanation_law;
use chi_explain_runs::waiting_law;
use chi_explain_syntax::syntax_explanation_law;
use chi_fmt_laws::laid_out_core_law;
use chi_gen_laws::sound_programs_have_one_code;
use chi_log::{judging_law, one_log_law};
use chi_picks::picks_law;
use chi_trace::logs_law;
use chi_tree_laws::answer_law;
use chi_xper_machines::trial_law;

/// The program that a source within the limit comes to has exactly one run with settings that it may have.
pub fn one_run_law()
    ensures some { (source : List ℕ) (core : Core) → length source ≤ MOST_BYTES → ComesTo source core → (s : Settings) → MayHave core s → (course : Course) × IsRunOf core s course }
    ensures one { (core : Core) (s : Settings) (course other : Course) → IsRunOf core s course → IsRunOf core s other → course ≡ other }
{
    parsed_programs_are_sound();
    course_law();
}

/// Of each run that is asked for, of the program that a source within the limit comes to, comes exactly one thing, with
/// settings that it may have: with this engine where words ask for a simulation, else by the meaning.
pub(crate) fn asked_runs_law<E: Engine>(engine: &E)
    ensures some { (aim : Aim) (source : List ℕ) (core : Core) → length source ≤ MOST_BYTES → ComesTo source core → (s : Settings) → MayHave core s
        → (course : Course) × runs_for (E.outcome engine.now) aim core s course }
    ensures one { (aim : Aim) → ComesToOne (runs_for (E.outcome engine.now) aim) }
{
    parsed_programs_are_sound();
    course_law();
    engine.law();
}

/// The run by the list of a derivation's own picks is that derivation.
pub fn own_picks_law()
    ensures { (core : Core) (s : Settings) (told : Told) (log numbers : List ℕ) → IsDerived core s told log → AreOwnPicks core s told numbers
        → s.pick ≡ listed numbers → IsRunOf core s (course_of told log) }
{
    own_numbers_law();
}

/// The program that a source within the limit comes to has exactly one code.
pub fn one_code_law()
    ensures some { (source : List ℕ) (core : Core) → length source ≤ MOST_BYTES → ComesTo source core → (code : Code) × Codes core code }
    ensures one { (core : Core) (code other : Code) → Codes core code → Codes core other → code ≡ other }
{
    parsed_programs_are_sound();
    sound_programs_have_one_code();
    code_is_unique();
}

/// Of the first experiment of the program that a source within the limit comes to comes exactly one thing, on terms that may be
/// had; that ends in one way, and one line tells how.
pub fn one_trial_law()
    ensures some { (source : List ℕ) (core : Core) → length source ≤ MOST_BYTES → ComesTo source core → (t : Trying) → MayBeAimedAt (tries t)
        → (trial : Trial) × IsTrial core t.seed t.pick t.bound trial × ((ended : Ended) × EndsSo trial ended) × ((line : List ℕ) × Logs core trial line) }
    ensures one { (source : List ℕ) (core : Core) → length source ≤ MOST_BYTES → ComesTo source core → (t : Trying) (trial other : Trial)
        → IsTrial core t.seed t.pick t.bound trial → IsTrial core t.seed t.pick t.bound other → trial ≡ other }
    ensures one_ended { (trial : Trial) (ended other : Ended) → EndsSo trial ended → EndsSo trial other → ended ≡ other }
    ensures one_line { (core : Core) (trial : Trial) (line other : List ℕ) → Logs core trial line → Logs core trial other → line ≡ other }
{
    parsed_programs_are_sound();
    trial_law();
}

/// A source within the limit has exactly one report by the runs of the meaning, for each aim that may be had with it.
pub fn source_law()
    ensures some { (source : List ℕ) (aim : Aim) → length source ≤ MOST_BYTES → MayBeAimed aim → (r : Report) × IsReportFor IsRunOf aim source r }
    ensures one { (source : List ℕ) (aim : Aim) → IsShortFor aim source → (r other : Report) → IsReportFor IsRunOf aim source r → IsReportFor IsRunOf aim source other → r ≡ other }
{
    answer_law();
    parsed_programs_are_sound();
    asked_runs_law(&Machines);
    one_code_law();
    one_trial_law();
    values_are_of_parameters();
    picks_law();
    judging_law();
    one_log_law();
}

/// Words and files have exactly one report with an engine; where words ask that a simulation be told at length, each report of
/// it can be told so; and where they ask for an experiment, what comes of it can be told.
pub fn report_law<E: Engine>(engine: &E)
    ensures some { (words : List (List ℕ)) (files : Files) → (r : Report) × IsReport (E.outcome engine.now) words files r }
    ensures one { (words : List (List ℕ)) (files : Files) (r other : Report)
        → IsReport (E.outcome engine.now) words files r → IsReport (E.outcome engine.now) words files other → r ≡ other }
    ensures explained { (words : List (List ℕ)) (file : List ℕ) (a : Asked Pick) → wish_of words ≡ of_task (OfFile file (Explain a))
        → (source : List ℕ) → length source ≤ MOST_BYTES → (plain : Report) → IsReportOfSource (E.outcome engine.now) source (simulates (wanted_of a)) plain
        → (r : Report) × IsExplained (E.outcome engine.now) file (wanted_of a) source r × (r.status ≡ plain.status) }
    ensures tried { (words : List (List ℕ)) (file : List ℕ) (t : ExperimentTerms) → wish_of words ≡ of_task (OfFile file (OfProgram (Experiment t)))
        → (source : List ℕ) → length source ≤ MOST_BYTES → (core : Core) → ComesTo source core
        → (trial : Trial) → IsTrial core t.seed (policy_of t.pick) t.bound trial → (line : List ℕ) × Logs core trial line }
{
    waiting_law();
    answer_law();
    parsed_programs_are_sound();
    asked_runs_law(engine);
    one_code_law();
    one_trial_law();
    numbers_are_in_range();
    values_are_of_parameters();
    faults_of_arguments_name_them();
    lexical_explanation_law();
    syntax_explanation_law();
    logs_law();
    picks_law();
    judging_law();
    one_log_law();
}

/// The layout of a source is its own layout, and what it is read as is the program of the source, but for places, and with those
/// `;` alone that the layout keeps; and where the source comes to a core, the layout comes to the same, but for its lines.
pub fn layout_law()
    ensures again { (source text : List ℕ) → HasLayout source text → HasLayout text text }
    ensures same { (source text : List ℕ) (has : HasLayout source text) (tree : Program) → IsWritten text tree → unplaced tree ≡ unplaced (kept has.tree) }
    ensures core { (source text : List ℕ) → HasLayout source text → (core : Core) → ComesTo source core → IsAcceptedAs text core }
{
    answer_law();
    laid_out_core_law();
    chi_fmt::comments_law();
    chi_fmt::layout_law();
}

/// What follows for a reader of status and bytes, where a call meets a report.
pub fn meets_law()
    ensures { (r : Report) (call : Call) → Meets r call → Follows r call }
{}

/// What a source is as a program has only tokens that some bytes spell: its names have the letters of names, and
/// its numbers have digits.
pub fn tokens_law()
    ensures { (source : List ℕ) (tokens : List Spanned) (program : Program) → Reads source tokens → IsProgram tokens program
        → All IsToken (spelled program) }
{}

/// The numbers that are the program's limits, each of which the definitions cite by its constant.
pub fn limits_law()
    ensures { LimitsAre }
{
    chi_core::limits_law();
    waiting_law();
}

/// The numbers of the rules of typing, which the definitions cite by their constants, that each has its words, and which have
/// words about a name.
pub fn rules_law()
    ensures { RulesAre }
{}
