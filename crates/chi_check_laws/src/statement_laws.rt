//! What holds of all that is made of statements. The functions compute nothing: their contracts are the laws.

ghost use Rattle.std.specs.Prelude.{◌≡◌, ℕ, Bool, List, Some, IsTrue, length, map};
ghost use Rattle.chi_tree.specs.declared.statement.Step.{Step};
ghost use Rattle.chi_tree.specs.declared.type_tree.Formal.{Formal};
ghost use Rattle.chi_types.specs.declared.ty.Ty.{Ty};
ghost use Rattle.chi_core.specs.declared.experiment.XStat.{XStat};
ghost use Rattle.chi_core.specs.declared.statement.CStat.{CStat};
ghost use Rattle.chi_core.specs.Fills.{UnwindsOwn, by_body};
ghost use Rattle.chi_core.specs.Kinds.{kinds_of, Every};
ghost use Rattle.chi_core.specs.Scopes.{Scope};
ghost use Rattle.chi_core.specs.SetSlots.{Known as Set};
ghost use Rattle.chi_core.specs.Sound.{SoundIn, nothing_known};
ghost use Rattle.chi_check.specs.Below.chi_check_streams.specs.Streams.{each, of_statement};
ghost use Rattle.chi_check_types.specs.Names.{Names};
ghost use Rattle.chi_check.specs.Below.chi_check_stat_rules.specs.declared.home.Home.{Home};
ghost use Rattle.chi_check.specs.Below.chi_check_stat_rules.specs.declared.home.Home.TheVariants as home;
ghost use Rattle.chi_check_laws.specs.KnownNames.{AllStand};
ghost use Rattle.chi_check.specs.Below.chi_check_stat_lines.specs.declared.state.State.{State};
ghost use Rattle.chi_check.specs.Below.chi_check_stat.specs.Statements.{stating_all};
ghost use Rattle.chi_check.specs.Below.chi_check_experiments.specs.Experiments.{trying_all};
ghost use Rattle.chi_check.specs.Below.chi_check_headers.specs.declared.header.Header.{Header};
ghost use Rattle.chi_check.specs.Below.chi_check_headers.specs.Headers.{all_types};
ghost use Rattle.chi_check.specs.Bodies.{body_in};
ghost use Rattle.chi_check_laws.specs.Bodies.{role_of, reads_as, SlotsHave, set_by, Agrees, SoundBody, SoundBodyOf, Grows, HaveSlots};
ghost use Rattle.chi_check_laws.specs.Trials.{set_by_trials, SoundTrials};
ghost use Rattle.chi_check_laws.specs.Whole.{steps_are_whole};

/// Statements that come to something are sound with their streams, where their text literals are short,
/// all visible names agree with the program, the types of the slots are sound, and each slot is of the kind
/// of its type. What is visible after them agrees too.
pub fn statements_are_sound()
    ensures sound { (home : Home) (scope : Scope) (set : Set) (loop : Bool) (steps : List Step) (s : State) (body : List CStat) → role_of home ≡ Some scope.role
        → IsTrue (steps_are_whole steps) → SlotsHave scope (stating_all home loop steps s).next.slots → Agrees scope set s
        → (stating_all home loop steps s).made ≡ Some body → SoundBody scope loop set body × Agrees scope (set_by body set) (stating_all home loop steps s).next }
{}

/// Statements of an experiment that come to something are sound with their streams, where their text literals are
/// short, all visible names agree with the program, the types of the slots are sound, and each slot is of the
/// kind of its type. What is visible after them agrees too.
pub fn trials_are_sound()
    ensures sound { (scope : Scope) (set : Set) (loop : Bool) (steps : List Step) (s : State) (body : List XStat) → reads_as home.Experiment ≡ Some scope.role
        → IsTrue (steps_are_whole steps) → SlotsHave scope (trying_all loop steps s).next.slots → Agrees scope set s
        → (trying_all loop steps s).made ≡ Some body → SoundTrials scope loop set body × Agrees scope (set_by_trials body set) (trying_all loop steps s).next }
{}

/// Statements only add names and slots. A slot that an unwind binds is new, and nothing else in them sets it.
pub fn slots_are_new()
    ensures grows { (home : Home) (loop : Bool) (steps : List Step) (s : State) → IsTrue (steps_are_whole steps) → Grows s (stating_all home loop steps s).next }
    ensures unwinds { (home : Home) (loop : Bool) (steps : List Step) (s : State) (body : List CStat) → IsTrue (steps_are_whole steps) → HaveSlots s
        → (stating_all home loop steps s).made ≡ Some body → (count : ℕ) → UnwindsOwn (length s.slots) (by_body (each (map of_statement body) count).part) }
{}

/// The body of a function, a process or a model that comes to something is sound, with its formals as the first
/// slots, where these have sound types, each slot is of the kind of its type and all names around it agree with
/// the program. No name of a body is visible after it.
pub fn bodies_are_sound()
    ensures sound { (h : Header) (scope : Scope) (formals : List Formal) (steps : List Step) (names : Names) (params slots : List Ty) (body : List CStat) → role_of h.home ≡ Some scope.role
        → IsTrue (steps_are_whole steps) → all_types h.formals ≡ Some params → length formals ≡ length h.formals → Every (SoundIn scope.core) params → AllStand scope nothing_known names
        → scope.slots ≡ kinds_of slots → (body_in h formals steps names).made ≡ Some (body, slots) → SoundBodyOf scope params slots body }
    ensures names { (h : Header) (formals : List Formal) (steps : List Step) (names : Names) → IsTrue (steps_are_whole steps) → (body_in h formals steps names).next ≡ names }
{}
