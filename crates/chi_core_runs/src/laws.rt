//! What holds of every run. The functions compute nothing: their contracts are the laws.

ghost use Rattle.chi_core_runs.specs.Choices.{OptionIsPicked, AdvanceIsPicked, PickedMayCome, ActorsHaveOptions, ChoicesAreFew};
ghost use Rattle.chi_core_runs.specs.Endings.{EachEndingIsTold};
ghost use Rattle.chi_core_runs.specs.Once.{EachOfOne, EachMayCome};
ghost use Rattle.chi_core_runs.specs.OwnNumbers.{ListedIsLawful, OwnNumbersPickIt};
ghost use Rattle.chi_core_runs.specs.Picked.{PickedIsDerived, PickedOnce, PickedAlways};
ghost use Rattle.chi_core_runs.specs.Tellings.{NothingTold, MoreIsTold, AllIsTold, LastIsTold};
ghost use Rattle.chi_core_runs.specs.Time.{EachCosts, RunsAreBounded, OthersStandStill, AdvanceGoesOn, AdvanceIsLast, StaysInTime, RunsEndWithin, DerivationsEndWithin};
ghost use Rattle.chi_core_runs.specs.Turns.{PicksOn, PicksOver, PicksCutOff, PicksAtRest, WayBegins, WayGoesOn, WayIsOver, WayIsCutOff, WayRests};

use chi_core_kinds::kinded_law;

/// Each label that may come next but Advance is an option of exactly one instance, and stands once
/// among its options; and every option of an instance may come next.
pub fn options_law()
    ensures once { EachOfOne }
    ensures may_come { EachMayCome }
{}

/// Each label costs at least 1, so that a run has no more labels than the bound. The time never
/// falls: Advance alone changes it, to a later time, and may come only where no instance has an
/// option. It doesn't go past the stopping time, and no run ends earlier than it began or past the
/// stopping time.
pub fn time_law()
    ensures costs { EachCosts }
    ensures bounded { RunsAreBounded }
    ensures others { OthersStandStill }
    ensures advance { AdvanceGoesOn }
    ensures last { AdvanceIsLast }
    ensures in_time { StaysInTime }
    ensures runs { RunsEndWithin }
    ensures derivations { DerivationsEndWithin }
{}

/// A run that is picked, from a configuration: each way to go on from there.
pub fn run_law()
    ensures on { PicksOn }
    ensures over { PicksOver }
    ensures cut_off { PicksCutOff }
    ensures at_rest { PicksAtRest }
{}

/// A run that is picked turn by turn, from its beginning on: each turn keeps it under way, and each
/// end of it makes it the run that the policy picks.
pub fn turn_law()
    ensures begins { WayBegins }
    ensures on { WayGoesOn }
    ensures over { WayIsOver }
    ensures cut_off { WayIsCutOff }
    ensures at_rest { WayRests }
{}

/// What is told along a run, turn by turn: each turn tells more, and at the end all is told.
pub fn telling_law()
    ensures begins { NothingTold }
    ensures on { MoreIsTold }
    ensures over { AllIsTold }
    ensures ends { LastIsTold }
{}

/// At each turn a policy picks an instance among those with an option, and then one of its options, or
/// Advance where there is none. There are few choices in a kinded configuration.
pub fn choice_law()
    ensures option { OptionIsPicked }
    ensures advance { AdvanceIsPicked }
    ensures may_come { PickedMayCome }
    ensures some { ActorsHaveOptions }
    ensures few { ChoicesAreFew }
{}

/// What a policy picks is a derivation, and it picks at most one. Of a sound program a lawful policy
/// picks exactly one, within any bound below 2^63: the numbers of its questions and the counts of
/// choices stay below 2^64.
pub fn picked_law()
    ensures derived { PickedIsDerived }
    ensures once { PickedOnce }
    ensures always { PickedAlways }
{
    kinded_law();
}

/// The policy that answers a list of numbers is lawful; and where these are a derivation's own, it
/// picks that very derivation and no other.
pub fn own_numbers_law()
    ensures lawful { ListedIsLawful }
    ensures picks { OwnNumbersPickIt }
{}

/// The verdict of each derivation of a sound program can be told.
pub fn endings_law()
    ensures told { EachEndingIsTold }
{
    kinded_law();
}
