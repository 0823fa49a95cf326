ghost use Rattle.chi_machine_laws.specs.Parts.{OpeningsLead, StartingsLead};
ghost use Rattle.chi_machine_laws.specs.Laws.{ActorsAlike, AdvancesAlike, BeginningsAreRight, BeginningsFollow, CallsAreRight, CallsFollow, DueAlike, EndingsAlike, ListsStay, OneChanges, OptionsAlike, PicksAlike, SafeAlways, StepsAreRight, StepsFollow, WaitingOptions};

use chi_core_kinds::kinded_law;

/// Within a step the code of alternatives brings the offers that they open, and nothing else.
pub fn openings_law()
    ensures lead { OpeningsLead }
{}

/// Within a step the code of elements brings the instances that they start, whose numbers their targets are told.
pub fn startings_law()
    ensures lead { StartingsLead }
{}

/// From a state that stands for a configuration each label takes the machine to one that stands for what the label leads
/// to, with the same text and the same left; or it ends alike. And it takes it nowhere else.
#[tactic(auto, using(crate::proofs::Steps::steps_follow))]
pub fn step_law()
    ensures steps { StepsFollow }
    ensures exact { StepsAreRight }
{}

/// The machine begins as the program's run does, with the same fault in a constant, and not otherwise.
#[tactic(auto, using(crate::proofs::Beginning::beginnings_follow, crate::proofs::BegunOnce::beginnings_are_right))]
pub fn start_law()
    ensures begins { BeginningsFollow }
    ensures exact { BeginningsAreRight }
{}

/// What may come next by the machine's own state is what may come next in the configuration for which it stands: options,
/// who has one, how time goes on, how the run ends, and what a policy picks.
#[tactic(auto, using(crate::proofs::Choosing::options_alike, crate::proofs::Choosing::actors_alike, crate::proofs::Choosing::advance_alike, crate::proofs::Choosing::due_alike, crate::proofs::Choosing::ending_alike, crate::proofs::Choosing::picked_alike))]
pub fn options_law()
    ensures options { OptionsAlike }
    ensures actors { ActorsAlike }
    ensures advance { AdvancesAlike }
    ensures due { DueAlike }
    ensures ending { EndingsAlike }
    ensures picked { PicksAlike }
{}

/// What changes with one instance, and that waiting lists stay those of the instances that wait; an instance that waits has
/// the options by them.
#[tactic(auto, using(crate::proofs::Choosing::one_changes, crate::proofs::Waiting::waiting_options))]
pub fn lists_law()
    ensures changes { OneChanges }
    ensures stay { ListsStay }
    ensures options { WaitingOptions }
{}

/// Of a sound program each label that a lawful policy picks in a kinded configuration leads to another, or ends the run, or
/// costs too much; and one is picked unless the run has ended.
pub fn safe_law()
    ensures safe { SafeAlways }
{
    kinded_law();
}

/// Over any list of calls the machine takes the labels that the policy picks, with their turns and times, writes their text
/// and ends as that run ends; and whatever it does over them is that.
pub fn turns_law()
    ensures turns { CallsFollow }
    ensures exact { CallsAreRight }
{
    safe_law();
}
