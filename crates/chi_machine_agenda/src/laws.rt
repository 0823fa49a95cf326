ghost use Rattle.chi_machine_agenda.specs.Laws.{ActorsAlike, AdvancesAlike, DueAlike, EnabledAlike, EndingsAlike, OptionsAlike, PicksAlike};

/// What may come next by the agenda of a configuration is what may come next in it: options, who has one, the least due
/// time, how time goes on, what is enabled, how the run ends, and what a policy picks.
#[tactic(auto, using(crate::proofs::Erasing::options_alike, crate::proofs::Erasing::actors_alike, crate::proofs::Erasing::due_alike, crate::proofs::Erasing::advances_alike, crate::proofs::Erasing::enabled_alike, crate::proofs::Erasing::endings_alike, crate::proofs::Erasing::picks_alike))]
pub fn agenda_law()
    ensures options { OptionsAlike }
    ensures actors { ActorsAlike }
    ensures due { DueAlike }
    ensures advance { AdvancesAlike }
    ensures enabled { EnabledAlike }
    ensures ending { EndingsAlike }
    ensures picked { PicksAlike }
{}
