ghost use Rattle.chi_machine_events.specs.Laws.{ChannelsAlike, EventsAlike};

/// What a trace tells of a label, and the channel on which that sends, are read off the machine's own state: they are those
/// of the configuration for which it stands.
#[tactic(auto, using(crate::proofs::Alike::channels_alike, crate::proofs::Alike::events_alike))]
pub fn events_alike_law()
    ensures channels { ChannelsAlike }
    ensures events { EventsAlike }
{}
