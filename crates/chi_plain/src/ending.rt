//! How a run ends where nothing can happen.

ghost use Rattle.std.specs.Prelude.{◌≡◌, ◌↔◌, ◌<◌, length, is_some, nat_lt, IsTrue, Contains};
ghost use Rattle.chi_core.specs.declared.label.Label.TheVariants as label;
ghost use Rattle.chi_core.specs.Meeting.{may_reach, next_due};
ghost use Rattle.chi_core.specs.Options.{actors, advance, all_finished, at_rest, enabled, ending};

use crate::watching::Watched;
use chi_core::Verdict;
use chi_plain_steps::Ending;

/// Whether the time may go on to `time`, where the run is stopped at `until`.
fn may_reach(until: Option<i64>, time: i64) -> bool
    ensures { result ≡ may_reach until time }
{
    match until {
        Some(until) => time <= until,
        None => true,
    }
}

impl<'a> Watched<'a> {
    /// Whether some instance has an option.
    fn has_actor(&self) -> bool
        ensures { result ≡ nat_lt 0 (length (actors self.now)) }
    {
        self.actor_count() > 0
    }

    /// Whether the time may go on, where no instance has an option.
    fn advances(&self) -> bool
        ensures { result ≡ is_some (advance self.now) }
    {
        match self.configuration.least_due() {
            Some(time) => may_reach(self.configuration.until(), time),
            None => false,
        }
    }

    pub fn can_advance(&self) -> bool
        ensures { IsTrue result ↔ Contains (enabled self.now) label.Advance }
    {
        !self.has_actor() && self.advances()
    }

    fn all_finished(&self) -> bool
        ensures { result ≡ all_finished self.now }
    {
        self.configuration
            .instances()
            .iter()
            .all(|instance| instance.has_finished())
    }

    /// The ending where nothing is enabled.
    fn at_rest(&self) -> Ending
        ensures { result ≡ at_rest self.now }
    {
        if self.all_finished() {
            return Ending::of(Verdict::Completed, self.clock());
        }
        match (self.configuration.least_due(), self.configuration.until()) {
            (Some(_), Some(until)) => Ending::of(Verdict::Stopped, until),
            (Some(_), None) => Ending::of(Verdict::Deadlock, self.clock()),
            (None, _) => Ending::of(Verdict::Deadlock, self.clock()),
        }
    }

    /// How the run ends here, where nothing can happen.
    pub fn ending(&self) -> Option<Ending>
        ensures { result ≡ ending self.now }
    {
        if self.has_actor() {
            return None;
        }
        if self.advances() {
            return None;
        }
        Some(self.at_rest())
    }
}
