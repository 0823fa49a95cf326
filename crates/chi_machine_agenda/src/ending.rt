//! How the time goes on, and how a run ends.

ghost use Rattle.std.specs.Prelude.{◌≡◌, []};
ghost use Rattle.std.specs.List.{list_all};
ghost use Rattle.chi_core.specs.Config.{Config};
ghost use Rattle.chi_core.specs.Meeting.{may_reach, next_due};
ghost use Rattle.chi_core.specs.Options.{actors, advance_to, at_rest, ending, stopped_at};
ghost use Rattle.chi_machine_agenda.specs.Phases.{reached};
ghost use Rattle.chi_machine_agenda.specs.Reading.{advances, config_of};

use crate::agenda::Agenda;
use crate::timing::{go_to_next, least_due};
use chi_core::{Label, Verdict};
use std::marker::Model;

/// How a run ended, and when, in units of a real.
#[derive(Debug, Drop)]
pub struct Ending {
    verdict: Verdict,
    clock: i64,
}

impl Model for Ending {
    ghost use Rattle.std.specs.Coded.{codes};
    ghost use Rattle.chi_value.specs.contracts.value.Value as values;
    ghost use Rattle.chi_core.specs.Options.{Ending};

    ghost Value = { Ending };

    ghost coded = { Prim.hlevel (codes, values.the_row.coded) };

    ghost view = { λ e. record { verdict = e.verdict; clock = e.clock } };
}

impl Ending {
    /// The ending with this verdict, at a time.
    pub fn of(verdict: Verdict, clock: i64) -> Ending
        ensures { result ≡ record { verdict = verdict; clock = clock } }
    {
        Ending { verdict, clock }
    }

    /// How the run ended.
    pub fn verdict(&self) -> &Verdict
        ensures { result.now ≡ self.now.verdict }
    {
        &self.verdict
    }

    /// When the run ended, in units of 10^-9.
    pub fn clock(&self) -> i64
        ensures { result ≡ self.now.clock }
    {
        self.clock
    }
}

/// Whether the time may go on to `due`, where the run is stopped at `until`.
fn may_reach(until: Option<i64>, due: i64) -> bool
    ensures { result ≡ may_reach until due }
{
    match until {
        Some(until) => due <= until,
        None => true,
    }
}

/// That the time goes on to a due time, if there is one and it may.
pub(crate) fn advance_label(until: Option<i64>, due: Option<i64>) -> Option<Label>
    ensures { (config : Config) → config.until ≡ until → result ≡ advance_to config due }
{
    let due = match due {
        Some(due) => due,
        None => return None,
    };
    if may_reach(until, due) {
        Some(Label::Advance)
    } else {
        None
    }
}

/// How a run ends whose instances haven't all finished, where the time can't go on.
fn stopped_at(clock: i64, due: Option<i64>, until: Option<i64>) -> Ending
    ensures { (config : Config) → config.clock ≡ clock → result ≡ stopped_at config due until }
{
    match (due, until) {
        (Some(_), Some(until)) => Ending::of(Verdict::Stopped, until),
        (Some(_), None) => Ending::of(Verdict::Deadlock, clock),
        (None, _) => Ending::of(Verdict::Deadlock, clock),
    }
}

/// Whether all of them have finished.
fn are_all(finished: &[bool]) -> bool
    ensures { result ≡ list_all (λ b. b) finished.now }
{
    for ended in finished {
        if !*ended {
            return false;
        }
    }
    true
}

impl Agenda {
    /// The time goes on to the least due time, if there is one, where no instance has an option.
    pub fn advance(&mut self)
        requires { actors (config_of self.old) ≡ [] }
        ensures { self.new ≡ reached self.old (next_due (config_of self.old)) }
    {
        go_to_next(&mut self.clock, &mut self.ready, &mut self.dues);
    }

    /// Whether the time goes on next: no instance has an option, and the least due time may be reached.
    pub fn can_advance(&self) -> bool
        ensures { result ≡ advances (config_of self.now) }
    {
        if self.actor_count() > 0 {
            return false;
        }
        self.advance_label().is_some()
    }

    /// The ending where nothing is enabled.
    fn at_rest(&self) -> Ending
        requires { actors (config_of self.now) ≡ [] }
        ensures { result ≡ at_rest (config_of self.now) }
    {
        if are_all(self.finished.as_slice()) {
            return Ending::of(Verdict::Completed, self.clock);
        }
        stopped_at(self.clock, least_due(&self.dues), self.until)
    }

    /// How the run ends here, where nothing can happen.
    pub fn ending(&self) -> Option<Ending>
        ensures { result ≡ ending (config_of self.now) }
    {
        if self.actor_count() > 0 {
            return None;
        }
        match self.advance_label() {
            Some(_) => None,
            None => Some(self.at_rest()),
        }
    }
}
