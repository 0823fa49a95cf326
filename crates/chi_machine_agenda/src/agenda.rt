ghost use Rattle.std.specs.Prelude.{◌≡◌, ◌<◌, ◌≤◌, [], pos, Some, length, slice_get, OnErr, OnOk};
ghost use Rattle.chi_core.specs.declared.limits.TheConstants.{MOST_INSTANCES, MOST_OFFERS};
ghost use Rattle.chi_machine_agenda.specs.Phases.{are_over, waits, with_more, with_phase, AreThere, IsJoining};
ghost use Rattle.chi_machine_agenda.specs.Phases as phase;

use crate::adding::make_room;
use crate::joining::{Joins, end_join, finish, join};
use crate::meeting::{come, go};
use crate::standing::{Standing, count, enlist, stand};
use chi_base::NoMemory;
use chi_chan::{Offer, Waiting};
use chi_order::{Dues, Ranks};
use std::alloc::Global;
use std::marker::Model;

/// What each instance waits for, and so which of them may act. Contracts see the time, the stopping time, and a phase for
/// each instance.
///
/// Where a call is refused, all is as before.
#[derive(Debug, Drop)]
pub struct Agenda {
    pub(crate) clock: i64,
    pub(crate) until: Option<i64>,
    pub(crate) standings: Vec<Standing>,
    /// For each instance whether it has finished.
    pub(crate) finished: Vec<bool>,
    pub(crate) waiting: Waiting,
    /// Those that have an option.
    pub(crate) ready: Ranks,
    /// The due time that each waits for, where none of its own has come.
    pub(crate) dues: Dues,
    pub(crate) joins: Joins,
}

impl Model for Agenda {
    ghost use Rattle.chi_machine_agenda.specs.Phases.{Agenda};
    ghost use Rattle.chi_machine_agenda.specs.Kept.{phases_from, IsKept};

    ghost Value = { Agenda };

    ghost view = { λ a. record { clock = a.clock; until = a.until; phases = phases_from 0 a.standings.items a.waiting a.joins.numbers } };

    ghost invariant = { λ a. IsKept a.clock a.standings.items a.finished.items a.waiting a.ready a.dues a.joins.numbers a.joins.left.items a.joins.watchers };
}

impl Agenda {
    /// No instances, at time 0. It takes no memory.
    pub fn new(alloc: Global, until: Option<i64>) -> Agenda
        ensures { result ≡ record { clock = pos 0; until = until; phases = [] } }
    {
        Agenda {
            clock: 0,
            until,
            standings: Vec::new(alloc),
            finished: Vec::new(alloc),
            waiting: Waiting::new(alloc),
            ready: Ranks::new(alloc),
            dues: Dues::new(alloc),
            joins: Joins::new(alloc),
        }
    }

    /// One instance more, which runs. Its number is how many there were.
    pub fn add(&mut self) -> Result<(), NoMemory>
        requires { length self.old.phases < MOST_INSTANCES }
        ensures ok { OnOk result (self.new ≡ with_more self.old) }
        ensures err { OnErr result (self.new ≡ self.old) }
    {
        let pid = count(&self.standings);
        make_room(
            &mut self.ready,
            &mut self.dues,
            &mut self.joins,
            pid as u32 + 1,
        )?;
        enlist(&mut self.standings, &mut self.finished)?;
        self.ready.insert(pid as u32);
        Ok(())
    }

    /// Instance `pid`, which runs, waits with these offers.
    #[inline(always)]
    pub fn wait(&mut self, pid: u32, offers: &[Offer]) -> Result<(), NoMemory>
        requires runs { slice_get self.old.phases pid ≡ Some phase.Running }
        requires few { length offers.now ≤ MOST_OFFERS }
        ensures ok { OnOk result (self.new ≡ with_phase self.old pid (phase.Waiting offers.now)) }
        ensures err { OnErr result (self.new ≡ self.old) }
    {
        come(
            self.clock,
            &mut self.waiting,
            &mut self.ready,
            &mut self.dues,
            pid,
            offers,
        )?;
        stand(&mut self.standings, pid, Standing::Waiting);
        Ok(())
    }

    /// Instance `pid`, which waits with these offers, goes on: it runs.
    #[inline(always)]
    pub fn go_on(&mut self, pid: u32, offers: &[Offer])
        requires { slice_get self.old.phases pid ≡ Some (phase.Waiting offers.now) }
        ensures { self.new ≡ with_phase self.old pid phase.Running }
    {
        go(
            self.clock,
            &mut self.waiting,
            &mut self.ready,
            &mut self.dues,
            pid,
            offers,
        );
        stand(&mut self.standings, pid, Standing::Running);
    }

    /// Instance `pid`, which runs, waits until those of these numbers have finished.
    pub fn join(&mut self, pid: u32, numbers: &[u32]) -> Result<(), NoMemory>
        requires runs { slice_get self.old.phases pid ≡ Some phase.Running }
        requires there { AreThere (length self.old.phases) numbers.now }
        ensures ok { OnOk result (self.new ≡ with_phase self.old pid (phase.Joining numbers.now)) }
        ensures err { OnErr result (self.new ≡ self.old) }
    {
        join(
            &self.finished,
            &mut self.ready,
            &mut self.joins,
            pid,
            numbers,
        )?;
        stand(&mut self.standings, pid, Standing::Joining);
        Ok(())
    }

    /// Instance `pid`, which waits until others have finished, goes on: it runs.
    pub fn end_join(&mut self, pid: u32)
        requires { IsJoining (slice_get self.old.phases pid) }
        ensures { self.new ≡ with_phase self.old pid phase.Running }
    {
        end_join(&mut self.ready, &mut self.joins, pid);
        stand(&mut self.standings, pid, Standing::Running);
    }

    /// Instance `pid`, which runs, has finished.
    pub fn finish(&mut self, pid: u32) -> Result<(), NoMemory>
        requires { slice_get self.old.phases pid ≡ Some phase.Running }
        ensures ok { OnOk result (self.new ≡ with_phase self.old pid phase.Finished) }
        ensures err { OnErr result (self.new ≡ self.old) }
    {
        finish(&mut self.finished, &mut self.ready, &mut self.joins, pid)?;
        stand(&mut self.standings, pid, Standing::Finished);
        Ok(())
    }
}
