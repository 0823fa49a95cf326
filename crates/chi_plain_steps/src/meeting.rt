//! What labels other than `Local` do: offers are taken, instances go on once those for which they
//! wait have finished, and the time goes on.

ghost use Rattle.std.specs.Prelude.{◌≡◌, ◌≢◌, slice_get, IfOk, OnOk};
ghost use Rattle.chi_core.specs.Answer.{Amiss, Gives};
ghost use Rattle.chi_core.specs.Config.{view_of, with_view};
ghost use Rattle.chi_core.specs.Meeting.{advanced, joined, next_due, offer_at, paired, woken};
ghost use Rattle.chi_core.specs.Performing.{quietly};
ghost use Rattle.chi_plain_steps.specs.Meetings.{resumed_at, sent_at};

use crate::configuration::Configuration;
use chi_base::NoMemory;
use chi_core::View;
use chi_value::Value;
use std::alloc::Global;

impl<'a> Configuration<'a> {
    /// What is used up here, where so much is left of the bound.
    pub fn view(&self, left: u64) -> View
        ensures { result ≡ view_of self.now left }
    {
        View {
            left,
            draws: self.draws,
            channels: self.channels,
            instances: self.instances.len() as u32,
        }
    }

    /// What was used up.
    pub(crate) fn use_up(&mut self, view: &View)
        ensures { self.new ≡ with_view view.now self.old }
    {
        self.draws = view.draws;
        self.channels = view.channels;
    }

    /// An offer of instance `pid` is taken, and it receives a value where there is one. What it sends
    /// is the answer.
    #[tactic(auto, using(crate::proofs::Changes::changes))]
    fn resume(
        &mut self,
        alloc: Global,
        pid: u32,
        number: u32,
        received: Option<Value>,
        view: &View,
    ) -> Result<Option<Value>, NoMemory>
        requires { resumed_at self.old pid number received view.now ≢ Amiss }
        ensures resumed { OnOk result (resumed_at self.old pid number received view.now ≡ Gives self.new view.now) }
        ensures sent { IfOk result (λ sent. sent ≡ sent_at self.old pid number) }
    {
        let instance = &mut self.instances[pid as usize];
        let sent = instance.resume(alloc, number, received, view);
        instance.settle();
        let finished = instance.has_finished();
        self.finished[pid as usize] = finished;
        sent
    }

    /// An instance sends by an alternative, and another receives by one of its own.
    pub(crate) fn pair(
        &mut self,
        alloc: Global,
        pid: u32,
        number: u32,
        other: u32,
        accepting: u32,
        view: &View,
    ) -> Result<(), NoMemory>
        requires { paired self.old pid (slice_get self.old.instances pid) (offer_at (slice_get self.old.instances pid) number)
            other (slice_get self.old.instances other) (offer_at (slice_get self.old.instances other) accepting) view.now ≢ Amiss }
        ensures { OnOk result (paired self.old pid (slice_get self.old.instances pid) (offer_at (slice_get self.old.instances pid) number)
            other (slice_get self.old.instances other) (offer_at (slice_get self.old.instances other) accepting) view.now ≡ Gives (quietly self.new) view.now) }
    {
        let sent = self.resume(alloc, pid, number, None, view)?;
        let _ = self.resume(alloc, other, accepting, sent, view)?;
        Ok(())
    }

    /// The delay of an alternative of an instance has passed.
    pub(crate) fn wake(
        &mut self,
        alloc: Global,
        pid: u32,
        number: u32,
        view: &View,
    ) -> Result<(), NoMemory>
        requires { woken self.old pid (slice_get self.old.instances pid) (offer_at (slice_get self.old.instances pid) number) view.now ≢ Amiss }
        ensures { OnOk result (woken self.old pid (slice_get self.old.instances pid) (offer_at (slice_get self.old.instances pid) number) view.now ≡ Gives (quietly self.new) view.now) }
    {
        let _ = self.resume(alloc, pid, number, None, view)?;
        Ok(())
    }

    /// Those for which an instance waits have finished.
    #[tactic(auto, using(crate::proofs::Changes::changes))]
    pub(crate) fn join(&mut self, pid: u32, view: &View)
        requires { joined self.old pid (slice_get self.old.instances pid) view.now ≢ Amiss }
        ensures { joined self.old pid (slice_get self.old.instances pid) view.now ≡ Gives (quietly self.new) view.now }
    {
        let instance = &mut self.instances[pid as usize];
        instance.go_on();
        let finished = instance.has_finished();
        self.finished[pid as usize] = finished;
    }

    /// The time goes on to the least due time.
    pub(crate) fn advance(&mut self, view: &View)
        requires { advanced self.old (next_due self.old) view.now ≢ Amiss }
        ensures { advanced self.old (next_due self.old) view.now ≡ Gives (quietly self.new) view.now }
    {
        if let Some(time) = self.least_due() {
            self.clock = time;
        }
    }
}
