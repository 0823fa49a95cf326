ghost use Rattle.std.specs.Prelude.{◌≡◌, ◌≢◌, None, Some};
ghost use Rattle.chi_machine_runs.specs.Resuming.{resumed_at, sent_at};
ghost use Rattle.chi_machine.specs.Views.{frame_at, offers_at};

use chi_machine_runs::Room;
use chi_value::Value;

/// An instance: the number of its process, its place in the code, and its room until it has finished.
#[derive(Drop)]
pub struct Instance {
    pub process: u32,
    pub at: usize,
    pub room: Option<Room>,
}

impl Instance {
    /// The offer of this number is taken, with what is received if it receives: what it sends, and the place where its
    /// body begins.
    #[inline(always)]
    pub(crate) fn resume(&mut self, a: u32, received: Option<Value>) -> (Option<Value>, usize)
        requires there { self.old.room ≢ None }
        requires may { resumed_at (offers_at self.old.room) a received (frame_at self.old.room).variables ≢ None }
        ensures sent { result.0 ≡ sent_at (offers_at self.old.room) a }
        ensures resumed { resumed_at (offers_at self.old.room) a received (frame_at self.old.room).variables ≡ Some ((frame_at self.new.room).variables, result.1) }
        ensures under { (frame_at self.new.room).under ≡ (frame_at self.old.room).under }
        ensures there { self.new.room ≢ None }
        ensures process { self.new.process ≡ self.old.process }
    {
        match &mut self.room {
            Some(room) => {
                let sent = room.opened.take_value(a);
                let place = room.resume(a, received);
                (sent, place)
            }
            None => unreachable!(),
        }
    }
}
