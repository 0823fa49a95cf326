//! New instances, and the room that instances have.

ghost use Rattle.std.specs.Prelude.{◌≡◌, ◌≢◌, [], None, Some, IfOk, IfErr};
ghost use Rattle.chi_machine_runs.specs.Resuming.{resumed_at};

use crate::opened::Opened;
use chi_core_frame::Stop;
use chi_exec::{Frame, Turning, fresh_frame};
use chi_value::Value;
use std::alloc::Global;

/// The room that an instance has while it is under way. That of one that has finished serves another.
#[derive(Drop)]
pub struct Room {
    pub frame: Box<Frame>,
    /// The offers with which it waits.
    pub opened: Opened,
}

/// A new instance, which stands where the code of its process begins.
#[derive(Drop)]
pub struct Made {
    /// The number of its process.
    pub process: u32,
    /// Its place in the code.
    pub at: usize,
    pub room: Room,
}

// Nothing is under way any longer.
#[inline(always)]
fn empty(under: &mut Vec<Turning>)
    ensures { under.new.items ≡ [] }
{
    while let Some(turning) = under.pop() {
        drop(turning);
    }
}

impl Room {
    /// Room with nothing in it.
    pub fn new(alloc: Global) -> Result<Room, Stop>
        ensures none { IfOk result (λ room. room.frame.value.variables ≡ []) }
        ensures idle { IfOk result (λ room. room.frame.value.under.items ≡ []) }
        ensures free { IfOk result (λ room. room.opened ≡ []) }
        ensures stops { IfErr result (λ stop. stop ≡ Stop.NoMemory) }
    {
        let frame = fresh_frame(alloc)?;
        Ok(Room {
            frame,
            opened: Opened::new(alloc),
        })
    }

    /// Lets go of all that is in it. What it takes of memory stays, for another instance.
    #[inline(always)]
    pub fn clear(&mut self)
        ensures none { self.new.frame.value.variables ≡ [] }
        ensures idle { self.new.frame.value.under.items ≡ [] }
        ensures free { self.new.opened ≡ [] }
    {
        self.frame.variables.clear();
        empty(&mut self.frame.under);
        self.opened.clear();
    }

    /// The offer of this number is taken: its names are bound, and what is received is stored. It has no offers then, and
    /// the place is where the offer's body begins.
    #[inline(always)]
    pub fn resume(&mut self, a: u32, received: Option<Value>) -> usize
        requires { resumed_at self.old.opened a received self.old.frame.value.variables ≢ None }
        ensures resumed { resumed_at self.old.opened a received self.old.frame.value.variables ≡ Some (self.new.frame.value.variables, result) }
        ensures under { self.new.frame.value.under.items ≡ self.old.frame.value.under.items }
        ensures free { self.new.opened ≡ [] }
    {
        self.opened.resume(&mut self.frame.variables, a, received)
    }
}
