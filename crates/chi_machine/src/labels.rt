//! The taking of a label.

ghost use Rattle.std.specs.Prelude.{◌≡◌, ℕ, suc, List, [], ◌++◌, IfOk, OnErr};
ghost use Rattle.chi_core.specs.declared.label.Label.TheVariants.{Pair, Wake, Join, Advance};
ghost use Rattle.chi_code.specs.declared.code.Code.{Code};
ghost use Rattle.chi_core.specs.Options.{actors};
ghost use Rattle.chi_machine_laws.specs.Choosing.{config_of};
ghost use Rattle.chi_machine.specs.Crowds.{IsCrowd, IsWorld};
ghost use Rattle.chi_machine.specs.Takings.{MayTake, Took};
ghost use Rattle.chi_machine.specs.Views.{whole_of};

use crate::taken::Taken;
use crate::world::World;
use chi_base::NoMemory;
use chi_chan::Party;
use chi_code::Code;
use chi_core::Label;
use chi_machine_agenda::agenda_law;

impl World {
    /// An instance sends by one of its offers, and another receives by one of its own.
    #[inline(always)]
    fn meet(
        &mut self,
        code: &Code,
        sender: Party,
        receiver: Party,
        left: u64,
    ) -> Result<Taken, NoMemory>
        requires kept { IsWorld code.now self.old }
        requires may { MayTake code.now (whole_of self.old) (Pair sender.pid sender.alternative receiver.pid receiver.alternative) (suc left) }
        ensures { IfOk result (λ taken. Took code.now (whole_of self.old) (Pair sender.pid sender.alternative receiver.pid receiver.alternative) (suc left) taken self.new []) }
    {
        let spare = &mut self.brought.spare;
        let sent = self
            .crowd
            .take_offer(code, sender.pid, sender.alternative, None, spare)?;
        self.crowd
            .take_offer(code, receiver.pid, receiver.alternative, sent, spare)?;
        Ok(Taken::On(left))
    }

    /// A delay of an instance is over.
    #[inline(always)]
    fn wake(&mut self, code: &Code, p: u32, a: u32, left: u64) -> Result<Taken, NoMemory>
        requires kept { IsWorld code.now self.old }
        requires may { MayTake code.now (whole_of self.old) (Wake p a) (suc left) }
        ensures { IfOk result (λ taken. Took code.now (whole_of self.old) (Wake p a) (suc left) taken self.new []) }
    {
        self.crowd
            .take_offer(code, p, a, None, &mut self.brought.spare)?;
        Ok(Taken::On(left))
    }

    /// Those for which an instance waits have finished.
    #[inline(always)]
    fn go_on(&mut self, code: &Code, p: u32, left: u64) -> Result<Taken, NoMemory>
        requires kept { IsWorld code.now self.old }
        requires may { MayTake code.now (whole_of self.old) (Join p) (suc left) }
        ensures { IfOk result (λ taken. Took code.now (whole_of self.old) (Join p) (suc left) taken self.new []) }
    {
        self.crowd.go_on(code, p, &mut self.brought.spare)?;
        Ok(Taken::On(left))
    }

    /// The time goes on to the least due time.
    fn advance(&mut self, left: u64) -> Taken
        requires kept { IsCrowd self.old.crowd }
        requires idle { actors (config_of (whole_of self.old)) ≡ [] }
        ensures { (code : Code) → IsWorld code self.old → MayTake code (whole_of self.old) Advance (suc left) → Took code (whole_of self.old) Advance (suc left) result self.new [] }
    {
        agenda_law();
        self.crowd.agenda.advance();
        Taken::On(left)
    }

    /// Takes a label that may be taken, where so much is left of the bound. What it writes goes to the end of the output,
    /// last of all.
    #[inline(always)]
    pub(crate) fn take(
        &mut self,
        code: &Code,
        label: &Label,
        left: u64,
        out: &mut Vec<u8>,
    ) -> Result<Taken, NoMemory>
        requires kept { IsWorld code.now self.old }
        requires may { MayTake code.now (whole_of self.old) label.now left }
        ensures taken { IfOk result (λ taken. (text : List ℕ) × (out.new.items ≡ out.old.items ++ text) × Took code.now (whole_of self.old) label.now left taken self.new text) }
        ensures kept { OnErr result (out.new.items ≡ out.old.items) }
    {
        if left == 0 {
            return Ok(Taken::Spent);
        }
        let left = left - 1;
        match label {
            Label::Local(p) => self.local(code, *p, left, out),
            Label::Pair(p, a, q, b) => {
                let sender = Party {
                    pid: *p,
                    alternative: *a,
                };
                let receiver = Party {
                    pid: *q,
                    alternative: *b,
                };
                self.meet(code, sender, receiver, left)
            }
            Label::Wake(p, a) => self.wake(code, *p, *a, left),
            Label::Join(p) => self.go_on(code, *p, left),
            Label::Advance => Ok(self.advance(left)),
        }
    }
}
