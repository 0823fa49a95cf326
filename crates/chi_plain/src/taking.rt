//! The taking of a label, with what is kept beside the configuration.

ghost use Rattle.std.specs.Prelude.{◌≡◌, IfOk, OnErr};
ghost use Rattle.chi_core.specs.Step.{step};
ghost use Rattle.chi_plain_steps.specs.Takings.{Appends, IsRight};
ghost use Rattle.chi_plain.specs.Taken.{TakesTo};

use crate::watching::{Watched, mended, noted};
use chi_base::NoMemory;
use chi_core::{Core, Label, Verdict};
use chi_plain_steps::Went;
use std::alloc::Global;

/// What taking a label did.
#[derive(Debug, Drop)]
pub enum Taken<'a> {
    /// It led there, and so much is left of the bound.
    On(Watched<'a>, u64),
    /// The run has ended so.
    Over(Verdict),
    /// It costs more than is left, and was not taken.
    Spent(Watched<'a>),
}

impl<'a> Watched<'a> {
    /// Takes a label, where so much is left of the bound.
    pub fn take(
        self,
        alloc: Global,
        core: &'a Core,
        label: &Label,
        left: u64,
        out: &mut Vec<u8>,
    ) -> Result<Taken<'a>, NoMemory>
        requires { IsRight (step core.now self label.now left) }
        ensures taken { IfOk result (λ taken. Appends out.old.items out.new.items
            (λ text. TakesTo (step core.now self.entry label.now left) self.entry text taken)) }
        ensures kept { OnErr result (out.new.items ≡ out.old.items) }
    {
        let Watched {
            mut configuration,
            kept,
        } = self;
        let known = noted(alloc, &configuration, &kept.parties, label)?;
        let written = out.len();
        match configuration.take(alloc, core, label, left, out)? {
            Went::On(rest) => {
                match mended(alloc, configuration, kept, label, known) {
                    Ok(watched) => Ok(Taken::On(watched, rest)),
                    Err(_) => {
                        out.truncate(written);
                        Err(NoMemory)
                    }
                }
            }
            Went::Over(verdict) => Ok(Taken::Over(verdict)),
            Went::Spent => Ok(Taken::Spent(Watched {
                configuration,
                kept,
            })),
        }
    }
}
