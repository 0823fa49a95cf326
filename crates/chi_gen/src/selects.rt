//! The alternatives of a select to their code, with the places that their bodies will have.

ghost use Rattle.std.specs.Prelude.{◌≡◌, ◌+◌, ◌++◌, length, IfOk, OnOk, [], ◌∷◌};
ghost use Rattle.chi_core.specs.Kinds.{Every};
ghost use Rattle.chi_code.specs.Sizes.{guard_size, comm_size};
ghost use Rattle.chi_gen_sizes.specs.Measuring.{AltMeasured, AltsMeasured};
ghost use Rattle.chi_gen_parts.specs.Added.{walks_in};
ghost use Rattle.chi_gen_parts.specs.Soundness.{SoundCommAt};
ghost use Rattle.chi_gen.specs.Passes.{AddsFronts, AddsOffer};
ghost use Rattle.chi_gen.specs.Soundness.{in_loop, SoundAlternativeAt};

use crate::here::Here;
use chi_base::NoMemory;
use chi_code::Instr;
use chi_core::{CAlt, CComm, CExpr};
use chi_gen_parts::{Offered, behind, communication, expression, guard, place, put, slots_copy};
use chi_gen_sizes::{Measured, plus, total_of};
use std::alloc::Global;

/// A guard, if there is one, and a communication, up to an end that is known from their sizes.
fn offer(
    within: &Offered<'_>,
    end: u64,
    test: &Option<CExpr>,
    comm: &CComm,
    code: &mut Vec<Instr>,
) -> Result<(), NoMemory>
    requires sound { SoundCommAt within.now.slots.now comm.now }
    requires known { end ≡ length code.old.items + (guard_size test.now + comm_size comm.now) }
    ensures { OnOk result (AddsOffer within.now.slots.now within.now.names.now within.now.body test.now comm.now code.old.items code.new.items) }
{
    guard(within.alloc, end, test, code)?;
    communication(within, comm, code)?;
    Ok(())
}

/// The names of the unwinds around, with those of one more.
fn names_with(alloc: Global, names: &[u32], own: &[u32]) -> Result<Vec<u32>, NoMemory>
    ensures { IfOk result (λ r. r.items ≡ names.now ++ own.now) }
{
    let mut all = Vec::from_slice(alloc, names)?;
    all.extend_from_slice(own)?;
    Ok(all)
}

/// An alternative, whose body or bodies begin at the place: the place behind them.
#[cycle(front)]
fn front(
    here: &Here<'_>,
    names: &[u32],
    first: u64,
    x: &CAlt,
    sizes: &Measured,
    code: &mut Vec<Instr>,
) -> Result<u64, NoMemory>
    requires sound { SoundAlternativeAt here.now.slots.now (in_loop here.now.near) x.now }
    requires measured { AltMeasured (walks_in here.now.near) x.now sizes.now }
    ensures { IfOk result (λ next. AddsFronts here.now.slots.now (walks_in here.now.near) names.now (x.now ∷ []) first next code.old.items code.new.items) }
{
    match x {
        CAlt::Guarded(test, comm, _) => {
            let next = plus(first, sizes.bodies)?;
            let end = plus(place(code), sizes.size)?;
            let within = Offered {
                alloc: here.alloc,
                slots: here.slots,
                names,
                body: first,
            };
            offer(&within, end, test, comm, code)?;
            Ok(next)
        }
        CAlt::Unwind(own, e, alternatives) => {
            let xs = alternatives.as_slice();
            let parts = sizes.parts.as_slice();
            let inner = names_with(here.alloc, names, own.as_slice())?;
            expression(here.alloc, e, code)?;
            put(code, Instr::Walk)?;
            let top = place(code);
            let end = behind(code, plus(total_of(parts)?, 1)?)?;
            put(code, Instr::Next(end, slots_copy(here.alloc, own)?))?;
            let next = fronts(here, inner.as_slice(), first, xs, parts, code)?;
            put(code, Instr::Jump(top))?;
            Ok(next)
        }
    }
}

/// Alternatives, whose bodies begin at the place: the place behind these.
#[cycle(front)]
pub(crate) fn fronts(
    here: &Here<'_>,
    names: &[u32],
    first: u64,
    xs: &[CAlt],
    sizes: &[Measured],
    code: &mut Vec<Instr>,
) -> Result<u64, NoMemory>
    requires sound { Every (SoundAlternativeAt here.now.slots.now (in_loop here.now.near)) xs.now }
    requires measured { AltsMeasured (walks_in here.now.near) xs.now sizes.now }
    ensures { IfOk result (λ next. AddsFronts here.now.slots.now (walks_in here.now.near) names.now xs.now first next code.old.items code.new.items) }
{
    let mut next = first;
    for i in 0..xs.len() {
        next = front(here, names, next, &xs[i], &sizes[i], code)?;
    }
    Ok(next)
}
