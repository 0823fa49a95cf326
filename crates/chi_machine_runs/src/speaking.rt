//! What an instance writes, and with what it ends the run of all.

ghost use Rattle.std.specs.Prelude.{◌≡◌, ◌≢◌, ◌+◌, ◌<◌, ◌^◌, Some, IfErr, IfOk, OnOk};
ghost use Rattle.chi_core_frame.specs.Stops.{Stops};
ghost use Rattle.chi_core.specs.Answer.{Amiss, Gives};
ghost use Rattle.chi_exec_steps.specs.Views.{state_of};
ghost use Rattle.chi_exec_law.specs.Runs.{Goes, Ends, Rests, Stuck};
ghost use Rattle.chi_machine_laws.specs.Deeds.{Exits, exit_by, exit_on, shown_in, text_by, write_on};
ghost use Rattle.chi_machine_runs.specs.Views.{done_by, there, Failed};

use crate::brought::Brought;
use crate::opened::Opened;
use crate::within::Within;
use chi_core::{FaultKind, View};
use chi_core_frame::Stop;
use chi_exec::{Machine, pop, pop_many};
use chi_format::{RenderFault, render, rendered_where_allowed};
use chi_value::{Names, Piece, TextFault, Value, quoted_of};
use std::alloc::Global;

// How many values pieces show.
#[tactic(auto, using(crate::proofs::Shown::counting))]
fn shown_in(pieces: &[Piece]) -> usize
    requires few { shown_in pieces.now < 2 ^ 64 }
    ensures { result ≡ shown_in pieces.now }
{
    let mut count = 0usize;
    for piece in pieces {
        match piece {
            Piece::Plain(_) => {}
            Piece::Any(_) | Piece::Whole(_) | Piece::Fixed(_, _) => count += 1,
        }
    }
    count
}

// The text of pieces with values.
fn text_by(
    alloc: Global,
    names: &Names,
    pieces: &[Piece],
    values: &[Value],
    view: &View,
) -> Result<Vec<u8>, Stop>
    requires { text_by names.now pieces.now values.now view.now ≢ Amiss }
    ensures text { IfOk result (λ text. text_by names.now pieces.now values.now view.now ≡ Gives text.items view.now) }
    ensures stops { IfErr result (λ stop. Stops stop (text_by names.now pieces.now values.now view.now)) }
{
    rendered_where_allowed();
    match render(alloc, pieces, values, names) {
        Ok(text) => Ok(text),
        Err(RenderFault::Limit) => Err(Stop::Fault(FaultKind::TooLarge)),
        Err(RenderFault::NoMemory) => Err(Stop::NoMemory),
    }
}

/// It writes values as the pieces say.
#[inline(never)]
#[tactic(auto, using(crate::proofs::Many::many))]
pub fn write(
    m: &mut Machine,
    opened: &Opened,
    brought: &mut Brought,
    w: &Within<'_>,
    pieces: &[Piece],
) -> Result<(), Stop>
    requires place { m.old.at + 1 < 2 ^ 64 }
    requires sound { done_by (write_on w.now.scenery.names.now pieces.now) w.now.code.now m.old opened.now brought.old ≢ Stuck }
    ensures goes { OnOk result (done_by (write_on w.now.scenery.names.now pieces.now) w.now.code.now m.old opened.now brought.old ≡ Goes (there w.now.code.now m.new opened.now brought.new)) }
    ensures ends { IfErr result (λ stop. Failed stop (done_by (write_on w.now.scenery.names.now pieces.now) w.now.code.now m.old opened.now brought.old)) }
{
    let values = pop_many(&mut m.stack, shown_in(pieces))?;
    let text = text_by(w.alloc, w.scenery.names, pieces, values.as_slice(), &m.view)?;
    brought.text.extend_from_slice(text.as_slice())?;
    m.at += 1;
    Ok(())
}

// That the value of an exit can be told, or is too large.
fn tell(alloc: Global, names: &Names, value: &Value, view: &View) -> Result<(), Stop>
    requires { exit_by names.now value.now view.now ≢ Amiss }
    ensures told { OnOk result (exit_by names.now value.now view.now ≡ Gives (Some value.now) view.now) }
    ensures stops { IfErr result (λ stop. Stops stop (exit_by names.now value.now view.now)) }
{
    let mut text = Vec::new(alloc);
    match quoted_of(alloc, value, names, &mut text) {
        Ok(()) => Ok(()),
        Err(TextFault::Limit) => Err(Stop::Fault(FaultKind::TooLarge)),
        Err(TextFault::NoMemory) => Err(Stop::NoMemory),
    }
}

/// It ends the run of all, with the value on top.
#[inline(never)]
pub fn exit(m: &mut Machine, brought: &mut Brought, w: &Within<'_>) -> Result<(), Stop>
    requires sound { exit_on w.now.scenery.names.now (state_of m.old) ≢ Stuck }
    ensures exits { OnOk result (exit_on w.now.scenery.names.now (state_of m.old) ≡ Ends (Rests (Exits brought.new.exit))) }
    ensures ends { IfErr result (λ stop. Failed stop (exit_on w.now.scenery.names.now (state_of m.old))) }
{
    let value = pop(&mut m.stack);
    tell(w.alloc, w.scenery.names, &value, &m.view)?;
    brought.exit = Some(value);
    Ok(())
}
