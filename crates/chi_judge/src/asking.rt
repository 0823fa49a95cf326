//! Which of the labels that may come next is the one that is looked for.

ghost use Rattle.std.specs.Prelude.{◌≡◌, ◌<◌, IfOk, IfSome, length};
ghost use Rattle.chi_plain.specs.Stage.{MayStep, actors_at};
ghost use Rattle.chi_judge.specs.Asking.{HasLine, IsFirst, IsFirstOf, IsPlaced, IsTheLabel, Passes};
ghost use Rattle.chi_judge.specs.declared.asking.Question.TheVariants.{Line};

use crate::places::{Found, placed};
use chi_base::NoMemory;
use chi_core::Label;
use chi_plain::Plain;
use chi_trace::{Filter, TraceFault, line_of, read_line};
use std::alloc::Global;

/// What is asked of a label.
#[derive(Clone, Copy, Debug)]
pub enum Question<'t> {
    /// Whether its line at this turn is this one.
    Line(u64, &'t [u8]),
    /// Whether it costs more than is left of the bound.
    Spent(u64),
}

/// Whether the line of a label at a turn is this one.
#[tactic(auto, using(crate::proofs::Asked::answering))]
fn has_line(
    alloc: Global,
    runner: &Plain<'_>,
    turn: u64,
    label: &Label,
    line: &[u8],
) -> Result<bool, NoMemory>
    requires { MayStep runner.now.stage label.now }
    ensures { IfOk result (HasLine runner.now.core runner.now.stage turn label.now line.now) }
{
    match runner.event_of(turn, label, &Filter::All)? {
        Some(event) => {
            let mut text = Vec::new(alloc);
            line_of(alloc, &event, &mut text)?;
            Ok(text.as_slice() == line)
        }
        None => unreachable!(),
    }
}

/// The answer to a question on a label that may come next.
#[tactic(auto, using(crate::proofs::Asked::answering, crate::proofs::Placed::moving))]
fn passes(
    alloc: Global,
    runner: &Plain<'_>,
    question: &Question<'_>,
    label: &Label,
) -> Result<bool, NoMemory>
    requires { MayStep runner.now.stage label.now }
    ensures { IfOk result (Passes runner.now.core runner.now.stage question.now label.now) }
{
    match question {
        Question::Line(turn, line) => has_line(alloc, runner, *turn, label, line),
        Question::Spent(left) => runner.spent(label, *left),
    }
}

/// The first of the options of one of the instances that have some of which the answer is yes.
#[tactic(auto, using(crate::proofs::Asked::optioning, crate::proofs::Placed::moving))]
fn first_option(
    alloc: Global,
    runner: &Plain<'_>,
    question: &Question<'_>,
    actor: u32,
) -> Result<Option<Found>, NoMemory>
    requires { actor < length (actors_at runner.now.stage) }
    ensures { IfOk result (IsFirstOf runner.now.core runner.now.stage question.now actor) }
{
    let pid = runner.actor_at(actor);
    let options = runner.option_count(pid);
    for option in 0..options {
        let label = runner.option_at(pid, option);
        if passes(alloc, runner, question, &label)? {
            return Ok(Some(Found {
                label,
                actor,
                option,
            }));
        }
    }
    Ok(None)
}

/// Advance, where the time may go on and the answer is yes.
#[tactic(auto, using(crate::proofs::Asked::advancing, crate::proofs::Placed::moving))]
fn advance_if(
    alloc: Global,
    runner: &Plain<'_>,
    question: &Question<'_>,
) -> Result<Option<Found>, NoMemory>
    requires { length (actors_at runner.now.stage) ≡ 0 }
    ensures { IfOk result (IsFirst runner.now.core runner.now.stage question.now) }
{
    if !runner.can_advance() {
        return Ok(None);
    }
    let label = Label::Advance;
    if passes(alloc, runner, question, &label)? {
        Ok(Some(Found {
            label,
            actor: 0,
            option: 0,
        }))
    } else {
        Ok(None)
    }
}

/// The first label that may come next of which the answer is yes.
#[tactic(auto, using(crate::proofs::Asked::acting))]
pub fn first_label(
    alloc: Global,
    runner: &Plain<'_>,
    question: &Question<'_>,
) -> Result<Option<Found>, NoMemory>
    ensures { IfOk result (IsFirst runner.now.core runner.now.stage question.now) }
{
    let actors = runner.actor_count();
    if actors == 0 {
        return advance_if(alloc, runner, question);
    }
    for actor in 0..actors {
        match first_option(alloc, runner, question, actor)? {
            Some(found) => return Ok(Some(found)),
            None => {}
        }
    }
    Ok(None)
}

/// The label that a line seems to tell, where it may come.
fn guessed(alloc: Global, runner: &Plain<'_>, line: &[u8]) -> Result<Option<Found>, NoMemory>
    ensures { IfOk result (λ guess. IfSome guess (IsPlaced runner.now.stage)) }
{
    let Some((_, text)) = line.split_last() else {
        return Ok(None);
    };
    match read_line(alloc, text) {
        Ok(event) => Ok(placed(runner, &event.label)),
        Err(TraceFault::Form) => Ok(None),
        Err(TraceFault::NoMemory) => Err(NoMemory),
    }
}

/// The label that may come at a turn and has this line. It is guessed from the line, and only where that fails all are asked.
#[tactic(auto, using(crate::proofs::Asked::labelling, crate::proofs::Placed::moving))]
pub fn label_of(
    alloc: Global,
    runner: &Plain<'_>,
    turn: u64,
    line: &[u8],
) -> Result<Option<Found>, NoMemory>
    ensures { IfOk result (IsTheLabel runner.now.core runner.now.stage turn line.now) }
{
    let question = Question::Line(turn, line);
    if let Some(guess) = guessed(alloc, runner, line)? {
        if passes(alloc, runner, &question, &guess.label)? {
            return Ok(Some(guess));
        }
    }
    first_label(alloc, runner, &question)
}
