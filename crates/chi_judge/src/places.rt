//! Labels that may come next, with the numbers by which they are picked.

ghost use Rattle.std.specs.Prelude.{◌≡◌, ◌<◌, IfSome, Some, length, slice_get};
ghost use Rattle.chi_plain.specs.Stage.{actors_at, options_at};
ghost use Rattle.chi_judge.specs.Asking.{IsPlaced};

use chi_core::Label;
use chi_plain::Plain;

/// A label that may come next: option number `option` of number `actor` among the instances that have one; or Advance,
/// which is taken unasked.
#[derive(Clone, Copy, Debug)]
pub struct Found {
    pub label: Label,
    pub actor: u32,
    pub option: u64,
}

/// The place of an instance among those that have an option, where it is found by halves.
fn actor_place(runner: &Plain<'_>, pid: u32) -> Option<u32>
    ensures { IfSome result (λ i. slice_get (actors_at runner.now.stage) i ≡ Some pid) }
{
    let mut low = 0;
    let mut high = runner.actor_count();
    'half: while low < high {
        let middle = low + (high - low) / 2;
        let actor = runner.actor_at(middle);
        if actor == pid {
            return Some(middle);
        }
        if actor < pid {
            low = middle + 1;
        } else {
            high = middle;
        }
    }
    None
}

/// By what options of one instance are in order: its alternative, the partner and its alternative.
fn order_of(label: &Label) -> (u32, u32, u32) {
    match label {
        Label::Local(_) => (0, 0, 0),
        Label::Pair(_, number, other, accepting) => (*number, *other, *accepting),
        Label::Wake(_, number) => (*number, 0, 0),
        Label::Join(_) => (0, 0, 0),
        Label::Advance => (0, 0, 0),
    }
}

/// Whether a label stands before another among the options of an instance.
fn stands_before(label: &Label, other: &Label) -> bool {
    let (number, partner, accepting) = order_of(label);
    let (its_number, its_partner, its_accepting) = order_of(other);
    if number != its_number {
        return number < its_number;
    }
    if partner != its_partner {
        return partner < its_partner;
    }
    accepting < its_accepting
}

/// The place of a label among the options of an instance, where it is found by halves.
fn option_place(runner: &Plain<'_>, pid: u32, label: &Label) -> Option<u64>
    ensures { IfSome result (λ i. slice_get (options_at runner.now.stage pid) i ≡ Some label.now) }
{
    let mut low = 0;
    let mut high = runner.option_count(pid);
    'half: while low < high {
        let middle = low + (high - low) / 2;
        let option = runner.option_at(pid, middle);
        if option == *label {
            return Some(middle);
        }
        if stands_before(&option, label) {
            low = middle + 1;
        } else {
            high = middle;
        }
    }
    None
}

/// A label among the options of an instance, where it is found.
#[tactic(auto, using(crate::proofs::Placed::placing))]
fn option_found(runner: &Plain<'_>, pid: u32, label: &Label) -> Option<Found>
    ensures { IfSome result (IsPlaced runner.now.stage) }
{
    let actor = actor_place(runner, pid)?;
    let option = option_place(runner, pid, label)?;
    Some(Found {
        label: *label,
        actor,
        option,
    })
}

/// A label, where it may come and is found.
#[tactic(auto, using(crate::proofs::Placed::placing))]
pub fn placed(runner: &Plain<'_>, label: &Label) -> Option<Found>
    ensures { IfSome result (IsPlaced runner.now.stage) }
{
    match label {
        Label::Local(pid) => option_found(runner, *pid, label),
        Label::Pair(pid, _, _, _) => option_found(runner, *pid, label),
        Label::Wake(pid, _) => option_found(runner, *pid, label),
        Label::Join(pid) => option_found(runner, *pid, label),
        Label::Advance => {
            if runner.can_advance() {
                Some(Found {
                    label: Label::Advance,
                    actor: 0,
                    option: 0,
                })
            } else {
                None
            }
        }
    }
}
