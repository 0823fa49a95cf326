ghost use Rattle.std.specs.Prelude.{◌≡◌, ◌≢◌, Err, OnOk, IfErr};
ghost use Rattle.chi_ops.specs.Paths.{steps_of};
ghost use Rattle.chi_core.specs.Answer.{Gives, Amiss};
ghost use Rattle.chi_core.specs.Spots.{store, store_into};
ghost use Rattle.chi_core_frame.specs.Spots.{spot_in};
ghost use Rattle.chi_core_frame.specs.Stops.{Stops};

use crate::stop::Stop;
use crate::variables::Variables;
use chi_core::View;
use chi_ops::{Path, put};
use chi_value::Value;
use std::alloc::Global;

/// A part of a variable: its slot, and the way into it.
#[derive(Debug, Drop)]
pub struct Spot {
    pub slot: u32,
    pub path: Vec<Path>,
}

/// Stores a value at a spot, which uses nothing up.
pub fn store(
    alloc: Global,
    variables: &mut Variables,
    spot: Spot,
    value: Value,
    view: &View,
) -> Result<(), Stop>
    requires { store (spot_in spot, value) variables.old view.now ≢ Amiss }
    ensures value { OnOk result (store (spot_in spot, value) variables.old view.now ≡ Gives variables.new view.now) }
    ensures stops { IfErr result (λ stop. Stops stop (store (spot_in spot, value) variables.old view.now)) }
    ensures never { result ≢ Err Stop.Spent }
{
    let Spot { slot, path } = spot;
    Ok(store_into(alloc, variables, slot, path, value, view)?)
}

#[tactic(auto, using(crate::proofs::Storing::storing))]
fn store_into(
    alloc: Global,
    variables: &mut Variables,
    slot: u32,
    path: Vec<Path>,
    value: Value,
    view: &View,
) -> Result<(), Stop>
    requires { store_into slot (steps_of path.items) value variables.old view.now ≢ Amiss }
    ensures value { OnOk result (store_into slot (steps_of path.items) value variables.old view.now ≡ Gives variables.new view.now) }
    ensures stops { IfErr result (λ stop. Stops stop (store_into slot (steps_of path.items) value variables.old view.now)) }
    ensures never { result ≢ Err Stop.Spent }
{
    match path.as_slice() {
        [] => {
            variables.set(slot, value);
            Ok(())
        }
        [_, ..] => {
            let old = variables.take(slot);
            match put(alloc, old, path.as_slice(), value) {
                Ok(changed) => {
                    variables.set(slot, changed);
                    Ok(())
                }
                Err(fault) => Err(Stop::from(fault)),
            }
        }
    }
}
