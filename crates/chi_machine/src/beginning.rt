//! How the machine begins.

ghost use Rattle.std.specs.Prelude.{◌≡◌, ◌≤◌, ◌-◌, [], true, drop, length, nat_eq, slice_get, IfOk, Some};
ghost use Rattle.chi_code.specs.declared.code.Entry.{Entry};
ghost use Rattle.chi_core.specs.Variables.{variables_of};
ghost use Rattle.chi_machine_laws.specs.Beginning as law;
ghost use Rattle.chi_machine_laws.specs.Beginning.{Begins};
ghost use Rattle.chi_machine.specs.Beginnings.{HasBegun, IsFirst};

use crate::crowd::Crowd;
use crate::world::World;
use chi_base::NoMemory;
use chi_code::{Code, Entry};
use chi_core::FaultKind;
use chi_exec::hints_of;
use chi_machine_agenda::Agenda;
use chi_machine_constants::{Constants, fresh_machine, set_constants};
use chi_machine_runs::{Brought, Made, Room};
use chi_value::Value;
use std::alloc::Global;

/// What a beginning came to.
#[derive(Drop)]
pub enum Begun {
    /// The machine is ready: the model's instance is there alone.
    Ready(World),
    /// A fault in a constant, and its line: the run is over.
    Broken(FaultKind, u32),
}

// The room of an instance that begins with these arguments.
fn room_with(alloc: Global, entry: &Entry, arguments: Vec<Value>) -> Result<Room, NoMemory>
    requires { entry.now.arity ≤ length arguments.items }
    ensures begun { IfOk result (λ room. room.frame.value.variables ≡ variables_of entry.now.slots (drop (length arguments.items - entry.now.arity) arguments.items)) }
    ensures idle { IfOk result (λ room. room.frame.value.under.items ≡ []) }
{
    let mut values = arguments;
    let mut room = match Room::new(alloc) {
        Ok(room) => room,
        Err(_) => return Err(NoMemory),
    };
    let slots = entry.slots as usize;
    let arity = entry.arity as usize;
    room.frame.variables.begin(slots, arity, &mut values)?;
    Ok(room)
}

// An instance alone, whose code has this entry.
fn alone(
    alloc: Global,
    code: &Code,
    entry: &Entry,
    arguments: Vec<Value>,
    until: Option<i64>,
    spare: &mut Vec<Room>,
) -> Result<Crowd, NoMemory>
    requires there { slice_get code.now.procs code.now.model ≡ Some entry.now }
    requires arity { nat_eq (length arguments.items) entry.now.arity ≡ true }
    ensures { IfOk result (λ crowd. IsFirst code.now arguments.items until crowd) }
{
    let mut crowd = Crowd {
        instances: Vec::new(alloc),
        agenda: Agenda::new(alloc, until),
    };
    let room = room_with(alloc, entry, arguments)?;
    let at = entry.entry as usize;
    let process = code.model;
    crowd.add(code, Made { process, at, room }, spare)?;
    Ok(crowd)
}

// The model's instance, alone.
fn first_crowd(
    alloc: Global,
    code: &Code,
    arguments: Vec<Value>,
    until: Option<i64>,
    spare: &mut Vec<Room>,
) -> Result<Crowd, NoMemory>
    requires { (entry : Entry) × (slice_get code.now.procs code.now.model ≡ Some entry) × (nat_eq (length arguments.items) entry.arity ≡ true) }
    ensures { IfOk result (λ crowd. IsFirst code.now arguments.items until crowd) }
{
    match code.procs.as_slice().get(code.model as usize) {
        Some(entry) => alone(alloc, code, entry, arguments, until, spare),
        None => unreachable!(),
    }
}

// Nothing was brought yet.
fn nothing(alloc: Global) -> Brought {
    Brought {
        made: Vec::new(alloc),
        joins: Vec::new(alloc),
        text: Vec::new(alloc),
        exit: None,
        spare: Vec::new(alloc),
    }
}

impl World {
    /// Sets the constants, with which the model's instance begins, with these arguments.
    pub fn begin(
        alloc: Global,
        code: &Code,
        arguments: Vec<Value>,
        seed: u64,
        until: Option<i64>,
    ) -> Result<Begun, NoMemory>
        requires { (o : law.Begun) × Begins code.now arguments.items seed until 0 [] o }
        ensures { IfOk result (λ begun. HasBegun code.now arguments.items seed until begun) }
    {
        let hints = hints_of(alloc, code.instrs.as_slice())?;
        let constants = match set_constants(alloc, code, hints.as_slice(), seed)? {
            Constants::Set(values) => values,
            Constants::Broken(kind, line) => return Ok(Begun::Broken(kind, line)),
        };
        let mut brought = nothing(alloc);
        let crowd = first_crowd(alloc, code, arguments, until, &mut brought.spare)?;
        let exec = fresh_machine(alloc, 0)?;
        Ok(Begun::Ready(World {
            alloc,
            hints,
            exec,
            brought,
            crowd,
            constants,
            seed,
        }))
    }
}
