//! Runs of models in pieces, call by call.

ghost use Rattle.std.specs.Prelude.{IfOk};
ghost use Rattle.chi_machine.specs.Calls.{IsMachine};
ghost use Rattle.chi_machine_tests.specs.Programs.{HasCode};

use crate::programs::{Program, SEED, program_of};
use crate::shown::bare;
use chi_code::Code;
use chi_machine::Machine;
use chi_sched::First;
use std::alloc::Global;
use std::process::Abort;
use std::test::Fail;

/// So many turns, how the run stands after them with its clock and its verdict, and all that it has written by then.
type Piece<'a> = (u64, &'a str, &'a str);

const MEETING: &str = "proc Sender(chan! int a): delay 1.5; a!7; a!8 end
proc Receiver(chan? int a): int x, y; a?x; a?y; writeln(\"%d %d\", x, y) end
model M(): chan int a; run Sender(a), Receiver(a) end
";

/// The model declares the channel and starts both; the sender waits; the receiver declares two variables and waits: six
/// turns. Then the time goes on. The sender wakes and offers, they meet, the sender offers, the receiver waits, they meet,
/// and the receiver writes: seven turns. The last one is the model's, whose processes have finished.
const MEETS: [Piece; 8] = [
    (0, "Going at 0, None", ""),
    (1, "Going at 0, None", ""),
    (5, "Going at 0, None", ""),
    (1, "Going at 1500000000, None", ""),
    (6, "Going at 1500000000, None", ""),
    (1, "Going at 1500000000, None", "7 8\n"),
    (1000, "Ended at 1500000000, Some(Completed)", "7 8\n"),
    (1000, "Ended at 1500000000, Some(Completed)", "7 8\n"),
];

/// The eighth label costs more than is left.
const OUT_OF_STEPS: [Piece; 3] = [
    (7, "Going at 1500000000, None", ""),
    (1, "Ended at 1500000000, Some(OutOfSteps)", ""),
    (1, "Ended at 1500000000, Some(OutOfSteps)", ""),
];

const LEAVING: &str = "proc Giver(chan! int a): a!3 end
model int M(): chan int a; start Giver(a); int x; a?x; delay 0.25; writeln(\"%d\", x); exit x * x end
";

/// Three turns of the model, and its wait; the giver's offer; they meet; the delay begins. Then the time goes on, the model
/// wakes, writes and leaves.
const LEAVES: [Piece; 4] = [
    (7, "Going at 0, None", ""),
    (3, "Going at 250000000, None", "3\n"),
    (1, "Ended at 250000000, Some(Exit(Some(Int(9))))", "3\n"),
    (0, "Ended at 250000000, Some(Exit(Some(Int(9))))", "3\n"),
];

const FAULTY: &str = "const int n = 1 div 0
model M(): pass end
";

/// The name is `const`.
const FAULTS: [Piece; 2] = [
    (
        0,
        "Ended at 0, Some(Fault(DivideByZero, [99, 111, 110, 115, 116], 1))",
        "",
    ),
    (
        1,
        "Ended at 0, Some(Fault(DivideByZero, [99, 111, 110, 115, 116], 1))",
        "",
    ),
];

/// The start of a run of a model without parameters, within a bound.
fn begin(alloc: Global, p: &Program, bound: u32) -> Result<Machine, Fail>
    requires has { HasCode p.now.core p.now.code }
    ensures { IfOk result (IsMachine p.now.code) }
{
    let Some(model) = p.core.procs.as_slice().get(p.core.model as usize) else {
        return Err(Fail::new("no model"));
    };
    if !model.params.as_slice().is_empty() {
        return Err(Fail::new("parameters"));
    }
    let arguments = Vec::new(alloc);
    Ok(Machine::begin(alloc, &p.code, arguments, SEED, None, bound as u64)?)
}

/// So many turns, with the first choice at each: how the run stands after them, with its clock and its verdict.
fn go_on(
    alloc: Global,
    code: &Code,
    machine: &mut Machine,
    turns: u64,
    out: &mut Vec<u8>,
) -> Result<String, Fail>
    requires machine { IsMachine code.now machine.old }
    ensures machine { IsMachine code.now machine.new }
{
    let after = machine.advance(code, &First, turns, out);
    let clock = machine.clock();
    let text = format!(in alloc; "{after:?} at {clock}, {:?}", machine.verdict())?;
    bare(alloc, text.as_str())
}

/// Asserts how a run stands after each piece, and what it has written by then.
fn expect_by(
    rt: &impl Abort,
    alloc: Global,
    code: &Code,
    machine: &mut Machine,
    pieces: &[Piece],
) -> Result<(), Fail>
    requires machine { IsMachine code.now machine.old }
{
    let mut out = Vec::new(alloc);
    for piece in pieces {
        let (turns, wanted, written) = *piece;
        let told = go_on(alloc, code, machine, turns, &mut out)?;
        assert_eq!(rt; told.as_str(), wanted, "after {turns} more");
        assert_eq!(rt; out.as_slice(), written.as_bytes(), "after {turns} more");
    }
    Ok(())
}

fn expect_in(
    rt: &impl Abort,
    alloc: Global,
    p: &Program,
    bound: u32,
    pieces: &[Piece],
) -> Result<(), Fail>
    requires has { HasCode p.now.core p.now.code }
{
    let mut machine = begin(alloc, p, bound)?;
    let met = expect_by(rt, alloc, &p.code, &mut machine, pieces);
    drop(machine);
    met
}

fn expect(
    rt: &impl Abort,
    alloc: Global,
    source: &str,
    bound: u32,
    pieces: &[Piece],
) -> Result<(), Fail> {
    let p = program_of(rt, alloc, source.as_bytes())?;
    let met = expect_in(rt, alloc, &p, bound, pieces);
    drop(p);
    met
}

#[test]
fn runs_go_on_in_pieces(rt: HostRuntime) -> Result<(), Fail> {
    let alloc = rt.alloc();
    expect(&rt, alloc, MEETING, 1000, &MEETS)?;
    expect(&rt, alloc, MEETING, 7, &OUT_OF_STEPS)?;
    expect(&rt, alloc, LEAVING, 1000, &LEAVES)?;
    expect(&rt, alloc, FAULTY, 1000, &FAULTS)
}
