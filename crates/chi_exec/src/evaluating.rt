//! Lists of expressions, and constants, by their code.

ghost use Rattle.std.specs.Prelude.{◌≡◌, [], IfOk, IfErr, OnOk, OnErr, List};
ghost use Rattle.chi_core.specs.declared.program.ConstDef.{ConstDef};
ghost use Rattle.chi_core.specs.declared.view.View.{View};
ghost use Rattle.chi_value.specs.declared.value.Value.{Value};
ghost use Rattle.chi_core.specs.Answer.{Answer};
ghost use Rattle.chi_core.specs.Beginning.{constant_view, constant_value};
ghost use Rattle.chi_core_frame.specs.Stops.{Stops};
ghost use Rattle.chi_exec_steps.specs.Views.{state_of};
ghost use Rattle.chi_exec.specs.Constants.{ConstantAt, ConstantReady, Sets};
ghost use Rattle.chi_core.specs.declared.expression.CExpr.{CExpr};
ghost use Rattle.chi_core.specs.declared.program.Core.{Core};
ghost use Rattle.chi_exec_law.specs.Laws.{begun, evaluated};
ghost use Rattle.chi_exec.specs.Evaluations.{scene_in, Stretch, Ready, Says, IsVal};
ghost use Rattle.chi_exec.specs.Hints.{AreRight};

use crate::extent::Extent;
use crate::hinting::hints_of;
use crate::running::run_on;
use chi_base::NoMemory;
use chi_code::Code;
use chi_core::{FaultKind, View};
use chi_core_apply::Scenery;
use chi_core_frame::{Stop, Variables};
use chi_exec_steps::{Machine, fresh_frame, pop};
use chi_value::Value;
use std::alloc::Global;
use std::mem;

/// What a run of expressions finds beside the code and the constants, and what it leaves.
#[derive(Debug, Drop)]
pub struct Outlook {
    pub variables: Variables,
    /// What evaluations use up.
    pub view: View,
    pub seed: u64,
    /// The time in units of a real.
    pub clock: i64,
    /// Whether it is finished, for each instance that there was before the step.
    pub finished: Vec<bool>,
}

/// What expressions come to.
#[derive(Debug, Drop)]
pub enum Ran {
    /// Their values, in order.
    Val(Vec<Value>),
    Fault(FaultKind),
    /// They cost more than is left of the bound.
    Spent,
    NoMemory,
}

/// A machine that runs lists of expressions, with the constants that are set so far.
#[derive(Debug, Drop)]
pub struct Exec {
    pub constants: Vec<Value>,
    /// A hint at each instruction of the code.
    pub hints: Vec<u8>,
    pub machine: Machine,
}

// A machine at the beginning of a run, with the variables that are lent to it, where it leaves its own.
fn set_out(m: &mut Machine, at: u64, variables: &mut Variables, view: View)
    ensures { state_of m.new ≡ begun at variables.old view }
{
    m.at = at as usize;
    m.stack.clear();
    m.callers.clear();
    m.frame.under.clear();
    m.view = view;
    mem::swap(&mut m.frame.variables, variables);
}

// Constants use nothing up.
fn first_view() -> View
    ensures { result ≡ constant_view }
{
    View {
        left: 0,
        draws: [0; 64],
        channels: 0,
        instances: 0,
    }
}

// A machine at the beginning of a constant's run, which has no variables.
fn set_out_first(m: &mut Machine, alloc: Global, at: u64) -> Result<(), Stop>
    ensures begun { OnOk result (state_of m.new ≡ begun at [] constant_view) }
    ensures stops { IfErr result (λ stop. stop ≡ Stop.NoMemory) }
{
    let mut variables = Variables::new(alloc, 0, Vec::new(alloc))?;
    set_out(m, at, &mut variables, first_view());
    Ok(())
}

fn answer_of(stop: Stop) -> Ran
    ensures says { (view : View) (answer : Answer (List Value)) → Stops stop answer → Says result view answer }
    ensures none { IsVal result → ⊥ }
{
    match stop {
        Stop::Fault(kind) => Ran::Fault(kind),
        Stop::Spent => Ran::Spent,
        Stop::NoMemory => Ran::NoMemory,
    }
}

impl Exec {
    /// A machine for this code. No constant is set.
    pub fn new(alloc: Global, code: &Code) -> Result<Exec, Stop>
        ensures right { IfOk result (λ exec. AreRight exec.hints.items code.now.instrs) }
        ensures none { IfOk result (λ exec. exec.constants.items ≡ []) }
    {
        let hints = hints_of(alloc, code.instrs.as_slice())?;
        let frame = fresh_frame(alloc)?;
        let machine = Machine {
            at: 0,
            stack: Vec::new(alloc),
            frame,
            callers: Vec::new(alloc),
            spare: Vec::new(alloc),
            view: first_view(),
            stop: Stop::NoMemory,
        };
        Ok(Exec {
            constants: Vec::new(alloc),
            hints,
            machine,
        })
    }

    /// The values of a list of expressions, whose code begins at a place. With them the machine rests where that code ends.
    /// What the outlook has after any other answer is worth nothing further.
    pub fn run_expr(&mut self, alloc: Global, code: &Code, at: u64, outlook: &mut Outlook) -> Ran
        requires right { AreRight self.old.hints.items code.now.instrs }
        requires ready { Ready code.now (scene_in code.now.names self.old.constants.items outlook.old) at outlook.old.variables outlook.old.view }
        ensures says { (core : Core) (es : List CExpr) → Stretch code.now (scene_in code.now.names self.old.constants.items outlook.old) at outlook.old.variables outlook.old.view core es → Says result outlook.new.view (evaluated core (scene_in code.now.names self.old.constants.items outlook.old) outlook.old.variables es outlook.old.view) }
        ensures kept { IsVal result → outlook.new.variables ≡ outlook.old.variables }
        ensures rests { IsVal result → (core : Core) (es : List CExpr) (stands : Stretch code.now (scene_in code.now.names self.old.constants.items outlook.old) at outlook.old.variables outlook.old.view core es) → self.new.machine.at ≡ stands.upto }
        ensures constants { self.new.constants.items ≡ self.old.constants.items }
        ensures still { AreRight self.new.hints.items code.now.instrs }
    {
        set_out(&mut self.machine, at, &mut outlook.variables, outlook.view);
        let scenery = Scenery {
            names: &code.names,
            seed: outlook.seed,
            clock: outlook.clock,
            constants: self.constants.as_slice(),
            finished: outlook.finished.as_slice(),
        };
        let hints = self.hints.as_slice();
        let m = &mut self.machine;
        if run_on(m, alloc, &scenery, code, hints, Extent::Expressions) {
            outlook.view = m.view;
            mem::swap(&mut m.frame.variables, &mut outlook.variables);
            Ran::Val(mem::replace(&mut m.stack, Vec::new(alloc)))
        } else {
            answer_of(m.stop)
        }
    }

    /// Sets the next constant, whose code begins at a place: its value joins those that are set, and the machine rests
    /// before the instruction that sets it. After an error the constants are as they were.
    pub fn set_constant(
        &mut self,
        alloc: Global,
        code: &Code,
        at: u64,
        seed: u64,
    ) -> Result<(), Stop>
        requires right { AreRight self.old.hints.items code.now.instrs }
        requires ready { ConstantReady code.now at seed self.old.constants.items }
        ensures sets { OnOk result ((core : Core) (c : ConstDef) → ConstantAt code.now at seed self.old.constants.items core c → Sets self.old.constants.items self.new.constants.items (constant_value core seed self.old.constants.items c)) }
        ensures rests { OnOk result ((core : Core) (c : ConstDef) (stands : ConstantAt code.now at seed self.old.constants.items core c) → self.new.machine.at ≡ stands.upto) }
        ensures kept { OnErr result (self.new.constants.items ≡ self.old.constants.items) }
        ensures stops { IfErr result (λ stop. (core : Core) (c : ConstDef) → ConstantAt code.now at seed self.old.constants.items core c → Stops stop (constant_value core seed self.old.constants.items c)) }
        ensures still { AreRight self.new.hints.items code.now.instrs }
    {
        set_out_first(&mut self.machine, alloc, at)?;
        let scenery = Scenery {
            names: &code.names,
            seed,
            clock: 0,
            constants: self.constants.as_slice(),
            finished: &[],
        };
        let hints = self.hints.as_slice();
        let m = &mut self.machine;
        if run_on(m, alloc, &scenery, code, hints, Extent::Expressions) {
            let value = pop(&mut m.stack);
            self.constants.push(value)?;
            Ok(())
        } else {
            Err(m.stop)
        }
    }
}
