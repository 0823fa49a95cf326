//! Which line a fault in a constant has.

ghost use Rattle.std.specs.Prelude.{◌≡◌, ◌∷◌, List, drop};
ghost use Rattle.chi_code.specs.declared.instr.Instr.{Instr};
ghost use Rattle.chi_machine_laws.specs.Beginning.{line_from};
ghost use Rattle.chi_machine_constants.specs.Settings.{or_else};

use chi_code::Instr;

/// The line of a constant, where an instruction sets one.
fn line_in(instr: &Instr) -> Option<u32>
    ensures { (code : List Instr) → line_from (instr.now ∷ code) ≡ or_else result (line_from code) }
{
    match instr {
        Instr::SetConst(_, line) => Some(*line),
        Instr::Load(_)
        | Instr::Push(_)
        | Instr::Op(_, _)
        | Instr::Tick
        | Instr::Jump(_)
        | Instr::Call(_)
        | Instr::Ret
        | Instr::IfFalse(_)
        | Instr::Assign(_)
        | Instr::Next(_, _)
        | Instr::Const(_)
        | Instr::And(_)
        | Instr::Or(_)
        | Instr::Build(_, _)
        | Instr::Part(_)
        | Instr::Scan
        | Instr::Probe(_)
        | Instr::Found(_)
        | Instr::Place
        | Instr::Default(_)
        | Instr::Repeat
        | Instr::More(_)
        | Instr::Add
        | Instr::Store(_)
        | Instr::Spread(_)
        | Instr::Walk
        | Instr::Drop
        | Instr::NoRet
        | Instr::Mark(_)
        | Instr::Exit(_)
        | Instr::Write(_)
        | Instr::Wait
        | Instr::Send(_, _)
        | Instr::SendVoid(_, _)
        | Instr::Receive(_, _, _)
        | Instr::ReceiveVoid(_, _)
        | Instr::Delay(_, _)
        | Instr::Timer(_, _)
        | Instr::Make(_, _)
        | Instr::Join
        | Instr::Finish(_)
        | Instr::Done => None,
    }
}

/// The line of the first constant that code sets, from a place on.
pub(crate) fn line_from(instrs: &[Instr], at: usize) -> Option<u32>
    ensures { result ≡ line_from (drop at instrs.now) }
{
    for place in at..instrs.len() {
        if let Some(line) = line_in(&instrs[place]) {
            return Some(line);
        }
    }
    None
}
