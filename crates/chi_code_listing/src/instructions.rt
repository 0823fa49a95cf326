//! Instructions.

ghost use Rattle.std.specs.Prelude.{◌≡◌, ◌++◌, ◌∷◌, [], ℕ, codes, slice_get, Some, OnOk, IsTrue};
ghost use Rattle.std.specs.Fmt.{decimal};
ghost use Rattle.chi_value.specs.declared.value.Value.{Value};
ghost use Rattle.chi_value.specs.Plain.{is_plain, within};
ghost use Rattle.chi_value.specs.Text.{quoted_text};
ghost use Rattle.chi_code.specs.declared.instr.Instr.TheVariants as i;
ghost use Rattle.chi_code_listing.specs.Listing as spec;

use crate::parts::{put_assign, put_format, put_kind, put_make, put_op, put_shape};
use crate::words::{numbered, offered, put_bit, put_number, put_two, put_word};
use chi_base::{Items, NoMemory};
use chi_code::Instr;
use chi_core::OpName;
use chi_value::{Kind, Names, Shape, Value, quoted_of};
use std::alloc::Global;

fn put_push(alloc: Global, value: &Value, names: &Names, out: &mut Vec<u8>) -> Result<(), NoMemory>
    requires plain { IsTrue (is_plain value.now) }
    requires named { IsTrue (within names.now.kinds value.now) }
    ensures ok { OnOk result (out.new.items ≡ out.old.items ++ codes "push " ++ quoted_text names.now.kinds value.now) }
{
    put_word(b"push ", out)?;
    match quoted_of(alloc, value, names, out) {
        Ok(()) => Ok(()),
        Err(_) => Err(NoMemory),
    }
}

fn put_build(alloc: Global, kind: Kind, parts: u32, out: &mut Vec<u8>) -> Result<(), NoMemory>
    ensures ok { OnOk result (out.new.items ≡ out.old.items ++ codes "build " ++ spec.kind_text kind ++ 32 ∷ decimal parts) }
{
    put_word(b"build ", out)?;
    put_kind(kind, out)?;
    numbered(alloc, b" ", u64::from(parts), out)?;
    Ok(())
}

fn put_operator(
    alloc: Global,
    name: OpName,
    operands: u32,
    out: &mut Vec<u8>,
) -> Result<(), NoMemory>
    ensures ok { OnOk result (out.new.items ≡ out.old.items ++ codes "op " ++ spec.op_text name operands) }
{
    put_word(b"op ", out)?;
    put_op(alloc, name, operands, out)?;
    Ok(())
}

fn put_default(alloc: Global, shape: &Shape, out: &mut Vec<u8>) -> Result<(), NoMemory>
    ensures ok { OnOk result (out.new.items ≡ out.old.items ++ codes "default " ++ spec.shape_text shape.now) }
{
    put_word(b"default ", out)?;
    put_shape(shape, alloc, out)?;
    Ok(())
}

fn put_exit(value: bool, out: &mut Vec<u8>) -> Result<(), NoMemory>
    ensures ok { OnOk result (out.new.items ≡ out.old.items ++ codes "exit " ++ spec.bit value) }
{
    put_word(b"exit ", out)?;
    put_bit(value, out)?;
    Ok(())
}

fn put_receive(
    alloc: Global,
    goal: u64,
    slot: u32,
    slots: &Items<u32>,
    out: &mut Vec<u8>,
) -> Result<(), NoMemory>
    ensures ok { OnOk result (out.new.items ≡ out.old.items ++ codes "receive " ++ decimal goal ++ spec.slots_text (slot ∷ slots.now)) }
{
    numbered(alloc, b"receive ", goal, out)?;
    offered(alloc, b" ", u64::from(slot), slots, out)?;
    Ok(())
}

/// An instruction.
fn put_instr(alloc: Global, x: &Instr, names: &Names, out: &mut Vec<u8>) -> Result<(), NoMemory>
    requires told { (v : Value) → x.now ≡ i.Push v → IsTrue (is_plain v) × IsTrue (within names.now.kinds v) }
    ensures ok { OnOk result (out.new.items ≡ out.old.items ++ spec.instr_text names.now.kinds x.now) }
{
    match x {
        Instr::Tick => put_word(b"tick", out),
        Instr::Mark(line) => numbered(alloc, b"mark ", u64::from(*line), out),
        Instr::Push(value) => put_push(alloc, value, names, out),
        Instr::Load(slot) => numbered(alloc, b"load ", u64::from(*slot), out),
        Instr::Const(number) => numbered(alloc, b"const ", u64::from(*number), out),
        Instr::SetConst(number, line) => {
            put_two(
                alloc,
                b"setconst ",
                u64::from(*number),
                u64::from(*line),
                out,
            )
        }
        Instr::Op(name, operands) => put_operator(alloc, *name, *operands, out),
        Instr::And(goal) => numbered(alloc, b"and ", *goal, out),
        Instr::Or(goal) => numbered(alloc, b"or ", *goal, out),
        Instr::Build(kind, parts) => put_build(alloc, *kind, *parts, out),
        Instr::Part(number) => numbered(alloc, b"part ", u64::from(*number), out),
        Instr::Call(number) => numbered(alloc, b"call ", u64::from(*number), out),
        Instr::Scan => put_word(b"scan", out),
        Instr::Probe(goal) => numbered(alloc, b"probe ", *goal, out),
        Instr::Found(goal) => numbered(alloc, b"found ", *goal, out),
        Instr::Place => put_word(b"place", out),
        Instr::Default(shape) => put_default(alloc, shape, out),
        Instr::Repeat => put_word(b"repeat", out),
        Instr::More(goal) => numbered(alloc, b"more ", *goal, out),
        Instr::Add => put_word(b"add", out),
        Instr::Jump(goal) => numbered(alloc, b"jump ", *goal, out),
        Instr::Store(slot) => numbered(alloc, b"store ", u64::from(*slot), out),
        Instr::Spread(parts) => numbered(alloc, b"spread ", u64::from(*parts), out),
        Instr::Assign(aims) => put_assign(alloc, aims, out),
        Instr::IfFalse(goal) => numbered(alloc, b"iffalse ", *goal, out),
        Instr::Walk => put_word(b"walk", out),
        Instr::Next(goal, slots) => offered(alloc, b"next ", *goal, slots, out),
        Instr::Drop => put_word(b"drop", out),
        Instr::Ret => put_word(b"ret", out),
        Instr::NoRet => put_word(b"noret", out),
        Instr::Done => put_word(b"done", out),
        Instr::Exit(value) => put_exit(*value, out),
        Instr::Write(pieces) => put_format(alloc, pieces, out),
        Instr::Wait => put_word(b"wait", out),
        Instr::Send(goal, slots) => offered(alloc, b"send ", *goal, slots, out),
        Instr::SendVoid(goal, slots) => offered(alloc, b"sendvoid ", *goal, slots, out),
        Instr::Receive(goal, slot, slots) => put_receive(alloc, *goal, *slot, slots, out),
        Instr::ReceiveVoid(goal, slots) => {
            offered(alloc, b"receivevoid ", *goal, slots, out)?;
            Ok(())
        }
        Instr::Delay(goal, slots) => offered(alloc, b"delay ", *goal, slots, out),
        Instr::Timer(goal, slots) => offered(alloc, b"timer ", *goal, slots, out),
        Instr::Make(process, target) => put_make(alloc, *process, target, out),
        Instr::Join => put_word(b"join", out),
        Instr::Finish(count) => numbered(alloc, b"finish ", u64::from(*count), out),
    }
}

fn put_line(
    alloc: Global,
    place: u64,
    x: &Instr,
    names: &Names,
    out: &mut Vec<u8>,
) -> Result<(), NoMemory>
    requires told { (v : Value) → x.now ≡ i.Push v → IsTrue (is_plain v) × IsTrue (within names.now.kinds v) }
    ensures ok { OnOk result (out.new.items ≡ out.old.items ++ decimal place ++ 32 ∷ spec.instr_text names.now.kinds x.now ++ 10 ∷ []) }
{
    put_number(alloc, place, out)?;
    put_word(b" ", out)?;
    put_instr(alloc, x, names, out)?;
    put_word(b"\n", out)?;
    Ok(())
}

/// Instructions, each on a line with its place.
pub(crate) fn put_instrs(
    alloc: Global,
    xs: &[Instr],
    names: &Names,
    out: &mut Vec<u8>,
) -> Result<(), NoMemory>
    requires told { (p : ℕ) (v : Value) → slice_get xs.now p ≡ Some (i.Push v) → IsTrue (is_plain v) × IsTrue (within names.now.kinds v) }
    ensures ok { OnOk result (out.new.items ≡ out.old.items ++ spec.instrs_text names.now.kinds 0 xs.now) }
{
    let mut place: u64 = 0;
    for x in xs {
        put_line(alloc, place, x, names, out)?;
        place = place.checked_add(1).ok_or(NoMemory)?;
    }
    Ok(())
}
