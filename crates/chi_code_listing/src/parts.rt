//! Parts of instructions: kinds, operators, shapes, formats and targets.

ghost use Rattle.std.specs.Prelude.{◌≡◌, ◌++◌, ◌∷◌, [], codes, OnOk};
ghost use Rattle.std.specs.Fmt.{decimal};
ghost use Rattle.chi_token.specs.Texts.{quoted};
ghost use Rattle.chi_code_listing.specs.Listing as spec;

use crate::words::{numbered, put_bit, put_number, put_word};
use chi_base::{Items, NoMemory};
use chi_code::{Aim, AimStep};
use chi_core::OpName;
use chi_token::quoted;
use chi_value::{Field, Kind, Piece, Shape};
use std::alloc::Global;

/// The kind of a literal.
pub(crate) fn put_kind(kind: Kind, out: &mut Vec<u8>) -> Result<(), NoMemory>
    ensures ok { OnOk result (out.new.items ≡ out.old.items ++ spec.kind_text kind) }
{
    match kind {
        Kind::TupleOf => put_word(b"tuple", out),
        Kind::ListOf => put_word(b"list", out),
        Kind::SetOf => put_word(b"set", out),
        Kind::DictOf => put_word(b"dict", out),
    }
}

fn put_slice(from: bool, upto: bool, by: bool, out: &mut Vec<u8>) -> Result<(), NoMemory>
    ensures ok { OnOk result (out.new.items ≡ out.old.items ++ codes "slice " ++ spec.bit from ++ spec.bit upto ++ spec.bit by) }
{
    put_word(b"slice ", out)?;
    put_bit(from, out)?;
    put_bit(upto, out)?;
    put_bit(by, out)?;
    Ok(())
}

/// The name of an operator.
pub(crate) fn put_op(
    alloc: Global,
    name: OpName,
    operands: u32,
    out: &mut Vec<u8>,
) -> Result<(), NoMemory>
    ensures ok { OnOk result (out.new.items ≡ out.old.items ++ spec.op_text name operands) }
{
    match name {
        OpName::Slice(from, upto, by) => put_slice(from, upto, by, out),
        OpName::Min => numbered(alloc, b"min ", u64::from(operands), out),
        OpName::Max => numbered(alloc, b"max ", u64::from(operands), out),
        OpName::Range => numbered(alloc, b"range ", u64::from(operands), out),
        _ => put_word(name.spelling().as_bytes(), out),
    }
}

/// A shape.
#[cycle(shape)]
#[tactic(auto, using(crate::proofs::Written::shape_bool, crate::proofs::Written::shape_int, crate::proofs::Written::shape_real, crate::proofs::Written::shape_string, crate::proofs::Written::shape_list, crate::proofs::Written::shape_set, crate::proofs::Written::shape_dict, crate::proofs::Written::shape_chan, crate::proofs::Written::shape_dist_bool, crate::proofs::Written::shape_dist_int, crate::proofs::Written::shape_dist_real, crate::proofs::Written::shape_timer, crate::proofs::Written::shape_inst))]
pub(crate) fn put_shape(shape: &Shape, alloc: Global, out: &mut Vec<u8>) -> Result<(), NoMemory>
    ensures ok { OnOk result (out.new.items ≡ out.old.items ++ spec.shape_text shape.now) }
{
    match shape {
        Shape::Bool => put_word(b"bool", out),
        Shape::Int => put_word(b"int", out),
        Shape::Real => put_word(b"real", out),
        Shape::Text => put_word(b"string", out),
        Shape::Choice(number) => {
            numbered(alloc, b"enum ", u64::from(*number), out)?;
            Ok(())
        }
        Shape::TupleOf(parts) => {
            put_word(b"(", out)?;
            put_shapes(parts.as_slice(), alloc, out)?;
            put_word(b")", out)?;
            Ok(())
        }
        Shape::ListOf => put_word(b"list", out),
        Shape::SetOf => put_word(b"set", out),
        Shape::DictOf => put_word(b"dict", out),
        Shape::Chan => put_word(b"chan", out),
        Shape::DistBool => put_word(b"dist bool", out),
        Shape::DistInt => put_word(b"dist int", out),
        Shape::DistReal => put_word(b"dist real", out),
        Shape::Timer => put_word(b"timer", out),
        Shape::Inst => put_word(b"inst", out),
    }
}

#[cycle(shape)]
fn put_shapes(shapes: &[Shape], alloc: Global, out: &mut Vec<u8>) -> Result<(), NoMemory>
    ensures ok { OnOk result (out.new.items ≡ out.old.items ++ spec.shapes_text shapes.now) }
{
    let Some((first, rest)) = shapes.split_first() else {
        return Ok(());
    };
    put_shape(first, alloc, out)?;
    for shape in rest {
        put_word(b", ", out)?;
        put_shape(shape, alloc, out)?;
    }
    Ok(())
}

/// A byte of a plain piece.
fn put_plain(byte: u8, out: &mut Vec<u8>) -> Result<(), NoMemory>
    ensures ok { OnOk result (out.new.items ≡ out.old.items ++ spec.plain_text (byte ∷ [])) }
{
    if byte == b'%' {
        put_word(b"%%", out)
    } else {
        out.push(byte)?;
        Ok(())
    }
}

fn put_bytes(bytes: &[u8], out: &mut Vec<u8>) -> Result<(), NoMemory>
    ensures ok { OnOk result (out.new.items ≡ out.old.items ++ spec.plain_text bytes.now) }
{
    for byte in bytes {
        put_plain(*byte, out)?;
    }
    Ok(())
}

fn put_width(alloc: Global, width: u8, out: &mut Vec<u8>) -> Result<(), NoMemory>
    ensures ok { OnOk result (out.new.items ≡ out.old.items ++ spec.width_text width) }
{
    if width == 0 {
        Ok(())
    } else {
        put_number(alloc, u64::from(width), out)
    }
}

fn put_left(left: bool, out: &mut Vec<u8>) -> Result<(), NoMemory>
    ensures ok { OnOk result (out.new.items ≡ out.old.items ++ spec.left_text left) }
{
    if left { put_word(b"-", out) } else { Ok(()) }
}

fn put_field(alloc: Global, field: Field, letter: &[u8], out: &mut Vec<u8>) -> Result<(), NoMemory>
    ensures ok { OnOk result (out.new.items ≡ out.old.items ++ spec.field_text field ++ letter.now) }
{
    put_word(b"%", out)?;
    put_left(field.left, out)?;
    put_width(alloc, field.width, out)?;
    put_word(letter, out)?;
    Ok(())
}

fn put_fixed(alloc: Global, field: Field, decimals: u8, out: &mut Vec<u8>) -> Result<(), NoMemory>
    ensures ok { OnOk result (out.new.items ≡ out.old.items ++ spec.field_text field ++ codes "." ++ decimal decimals ++ codes "f") }
{
    put_field(alloc, field, b".", out)?;
    put_number(alloc, u64::from(decimals), out)?;
    put_word(b"f", out)?;
    Ok(())
}

fn put_piece(alloc: Global, piece: &Piece, out: &mut Vec<u8>) -> Result<(), NoMemory>
    ensures ok { OnOk result (out.new.items ≡ out.old.items ++ spec.piece_text piece.now) }
{
    match piece {
        Piece::Plain(bytes) => put_bytes(bytes.as_slice(), out),
        Piece::Any(field) => put_field(alloc, *field, b"s", out),
        Piece::Whole(field) => put_field(alloc, *field, b"d", out),
        Piece::Fixed(field, decimals) => put_fixed(alloc, *field, *decimals, out),
    }
}

fn put_pieces(alloc: Global, pieces: &[Piece], out: &mut Vec<u8>) -> Result<(), NoMemory>
    ensures ok { OnOk result (out.new.items ≡ out.old.items ++ spec.pieces_text pieces.now) }
{
    for piece in pieces {
        put_piece(alloc, piece, out)?;
    }
    Ok(())
}

/// What is written.
pub(crate) fn put_format(
    alloc: Global,
    pieces: &Items<Piece>,
    out: &mut Vec<u8>,
) -> Result<(), NoMemory>
    ensures ok { OnOk result (out.new.items ≡ out.old.items ++ codes "write " ++ quoted (spec.pieces_text pieces.now)) }
{
    let mut text = Vec::new(alloc);
    put_pieces(alloc, pieces.as_slice(), &mut text)?;
    let spelled = quoted(alloc, text.as_slice())?;
    put_word(b"write ", out)?;
    put_word(spelled.as_slice(), out)?;
    Ok(())
}

fn put_step(alloc: Global, step: &AimStep, out: &mut Vec<u8>) -> Result<(), NoMemory>
    ensures ok { OnOk result (out.new.items ≡ out.old.items ++ spec.steps_text (step.now ∷ [])) }
{
    match step {
        AimStep::Index => put_word(b"[]", out),
        AimStep::Part(number) => numbered(alloc, b".", u64::from(*number), out),
    }
}

fn put_steps(alloc: Global, steps: &[AimStep], out: &mut Vec<u8>) -> Result<(), NoMemory>
    ensures ok { OnOk result (out.new.items ≡ out.old.items ++ spec.steps_text steps.now) }
{
    for step in steps {
        put_step(alloc, step, out)?;
    }
    Ok(())
}

fn put_aim(alloc: Global, aim: &Aim, out: &mut Vec<u8>) -> Result<(), NoMemory>
    ensures ok { OnOk result (out.new.items ≡ out.old.items ++ spec.aim_text aim.now) }
{
    numbered(alloc, b" ", u64::from(aim.slot), out)?;
    put_steps(alloc, aim.steps.as_slice(), out)?;
    Ok(())
}

fn put_aims(alloc: Global, aims: &[Aim], out: &mut Vec<u8>) -> Result<(), NoMemory>
    ensures ok { OnOk result (out.new.items ≡ out.old.items ++ spec.aims_text aims.now) }
{
    for aim in aims {
        put_aim(alloc, aim, out)?;
    }
    Ok(())
}

/// An assignment to targets.
pub(crate) fn put_assign(
    alloc: Global,
    aims: &Items<Aim>,
    out: &mut Vec<u8>,
) -> Result<(), NoMemory>
    ensures ok { OnOk result (out.new.items ≡ out.old.items ++ codes "assign" ++ spec.aims_text aims.now) }
{
    put_word(b"assign", out)?;
    put_aims(alloc, aims.as_slice(), out)?;
    Ok(())
}

fn put_some_aim(alloc: Global, aim: &Option<Aim>, out: &mut Vec<u8>) -> Result<(), NoMemory>
    ensures ok { OnOk result (out.new.items ≡ out.old.items ++ spec.some_aim_text aim.now) }
{
    match aim {
        None => Ok(()),
        Some(aim) => put_aim(alloc, aim, out),
    }
}

/// A new instance.
pub(crate) fn put_make(
    alloc: Global,
    process: u32,
    target: &Option<Aim>,
    out: &mut Vec<u8>,
) -> Result<(), NoMemory>
    ensures ok { OnOk result (out.new.items ≡ out.old.items ++ codes "make " ++ decimal process ++ spec.some_aim_text target.now) }
{
    numbered(alloc, b"make ", u64::from(process), out)?;
    put_some_aim(alloc, target, out)?;
    Ok(())
}
