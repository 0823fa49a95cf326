//! A program to its code.

ghost use Rattle.std.specs.Prelude.{None, IfOk, OnOk, [], ◌∷◌};
ghost use Rattle.chi_code.specs.Codes.{Codes};
ghost use Rattle.chi_core.specs.Kinds.{Every};
ghost use Rattle.chi_core.specs.Sound.{Sound};
ghost use Rattle.chi_gen_parts.specs.Added.{AddsBlock, AddsConsts, AddsFuncs, AddsProcs};
ghost use Rattle.chi_gen.specs.Soundness.{SoundBody};

use crate::here::Here;
use crate::statements::block;
use chi_base::{Items, NoMemory};
use chi_code::{Code, Entry, Instr};
use chi_core::{CStat, ConstDef, Core, FuncDef, ProcDef};
use chi_gen_parts::{expression, names_copy, number_of, place, plus_one, put};
use chi_types::Ty;
use std::alloc::Global;

fn constant(alloc: Global, number: u32, k: &ConstDef, code: &mut Vec<Instr>) -> Result<(), NoMemory>
    ensures { OnOk result (AddsConsts number (k.now ∷ []) code.old.items code.new.items) }
{
    expression(alloc, &k.value, code)?;
    put(code, Instr::SetConst(number, k.line))?;
    Ok(())
}

fn constants(alloc: Global, ks: &[ConstDef], code: &mut Vec<Instr>) -> Result<(), NoMemory>
    ensures { OnOk result (AddsConsts 0 ks.now code.old.items code.new.items) }
{
    let mut number = 0;
    for k in ks {
        constant(alloc, number, k, code)?;
        number = plus_one(number)?;
    }
    Ok(())
}

/// A whole body, once it is measured.
fn whole(
    alloc: Global,
    process: bool,
    slots: &[Ty],
    body: &[CStat],
    code: &mut Vec<Instr>,
) -> Result<(), NoMemory>
    requires { SoundBody slots.now body.now }
    ensures { OnOk result (AddsBlock process slots.now None body.now code.old.items code.new.items) }
{
    let here = Here {
        alloc,
        process,
        slots,
        near: None,
    };
    let sizes = chi_gen_sizes::block(alloc, body, false)?;
    block(&here, body, sizes.as_slice(), code)?;
    Ok(())
}

fn function(alloc: Global, f: &FuncDef, code: &mut Vec<Instr>) -> Result<Entry, NoMemory>
    requires { SoundBody f.now.slots f.now.body }
    ensures { IfOk result (λ entry. AddsFuncs (f.now ∷ []) (entry ∷ []) code.old.items code.new.items) }
{
    let entry = Entry {
        name: f.name.copy()?,
        arity: f.arity,
        slots: number_of(&f.slots)?,
        entry: place(code),
    };
    whole(alloc, false, f.slots.as_slice(), f.body.as_slice(), code)?;
    put(code, Instr::NoRet)?;
    Ok(entry)
}

fn functions(alloc: Global, fs: &[FuncDef], code: &mut Vec<Instr>) -> Result<Items<Entry>, NoMemory>
    requires { Every (λ f. SoundBody f.slots f.body) fs.now }
    ensures { IfOk result (λ entries. AddsFuncs fs.now entries code.old.items code.new.items) }
{
    let mut entries = Vec::new(alloc);
    for f in fs {
        let entry = function(alloc, f, code)?;
        entries.push(entry)?;
    }
    Ok(Items::of(alloc, entries)?)
}

fn process(alloc: Global, d: &ProcDef, code: &mut Vec<Instr>) -> Result<Entry, NoMemory>
    requires { SoundBody d.now.slots d.now.body }
    ensures { IfOk result (λ entry. AddsProcs (d.now ∷ []) (entry ∷ []) code.old.items code.new.items) }
{
    let entry = Entry {
        name: d.name.copy()?,
        arity: number_of(&d.params)?,
        slots: number_of(&d.slots)?,
        entry: place(code),
    };
    whole(alloc, true, d.slots.as_slice(), d.body.as_slice(), code)?;
    put(code, Instr::Done)?;
    Ok(entry)
}

fn processes(alloc: Global, ds: &[ProcDef], code: &mut Vec<Instr>) -> Result<Items<Entry>, NoMemory>
    requires { Every (λ d. SoundBody d.slots d.body) ds.now }
    ensures { IfOk result (λ entries. AddsProcs ds.now entries code.old.items code.new.items) }
{
    let mut entries = Vec::new(alloc);
    for d in ds {
        let entry = process(alloc, d, code)?;
        entries.push(entry)?;
    }
    Ok(Items::of(alloc, entries)?)
}

/// The code of a sound program.
pub fn generate(alloc: Global, core: &Core) -> Result<Code, NoMemory>
    requires sound { Sound core.now }
    ensures code { IfOk result (λ code. Codes core.now code) }
{
    let mut instrs = Vec::new(alloc);
    constants(alloc, core.consts.as_slice(), &mut instrs)?;
    put(&mut instrs, Instr::Done)?;
    let funcs = functions(alloc, core.funcs.as_slice(), &mut instrs)?;
    let procs = processes(alloc, core.procs.as_slice(), &mut instrs)?;
    let consts = number_of(&core.consts)?;
    let names = names_copy(alloc, &core.names)?;
    let instrs = Items::of(alloc, instrs)?;
    Ok(Code {
        consts,
        funcs,
        procs,
        model: core.model,
        names,
        instrs,
    })
}
