//! What holds of all code. The functions compute nothing: their contracts are the laws.

ghost use Rattle.std.specs.Prelude.{◌≡◌, ◌≤◌, ◌<◌, ℕ, List, [], Some, length, slice_get, IsTrue};
ghost use Rattle.chi_value.specs.declared.value.Value.{Value};
ghost use Rattle.chi_value.specs.Plain.{is_plain, within};
ghost use Rattle.chi_core.specs.declared.program.Core.{Core};
ghost use Rattle.chi_core.specs.declared.program.FuncDef.{FuncDef};
ghost use Rattle.chi_core.specs.declared.program.ProcDef.{ProcDef};
ghost use Rattle.chi_core.specs.Sound.{Sound, SoundFunction, SoundProcess};
ghost use Rattle.chi_code.specs.declared.code.Code.{Code};
ghost use Rattle.chi_code.specs.declared.instr.Instr.{Instr};
ghost use Rattle.chi_code.specs.declared.instr.Instr.TheVariants as i;
ghost use Rattle.chi_code.specs.Codes.{Codes, in_function, in_process};
ghost use Rattle.chi_code.specs.ExpressionLayout.{Has};
ghost use Rattle.chi_code.specs.Naming.{Named};
ghost use Rattle.chi_code.specs.StatementLayout.{BlockAt};

/// A program has one code at most.
pub fn code_is_unique()
    ensures one { (core : Core) (c d : Code) → Codes core c → Codes core d → c ≡ d }
{}

/// The literals in the code of a sound program are plain, with names for their enumeration values: such
/// code can be listed.
pub fn literals_can_be_listed()
    ensures told { (core : Core) (code : Code) → Sound core → Codes core code → (p : ℕ) (v : Value) → slice_get code.instrs p ≡ Some (i.Push v)
        → IsTrue (is_plain v) × IsTrue (within code.names.kinds v) }
{}

/// Each instruction in the code of a sound program names constants, functions and processes that are
/// there, and slots of some definition.
pub fn what_code_names()
    ensures there { (core : Core) (code : Code) → Sound core → Codes core code → (p : ℕ) (x : Instr) → slice_get code.instrs p ≡ Some x → (count : ℕ) × Named core count x }
{}

/// In the code of a sound function the slots are its own.
pub fn what_a_function_names()
    ensures there { (core : Core) (code : List Instr) (f : FuncDef) (a b : ℕ) → SoundFunction core f → BlockAt code in_function f.slots [] f.body a b
        → (p : ℕ) (x : Instr) → a ≤ p → p < b → Has code p x → Named core (length f.slots) x }
{}

/// And in that of a sound process.
pub fn what_a_process_names()
    ensures there { (core : Core) (code : List Instr) (d : ProcDef) (a b : ℕ) → SoundProcess core d → BlockAt code in_process d.slots [] d.body a b
        → (p : ℕ) (x : Instr) → a ≤ p → p < b → Has code p x → Named core (length d.slots) x }
{}
