use crate::Instr;
use chi_base::Items;
use chi_token::Bytes;
use chi_value::Names;

/// The code of a program: that of its constants first, then that of its functions and of its processes
/// and models, in file order.
#[derive(Debug, Drop)]
pub struct Code {
    /// How many constants there are. Their code begins at instruction 0.
    pub consts: u32,
    pub funcs: Items<Entry>,
    /// Of processes and models.
    pub procs: Items<Entry>,
    /// The position of the model in `procs`.
    pub model: u32,
    /// Of the enumeration values.
    pub names: Names,
    pub instrs: Items<Instr>,
}

/// A function or a process: how many parameters and how many slots it has, and where its code begins.
#[derive(Debug, Drop)]
pub struct Entry {
    pub name: Bytes,
    pub arity: u32,
    pub slots: u32,
    pub entry: u64,
}

/// A loop around a place of the code: where it turns, where it ends, and whether it is a walk.
#[derive(Clone, Copy, Debug)]
pub struct Around {
    pub top: u64,
    pub end: u64,
    pub walks: bool,
}
