//! What holds of all operations. The functions compute nothing: their contracts are the laws.

ghost use Rattle.chi_core_kinds.specs.Laws.{DefaultsKeepKinds, DictionariesKeepKinds, DistributionsKeepKinds, ElementsKeepKinds, EntriesKeepKinds, FormatsRender, InsertionsKeepKinds, ListsKeepKinds, LiteralsAreOfKinds, OperatorsKeepKinds, PartsKeepKinds, PlainValuesQuote, SetsKeepKinds, StoresKeepKinds, TuplesKeepKinds};

/// Operators, predefined names and casts give values of the kinds of their rows where their
/// operands are of the kinds of the rows: they are never amiss.
#[tactic(auto, using(crate::proofs::Stated::operators, crate::proofs::Stated::distributions))]
pub fn operators_keep_kinds()
    ensures operators { OperatorsKeepKinds }
    ensures distributions { DistributionsKeepKinds }
{}

/// Building a value of parts of fitting kinds is never amiss, and what it gives is of its kind.
#[tactic(auto, using(crate::proofs::Stated::tuples, crate::proofs::Stated::insertions))]
pub fn literals_keep_kinds()
    ensures tuples { TuplesKeepKinds }
    ensures lists { ListsKeepKinds }
    ensures sets { SetsKeepKinds }
    ensures dictionaries { DictionariesKeepKinds }
    ensures insertions { InsertionsKeepKinds }
{}

/// The value of a literal is of its kind, and names no channel and no instance.
#[tactic(auto, using(crate::proofs::Stated::literals))]
pub fn literal_values()
    ensures kept { LiteralsAreOfKinds }
{}

/// A fresh default is of the kind of its shape, where the channels that were made for it are there.
#[tactic(auto, using(crate::proofs::Stated::defaults))]
pub fn defaults_keep_kinds()
    ensures kept { DefaultsKeepKinds }
{}

/// A value that is stored along a path of steps of fitting kinds leaves the kind of the whole as it
/// is, and what is read by a step is of the kind that the step leads to.
#[tactic(auto, using(crate::proofs::Stated::stores, crate::proofs::Stated::elements, crate::proofs::Stated::entries))]
pub fn stores_keep_kinds()
    ensures stores { StoresKeepKinds }
    ensures elements { ElementsKeepKinds }
    ensures entries { EntriesKeepKinds }
    ensures parts { PartsKeepKinds }
{}

/// Formats with values of the kinds that their pieces take have a text, and so has each plain
/// value between quotation marks.
#[tactic(auto, using(crate::proofs::Stated::formats, crate::proofs::Stated::quotes))]
pub fn texts_are_there()
    ensures formats { FormatsRender }
    ensures quoted { PlainValuesQuote }
{}
