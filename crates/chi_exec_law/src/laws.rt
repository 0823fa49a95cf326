ghost use Rattle.chi_exec_law.specs.Laws.{BodiesLead, CallsLead, ConstantsRun, ConstantsSet, ExpressionsLead, ExpressionsRun, ItemsHaveLines, ItemsLead, OneEnd};

/// A run from the first instruction of a list of expressions, whose code ends before an instruction that is no part of
/// one, ends in exactly what the list comes to. Anywhere else the machine comes from there to where the values are on top.
#[tactic(auto, using(crate::proofs::Stated::expressions_run))]
pub fn expressions_law()
    ensures run { ExpressionsRun }
    ensures lead { ExpressionsLead }
{}

/// A run of a constant's code, which calls nothing, rests before the instruction that sets it, with its value, which then
/// joins those of the constants before it.
#[tactic(auto, using(crate::proofs::Stated::constants_run, crate::proofs::Stated::constants_set))]
pub fn constants_law()
    ensures run { ConstantsRun }
    ensures set { ConstantsSet }
{}

/// From a call with its arguments on top the machine comes to where the value is on top, behind the call; or the run ends
/// as the call fails.
pub fn calls_law()
    ensures lead { CallsLead }
{}

/// What is left of a function's body brings its value back to the caller.
pub fn bodies_law()
    ensures lead { BodiesLead }
{}

/// Where a place stands for a term, its first item is done from behind the instruction that begins its turn, which has the
/// item's line; the machine comes to where it stands for what is left.
#[tactic(auto, using(crate::proofs::Stated::items_have_lines))]
pub fn items_law()
    ensures lead { ItemsLead }
    ensures lines { ItemsHaveLines }
{}

/// A run has one end at most: so what it ends in is what these laws say.
pub fn ends_law()
    ensures one { OneEnd }
{}
