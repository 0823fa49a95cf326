ghost use Rattle.chi_exec_kinds.specs.Evaluable.{ConstantsCanBeEvaluated, EvaluationsAreNotAmiss, EvaluationsAreWell, RunsEnd};

use chi_core_kinds::{
    defaults_keep_kinds, literal_values, literals_keep_kinds, operators_keep_kinds,
    stores_keep_kinds, texts_are_there,
};
use chi_exec_law::expressions_law;

/// Expressions of a sound program, where what they read is there and of its kind, come to values of their kinds, or fail, or
/// cost too much. So nothing is amiss, and a run of their code comes to its end and is stuck nowhere on the way.
pub fn evaluations_law()
    ensures well { EvaluationsAreWell }
    ensures right { EvaluationsAreNotAmiss }
    ensures run { RunsEnd }
{
    operators_keep_kinds();
    literals_keep_kinds();
    literal_values();
    defaults_keep_kinds();
    stores_keep_kinds();
    texts_are_there();
    expressions_law();
}

/// The expression of a constant of a sound program can be evaluated once those before it are set.
#[tactic(auto, using(crate::proofs::Evaluations::constants_can))]
pub fn constants_law()
    ensures ready { ConstantsCanBeEvaluated }
{}
