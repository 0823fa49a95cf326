//! What holds of what is told. The function computes nothing: its contract is the law.

ghost use Rattle.chi_explain_runs.specs.Laws.{WaitingToldAlways, WaitingToldOnce};
ghost use Rattle.chi_explain_runs.specs.Limits.{LimitsAre};

use chi_core_runs::picked_law;

/// What is told of where the run that a policy picks comes to rest is one text; and there is one of a sound program, where the
/// policy picks one of the choices that there are. It has these limits.
pub fn waiting_law()
    ensures one { WaitingToldOnce }
    ensures some { WaitingToldAlways }
    ensures limits { LimitsAre }
{
    picked_law();
}
