//! What holds of the experiments of sound programs. The function computes nothing: its contract is the law.

ghost use Rattle.chi_xper_machines.specs.Laws.{OneLine, OneTrial, OneWord, SomethingComesOfIt};

use chi_core_kinds::{
    defaults_keep_kinds, literal_values, literals_keep_kinds, operators_keep_kinds,
    stores_keep_kinds, texts_are_there,
};
use chi_xper_runs::{
    constants_law, ending_run_law, exits_law, one_experiment_law, outcomes_law, verdict_law,
};

/// Of the experiment of a sound program, by a lawful policy, one thing comes, with one word and one line that tell how it
/// ended.
pub fn trial_law()
    ensures some { SomethingComesOfIt }
    ensures one { OneTrial }
    ensures one_ended { OneWord }
    ensures one_line { OneLine }
{
    outcomes_law();
    constants_law();
    exits_law();
    verdict_law();
    ending_run_law();
    one_experiment_law();
    operators_keep_kinds();
    literals_keep_kinds();
    literal_values();
    defaults_keep_kinds();
    stores_keep_kinds();
    texts_are_there();
}
