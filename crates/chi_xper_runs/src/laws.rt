//! What holds of the runs of models that an experiment makes, and of the constants before it.

ghost use Rattle.chi_xper_runs.specs.Constants.{ConstantsAreSet};
ghost use Rattle.chi_xper_runs.specs.Models.{ExitsAreOfTheirKinds, ExperimentIsOne, RunsEndWithoutValue, SomethingComes, VerdictsCanBeTold};

use chi_core_kinds::{
    defaults_keep_kinds, kinded_law, literal_values, literals_keep_kinds, operators_keep_kinds,
    stores_keep_kinds, texts_are_there,
};
use chi_core_runs::{endings_law, picked_law, time_law};

/// Something comes of each run that an experiment of a sound program may make.
pub fn outcomes_law()
    ensures some { SomethingComes }
{
    picked_law();
}

/// Where a run that an experiment makes exits with a value, that is of the exit type of the model that was run.
pub fn exits_law()
    ensures exits { ExitsAreOfTheirKinds }
{
    picked_law();
    kinded_law();
    operators_keep_kinds();
    literals_keep_kinds();
    literal_values();
    defaults_keep_kinds();
    stores_keep_kinds();
    texts_are_there();
}

/// The verdict of each run that an experiment may make can be told, and none says that the run was stopped.
pub fn verdict_law()
    ensures told { VerdictsCanBeTold }
{
    picked_law();
    endings_law();
    time_law();
}

/// The constants of a sound program are of their kinds, where no fault ends its experiment before it begins.
pub fn constants_law()
    ensures set { ConstantsAreSet }
{
    operators_keep_kinds();
    literals_keep_kinds();
    literal_values();
    defaults_keep_kinds();
    stores_keep_kinds();
    texts_are_there();
}

/// An experiment is one alone: it goes the same by whatever gives each run that it may make what comes of that run.
pub fn one_experiment_law()
    ensures one { ExperimentIsOne }
{
    exits_law();
    operators_keep_kinds();
    literals_keep_kinds();
    literal_values();
    defaults_keep_kinds();
    stores_keep_kinds();
    texts_are_there();
}

/// Where a run ends the experiment of a sound program, it is one that the experiment may make, and its verdict has no value.
pub fn ending_run_law()
    ensures without_value { RunsEndWithoutValue }
{
    exits_law();
    operators_keep_kinds();
    literals_keep_kinds();
    literal_values();
    defaults_keep_kinds();
    stores_keep_kinds();
    texts_are_there();
}
