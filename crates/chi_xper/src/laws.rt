//! What holds of experiments. The function computes nothing: its contract is the law.

ghost use Rattle.std.specs.Prelude.{◌≢◌, None, slice_get};
ghost use Rattle.chi_core.specs.Kinded.{KindedConstants};
ghost use Rattle.chi_core.specs.Sound.{Sound};
ghost use Rattle.chi_xper.specs.Conditions.{AllowsAll, ExitsFit, IsFine};
ghost use Rattle.chi_xper.specs.Experiments.{experiment};

use crate::runner::Runner;
use crate::setting::Setting;
use chi_core_kinds::{
    defaults_keep_kinds, literal_values, literals_keep_kinds, operators_keep_kinds,
    stores_keep_kinds, texts_are_there,
};

/// In the experiment of a sound program, by a runner that allows and gives what it is to, nothing is amiss, and each run
/// that it makes is allowed.
pub fn experiment_law<R: Runner>(setting: &Setting<'_>, runner: &R)
    requires sound { Sound setting.now.core.now }
    requires some { slice_get setting.now.core.now.xpers 0 ≢ None }
    requires constants { KindedConstants setting.now.core.now setting.now.constants.now }
    requires allows { AllowsAll setting.now.core.now (R.allows runner.now) }
    requires exits { ExitsFit setting.now.core.now (R.outcome runner.now) }
    ensures { IsFine (R.allows runner.now) (experiment setting.now.core.now setting.now.constants.now setting.now.seed (R.outcome runner.now) setting.now.bound) }
{
    operators_keep_kinds();
    literals_keep_kinds();
    literal_values();
    defaults_keep_kinds();
    stores_keep_kinds();
    texts_are_there();
}
