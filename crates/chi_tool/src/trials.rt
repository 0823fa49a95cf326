//! The run of a program's experiment.

ghost use Rattle.std.specs.Prelude.{◌<◌, ◌^◌, IfOk};
ghost use Rattle.chi_core.specs.Sound.{Sound};
ghost use Rattle.chi_tool.specs.Reported.{report_in};
ghost use Rattle.chi_tool.specs.Running.{IsReportOfTrial};
ghost use Rattle.chi_tool.specs.Settings.{trying_of};

use crate::report::Reported;
use crate::status::status_of_trial;
use chi_base::NoMemory;
use chi_core::Core;
use chi_xper_machines::{ExperimentTerms, tell_experiment};
use std::alloc::Global;

/// The report of a program whose first experiment is to be run on these terms.
pub fn report_of_trial(
    alloc: Global,
    core: &Core,
    terms: ExperimentTerms,
) -> Result<Reported, NoMemory>
    requires sound { Sound core.now }
    requires bound { terms.bound < 2 ^ 63 }
    ensures { IfOk result (λ r. IsReportOfTrial core.now (trying_of terms) (report_in r)) }
{
    let tale = tell_experiment(alloc, core, terms)?;
    Ok(Reported {
        status: status_of_trial(tale.ended),
        out: tale.out,
        log: tale.log,
    })
}
