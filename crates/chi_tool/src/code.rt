//! The listing of a program's code.

ghost use Rattle.std.specs.Prelude.{◌≡◌, ℕ, Some, IfOk, IsTrue, slice_get};
ghost use Rattle.chi_value.specs.declared.value.Value.{Value};
ghost use Rattle.chi_value.specs.Plain.{is_plain, within};
ghost use Rattle.chi_code.specs.declared.instr.Instr.TheVariants as instr;
ghost use Rattle.chi_core.specs.Sound.{Sound};
ghost use Rattle.chi_tool.specs.Refusals.{listed};
ghost use Rattle.chi_tool.specs.Report.{IsReportOfCode};
ghost use Rattle.chi_tool.specs.Reported.{report_in};

use crate::report::Reported;
use crate::status::LISTED;
use chi_base::NoMemory;
use chi_code::{Code, literals_can_be_listed};
use chi_code_listing::listing;
use chi_core::Core;
use chi_gen::generate;
use std::alloc::Global;

/// The report of code that can be listed.
fn listed(alloc: Global, code: &Code) -> Result<Reported, NoMemory>
    requires told { (p : ℕ) (v : Value) → slice_get code.now.instrs p ≡ Some (instr.Push v) → IsTrue (is_plain v) × IsTrue (within code.now.names.kinds v) }
    ensures { IfOk result (λ r. report_in r ≡ listed code.now) }
{
    let mut out = Vec::new(alloc);
    listing(alloc, code, &mut out)?;
    let log = Vec::new(alloc);
    Ok(Reported {
        status: LISTED,
        out,
        log,
    })
}

/// The report of a program whose code is to be listed.
pub fn report_of_code(alloc: Global, core: &Core) -> Result<Reported, NoMemory>
    requires sound { Sound core.now }
    ensures { IfOk result (λ r. IsReportOfCode core.now (report_in r)) }
{
    literals_can_be_listed();
    let code = generate(alloc, core)?;
    let report = listed(alloc, &code);
    drop(code);
    report
}
