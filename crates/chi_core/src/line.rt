ghost use Rattle.std.specs.Prelude.{◌≡◌, ◌∷◌, [], ◌++◌, ◌≤◌, codes, length, OnOk, OnErr, IfOk, IfErr, IsTrue};
ghost use Rattle.std.specs.Fmt.{decimal};
ghost use Rattle.chi_num.specs.RealText.{real_text_of};
ghost use Rattle.chi_value.specs.Limit.{PastLimit};
ghost use Rattle.chi_value.specs.Plain.{is_plain, within};
ghost use Rattle.chi_value.specs.Text.{quoted_text};
ghost use Rattle.chi_core.specs.Fault.{kind_name};
ghost use Rattle.chi_core.specs.VerdictLine.{may_tell, told_length, verdict_text, verdict_line_of};

use crate::{FaultKind, Verdict};
use chi_base::NoMemory;
use chi_num::{Real, real_text};
use chi_value::{MOST_TEXT, Names, TextFault, Value, quoted_of};
use std::alloc::Global;

fn fault_text(alloc: Global, kind: FaultKind, name: &[u8], line: u32) -> Result<Vec<u8>, NoMemory>
    ensures { IfOk result (λ text. text.items ≡
        codes "fault " ++ kind_name kind ++ codes " in " ++ name.now ++ codes " line " ++ decimal line) }
{
    let mut text = Vec::new(alloc);
    text.extend_from_slice(b"fault ")?;
    text.extend_from_slice(kind.name().as_bytes())?;
    text.extend_from_slice(b" in ")?;
    text.extend_from_slice(name)?;
    text.extend_from_slice(b" line ")?;
    let line = format!(in alloc; "{line}")?;
    text.extend_from_slice(line.as_bytes())?;
    Ok(text)
}

fn exit_text(alloc: Global, value: &Value, names: &Names) -> Result<Vec<u8>, TextFault>
    requires plain { IsTrue (is_plain value.now) }
    requires named { IsTrue (within names.now.kinds value.now) }
    ensures text { IfOk result (λ text. text.items ≡ codes "exit " ++ quoted_text names.now.kinds value.now) }
    ensures within { IfOk result (λ text. length (quoted_text names.now.kinds value.now) ≤ MOST_TEXT) }
    ensures refused { IfErr result (λ fault. PastLimit fault (length (quoted_text names.now.kinds value.now))) }
{
    let mut text = Vec::new(alloc);
    text.extend_from_slice(b"exit ")?;
    quoted_of(alloc, value, names, &mut text)?;
    Ok(text)
}

fn text_of(alloc: Global, verdict: &Verdict, names: &Names) -> Result<Vec<u8>, TextFault>
    requires may { IsTrue (may_tell names.now.kinds verdict.now) }
    ensures text { IfOk result (λ text. text.items ≡ verdict_text names.now.kinds verdict.now) }
    ensures within { IfOk result (λ text. told_length names.now.kinds verdict.now ≤ MOST_TEXT) }
    ensures refused { IfErr result (λ fault. PastLimit fault (told_length names.now.kinds verdict.now)) }
{
    match verdict {
        Verdict::Completed => Ok(Vec::from_slice(alloc, b"completed")?),
        Verdict::Exit(None) => Ok(Vec::from_slice(alloc, b"exit")?),
        Verdict::Exit(Some(value)) => Ok(exit_text(alloc, value, names)?),
        Verdict::Deadlock => Ok(Vec::from_slice(alloc, b"deadlock")?),
        Verdict::Fault(kind, name, line) => Ok(fault_text(alloc, *kind, name.as_slice(), *line)?),
        Verdict::OutOfSteps => Ok(Vec::from_slice(alloc, b"out of steps")?),
        Verdict::Stopped => Ok(Vec::from_slice(alloc, b"stopped")?),
    }
}

fn ended(alloc: Global, clock: i64, line: &mut Vec<u8>) -> Result<(), NoMemory>
    ensures ok { OnOk result (line.new.items ≡ line.old.items ++ codes " at time " ++ real_text_of clock ++ 10 ∷ []) }
{
    line.extend_from_slice(b" at time ")?;
    real_text(alloc, Real::from_units(clock), line)?;
    line.push(b'\n')?;
    Ok(())
}

/// Appends the line that tells the verdict and the time in units of a real. The limit is that of
/// the quoted text of an exit's value alone, whatever `out` holds.
#[tactic(auto, unfolding(crate::specs::VerdictLine::verdict_line_of))]
pub fn verdict_line(
    alloc: Global,
    verdict: &Verdict,
    clock: i64,
    names: &Names,
    out: &mut Vec<u8>,
) -> Result<(), TextFault>
    requires may { IsTrue (may_tell names.now.kinds verdict.now) }
    ensures ok { OnOk result (out.new.items ≡ out.old.items ++ verdict_line_of names.now.kinds verdict.now clock) }
    ensures within { OnOk result (told_length names.now.kinds verdict.now ≤ MOST_TEXT) }
    ensures refused { IfErr result (λ fault. PastLimit fault (told_length names.now.kinds verdict.now)) }
    ensures unchanged { OnErr result (out.new.items ≡ out.old.items) }
{
    let mut line = text_of(alloc, verdict, names)?;
    ended(alloc, clock, &mut line)?;
    out.extend_from_slice(&line)?;
    Ok(())
}
