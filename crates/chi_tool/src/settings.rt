ghost use Rattle.std.specs.Prelude.{◌≡◌};
ghost use Rattle.chi_tool.specs.Settings.{trace_by};

/// Stands for a policy where the picks of a file are to be it.
#[derive(Clone, Copy, Debug)]
pub struct ByPicks;

/// What tells which events of a trace are logged, where it is wanted.
pub fn trace_by<S: Drop>(trace: bool, probe: S) -> Option<S>
    ensures { result ≡ trace_by trace probe }
{
    if trace { Some(probe) } else { None }
}
