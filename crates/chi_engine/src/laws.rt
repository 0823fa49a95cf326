ghost use Rattle.chi_engine.specs.Courses.{ComesToOne, ComesToSome, IsRunOf};

use chi_core_runs::picked_law;
use chi_trace_events::trace_law;

/// A sound program has exactly one run with settings that it may have.
pub fn course_law()
    ensures some { ComesToSome IsRunOf }
    ensures one { ComesToOne IsRunOf }
{
    picked_law();
    trace_law();
}
