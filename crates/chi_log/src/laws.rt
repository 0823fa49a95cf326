//! What holds of the logs of runs. The functions compute nothing: their contracts are the laws.

ghost use Rattle.chi_log.specs.Laws.{EachIsJudged, FirstLineWrong, LabelTooDear, NextLineWrong, NoLineMore, NothingAfterTheEnd, OneFirstWrong, OneLog, ReadingBegins, ReadingEnds, ReadingGoesOn, RestsWithoutNumbers};

use chi_core_kinds::kinded_law;
use chi_trace_events::events_law;

/// A text is the log of one derivation at most, and has one first wrong line at most.
pub fn one_log_law()
    ensures one_log { OneLog }
    ensures one_line { OneFirstWrong }
{
    kinded_law();
    events_law();
}

/// Each text is the log of a derivation, or has a first wrong line.
pub fn judging_law()
    ensures { EachIsJudged }
{
    kinded_law();
    events_law();
}

/// A log is read line by line: each line tells the label that was taken, or how the run ended; or it is the first wrong
/// one.
pub fn reading_law()
    ensures begins { ReadingBegins }
    ensures on { ReadingGoesOn }
    ensures ends { ReadingEnds }
    ensures first_wrong { FirstLineWrong }
    ensures none { NoLineMore }
    ensures wrong { NextLineWrong }
    ensures too_dear { LabelTooDear }
    ensures after_end { NothingAfterTheEnd }
    ensures at_rest { RestsWithoutNumbers }
{
    kinded_law();
    events_law();
}
