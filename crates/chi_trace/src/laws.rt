//! Laws of the definitions: a line is that of one event. Nothing here runs.

ghost use Rattle.std.specs.Prelude.{◌≡◌, ℕ, List, ◌⊎◌};
ghost use Rattle.chi_trace.specs.declared.event.Event.{Event};
ghost use Rattle.chi_trace.specs.Events.{IsEvent, as_told, untold};
ghost use Rattle.chi_trace.specs.Logs.{IsUp, Misfits};
ghost use Rattle.chi_trace.specs.Lines.{event_text, event_text_1, first_line, first_line_1, IsLine, IsLine1};

use crate::{FIRST_LINE, FIRST_LINE_1};

/// The line of an event tells that event, but for the clock unless it is an advance, and no other
/// event.
pub fn lines_law()
    ensures told { (e : Event) → IsEvent e → IsLine (event_text e) (as_told e) }
    ensures one_event { (text : List ℕ) → (e f : Event) → IsLine text e → IsLine text f → e ≡ f }
{}

/// The same of lines in version 1.
pub fn lines_1_law()
    ensures told { (e : Event) → IsEvent e → e.detail ≡ untold e.label → IsLine1 (event_text_1 e) (as_told e) }
    ensures one_event { (text : List ℕ) → (e f : Event) → IsLine1 text e → IsLine1 text f → e ≡ f }
{}

/// The constants are the first lines of the two versions.
pub fn first_lines_law()
    ensures second { FIRST_LINE.now ≡ first_line }
    ensures first { FIRST_LINE_1.now ≡ first_line_1 }
{}

/// A text is brought up to one log, or it has one first line that doesn't fit.
pub fn logs_law()
    ensures some { (text : List ℕ) → ((up : List ℕ) × IsUp text up) ⊎ ((k : ℕ) × Misfits text k) }
    ensures one_log { (text up other : List ℕ) → IsUp text up → IsUp text other → up ≡ other }
    ensures one_line { (text : List ℕ) (j k : ℕ) → Misfits text j → Misfits text k → j ≡ k }
    ensures apart { (text up : List ℕ) (k : ℕ) → IsUp text up → Misfits text k → ⊥ }
{}
