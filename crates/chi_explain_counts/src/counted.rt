ghost use Rattle.std.specs.Prelude.{◌≡◌};
ghost use Rattle.chi_explain_counts.specs.Found.{here};

use chi_token::Place;

/// What is counted where a rule can be broken by a number.
#[derive(Clone, Copy)]
pub enum Counted {
    /// The arguments of a call, or of what is run or started. The place is that of its name.
    Arguments(usize),
    /// The targets of an assignment, and its values. The place is that of `=`.
    Values { targets: usize, values: usize },
    /// The targets of an assignment, and the parts of the one tuple that is written for them.
    Parts { targets: usize, parts: usize },
    /// The codes of a format, and the values that are written by it. The place is that of the format.
    Shown { codes: usize, values: usize },
}

/// What is counted where it stands, if that is the place.
pub(crate) fn here(place: Place, at: Place, counted: Counted) -> Option<Counted>
    ensures { result ≡ here place at counted }
{
    if at.line == place.line && at.column == place.column {
        Some(counted)
    } else {
        None
    }
}
