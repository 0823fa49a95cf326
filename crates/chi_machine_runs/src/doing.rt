/// Whether an instance goes on within a step, or why not.
#[derive(Clone, Copy)]
pub enum Doing {
    /// It goes on.
    Goes,
    /// It rests before its next statement, or at its end.
    Pauses,
    /// It waits with the offers that it made.
    Waits,
    /// It waits for instances, whose numbers were brought.
    Joins,
    /// The run of all is over, with the value that was brought, if any.
    Exits,
    /// A fault, or it costs too much, or memory was wanting: the machine tells which.
    Stops,
}
