use chi_core_frame::Variables;
use chi_plain_open::{Instance, Offer};
use chi_value::Value;

/// What a statement that functions don't have comes to, before it is carried out. The variables are
/// there where they have changed.
#[derive(Debug, Drop)]
pub enum Deed<'a> {
    /// A text is written.
    Writes(Vec<u8>),
    Exits(Option<Value>),
    Waits(Option<Variables>, Vec<Offer<'a>>),
    /// These new instances run, and are waited for.
    Runs(Option<Variables>, Vec<Instance<'a>>),
    Starts(Option<Variables>, Vec<Instance<'a>>),
    /// The instances of these numbers are waited for.
    Joins(Vec<u32>),
}

/// What an item did.
#[derive(Debug, Drop)]
pub enum Done {
    On,
    /// The run has ended by an exit.
    Exits(Option<Value>),
}
