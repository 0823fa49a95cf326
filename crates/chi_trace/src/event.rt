use chi_core::Label;
use chi_token::Bytes;

/// One event of a run, as a trace tells it.
#[derive(Debug, Drop)]
pub struct Event {
    /// How many labels the run took before this one.
    pub turn: u64,
    pub label: Label,
    /// The time after the event, in units of a real. Only the line of an advance names it.
    pub clock: i64,
    pub detail: Detail,
}

/// What a trace tells of an event beyond its label.
#[derive(Debug, Drop)]
pub enum Detail {
    /// It isn't known, as in a trace of version 1.
    Unknown,
    /// There is nothing to tell: the time went on.
    Bare,
    /// The name of the definition whose instance acts, and the line of its statement.
    At(Bytes, u32),
    /// The name of the definition whose instance goes on.
    Of(Bytes),
    /// The channel, and the quoted text of the value that was sent; `void` where there is none, and
    /// `*` where it isn't shown.
    Sent(u32, Bytes),
}
