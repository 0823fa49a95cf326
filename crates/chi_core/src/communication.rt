use crate::{CExpr, CTarget};

/// What an alternative offers.
#[derive(Debug, Drop)]
pub enum CComm {
    /// To send on the channel, a value where it carries any.
    Send(CTarget, Option<CExpr>),
    /// To receive from the channel, into the slot where it carries values.
    Receive(CTarget, Option<u32>),
    /// To go on once so much time has passed.
    Delay(CExpr),
    /// To go on once the timer is due.
    Timer(CExpr),
}
