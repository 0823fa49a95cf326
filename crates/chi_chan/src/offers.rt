/// What a waiting instance offers by one alternative.
#[derive(Clone, Copy, Debug)]
pub enum Offer {
    /// To send on a channel.
    Send(u32),
    /// To receive from a channel.
    Receive(u32),
    /// To wait for a time, in units.
    Delay(i64),
}

/// An alternative of a waiting instance, by its number among the instance's offers.
#[derive(Clone, Copy, Debug)]
pub struct Party {
    pub pid: u32,
    pub alternative: u32,
}

/// What an instance may do next, by an alternative of its own, whose number comes first.
#[derive(Clone, Copy, Debug)]
pub enum Choice {
    /// It sends, and that party receives.
    Pair(u32, Party),
    /// Its delay is over.
    Wake(u32),
}
