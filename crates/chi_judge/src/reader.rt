use chi_plain::Plain;

/// The run that the lines of a log tell, as far as they were read.
#[derive(Debug, Drop)]
pub struct Reader<'a> {
    pub runner: Plain<'a>,
    /// How many labels were taken.
    pub turn: u64,
    /// What is left of the bound.
    pub left: u64,
    /// The numbers by which those labels are picked.
    pub picks: Vec<u64>,
}

/// What a line of a log tells.
#[derive(Clone, Copy, Debug, PartialEq, Eq)]
pub enum Told {
    /// A label, which was taken.
    Label,
    /// How the run ends.
    Ending,
    /// Nothing that may come there.
    Nothing,
}
