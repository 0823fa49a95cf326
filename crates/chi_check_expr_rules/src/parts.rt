use chi_types::Ty;

/// What an index takes: an element, or what a key has.
#[derive(Debug, Drop)]
pub enum Contents {
    Element(Ty),
    /// The type of the keys, and that of the values.
    Entry(Ty, Ty),
    Nothing,
}
