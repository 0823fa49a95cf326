use chi_core_frame::Spot;
use chi_value::Value;

/// A model is called.
#[derive(Debug, Drop)]
pub struct Call {
    /// Its number.
    pub model: u32,
    pub arguments: Vec<Value>,
    /// Where the value of its exit goes.
    pub spot: Spot,
    /// Whether that is converted to a real.
    pub widen: bool,
}

/// What an item has done.
#[derive(Debug, Drop)]
pub enum Deed {
    /// It is done, and has written nothing.
    Goes,
    /// It is done, and has written a text.
    Writes(Vec<u8>),
    /// A model is called before what is left to do.
    Calls(Call),
}
