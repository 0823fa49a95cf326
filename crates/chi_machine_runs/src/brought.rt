use crate::made::{Made, Room};
use chi_value::Value;

/// What a step of an instance brings beside its offers, and the rooms for new instances.
#[derive(Drop)]
pub struct Brought {
    /// The instances that it has made.
    pub made: Vec<Made>,
    /// What it has written.
    pub text: Vec<u8>,
    /// The instances for which it waits, where it joins some.
    pub joins: Vec<u32>,
    /// The value of an exit, if it has one.
    pub exit: Option<Value>,
    /// Rooms of instances that have finished.
    pub spare: Vec<Room>,
}
