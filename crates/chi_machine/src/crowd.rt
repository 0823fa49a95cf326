//! The instances, with what each waits for.

use crate::instance::Instance;
use chi_machine_agenda::Agenda;

/// The instances by their numbers, and what each waits for.
#[derive(Drop)]
pub struct Crowd {
    pub instances: Vec<Instance>,
    pub agenda: Agenda,
}
