ghost use Rattle.std.specs.Prelude.{◌≡◌, [], Some};
ghost use Rattle.chi_io.specs.Sink.{is_stopped};

use chi_io::{Put, Sink};
use std::alloc::Global;

/// A sink that keeps all that is put to it, while there is memory.
#[derive(Debug, Drop)]
pub struct Gathered {
    pub bytes: Vec<u8>,
    pub faults: u64,
}

impl Gathered {
    /// Nothing yet.
    pub fn new(alloc: Global) -> Gathered
        ensures empty { result.bytes.items ≡ [] }
        ensures going { result.faults ≡ 0 }
    {
        Gathered {
            bytes: Vec::new(alloc),
            faults: 0,
        }
    }
}

impl Sink for Gathered {
    ghost taken = { λ sink. Some sink.bytes.items };

    ghost faults = { λ sink. sink.faults };

    ghost stopped = { λ sink. is_stopped sink.faults };

    fn put(&mut self, bytes: &[u8]) -> Put {
        match self.bytes.extend_from_slice(bytes) {
            Ok(()) => Put::Took(bytes.len()),
            Err(_) => {
                self.faults = self.faults.saturating_add(1);
                Put::Failed
            }
        }
    }
}
