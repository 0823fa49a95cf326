ghost use Rattle.std.specs.Prelude.{◌≡◌, IfOk};

use chi_base::NoMemory;
use std::alloc::Global;
use std::marker::Model;
use std::rc::Rc;

/// A text of the language: any bytes, which contracts see as their list. Copies of it share them.
#[derive(Debug, Drop)]
pub struct Bytes {
    bytes: Rc<Vec<u8>>,
}

impl Model for Bytes {
    ghost use Rattle.std.specs.Prelude.{ℕ, List};

    ghost Value = { List ℕ };

    ghost view = { λ b. b.bytes.value.items };
}

impl Bytes {
    /// The text of a vector's bytes, which stay where they are.
    pub fn of(alloc: Global, text: Vec<u8>) -> Result<Bytes, NoMemory>
        ensures same { IfOk result (λ b. b ≡ text.items) }
    {
        let bytes = Rc::new(alloc, text)?;
        Ok(Bytes { bytes })
    }

    /// A text with bytes of its own, each copied.
    pub fn copy_of(alloc: Global, text: &[u8]) -> Result<Bytes, NoMemory>
        ensures copied { IfOk result (λ b. b ≡ text.now) }
    {
        let text = Vec::from_slice(alloc, text)?;
        Ok(Bytes::of(alloc, text)?)
    }

    /// The same text. It counts one more owner, and copies no byte.
    pub fn copy(&self) -> Result<Bytes, NoMemory>
        ensures same { IfOk result (λ b. b ≡ self.now) }
    {
        let bytes = self.bytes.clone()?;
        Ok(Bytes { bytes })
    }

    /// The bytes, as they lie in memory.
    pub fn as_slice(&self) -> &[u8]
        ensures same { result.now ≡ self.now }
    {
        self.bytes.as_ref().as_slice()
    }
}
