ghost use Rattle.std.specs.Prelude.{◌≡◌, ◌<◌, ◌-◌, ◌^◌, ◌++◌, [], ◌∷◌, None, length, take, OnOk, OnErr};
ghost use Rattle.std.specs.Option.{option_copied};
ghost use Rattle.chi_check_types.specs.Names.{known_in};

use crate::Known;
use crate::table::Table;
use chi_base::NoMemory;
use chi_token::Bytes;
use std::alloc::Global;
use std::marker::Model;

/// The visible names with what is known of each, in order of declaration. Contracts see that list.
#[derive(Drop)]
pub struct Scope {
    alloc: Global,
    names: Table<Known>,
}

impl Model for Scope {
    ghost use Rattle.std.specs.Prelude.{◌<◌, ◌^◌, length};
    ghost use Rattle.std.specs.Coded.{coded_list, coded×, coded_ℕ};
    ghost use Rattle.chi_check_types.specs.Names.{Names};
    ghost use Rattle.chi_check_types.specs.contracts.known.Known as knowns;

    ghost Value = { Names };

    ghost coded = { coded_list (coded× (coded_list coded_ℕ) knowns.the_row.coded) };

    ghost view = { λ s. s.names };

    ghost invariant = { λ s. length s.names < 2 ^ 32 };
}

impl Scope {
    /// No names at all.
    pub fn new(alloc: Global) -> Scope
        ensures { result ≡ [] }
    {
        Scope {
            alloc,
            names: Table::new(alloc),
        }
    }

    /// Adds a name that isn't visible, as the last.
    pub fn declare(&mut self, name: &Bytes, known: Known) -> Result<(), NoMemory>
        requires not_visible { known_in self.old name.now ≡ None }
        requires room { length self.old < 2 ^ 32 - 1 }
        ensures ok { OnOk result (self.new ≡ self.old ++ (name.now, known) ∷ []) }
        ensures err { OnErr result (self.new ≡ self.old) }
    {
        self.names.add(self.alloc, name.as_slice(), known)
    }

    /// What is known of a name, where it is visible.
    pub fn known(&self, name: &Bytes) -> Option<&Known>
        ensures { option_copied result ≡ known_in self.now name.now }
    {
        self.names.get(name.as_slice())
    }

    /// How many names are visible.
    pub fn count(&self) -> u32
        ensures { result ≡ length self.now }
    {
        self.names.count() as u32
    }

    /// Keeps the first `count` names, as at the end of a block.
    pub fn cut(&mut self, count: u32)
        ensures { self.new ≡ take count self.old }
    {
        self.names.cut(count as usize);
    }
}
