ghost use Rattle.std.specs.Prelude.{◌≡◌, ℕ, ◌<◌, [], IfOk, OnOk, Contains};
ghost use Rattle.chi_core.specs.declared.limits.TheConstants.{MOST_INSTANCES};
ghost use Rattle.chi_plain_options.specs.Ascending.{Ascends};
ghost use Rattle.chi_plain_options.specs.Listing.{Keeps, KeepsLists, NobodyCommunicates, NobodyListed, listed_at};

use chi_base::NoMemory;
use std::alloc::Global;
use std::marker::Model;

/// How many lists there are. Each number has one, and numbers share lists, so that they don't grow
/// with the channels that a run makes.
const LISTS: usize = 16_384;

/// Numbers of instances, each of them once, ascending.
#[derive(Debug, Drop)]
pub struct Listed {
    pids: Vec<u32>,
}

impl Model for Listed {
    ghost use Rattle.std.specs.Prelude.{List, ℕ};
    ghost use Rattle.chi_core.specs.declared.limits.TheConstants.{MOST_INSTANCES};
    ghost use Rattle.chi_plain_options.specs.Ascending.{Ascends};

    ghost Value = { List ℕ };

    ghost view = { λ l. l.pids.items };

    ghost invariant = { λ l. Ascends 0 MOST_INSTANCES l.pids.items };
}

impl Listed {
    /// Nobody is listed.
    pub fn new(alloc: Global) -> Listed
        ensures { result ≡ [] }
    {
        Listed {
            pids: Vec::new(alloc),
        }
    }

    /// The numbers, ascending.
    pub fn as_slice(&self) -> &[u32]
        ensures listed { result.now ≡ self.now }
        ensures ascending { Ascends 0 MOST_INSTANCES result.now }
    {
        self.pids.as_slice()
    }

    /// The instance is listed, with all that are.
    #[tactic(auto, using(crate::proofs::Keeping::keeping))]
    pub fn add(&mut self, pid: u32) -> Result<(), NoMemory>
        requires { pid < MOST_INSTANCES }
        ensures keeps { Keeps self.old self.new }
        ensures added { OnOk result (Contains self.new pid) }
    {
        match self.pids.as_slice().binary_search(&pid) {
            Ok(_) => Ok(()),
            Err(place) => {
                self.pids.insert(place, pid)?;
                Ok(())
            }
        }
    }
}

/// For each number, of a channel or of an instance, the instances that are listed at it.
#[derive(Debug, Drop)]
pub struct ListedAt {
    lists: Vec<Listed>,
}

impl Model for ListedAt {
    ghost use Rattle.std.specs.Prelude.{List, ℕ, ◌<◌, length};

    ghost Value = { List (List ℕ) };

    ghost view = { λ l. l.lists.items };

    ghost invariant = { λ l. 0 < length l.lists.items };
}

impl ListedAt {
    /// A list for each number, where nobody is listed.
    #[tactic(auto, using(crate::proofs::Keeping::keeping))]
    pub fn new(alloc: Global) -> Result<ListedAt, NoMemory>
        ensures { IfOk result (λ lists. NobodyListed lists) }
    {
        let mut lists = Vec::new(alloc);
        lists.push(Listed::new(alloc))?;
        for _more in 1..LISTS {
            lists.push(Listed::new(alloc))?;
        }
        Ok(ListedAt { lists })
    }

    /// The list of a number.
    #[tactic(auto, using(crate::proofs::Keeping::keeping))]
    pub fn at(&self, number: u32) -> &[u32]
        ensures listed { result.now ≡ listed_at self.now number }
        ensures ascending { Ascends 0 MOST_INSTANCES result.now }
    {
        let k = number as usize % self.lists.len();
        self.lists[k].as_slice()
    }

    /// The instance is in the list of a number, with all that are.
    #[tactic(auto, using(crate::proofs::Keeping::keeping))]
    pub fn add(&mut self, number: u32, pid: u32) -> Result<(), NoMemory>
        requires { pid < MOST_INSTANCES }
        ensures keeps { KeepsLists self.old self.new }
        ensures added { OnOk result (Contains (listed_at self.new number) pid) }
    {
        let k = number as usize % self.lists.len();
        self.lists[k].add(pid)
    }
}

/// The instances that send on channels, and those that receive from them, or did before.
#[derive(Debug, Drop)]
pub struct Parties {
    pub senders: ListedAt,
    pub receivers: ListedAt,
}

impl Parties {
    /// Nobody is listed.
    pub fn new(alloc: Global) -> Result<Parties, NoMemory>
        ensures { IfOk result (λ parties. NobodyCommunicates parties) }
    {
        let senders = ListedAt::new(alloc)?;
        let receivers = ListedAt::new(alloc)?;
        Ok(Parties { senders, receivers })
    }
}
