ghost use Rattle.std.specs.Prelude.{◌≡◌, ◌≢◌, ◌⊎◌, ℕ, ◌+◌, ◌*◌, ◌^◌, ◌<◌, ◌≤◌, [], length, slice_get, get_or, if◌then◌else◌, is_ok, IsTrue, true, false, Some, OnOk, OnErr};
ghost use Rattle.chi_chan.specs.declared.offers.Party.{Party};
ghost use Rattle.std.specs.List.{insert, remove_range};
ghost use Rattle.chi_chan.specs.Lined.{code, without, Ascends, Has, IsParty, IsPlace, nobody_here};

use crate::offers::Party;
use chi_base::NoMemory;
use std::alloc::Global;
use std::marker::Model;

/// Parties at one channel, ascending by instance and then by alternative. Its room is kept when they leave.
#[derive(Debug, Drop)]
pub struct Line {
    parties: Vec<Party>,
}

impl Model for Line {
    ghost use Rattle.std.specs.Prelude.{List};
    ghost use Rattle.chi_chan.specs.declared.offers.Party.{Party};
    ghost use Rattle.chi_chan.specs.Lined.{Ascends};

    ghost Value = { List Party };

    ghost view = { λ l. l.parties.items };

    ghost invariant = { λ l. Ascends 0 l.parties.items };
}

/// Its number in the order of all parties, by instance and then by alternative.
#[inline(always)]
fn code(party: Party) -> u64
    ensures { result ≡ code party }
{
    party.pid as u64 * 65_536 + party.alternative as u64
}

/// How many parties stand in the line.
#[inline(always)]
fn size(parties: &Vec<Party>) -> usize
    ensures { result ≡ length parties.now.items }
{
    parties.len()
}

/// The party in a place.
#[inline(always)]
fn party_at(parties: &Vec<Party>, i: usize) -> Party
    requires { i < length parties.now.items }
    ensures { result ≡ get_or parties.now.items i nobody_here }
{
    parties[i]
}

/// Whether all parties are before a number.
#[inline(always)]
fn are_before(parties: &Vec<Party>, key: u64) -> bool
    requires { Ascends 0 parties.now.items }
    ensures { IsTrue result → IsPlace parties.now.items key (length parties.now.items) }
{
    let count = size(parties);
    if count == 0 {
        return true;
    }
    code(party_at(parties, count - 1)) < key
}

/// How many parties are before a number.
#[inline(always)]
fn place_of(parties: &Vec<Party>, key: u64) -> usize
    requires { Ascends 0 parties.now.items }
    ensures place { IsPlace parties.now.items key result }
    ensures within { result ≤ length parties.now.items }
{
    if are_before(parties, key) {
        return size(parties);
    }
    let mut low = 0;
    let mut high = size(parties);
    while low < high {
        let middle = low + (high - low) / 2;
        if code(party_at(parties, middle)) < key {
            low = middle + 1;
        } else {
            high = middle;
        }
    }
    low
}

/// Whether the party with a number stands in a place.
#[inline(always)]
fn stands(parties: &Vec<Party>, place: usize, key: u64) -> bool
    ensures yes { result ≡ true → (place < length parties.now.items) × (code (get_or parties.now.items place nobody_here) ≡ key) }
    ensures no { result ≡ false → place < length parties.now.items → code (get_or parties.now.items place nobody_here) ≢ key }
{
    if place < size(parties) {
        code(party_at(parties, place)) == key
    } else {
        false
    }
}

/// A party comes to stand in a place: at once where it is the last, and there is room.
#[inline(always)]
fn put(parties: &mut Vec<Party>, place: usize, party: Party) -> Result<(), NoMemory>
    requires { place ≤ length parties.old.items }
    ensures { parties.new.items ≡ (if is_ok result then insert parties.old.items place party else parties.old.items) }
{
    if place == size(parties) && place < parties.capacity() {
        parties.push_reserved(party);
    } else {
        parties.insert(place, party)?;
    }
    Ok(())
}

/// How many parties of other instances stand in a line of one party.
#[inline(always)]
fn one_other(parties: &Vec<Party>, pid: u32) -> u64
    requires { length parties.now.items ≡ 1 }
    ensures within { result ≤ 1 }
    ensures count { result ≡ length (without pid parties.now.items) }
{
    if party_at(parties, 0).pid == pid {
        0
    } else {
        1
    }
}

/// The party of an instance leaves a line of one party, if it is that one's.
#[inline(always)]
fn leave_one(parties: &mut Vec<Party>, pid: u32)
    requires { length parties.old.items ≡ 1 }
    ensures { parties.new.items ≡ without pid parties.old.items }
{
    if party_at(parties, 0).pid == pid {
        parties.clear();
    }
}

/// The parties of an instance leave a line, which stand there one after another.
#[inline(always)]
fn leave_all(parties: &mut Vec<Party>, pid: u32)
    requires ascends { Ascends 0 parties.old.items }
    requires pid { pid < 100000 }
    ensures { parties.new.items ≡ without pid parties.old.items }
{
    if size(parties) == 1 {
        leave_one(parties, pid);
        return;
    }
    let first = place_of(parties, pid as u64 * 65_536);
    let after = place_of(parties, pid as u64 * 65_536 + 65_536);
    cut(parties, first, after);
}

/// Those between two places leave, and those after them move up once.
#[inline(always)]
fn cut(parties: &mut Vec<Party>, first: usize, after: usize)
    requires order { first ≤ after }
    requires within { after ≤ length parties.old.items }
    ensures { parties.new.items ≡ remove_range parties.old.items first after }
{
    if after - first == 1 {
        parties.remove(first);
    } else if first < after {
        let _gone = parties.drain(first..after);
    }
}

impl Line {
    /// Nobody stands in the line.
    #[inline(always)]
    pub(crate) fn new(alloc: Global) -> Line
        ensures { result ≡ [] }
    {
        Line {
            parties: Vec::new(alloc),
        }
    }

    /// Those who stand in the line.
    #[inline(always)]
    pub(crate) fn as_slice(&self) -> &[Party]
        ensures same { result.now ≡ self.now }
        ensures ascending { Ascends 0 result.now }
    {
        self.parties.as_slice()
    }

    /// The party stands in the line, with all that stood there.
    #[inline(always)]
    pub(crate) fn add(&mut self, party: Party) -> Result<(), NoMemory>
        requires { IsParty party }
        ensures there { OnOk result (Has self.new party) }
        ensures stays { (x : Party) → Has self.old x → Has self.new x }
        ensures only { (x : Party) → Has self.new x → Has self.old x ⊎ (x ≡ party) }
        ensures err { OnErr result (self.new ≡ self.old) }
        ensures ascends { Ascends 0 self.new }
    {
        let place = place_of(&self.parties, code(party));
        if stands(&self.parties, place, code(party)) {
            return Ok(());
        }
        put(&mut self.parties, place, party)?;
        Ok(())
    }

    /// How many parties of other instances stand here.
    #[inline(always)]
    pub(crate) fn others(&self, pid: u32) -> u64
        requires { pid < 100000 }
        ensures within { result ≤ 2 ^ 33 }
        ensures count { result ≡ length (without pid self.now) }
    {
        if size(&self.parties) == 1 {
            return one_other(&self.parties, pid);
        }
        let first = place_of(&self.parties, pid as u64 * 65_536);
        let after = place_of(&self.parties, pid as u64 * 65_536 + 65_536);
        (size(&self.parties) - (after - first)) as u64
    }

    /// Number `i` of these.
    #[inline(always)]
    pub(crate) fn other_at(&self, pid: u32, i: u64) -> Party
        requires pid { pid < 100000 }
        requires some { i < length (without pid self.now) }
        ensures { slice_get (without pid self.now) i ≡ Some result }
    {
        if size(&self.parties) == 1 {
            return party_at(&self.parties, 0);
        }
        let first = place_of(&self.parties, pid as u64 * 65_536);
        if (i as usize) < first {
            return party_at(&self.parties, i as usize);
        }
        let after = place_of(&self.parties, pid as u64 * 65_536 + 65_536);
        party_at(&self.parties, i as usize + (after - first))
    }

    /// The parties of an instance leave, all of them at once.
    #[inline(always)]
    pub(crate) fn leave(&mut self, pid: u32)
        requires { pid < 100000 }
        ensures gone { (x : Party) → Has self.new x → x.pid ≢ pid }
        ensures stays { (x : Party) → x.pid ≢ pid → Has self.old x → Has self.new x }
        ensures only { (x : Party) → Has self.new x → Has self.old x }
        ensures ascends { Ascends 0 self.new }
    {
        leave_all(&mut self.parties, pid);
    }
}
