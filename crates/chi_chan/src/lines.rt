ghost use Rattle.std.specs.Prelude.{◌≡◌, ◌<◌, ◌≤◌, ◌^◌, [], length, slice_get, Some, OnOk, OnErr};
ghost use Rattle.chi_chan.specs.Lined.{line, without, Adds, AllAscend, Ascends, IsParty, Leaves, SameLines};

use crate::line::Line;
use crate::offers::Party;
use chi_base::NoMemory;
use std::alloc::Global;
use std::marker::Model;

/// A line for each channel, up to the greatest one at which somebody stood.
#[derive(Debug, Drop)]
pub struct Lines {
    alloc: Global,
    lines: Vec<Line>,
    none: Line,
}

impl Model for Lines {
    ghost use Rattle.std.specs.Prelude.{List, ◌≡◌, []};
    ghost use Rattle.chi_chan.specs.declared.offers.Party.{Party};
    ghost use Rattle.chi_chan.specs.Lined.{AllAscend};

    ghost Value = { List (List Party) };

    ghost view = { λ l. l.lines.items };

    ghost invariant = { λ l. record { none : l.none ≡ []; ascend : AllAscend l.lines.items } };
}

/// Lines for all channels up to this one.
fn lengthen(alloc: Global, lines: &mut Vec<Line>, channel: u32) -> Result<(), NoMemory>
    ensures same { SameLines lines.old.items lines.new.items }
    ensures room { OnOk result (channel < length lines.new.items) }
{
    for _more in lines.len()..channel as usize + 1 {
        lines.push(Line::new(alloc))?;
    }
    Ok(())
}

impl Lines {
    /// Nobody stands in a line.
    pub(crate) fn new(alloc: Global) -> Lines
        ensures { result ≡ [] }
    {
        Lines {
            alloc,
            lines: Vec::new(alloc),
            none: Line::new(alloc),
        }
    }

    /// Each line is ascending. It does nothing, and hands out what the lines keep.
    #[inline(always)]
    pub(crate) fn ascending(&self)
        ensures { AllAscend self.now }
    {
        let _lines = &self.lines;
    }

    /// The line of a channel.
    #[inline(always)]
    pub(crate) fn at(&self, channel: u32) -> &[Party]
        ensures same { result.now ≡ line self.now channel }
        ensures ascending { Ascends 0 result.now }
    {
        match self.lines.get(channel as usize) {
            Some(line) => line.as_slice(),
            None => self.none.as_slice(),
        }
    }

    /// How many parties of other instances stand in the line of a channel.
    #[inline(always)]
    pub(crate) fn others(&self, channel: u32, pid: u32) -> u64
        requires { pid < 100000 }
        ensures within { result ≤ 2 ^ 33 }
        ensures count { result ≡ length (without pid (line self.now channel)) }
    {
        match self.lines.get(channel as usize) {
            Some(line) => line.others(pid),
            None => 0,
        }
    }

    /// Number `i` of these.
    #[inline(always)]
    pub(crate) fn other_at(&self, channel: u32, pid: u32, i: u64) -> Party
        requires pid { pid < 100000 }
        requires some { i < length (without pid (line self.now channel)) }
        ensures { slice_get (without pid (line self.now channel)) i ≡ Some result }
    {
        match self.lines.get(channel as usize) {
            Some(line) => line.other_at(pid, i),
            None => unreachable!(),
        }
    }

    /// A party stands in the line of a channel, with all that stood in lines.
    #[inline(always)]
    pub(crate) fn add(&mut self, channel: u32, party: Party) -> Result<(), NoMemory>
        requires { IsParty party }
        ensures adds { OnOk result (Adds self.old self.new channel party) }
        ensures err { OnErr result (SameLines self.old self.new) }
    {
        if channel as usize >= self.lines.len() {
            self.lengthen(channel)?;
        }
        self.lines[channel as usize].add(party)
    }

    /// Room for the line of a channel.
    #[inline(never)]
    fn lengthen(&mut self, channel: u32) -> Result<(), NoMemory>
        ensures same { SameLines self.old self.new }
        ensures room { OnOk result (channel < length self.new) }
    {
        lengthen(self.alloc, &mut self.lines, channel)
    }

    /// The parties of an instance leave the line of a channel.
    #[inline(always)]
    pub(crate) fn leave(&mut self, channel: u32, pid: u32)
        requires { pid < 100000 }
        ensures { Leaves self.old self.new channel pid }
    {
        if (channel as usize) < self.lines.len() {
            self.lines[channel as usize].leave(pid);
        }
    }
}
