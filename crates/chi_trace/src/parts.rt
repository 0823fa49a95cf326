ghost use Rattle.std.specs.Prelude.{◌≡◌, [], IsTrue, ◌↔◌, option_map};
ghost use Rattle.std.specs.List.{prefix_len};
ghost use Rattle.chi_trace.specs.Told.{is_part_byte, front, after, part_told, number_part, two_told, local_told, pair_told, wake_told, join_told, advance_told, label_told, head_told};

use crate::numeral::{number, turn};
use crate::time::units;
use chi_core::Label;

/// What is left of a line: it has ended, or goes on with a space.
#[derive(Drop)]
pub struct Parts<'a> {
    rest: &'a [u8],
}

impl<'a> Parts<'a> {
    pub fn of(rest: &'a [u8]) -> Parts<'a>
        ensures rest { result.rest.now ≡ rest.now }
    {
        Parts { rest }
    }

    /// All that is left.
    pub fn rest(&self) -> &'a [u8]
        ensures rest { result.now ≡ self.now.rest.now }
    {
        self.rest
    }

    /// The part after a space, up to the next one.
    #[tactic(auto, unfolding(crate::specs::Told::part_told))]
    pub fn part(&mut self) -> Option<&'a [u8]>
        ensures told { option_map (λ part. (part.now, self.new.rest.now)) result ≡ part_told self.old.rest.now }
    {
        let Some((b' ', text)) = self.rest.split_first() else {
            return None;
        };
        let (part, rest) = cut(text);
        self.rest = rest;
        Some(part)
    }

    #[tactic(auto, unfolding(crate::specs::Told::number_part))]
    fn number(&mut self) -> Option<u32>
        ensures told { option_map (λ number. (number, self.new.rest.now)) result ≡ number_part self.old.rest.now }
    {
        let part = self.part()?;
        let number = number(part)?;
        Some(number)
    }

    #[tactic(auto, unfolding(crate::specs::Told::two_told))]
    fn two(&mut self) -> Option<(u32, u32)>
        ensures told { option_map (λ two. (two, self.new.rest.now)) result ≡ two_told self.old.rest.now }
    {
        let first = self.number()?;
        let second = self.number()?;
        Some((first, second))
    }

    #[tactic(auto, unfolding(crate::specs::Told::local_told))]
    fn local(&mut self) -> Option<(Label, i64)>
        ensures told { option_map (λ label. (label, self.new.rest.now)) result ≡ local_told self.old.rest.now }
    {
        let instance = self.number()?;
        Some((Label::Local(instance), 0))
    }

    #[tactic(auto, unfolding(crate::specs::Told::pair_told))]
    fn pair(&mut self) -> Option<(Label, i64)>
        ensures told { option_map (λ label. (label, self.new.rest.now)) result ≡ pair_told self.old.rest.now }
    {
        let (sender, sending) = self.two()?;
        let (receiver, receiving) = self.two()?;
        Some((Label::Pair(sender, sending, receiver, receiving), 0))
    }

    #[tactic(auto, unfolding(crate::specs::Told::wake_told))]
    fn wake(&mut self) -> Option<(Label, i64)>
        ensures told { option_map (λ label. (label, self.new.rest.now)) result ≡ wake_told self.old.rest.now }
    {
        let (instance, alternative) = self.two()?;
        Some((Label::Wake(instance, alternative), 0))
    }

    #[tactic(auto, unfolding(crate::specs::Told::join_told))]
    fn join(&mut self) -> Option<(Label, i64)>
        ensures told { option_map (λ label. (label, self.new.rest.now)) result ≡ join_told self.old.rest.now }
    {
        let instance = self.number()?;
        Some((Label::Join(instance), 0))
    }

    #[tactic(auto, unfolding(crate::specs::Told::advance_told))]
    fn advance(&mut self) -> Option<(Label, i64)>
        ensures told { option_map (λ label. (label, self.new.rest.now)) result ≡ advance_told self.old.rest.now }
    {
        let time = self.part()?;
        let clock = units(time)?;
        Some((Label::Advance, clock))
    }

    /// A label, with the clock that an advance names.
    #[tactic(auto, unfolding(crate::specs::Told::label_told))]
    fn label(&mut self) -> Option<(Label, i64)>
        ensures told { option_map (λ label. (label, self.new.rest.now)) result ≡ label_told self.old.rest.now }
    {
        let kind = self.part()?;
        if kind == b"local".as_slice() {
            self.local()
        } else if kind == b"pair".as_slice() {
            self.pair()
        } else if kind == b"wake".as_slice() {
            self.wake()
        } else if kind == b"join".as_slice() {
            self.join()
        } else if kind == b"advance".as_slice() {
            self.advance()
        } else {
            None
        }
    }
}

/// What a line of either version begins with, and what is left of the line.
#[derive(Clone, Copy)]
pub struct Head<'a> {
    pub turn: u64,
    pub label: Label,
    /// In units of a real; 0 unless the label is an advance.
    pub clock: i64,
    pub rest: &'a [u8],
}

#[tactic(auto, unfolding(crate::specs::Told::head_told))]
pub fn head_of(line: &[u8]) -> Option<Head<'_>>
    ensures told { option_map (λ head. ((head.turn, head.label, head.clock), head.rest.now)) result ≡ head_told line.now }
{
    let (digits, rest) = cut(line);
    let turn = turn(digits)?;
    let mut parts = Parts::of(rest);
    let (label, clock) = parts.label()?;
    Some(Head {
        turn,
        label,
        clock,
        rest: parts.rest(),
    })
}

/// The bytes up to the first space, and what stands from there on.
#[tactic(auto, using(crate::proofs::Cuts::front_within))]
fn cut(text: &[u8]) -> (&[u8], &[u8])
    ensures front { result.0.now ≡ front text.now }
    ensures after { result.1.now ≡ after text.now }
{
    text.split_at(part_length(text))
}

fn part_length(text: &[u8]) -> usize
    ensures { result ≡ prefix_len is_part_byte text.now }
{
    text.iter().take_while(|byte| **byte != b' ').count()
}
