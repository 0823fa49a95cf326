ghost use Rattle.std.specs.Prelude.{◌≡◌, ◌≢◌, ◌==◌, [], not, Some, None, MatchResult, option_map};
ghost use Rattle.std.specs.List.{list_all};
ghost use Rattle.chi_trace.specs.Events.{is_value_text, untold};
ghost use Rattle.chi_trace.specs.Told.{detail_told, place_told, name_told, sent_told, value_part};

use crate::name::is_name;
use crate::numeral::number;
use crate::parts::Parts;
use crate::{Detail, TraceFault};
use chi_core::Label;
use chi_token::Bytes;
use std::alloc::Global;

/// The part that stands for what isn't known.
const UNKNOWN: &[u8] = b"-";

/// The detail where a trace tells none.
pub fn untold(label: Label) -> Detail
    ensures untold { result ≡ untold label }
{
    match label {
        Label::Advance => Detail::Bare,
        _ => Detail::Unknown,
    }
}

/// The detail of a label, which is all that is left of the line.
pub fn detail(alloc: Global, label: Label, rest: &[u8]) -> Result<Detail, TraceFault>
    ensures told { MatchResult result (λ detail. detail_told label rest.now ≡ Some detail)
        (λ fault. fault ≡ TraceFault.Form → detail_told label rest.now ≡ None) }
{
    match label {
        Label::Local(_) => place(alloc, rest),
        Label::Pair(_, _, _, _) => sent(alloc, rest),
        Label::Wake(_, _) | Label::Join(_) => named(alloc, rest),
        Label::Advance => ended(Detail::Bare, rest),
    }
}

/// The detail, where nothing is left of the line.
fn ended(detail: Detail, rest: &[u8]) -> Result<Detail, TraceFault>
    ensures told { MatchResult result (λ given. (given ≡ detail) × (rest.now ≡ []))
        (λ fault. (fault ≡ TraceFault.Form) × (rest.now ≢ [])) }
{
    if rest.is_empty() {
        Ok(detail)
    } else {
        Err(TraceFault::Form)
    }
}

/// A name and a line.
#[tactic(auto, unfolding(crate::specs::Told::place_told))]
fn place(alloc: Global, rest: &[u8]) -> Result<Detail, TraceFault>
    ensures told { MatchResult result (λ detail. place_told rest.now ≡ Some detail)
        (λ fault. fault ≡ TraceFault.Form → place_told rest.now ≡ None) }
{
    let mut parts = Parts::of(rest);
    let Some(name) = parts.part() else {
        return Err(TraceFault::Form);
    };
    let Some(line) = parts.part() else {
        return Err(TraceFault::Form);
    };
    if name == UNKNOWN {
        if line == UNKNOWN {
            return ended(Detail::Unknown, parts.rest());
        }
        return Err(TraceFault::Form);
    }
    if !is_name(name) {
        return Err(TraceFault::Form);
    }
    let Some(line) = number(line) else {
        return Err(TraceFault::Form);
    };
    let name = Bytes::copy_of(alloc, name)?;
    ended(Detail::At(name, line), parts.rest())
}

/// A name.
#[tactic(auto, unfolding(crate::specs::Told::name_told))]
fn named(alloc: Global, rest: &[u8]) -> Result<Detail, TraceFault>
    ensures told { MatchResult result (λ detail. name_told rest.now ≡ Some detail)
        (λ fault. fault ≡ TraceFault.Form → name_told rest.now ≡ None) }
{
    let mut parts = Parts::of(rest);
    let Some(name) = parts.part() else {
        return Err(TraceFault::Form);
    };
    if name == UNKNOWN {
        return ended(Detail::Unknown, parts.rest());
    }
    if !is_name(name) {
        return Err(TraceFault::Form);
    }
    let name = Bytes::copy_of(alloc, name)?;
    ended(Detail::Of(name), parts.rest())
}

/// A channel and the text of a value.
#[tactic(auto, unfolding(crate::specs::Told::sent_told))]
fn sent(alloc: Global, rest: &[u8]) -> Result<Detail, TraceFault>
    ensures told { MatchResult result (λ detail. sent_told rest.now ≡ Some detail)
        (λ fault. fault ≡ TraceFault.Form → sent_told rest.now ≡ None) }
{
    let mut parts = Parts::of(rest);
    let Some(channel) = parts.part() else {
        return Err(TraceFault::Form);
    };
    let Some(value) = value(parts.rest()) else {
        return Err(TraceFault::Form);
    };
    if channel == UNKNOWN {
        if value == UNKNOWN {
            return Ok(Detail::Unknown);
        }
        return Err(TraceFault::Form);
    }
    if !is_value_text(value) {
        return Err(TraceFault::Form);
    }
    let Some(channel) = number(channel) else {
        return Err(TraceFault::Form);
    };
    let value = Bytes::copy_of(alloc, value)?;
    Ok(Detail::Sent(channel, value))
}

/// All that is left after a space.
#[tactic(auto, unfolding(crate::specs::Told::value_part))]
fn value(rest: &[u8]) -> Option<&[u8]>
    ensures told { option_map (λ value. value.now) result ≡ value_part rest.now }
{
    match rest.split_first() {
        Some((b' ', value)) => Some(value),
        _ => None,
    }
}

fn is_value_text(text: &[u8]) -> bool
    ensures tells { result ≡ is_value_text text.now }
{
    !text.is_empty() && text != UNKNOWN && is_one_line(text)
}

fn is_one_line(text: &[u8]) -> bool
    ensures tells { result ≡ list_all (λ c. not (c == 10)) text.now }
{
    text.iter().all(|byte| *byte != b'\n')
}
