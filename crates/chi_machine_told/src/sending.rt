//! What an instance sends, by its offers.

ghost use Rattle.std.specs.Prelude.{◌≡◌, IfOk, option_and_then};
ghost use Rattle.chi_core.specs.declared.label.Label.TheVariants as label;
ghost use Rattle.chi_machine_told.specs.There.{Sends, act_in, channel_by};
ghost use Rattle.chi_trace.specs.Events.{Fits};
ghost use Rattle.chi_trace_events.specs.Channels.{channel_sent};
ghost use Rattle.chi_trace_events.specs.Traces.{sending_told};

use chi_base::NoMemory;
use chi_chan::Offer;
use chi_code::Code;
use chi_machine::Opened;
use chi_trace::Detail;
use chi_trace_events::sent_text;
use std::alloc::Global;

// The channel on which an offer sends, if it does.
fn channel_by(offer: Offer) -> Option<u32>
    ensures { result ≡ channel_by offer }
{
    match offer {
        Offer::Send(channel) => Some(channel),
        Offer::Receive(_) | Offer::Delay(_) => None,
    }
}

/// The channel on which the offer of this number sends, if it does.
pub fn channel_in(opened: &Opened, number: u32) -> Option<u32>
    ensures { result ≡ option_and_then channel_sent (act_in opened.now number) }
{
    match opened.offers().get(number as usize) {
        Some(offer) => channel_by(*offer),
        None => None,
    }
}

/// What the offer of this number sends, and on which channel.
pub fn sending(alloc: Global, code: &Code, opened: &Opened, number: u32) -> Result<Detail, NoMemory>
    requires { Sends code.now (act_in opened.now number) }
    ensures detail { IfOk result (λ detail. option_and_then (sending_told code.now.names.kinds) (act_in opened.now number) ≡ Some detail) }
    ensures fits { IfOk result (λ detail. Fits (label.Pair 0 0 0 0) detail) }
{
    match channel_in(opened, number) {
        Some(channel) => {
            let text = sent_text(alloc, opened.value(number), &code.names)?;
            Ok(Detail::Sent(channel, text))
        }
        None => unreachable!(),
    }
}
