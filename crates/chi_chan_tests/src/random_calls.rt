use crate::guarded::{count_lent, is_pair, is_party, offer, option, withdraw, withdraw_lent};
use crate::random::Random;
use crate::twin::Twin;
use chi_base::NoMemory;
use chi_chan::{Choice, Offer, Party, Waiting};
use std::alloc::Global;
use std::test::Fail;

const INSTANCES: u32 = 16;

const CHANNELS: u32 = 4;

/// A random offer.
fn any_offer(random: &mut Random) -> Offer {
    let kind = random.next() % 5;
    if kind == 0 {
        Offer::Delay((random.next() % 8) as i64)
    } else if kind < 3 {
        Offer::Send(random.next() % CHANNELS)
    } else {
        Offer::Receive(random.next() % CHANNELS)
    }
}

/// Up to four of them.
fn any_offers(alloc: Global, random: &mut Random) -> Result<Vec<Offer>, NoMemory> {
    let mut offers = Vec::new(alloc);
    for _more in 0..random.next() % 5 {
        offers.push(any_offer(random))?;
    }
    Ok(offers)
}

fn are_parties(parties: &[Party], twins: &Vec<Party>) -> bool {
    parties.len() == twins.len()
        && parties
            .iter()
            .zip(twins.iter())
            .all(|(party, own)| is_party(party, own.pid, own.alternative))
}

fn is_choice(choice: Option<Choice>, own: &Choice) -> bool {
    match own {
        Choice::Pair(a, party) => is_pair(choice, *a, party.pid, party.alternative),
        Choice::Wake(a) => match choice {
            Some(Choice::Wake(b)) => *a == b,
            _ => false,
        },
    }
}

fn lines_agree(alloc: Global, waiting: &Waiting, twin: &Twin) -> Result<bool, NoMemory> {
    for channel in 0..CHANNELS + 1 {
        let senders = twin.parties(alloc, true, channel)?;
        let receivers = twin.parties(alloc, false, channel)?;
        if !are_parties(waiting.senders(channel), &senders)
            || !are_parties(waiting.receivers(channel), &receivers)
        {
            return Ok(false);
        }
    }
    Ok(true)
}

fn options_agree(
    alloc: Global,
    waiting: &Waiting,
    twin: &Twin,
    clock: i64,
) -> Result<bool, NoMemory> {
    for pid in 0..INSTANCES + 1 {
        let options = twin.options(alloc, pid, clock)?;
        let count = options.len() as u64;
        if waiting.option_count(pid, clock) != count || count_lent(waiting, pid, clock) != count {
            return Ok(false);
        }
        let mut i = 0u64;
        for own in options.iter() {
            if !is_choice(option(waiting, pid, clock, i), own) {
                return Ok(false);
            }
            i = i.saturating_add(1);
        }
    }
    Ok(true)
}

/// Some thousands of random calls. After each all lines and all options are looked at.
#[test]
fn lines_and_options_are_those_of_a_scan(rt: HostRuntime) -> Result<(), Fail> {
    let alloc = rt.alloc();
    let mut random = Random::new();
    let mut waiting = Waiting::new(alloc);
    let mut twin = Twin::new(alloc);
    for call in 0..2_000u32 {
        let pid = random.next() % INSTANCES;
        if twin.waits(pid) {
            twin.withdraw(pid);
            if call % 2 == 0 {
                withdraw(&mut waiting, pid);
            } else {
                withdraw_lent(alloc, &mut waiting, pid)?;
            }
        } else {
            let offers = any_offers(alloc, &mut random)?;
            offer(&mut waiting, pid, offers.as_slice())?;
            twin.offer(pid, offers)?;
        }
        let clock = (call % 10) as i64;
        assert!(rt; lines_agree(alloc, &waiting, &twin)?, "call {call}");
        assert!(rt;
            options_agree(alloc, &waiting, &twin, clock)?,
            "call {call}"
        );
    }
    Ok(())
}
