use crate::guarded::{is_pair, is_party, offer, option, withdraw};
use chi_base::NoMemory;
use chi_chan::{Offer, Waiting};
use std::alloc::Global;
use std::test::Fail;

const CROWD: u32 = 10_000;

/// The one that meets the crowd. Its number stands in the middle of theirs.
const ONE: u32 = 5_000;

const CHANNEL: u32 = 7;

/// In which order the crowd and the one come, or go.
#[derive(Drop)]
struct Order {
    crowd_first: bool,
    ascending: bool,
}

impl Order {
    /// By the two lowest bits of a number.
    fn of(bits: u32) -> Order {
        Order {
            crowd_first: bits % 2 == 0,
            ascending: bits / 2 % 2 == 0,
        }
    }
}

fn own(sends: bool) -> [Offer; 1] {
    if sends {
        [Offer::Send(CHANNEL)]
    } else {
        [Offer::Receive(CHANNEL)]
    }
}

/// Number `turn` of the crowd, from either end.
fn member(order: &Order, turn: u32) -> u32 {
    let place = if order.ascending {
        turn
    } else {
        CROWD.saturating_sub(turn).saturating_sub(1)
    };
    if place < ONE {
        place
    } else {
        place.saturating_add(1)
    }
}

fn come(waiting: &mut Waiting, order: &Order, crowd_sends: bool) -> Result<(), NoMemory> {
    if !order.crowd_first {
        offer(waiting, ONE, &own(!crowd_sends))?;
    }
    for turn in 0..CROWD {
        offer(waiting, member(order, turn), &own(crowd_sends))?;
    }
    if order.crowd_first {
        offer(waiting, ONE, &own(!crowd_sends))?;
    }
    Ok(())
}

fn go(waiting: &mut Waiting, order: &Order) {
    if !order.crowd_first {
        withdraw(waiting, ONE);
    }
    for turn in 0..CROWD {
        withdraw(waiting, member(order, turn));
    }
    if order.crowd_first {
        withdraw(waiting, ONE);
    }
}

/// Each of the crowd may meet the one, or the one each of them, in order.
fn meet(waiting: &Waiting, crowd_sends: bool) -> bool {
    for place in 0..CROWD {
        let pid = if place < ONE {
            place
        } else {
            place.saturating_add(1)
        };
        let met = if crowd_sends {
            is_pair(option(waiting, pid, 0, 0), 0, ONE, 0) && waiting.option_count(pid, 0) == 1
        } else {
            is_pair(option(waiting, ONE, 0, place as u64), 0, pid, 0)
                && waiting.option_count(pid, 0) == 0
        };
        if !met {
            return false;
        }
    }
    waiting.option_count(ONE, 0) == if crowd_sends { 0 } else { CROWD as u64 }
}

fn lengths(waiting: &Waiting, senders: usize, receivers: usize) -> bool {
    waiting.senders(CHANNEL).len() == senders && waiting.receivers(CHANNEL).len() == receivers
}

/// They come in each order, and from each they go in each.
#[test]
fn one_meets_a_crowd(rt: HostRuntime) -> Result<(), Fail> {
    let mut waiting = Waiting::new(rt.alloc());
    for turn in 0..32u32 {
        let crowd_sends = turn % 2 == 0;
        come(&mut waiting, &Order::of(turn / 2), crowd_sends)?;
        assert!(rt; meet(&waiting, crowd_sends), "turn {turn}");
        let (senders, receivers) = if crowd_sends {
            (10_000, 1)
        } else {
            (1, 10_000)
        };
        assert!(rt; lengths(&waiting, senders, receivers), "turn {turn}");
        go(&mut waiting, &Order::of(turn / 8));
        assert!(rt; lengths(&waiting, 0, 0), "turn {turn}");
    }
    Ok(())
}

/// So many offers to receive.
fn receives(alloc: Global, count: u32) -> Result<Vec<Offer>, NoMemory> {
    let mut offers = Vec::new(alloc);
    for _more in 0..count {
        offers.push(Offer::Receive(CHANNEL))?;
    }
    Ok(offers)
}

/// An instance with many offers on one channel leaves it, and those before and after it stay.
#[test]
fn many_offers_leave_at_once(rt: HostRuntime) -> Result<(), Fail> {
    let alloc = rt.alloc();
    let mut waiting = Waiting::new(alloc);
    for count in [0u32, 1, 63, 64, 65, 4_096, 65_536] {
        let offers = receives(alloc, count)?;
        let few = [
            Offer::Receive(CHANNEL),
            Offer::Send(CHANNEL),
            Offer::Receive(CHANNEL),
        ];
        offer(&mut waiting, 3, offers.as_slice())?;
        offer(&mut waiting, 9, &few)?;
        offer(&mut waiting, 1, &few)?;
        // Instance 1 has pairs with those of 3 and with two of 9, and none with itself.
        assert_eq!(rt; waiting.option_count(1, 0), count as u64 + 2);
        assert_eq!(rt; waiting.option_count(9, 0), count as u64 + 2);
        assert!(rt; is_pair(option(&waiting, 1, 0, count as u64 + 1), 1, 9, 2));
        withdraw(&mut waiting, 3);
        assert_eq!(rt; waiting.option_count(1, 0), 2);
        let left = waiting.receivers(CHANNEL);
        assert!(rt;
            left.len() == 4
                && left
                    .iter()
                    .zip([1u32, 1, 9, 9].iter())
                    .all(|(party, pid)| party.pid == *pid)
        );
        withdraw(&mut waiting, 9);
        withdraw(&mut waiting, 1);
        assert!(rt; lengths(&waiting, 0, 0), "count {count}");
    }
    Ok(())
}

fn is_send(offer: &Offer, channel: u32) -> bool {
    match offer {
        Offer::Send(number) => *number == channel,
        _ => false,
    }
}

/// Whether an instance's two offers are lent, the second of which sends on the channel of its number.
fn are_lent(waiting: &Waiting, pid: u32) -> bool {
    match waiting.offers_of(pid) {
        Some(offers) => offers.len() == 2 && offers.iter().any(|offer| is_send(offer, pid)),
        None => false,
    }
}

/// Instances and channels of great numbers, and offers that are lent as they were made.
#[test]
fn great_numbers_have_their_lines(rt: HostRuntime) -> Result<(), Fail> {
    let mut waiting = Waiting::new(rt.alloc());
    for pid in [0u32, 1, 63, 64, 65, 4_096, 99_999] {
        offer(&mut waiting, pid, &[Offer::Delay(5), Offer::Send(pid)])?;
        assert!(rt;
            waiting
                .senders(pid)
                .iter()
                .all(|party| is_party(party, pid, 1))
        );
        assert_eq!(rt; waiting.senders(pid).len(), 1);
        assert_eq!(rt; waiting.option_count(pid, 4), 0);
        assert_eq!(rt; waiting.option_count(pid, 5), 1);
        assert!(rt; are_lent(&waiting, pid), "instance {pid}");
    }
    for pid in [64u32, 99_999, 0, 4_096, 1, 65, 63] {
        withdraw(&mut waiting, pid);
        assert!(rt; waiting.offers_of(pid).is_none());
        assert_eq!(rt; waiting.senders(pid).len(), 0);
        assert_eq!(rt; waiting.option_count(pid, 5), 0);
    }
    Ok(())
}
