use chi_base::NoMemory;
use chi_chan::{Choice, Offer, Party};
use std::alloc::Global;

/// The offers of waiting instances, in a vector that is sorted by instance. All else is found by a scan.
#[derive(Drop)]
pub struct Twin {
    entries: Vec<Entry>,
}

#[derive(Drop)]
struct Entry {
    pid: u32,
    offers: Vec<Offer>,
}

fn is_on(offer: &Offer, sends: bool, channel: u32) -> bool {
    match offer {
        Offer::Send(number) => sends && *number == channel,
        Offer::Receive(number) => !sends && *number == channel,
        Offer::Delay(_) => false,
    }
}

impl Twin {
    pub fn new(alloc: Global) -> Twin {
        Twin {
            entries: Vec::new(alloc),
        }
    }

    /// Where an instance stands, or would stand.
    fn place_of(&self, pid: u32) -> usize {
        for (place, entry) in self.entries.iter().enumerate() {
            if entry.pid >= pid {
                return place;
            }
        }
        self.entries.len()
    }

    pub fn waits(&self, pid: u32) -> bool {
        self.entries.iter().any(|entry| entry.pid == pid)
    }

    pub fn offer(&mut self, pid: u32, offers: Vec<Offer>) -> Result<(), NoMemory> {
        let place = self.place_of(pid);
        if place <= self.entries.len() {
            self.entries.insert(place, Entry { pid, offers })?;
        }
        Ok(())
    }

    pub fn withdraw(&mut self, pid: u32) {
        let place = self.place_of(pid);
        if place < self.entries.len() && self.waits(pid) {
            self.entries.remove(place);
        }
    }

    /// Who sends on a channel, or who receives from it.
    pub fn parties(
        &self,
        alloc: Global,
        sends: bool,
        channel: u32,
    ) -> Result<Vec<Party>, NoMemory> {
        let mut parties = Vec::new(alloc);
        for entry in self.entries.iter() {
            let mut alternative = 0u32;
            for offer in entry.offers.iter() {
                if is_on(offer, sends, channel) {
                    parties.push(Party {
                        pid: entry.pid,
                        alternative,
                    })?;
                }
                alternative = alternative.saturating_add(1);
            }
        }
        Ok(parties)
    }

    pub fn options(&self, alloc: Global, pid: u32, clock: i64) -> Result<Vec<Choice>, NoMemory> {
        let mut options = Vec::new(alloc);
        for entry in self.entries.iter() {
            if entry.pid == pid {
                let mut alternative = 0u32;
                for offer in entry.offers.iter() {
                    self.options_by(alloc, pid, clock, alternative, offer, &mut options)?;
                    alternative = alternative.saturating_add(1);
                }
            }
        }
        Ok(options)
    }

    fn options_by(
        &self,
        alloc: Global,
        pid: u32,
        clock: i64,
        alternative: u32,
        offer: &Offer,
        options: &mut Vec<Choice>,
    ) -> Result<(), NoMemory> {
        match offer {
            Offer::Send(channel) => {
                let parties = self.parties(alloc, false, *channel)?;
                for party in parties.iter() {
                    if party.pid != pid {
                        options.push(Choice::Pair(alternative, *party))?;
                    }
                }
            }
            Offer::Receive(_) => {}
            Offer::Delay(due) => {
                if *due <= clock {
                    options.push(Choice::Wake(alternative))?;
                }
            }
        }
        Ok(())
    }
}
