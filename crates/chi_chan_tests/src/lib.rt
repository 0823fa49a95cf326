//! Tests of waiting lists, of sets that find the n-th of their members, and of due times: beside sorted vectors, and with many
//! parties on a channel.
#![tactic(auto)]

#[cfg(test)]
mod crowds;
#[cfg(test)]
mod dues;
#[cfg(test)]
mod guarded;
#[cfg(test)]
mod random;
#[cfg(test)]
mod random_calls;
#[cfg(test)]
mod ranks;
#[cfg(test)]
mod twin;
