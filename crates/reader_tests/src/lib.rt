//! Tests of what reads texts and features: the adapters round std's readers and writers, feeds whose source fails, and the
//! calls that the program doesn't make. What a contract says of each input, or a session shows, has no test.
#![tactic(auto)]

#[cfg(test)]
mod devices;
#[cfg(test)]
mod features;
#[cfg(test)]
mod feeds;
#[cfg(test)]
mod texts;
