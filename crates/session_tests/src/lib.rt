//! Whole sessions over devices and feeds that fail, give or take one byte a call, or count. What a session in a file shows is
//! tried there.
#![tactic(auto)]

#[cfg(test)]
mod devices;
#[cfg(test)]
mod feeds;
#[cfg(test)]
mod sessions;
