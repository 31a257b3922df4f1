//! Tests of the search: that the three ways to an answer give the same one, how often a search fetches, and the calls that the
//! program doesn't make. What a contract says of each input, or a session shows, has no test.
#![tactic(auto)]

#[cfg(test)]
mod answers;
#[cfg(test)]
mod contexts;
#[cfg(test)]
mod places;
#[cfg(test)]
mod rows;
