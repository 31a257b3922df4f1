//! Tests of the index of a layer: the calls of phrases and grids that the program doesn't make. What a contract says of each
//! input, or a session shows, has no test.
#![tactic(auto)]

#[cfg(test)]
mod grids;
#[cfg(test)]
mod phrases;
