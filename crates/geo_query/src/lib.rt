//! Queries: their reading from a line, and the replies to them.
#![tactic(auto)]

pub mod laws;
mod options;
pub mod query;
pub mod read_query;
pub mod reply;
