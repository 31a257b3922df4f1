//! Replies to queries.

use crate::query::QueryFault;
use geo_base::answer::Answer;

/// A reply to a query.
#[derive(Drop)]
pub enum Reply {
    /// The answer, and the number of the generation that it is the answer of.
    Found {
        generation: u32,
        answer: Answer,
    },
    /// The line spells no query.
    Unreadable(QueryFault),
    /// In this generation the query matches more grid entries than its limit allows: how many it matches,
    /// and the limit.
    Grids {
        generation: u32,
        total: u64,
        limit: u64,
    },
    /// Room was asked for and refused.
    Memory,
}
