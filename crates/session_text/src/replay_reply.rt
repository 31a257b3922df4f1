//! What a query is answered with whose search goes by given events.

use geo_query::reply::Reply;

/// A reply to a query whose search goes by given events.
#[derive(Drop)]
pub enum ReplayReply {
    /// What any ask of the query is answered with: the events are a whole search, or there was none.
    Plain(Reply),
    /// The event at this place, counted from 0, isn't allowed, in the search of this generation.
    Illegal { generation: u32, place: u64 },
    /// Each event is allowed, and this root is the first that isn't done.
    Unfinished { generation: u32, root: u32 },
}
