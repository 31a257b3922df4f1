//! The tree of partials: pieces that may stand below one another, how good what stands below a partial can be,
//! and how the survivors of a partial grow.
#![tactic(auto)]

pub mod bounded;
pub mod laws;
pub mod partial;
mod room;
mod roots;
pub mod tree;
