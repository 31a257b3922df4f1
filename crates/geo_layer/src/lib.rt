//! The head of a session: the listed languages and the layers, and the reading of both.
#![tactic(auto)]

pub mod head;
pub mod json;
pub mod langs;
pub mod laws;
pub mod layer;
pub mod layers;
pub mod read_layer;
mod stacks;
