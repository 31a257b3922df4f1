//! The text of a session: its lines, what they say, and the text of each answer.
#![tactic(auto)]

pub mod body;
mod body_line;
pub mod events;
mod fields;
mod head_line;
pub mod item;
pub mod laws;
pub mod replay_reply;
pub mod session;
pub mod status;
pub mod why;
pub mod write;
