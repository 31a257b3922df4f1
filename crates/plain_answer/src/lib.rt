//! The answer to a query by its definition: a filter over the chains of links, slow and plain.
#![tactic(auto)]

pub mod answer;
pub mod bounds;
mod chains;
mod count;
pub mod job_answer;
pub mod laws;
mod layer_tokens;
mod links;
mod matching;
