//! The search of a job: workers, the run of one worker alone, and the replay of a run of several.
#![tactic(auto)]

pub mod fronts;
pub mod kept_rows;
pub mod laws;
pub mod one;
pub mod opening;
pub mod replay;
mod slots;
pub mod worker;
