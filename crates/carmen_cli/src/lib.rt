//! The command line: the top call, and what a run of the program does around it.
#![tactic(auto)]

pub mod about;
pub mod program;
pub mod top;
pub mod words;
