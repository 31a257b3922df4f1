//! A session on its way from a source to a sink: lines are read one by one, and each closed round is answered and written
//! before more is read.
#![tactic(auto)]

mod answering;
pub mod laws;
mod line_reader;
mod respond;
pub mod run;
mod running;
pub mod transfer;
