//! Rows of a grid, packed into numbers, and records of them as bytes.
#![tactic(auto)]

pub mod decoding;
pub mod fault;
pub mod laws;
pub mod reading;
pub mod record;
pub mod row;
pub mod row_list;
pub mod row_numbers;
pub mod writing;
