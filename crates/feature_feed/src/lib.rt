//! Feeds of features: lines of JSON and rows of CSV, one item after another, and how a table is filled from one.
#![tactic(auto)]

pub mod csv_feed;
mod csv_rows;
pub mod drain;
pub mod feed;
pub mod json_lines_feed;
pub mod laws;
mod line_buffer;
pub mod memory_feed;
mod source_lines;
mod steady_source;
mod taking;
