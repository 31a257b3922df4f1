//! The grid entries of a layer: which features its phrases reach, at which tiles.
#![tactic(auto)]

pub mod entry;
pub mod factor;
pub mod laws;
mod making;
mod marks;
mod packing;
pub mod store;
mod tops;
