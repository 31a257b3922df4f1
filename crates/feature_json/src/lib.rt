//! The members of a feature that count, read from the tokens of a JSON text.
#![tactic(auto)]

pub mod members;
pub mod number;
pub mod own_members;
pub mod properties;
pub mod seen;
mod stop;
mod tile_list;
pub mod tile_text;
