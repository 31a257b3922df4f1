//! Texts: their normal form and tokens, the replacement of tokens, numbers as digits, and cutting texts into lines and
//! words.
#![tactic(auto)]

pub mod cut;
pub mod laws;
pub mod line_feed;
pub mod normalizer;
pub mod number;
pub mod text;
pub mod token_map;
mod token_sink;
pub mod tokens;

/// Want of memory: room was asked for and refused.
pub use std::alloc::AllocError as Memory;
