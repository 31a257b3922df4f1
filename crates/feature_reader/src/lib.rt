//! Features: the feature that a JSON text or a row of CSV stands for, and the table of features.
#![tactic(auto)]

pub mod feature;
pub mod laws;
pub mod load_report;
mod own_texts;
pub mod phrase;
pub mod raw;
pub mod read_feature;
mod relevance;
mod row;
pub mod rules;
mod score;
pub mod table;
pub mod taker;
mod text_phrases;
pub mod tiles;
