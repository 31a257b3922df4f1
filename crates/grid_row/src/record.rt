//! Records: a set of languages and its rows.

use crate::row_numbers::RowNumbers;
use geo_base::lang_set::LangSet;

/// The rows of one phrase in one set of languages.
#[derive(Debug, Drop)]
pub struct Record {
    /// The languages that the phrase speaks for.
    pub set: LangSet,
    /// 1 to 8,388,608 packed rows, the greatest first.
    pub rows: RowNumbers,
}
