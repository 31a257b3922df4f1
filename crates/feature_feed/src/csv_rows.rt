//! The rows of a text of CSV in memory, one after the other.

ghost use Rattle.std.specs.Prelude.{◌≡◌, List, ℕ, Some, None, IfOk, OnErr, bytes_eq, option_map, IfSome, ◌&&◌};
ghost use Rattle.csv.specs.Reading.{strip_bom};
ghost use Rattle.csv.specs.Records.{fields_of, field_at};
ghost use Rattle.csv.specs.declared.parser.State.TheVariants as st;
ghost use Rattle.feature_feed.specs.Csv.{is_header, without_header};

use csv::{ByteRecord, Reader, ReaderBuilder};
use geo_base::refusal::Memory;
use std::alloc::Global;
use std::io::Cursor;
use std::marker::Model;

/// How far a reader has come.
#[derive(Clone, Copy, PartialEq, Eq)]
pub(crate) enum Stage {
    /// It may have more records.
    Open,
    /// It has no more.
    Ended,
    /// It wanted memory, and tells nothing more.
    Lost,
}

/// The records of a text, of any lengths, seen as those that are left; `None` after a want of memory.
#[derive(Drop)]
pub(crate) struct Records {
    alloc: Global,
    reader: Reader<Cursor<Vec<u8>>>,
    stage: Stage,
}

impl Model for Records {
    ghost use Rattle.std.specs.Prelude.{◌≡◌, List, ℕ, Option, Some};
    ghost use Rattle.std.specs.Io.Cursor.{cursor_remaining};
    ghost use Rattle.feature_feed.specs.CsvRows.{rows_of, rows_at, IsPlain};
    ghost use Rattle.feature_feed.specs.declared.csv_rows.Stage.TheVariants.{Open};

    ghost Value = { Option (List (List (List ℕ))) };

    ghost view = { λ r. rows_at r.stage (rows_of (cursor_remaining (λ v. Some v.items)) r.reader) };

    ghost invariant = { λ r. r.stage ≡ Open → IsPlain (cursor_remaining (λ v. Some v.items)) r.reader };
}

ghost use Rattle.feature_feed.specs.CsvRows.{GivesRow, rows_from};

impl Records {
    /// The records of this text, without a byte order mark at its start.
    fn new(alloc: Global, bytes: Vec<u8>) -> Records
        ensures { result ≡ Some (rows_from st.StartRecord (strip_bom bytes.items)) }
    {
        Records {
            alloc,
            reader: ReaderBuilder::new()
                .has_headers(false)
                .flexible(true)
                .from_reader(alloc, Cursor::new(bytes)),
            stage: Stage::Open,
        }
    }

    /// The next record. Any refusal of the reader is want of memory, and stays.
    fn next(&mut self) -> Result<Option<ByteRecord>, Memory>
        ensures taken { IfOk result (λ o. (rows : List (List (List ℕ))) → self.old ≡ Some rows → GivesRow rows (option_map fields_of o) self.new) }
        ensures told { (rows : List (List (List ℕ))) → self.new ≡ Some rows → (before : List (List (List ℕ))) × (self.old ≡ Some before) }
        ensures lost { OnErr result (self.new ≡ None) }
    {
        match self.stage {
            Stage::Open => {}
            Stage::Ended => return Ok(None),
            Stage::Lost => return Err(Memory),
        }
        let mut row = ByteRecord::new(self.alloc);
        match self.reader.read_byte_record(&mut row) {
            Ok(true) => Ok(Some(row)),
            Ok(false) => {
                self.stage = Stage::Ended;
                Ok(None)
            }
            Err(_) => {
                self.stage = Stage::Lost;
                Err(Memory)
            }
        }
    }
}

impl Records {
    /// The first record that isn't the header as the first of all.
    fn first(&mut self) -> Result<Option<ByteRecord>, Memory>
        ensures taken { IfOk result (λ o. (rows : List (List (List ℕ))) → self.old ≡ Some rows → GivesRow (without_header rows) (option_map fields_of o) self.new) }
        ensures told { (rows : List (List (List ℕ))) → self.new ≡ Some rows → (before : List (List (List ℕ))) × (self.old ≡ Some before) }
        ensures lost { OnErr result (self.new ≡ None) }
    {
        let Some(row) = self.next()? else {
            return Ok(None);
        };
        if is_header_record(&row) {
            return self.next();
        }
        Ok(Some(row))
    }
}

/// Whether this field of a record is this word.
fn is_field(row: &ByteRecord, place: usize, word: &[u8]) -> bool
    ensures { IfSome (field_at (fields_of row.now) place) (λ field. result ≡ bytes_eq field word.now) }
{
    match row.get(place) {
        Some(field) => field == word,
        None => false,
    }
}

/// Whether all four are true.
fn all_four(a: bool, b: bool, c: bool, d: bool) -> bool
    ensures { result ≡ (a && b && c && d) }
{
    a && b && c && d
}

/// Whether a record is the header.
fn is_header_record(row: &ByteRecord) -> bool
    ensures { result ≡ is_header (fields_of row.now) }
{
    if row.len() != 4 {
        return false;
    }
    let id = is_field(row, 0, b"id");
    let text = is_field(row, 1, b"text");
    let zxy = is_field(row, 2, b"zxy");
    let score = is_field(row, 3, b"score");
    all_four(id, text, zxy, score)
}

/// The rows of a text, seen as those that are left; `None` after a want of memory. A first record that is the header is
/// no row.
#[derive(Drop)]
pub(crate) struct Rows {
    records: Records,
    // no record was read yet
    fresh: bool,
}

impl Model for Rows {
    ghost use Rattle.std.specs.Prelude.{List, ℕ, Option, option_map, if◌then◌else◌};
    ghost use Rattle.feature_feed.specs.Csv.{without_header};

    ghost Value = { Option (List (List (List ℕ))) };

    ghost view = { λ r. if r.fresh then option_map without_header r.records else r.records };
}

impl Rows {
    /// The rows of this text.
    pub(crate) fn new(alloc: Global, bytes: Vec<u8>) -> Rows
        ensures { result ≡ Some (without_header (rows_from st.StartRecord (strip_bom bytes.items))) }
    {
        Rows {
            records: Records::new(alloc, bytes),
            fresh: true,
        }
    }

    /// The next row. After a want of memory there is none any more, but that answer again.
    pub(crate) fn next(&mut self) -> Result<Option<ByteRecord>, Memory>
        ensures taken { IfOk result (λ o. (rows : List (List (List ℕ))) → self.old ≡ Some rows → GivesRow rows (option_map fields_of o) self.new) }
        ensures told { (rows : List (List (List ℕ))) → self.new ≡ Some rows → (before : List (List (List ℕ))) × (self.old ≡ Some before) }
        ensures lost { OnErr result (self.new ≡ None) }
    {
        if self.fresh {
            self.fresh = false;
            return self.records.first();
        }
        self.records.next()
    }
}
