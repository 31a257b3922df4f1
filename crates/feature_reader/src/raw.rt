//! The raw forms of a feature: the bytes of a JSON text, and the fields of a row of CSV.

ghost use Rattle.std.specs.Prelude.{◌≡◌, length, map, option_map, slice_get, IfOk};
ghost use Rattle.csv.specs.Records.{fields_of};
ghost use Rattle.feature_reader.specs.Row.{text_at};

use csv::ByteRecord;
use geo_base::refusal::Memory;
use std::alloc::Global;
use std::marker::Model;

/// Bytes that may be the JSON text of a feature, seen as a list.
#[derive(Drop)]
pub struct RawText {
    list: Vec<u8>,
}

impl Model for RawText {
    ghost use Rattle.std.specs.Prelude.{ℕ, List};

    ghost Value = { List ℕ };

    ghost view = { λ t. t.list.items };
}

impl RawText {
    /// These bytes.
    pub fn from_vec(list: Vec<u8>) -> RawText
        ensures { result ≡ list.items }
    {
        RawText { list }
    }

    /// The bytes.
    pub fn as_slice(&self) -> &[u8]
        ensures { result.now ≡ self.now }
    {
        self.list.as_slice()
    }

    /// The number of bytes.
    pub fn len(&self) -> usize
        ensures { result ≡ length self.now }
    {
        self.list.len()
    }
}

/// A row of CSV that may be a feature, seen as the list of its fields, each a list of bytes.
#[derive(Drop)]
pub struct RawRow {
    row: ByteRecord,
}

impl Model for RawRow {
    ghost use Rattle.std.specs.Prelude.{ℕ, List};
    ghost use Rattle.csv.specs.Records.{fields_of};

    ghost Value = { List (List ℕ) };

    ghost view = { λ r. fields_of r.row };
}

impl RawRow {
    /// The row of a record; takes no memory.
    pub fn from_record(row: ByteRecord) -> RawRow
        ensures { result ≡ fields_of row }
    {
        RawRow { row }
    }

    /// The row of these fields.
    pub fn of(alloc: Global, fields: &[&[u8]]) -> Result<RawRow, Memory>
        ensures { IfOk result (λ r. r ≡ map (λ f. f.now) fields.now) }
    {
        Ok(RawRow {
            row: ByteRecord::from_fields(alloc, fields)?,
        })
    }

    /// The number of fields.
    pub fn len(&self) -> usize
        ensures { result ≡ length self.now }
    {
        self.row.len()
    }

    /// The field at a place, counted from 0; None where there are fewer.
    pub fn field(&self, place: usize) -> Option<&[u8]>
        ensures { option_map (λ f. f.now) result ≡ slice_get self.now place }
    {
        self.row.get(place)
    }

    /// The field at a place, counted from 0, as a text; None where there are fewer or it isn't UTF-8.
    pub fn text_at(&self, place: usize) -> Option<&str>
        ensures { option_map (λ f. f.now) result ≡ text_at self.now place }
    {
        match std::str::from_utf8(self.field(place)?) {
            Ok(text) => Some(text),
            Err(_) => None,
        }
    }
}
