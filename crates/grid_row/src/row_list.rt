//! Lists of records.

ghost use Rattle.std.specs.Prelude.{◌≡◌, ◌++◌, ◌∷◌, [], ◌<◌, ◌≤◌, length, IfOk, IfErr, OnOk, OnErr, Ok, Err, Some, slice_get, slice_range};
ghost use Rattle.geo_base.specs.declared.refusal.Refused.TheVariants as refused;
ghost use Rattle.grid_row.specs.declared.fault.RowFault.TheVariants.{Short, Count};
ghost use Rattle.grid_row.specs.declared.record.Record.{Record};
ghost use Rattle.grid_row.specs.Rows.{IsRowNumbers};
ghost use Rattle.grid_row.specs.Reading.{record_at};
ghost use Rattle.grid_row.specs.Kept.{Fails, kept_start};

use crate::fault::RowFault;
use crate::reading::{count_of, read_rows, set_of};
use crate::record::Record;
use geo_base::lang_set::LangSet;
use geo_base::refusal::{Memory, Refused};
use std::alloc::Global;
use std::marker::Model;

/// The set of a record in a list, and the place behind its last row among the rows of all records.
#[derive(Clone, Copy)]
struct RecordEnd {
    set: LangSet,
    end: usize,
}

/// The place of a record's first row among the rows of all records.
fn start_of(ends: &[RecordEnd], place: usize) -> usize
    requires { place < length ends.now }
    ensures { result ≡ kept_start 0 ends.now place }
{
    if place == 0 {
        return 0;
    }
    ends[place - 1].end
}

fn between(rows: &[u64], from: usize, to: usize) -> &[u64]
    requires low { from ≤ to }
    requires high { to ≤ length rows.now }
    ensures { result.now ≡ slice_range rows.now from to }
{
    &rows[from..to]
}

/// The bits of a set, as a number of 128 bits.
fn bits_of(set: LangSet) -> u128
    ensures { result ≡ set.bits }
{
    set.bits
}

/// A list of records. The rows of all of them lie in one list.
#[derive(Drop)]
pub struct RowList {
    ends: Vec<RecordEnd>,
    rows: Vec<u64>,
}

impl Model for RowList {
    ghost use Rattle.std.specs.Prelude.{List, length};
    ghost use Rattle.grid_row.specs.declared.record.Record.{Record};
    ghost use Rattle.grid_row.specs.Spelling.{AreRecords};
    ghost use Rattle.grid_row.specs.Kept.{kept_records, RiseTo};

    ghost Value = { List Record };

    ghost view = { λ l. kept_records 0 l.ends.items l.rows.items };

    ghost invariant = { λ l. RiseTo (length l.rows.items) 0 l.ends.items × AreRecords (kept_records 0 l.ends.items l.rows.items) };
}

/// A record that is lent from a list.
#[derive(Clone, Copy)]
pub struct LentRecord<'a> {
    /// The languages that the phrase speaks for.
    pub set: LangSet,
    /// 1 to 8,388,608 packed rows, the greatest first.
    pub rows: &'a [u64],
}

impl RowList {
    /// The empty list; takes no memory.
    pub fn new(alloc: Global) -> RowList
        ensures { result ≡ [] }
    {
        RowList {
            ends: Vec::new(alloc),
            rows: Vec::new(alloc),
        }
    }

    /// The empty list, with room for so many records and so many rows of theirs.
    pub fn with_room(alloc: Global, records: usize, rows: usize) -> Result<RowList, Memory>
        ensures { IfOk result (λ l. l ≡ []) }
    {
        let ends = Vec::with_capacity(alloc, records)?;
        let rows = Vec::with_capacity(alloc, rows)?;
        Ok(RowList { ends, rows })
    }

    /// Adds a record. Want of memory leaves the list as it was.
    pub fn push(&mut self, added: &Record) -> Result<(), Memory>
        ensures ok { OnOk result (self.new ≡ self.old ++ added.now ∷ []) }
        ensures err { OnErr result (self.new ≡ self.old) }
    {
        let bits = bits_of(added.set);
        self.ends.reserve(1)?;
        self.rows.extend_from_slice(added.rows.as_slice())?;
        let end = self.rows.as_slice().len();
        let set = LangSet { bits };
        self.ends.push_reserved(RecordEnd { set, end });
        Ok(())
    }

    /// Reads the record at the front of the bytes to the end of the list; gives the bytes after it. A refusal leaves the
    /// list as it was.
    #[tactic(auto, unfolding(crate::specs::Reading::record_at))]
    pub(crate) fn read_front<'a>(&mut self, bytes: &'a [u8]) -> Result<&'a [u8], Refused<RowFault>>
        ensures ok { IfOk result (λ rest. (r : Record) × (record_at bytes.now ≡ Ok (r, rest.now)) × (self.new ≡ self.old ++ r ∷ [])) }
        ensures err { IfErr result (λ e. Fails e (record_at bytes.now)) }
        ensures short { length bytes.now < 20 → result ≡ Err (refused.Fault Short) }
        ensures outright { record_at bytes.now ≡ Err Count → result ≡ Err (refused.Fault Count) }
        ensures kept { OnErr result (self.new ≡ self.old) }
    {
        let (bits, rest) = set_of(bytes)?;
        let (count, rest) = count_of(rest)?;
        self.ends.reserve(1)?;
        let before = self.rows.as_slice().len();
        match read_rows(&mut self.rows, count, rest) {
            Ok(rest) => {
                let end = self.rows.as_slice().len();
                self.ends.push_reserved(RecordEnd {
                    set: LangSet { bits },
                    end,
                });
                Ok(rest)
            }
            Err(refused) => {
                self.rows.truncate(before);
                Err(refused)
            }
        }
    }

    /// The number of records.
    #[allow(clippy::len_without_is_empty)]
    pub fn len(&self) -> usize
        ensures { result ≡ length self.now }
    {
        self.ends.as_slice().len()
    }

    /// A record by its place, counted from 0.
    pub fn at(&self, place: usize) -> LentRecord<'_>
        requires { place < length self.now }
        ensures record { slice_get self.now place ≡ Some (record { set = result.set; rows = result.rows.now }) }
        ensures rows { IsRowNumbers result.rows.now }
    {
        let from = start_of(self.ends.as_slice(), place);
        let here = self.ends[place];
        LentRecord {
            set: here.set,
            rows: between(self.rows.as_slice(), from, here.end),
        }
    }
}
