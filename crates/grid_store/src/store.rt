//! The records of a layer by phrase, with what is asked of a range of phrases without a look at rows.

ghost use Rattle.std.specs.Prelude.{◌≡◌, ◌<◌, ◌≤◌, length, slice_range, IfOk, IfSome};
ghost use Rattle.grid_row.specs.Spelling.{AreRecords, spellings};
ghost use Rattle.grid_store.specs.Entries.{AreRows, entries_in, top_of};
ghost use Rattle.grid_store.specs.Order.{IsStoreOf, IsStore};
ghost use Rattle.grid_store.specs.Records.{groups, records_of};
ghost use Rattle.grid_store.specs.Marks.{IsPart};

use crate::entry::GridEntry;
use crate::making::Parts;
use crate::marks::{Before, before_phrase};
use crate::packing::{PackedEntry, packed_entries};
use crate::tops::best_rank;
use geo_base::refusal::{Memory, Refused};
use grid_row::decoding::decode_into;
use grid_row::row_list::RowList;
use std::alloc::Global;
use std::marker::Model;
use std::ops::Range;
use std::snapshot::Snapshot;

/// The distinct grid entries of a layer, seen as a list that rises by phrase and set and falls by row. They lie as records,
/// one for each phrase and set; the entries themselves are kept for contracts alone, without room.
#[derive(Drop)]
pub struct GridStore {
    alloc: Global,
    parts: Parts,
    entries: Snapshot<Vec<PackedEntry>>,
}

impl Model for GridStore {
    ghost use Rattle.std.specs.Prelude.{List, map};
    ghost use Rattle.grid_store.specs.declared.entry.GridEntry.{GridEntry};
    ghost use Rattle.grid_store.specs.Packing.{unpacked_entry};
    ghost use Rattle.grid_store.specs.Stored.{IsStored};

    ghost Value = { List GridEntry };

    ghost view = { λ s. map unpacked_entry s.entries.value.items };

    ghost invariant = { λ s. IsStored (map unpacked_entry s.entries.value.items) s.parts };
}

/// What lies in a store of some phrases: the bytes of their records, and how many records and rows these have.
#[derive(Drop)]
struct Found<'a> {
    bytes: &'a [u8],
    records: usize,
    rows: usize,
}

fn between<T>(list: &[T], from: usize, to: usize) -> &[T]
    requires low { from ≤ to }
    requires high { to ≤ length list.now }
    ensures { result.now ≡ slice_range list.now from to }
{
    &list[from..to]
}

impl GridStore {
    /// The store of these entries, at most 8,388,608, each of which counts once. While it is made it never takes more than
    /// twice the room of the entries handed in, these included; where they are fewer than 16, up to 30 bytes more.
    pub fn build(alloc: Global, list: Vec<GridEntry>) -> Result<GridStore, Memory>
        requires few { length list.items ≤ 8388608 }
        requires rows { AreRows list.items }
        ensures { IfOk result (IsStoreOf list.items) }
    {
        let packed = packed_entries(alloc, list)?;
        let parts = Parts::of(alloc, packed.as_slice())?;
        let entries = Snapshot::of(&packed);
        Ok(GridStore {
            alloc,
            parts,
            entries,
        })
    }

    /// What comes before the records of these phrases, and before those behind them.
    fn bounds(&self, phrases: &Range<u32>) -> (Before, Before)
        ensures part { IsPart (groups self.now) (groups (entries_in (phrases.now.start, phrases.now.end) self.now)) result.0 result.1 }
        ensures store { IsStore self.now }
        ensures records { AreRecords (records_of self.now) }
    {
        let end = phrases.start.max(phrases.end);
        let from = before_phrase(self.parts.marks.as_slice(), self.parts.total, phrases.start);
        let to = before_phrase(self.parts.marks.as_slice(), self.parts.total, end);
        (from, to)
    }

    /// The number of the distinct entries of the phrases with these numbers, at most 8,388,608; takes no memory. A store's
    /// fields are private, so this is where a caller learns the rule that its entries keep.
    pub fn count(&self, phrases: Range<u32>) -> u64
        ensures value { result ≡ length (entries_in (phrases.start, phrases.end) self.now) }
        ensures bound { result ≤ 8388608 }
        ensures store { IsStore self.now }
    {
        let (from, to) = self.bounds(&phrases);
        u64::from(to.rows - from.rows)
    }

    /// The greatest pair of weight and score of the entries of these phrases, by weight first: the weight is the relevance
    /// times 100 where no language is asked for or the entry's set has its bit, which is below 128, else times 96, so it is
    /// 3,840 to 10,000, and the score is 0 to 15. None exactly where the phrases have no entries. It looks at one kept pair
    /// of each record and at no row, and takes no memory.
    pub fn top(&self, phrases: Range<u32>, lang: Option<u8>) -> Option<(u32, u8)>
        requires { IfSome lang (λ bit. bit < 128) }
        ensures value { result ≡ top_of lang (entries_in (phrases.start, phrases.end) self.now) }
        ensures range { IfSome result (λ top. (top.0 ≤ 10000) × (top.1 < 16)) }
    {
        let (from, to) = self.bounds(&phrases);
        let sets = between(
            self.parts.sets.as_slice(),
            from.records as usize,
            to.records as usize,
        );
        let tops = between(
            self.parts.tops.as_slice(),
            from.records as usize,
            to.records as usize,
        );
        if sets.is_empty() {
            return None;
        }
        let best = best_rank(sets, tops, lang);
        Some((best / 16, (best % 16) as u8))
    }

    /// The bytes of the records of these phrases, and how many records and rows these have.
    fn found(&self, phrases: &Range<u32>) -> Found<'_>
        ensures bytes { result.bytes.now ≡ spellings (records_of (entries_in (phrases.now.start, phrases.now.end) self.now)) }
        ensures are { AreRecords (records_of (entries_in (phrases.now.start, phrases.now.end) self.now)) }
        ensures records { result.records ≡ length (records_of (entries_in (phrases.now.start, phrases.now.end) self.now)) }
        ensures rows { result.rows ≡ length (entries_in (phrases.now.start, phrases.now.end) self.now) }
    {
        let (from, to) = self.bounds(phrases);
        let records = (to.records - from.records) as usize;
        let rows = (to.rows - from.rows) as usize;
        let bytes = between(
            self.parts.bytes.as_slice(),
            from.bytes as usize,
            to.bytes as usize,
        );
        Found {
            bytes,
            records,
            rows,
        }
    }

    /// The bytes of the records of these phrases, one record for each phrase and set, by phrase and then by set as a number;
    /// takes no memory. [`grid_row::decoding::decode`] reads them.
    pub fn bytes(&self, phrases: Range<u32>) -> &[u8]
        ensures bytes { result.now ≡ spellings (records_of (entries_in (phrases.start, phrases.end) self.now)) }
        ensures records { AreRecords (records_of (entries_in (phrases.start, phrases.end) self.now)) }
    {
        self.found(&phrases).bytes
    }

    /// The records of these phrases, as their bytes have them. Room for all is asked for at once.
    pub fn rows(&self, phrases: Range<u32>) -> Result<RowList, Memory>
        ensures { IfOk result (λ rows. rows ≡ records_of (entries_in (phrases.start, phrases.end) self.now)) }
    {
        let found = self.found(&phrases);
        let room = RowList::with_room(self.alloc, found.records, found.rows)?;
        match decode_into(room, found.bytes) {
            Ok(list) => Ok(list),
            Err(Refused::Memory) => Err(Memory),
            Err(Refused::Fault(_)) => unreachable!(),
        }
    }
}
