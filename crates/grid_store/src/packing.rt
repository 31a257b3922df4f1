//! Entries whose rows are packed, in their order.

ghost use Rattle.std.specs.Prelude.{◌≡◌, ◌↔◌, ◌<◌, ◌≤◌, ◌^◌, length, map, All, Contains, IfOk};
ghost use Rattle.std.specs.List.Sorted.{IsStrictlySortedBy};
ghost use Rattle.grid_row.specs.Packed.{IsRow};
ghost use Rattle.grid_store.specs.declared.packing.PackedEntry.{PackedEntry};
ghost use Rattle.grid_store.specs.Entries.{AreRows};
ghost use Rattle.grid_store.specs.Packing.{packed_entry, IsPacked, packed_cmp, same_group, group_front, first_group_length};

use crate::entry::GridEntry;
use geo_base::lang_set::LangSet;
use geo_base::refusal::Memory;
use grid_row::row::pack;
use std::alloc::Global;
use std::cmp::Ordering;

/// A grid entry with its row as one number. It takes two thirds of the room of an entry and is compared by three numbers.
#[derive(Clone, Copy, PartialEq, Eq)]
pub(crate) struct PackedEntry {
    pub(crate) set: LangSet,
    pub(crate) row: u64,
    pub(crate) phrase: u32,
}

/// The bits of a set, as a number of 128 bits.
fn bits_of(set: LangSet) -> u128
    ensures { result ≡ set.bits }
{
    set.bits
}

fn pack_entry(entry: &GridEntry) -> PackedEntry
    requires { IsRow entry.now.row }
    ensures value { result ≡ packed_entry entry.now }
    ensures fits { IsPacked result }
{
    let bits = bits_of(entry.set);
    PackedEntry {
        set: LangSet { bits },
        row: pack(&entry.row),
        phrase: entry.phrase,
    }
}

/// The entries with packed rows.
fn pack_entries(alloc: Global, list: &[GridEntry]) -> Result<Vec<PackedEntry>, Memory>
    requires { AreRows list.now }
    ensures value { IfOk result (λ v. v.items ≡ map packed_entry list.now) }
    ensures fit { IfOk result (λ v. All IsPacked v.items) }
{
    let mut packed = Vec::with_capacity(alloc, list.len())?;
    for entry in list {
        packed.push(pack_entry(entry))?;
    }
    Ok(packed)
}

fn compare(a: &PackedEntry, b: &PackedEntry) -> Ordering
    ensures { result ≡ packed_cmp a.now b.now }
{
    a.phrase
        .cmp(&b.phrase)
        .then(a.set.bits.cmp(&b.set.bits).then(b.row.cmp(&a.row)))
}

/// Puts the entries into their order, each once.
fn sort_distinct(entries: &mut Vec<PackedEntry>)
    ensures rise { IsStrictlySortedBy packed_cmp entries.new.items }
    ensures members { (k : PackedEntry) → Contains entries.new.items k ↔ Contains entries.old.items k }
    ensures few { length entries.new.items ≤ length entries.old.items }
{
    entries.sort_unstable_by(|a, b| compare(a, b));
    entries.dedup();
}

/// The entries of the list with packed rows, in their order, each once. The list is let go before they are sorted.
pub(crate) fn packed_entries(
    alloc: Global,
    list: Vec<GridEntry>,
) -> Result<Vec<PackedEntry>, Memory>
    requires { AreRows list.items }
    ensures rise { IfOk result (λ v. IsStrictlySortedBy packed_cmp v.items) }
    ensures members { IfOk result (λ v. (k : PackedEntry) → Contains v.items k ↔ Contains (map packed_entry list.items) k) }
    ensures fit { IfOk result (λ v. All IsPacked v.items) }
    ensures few { IfOk result (λ v. length v.items ≤ length list.items) }
{
    let mut entries = pack_entries(alloc, list.as_slice())?;
    drop(list);
    sort_distinct(&mut entries);
    Ok(entries)
}

/// Whether both are of one phrase and set.
pub(crate) fn is_same_group(a: &PackedEntry, b: &PackedEntry) -> bool
    ensures { result ≡ same_group a.now b.now }
{
    a.phrase == b.phrase && a.set.bits == b.set.bits
}

/// How many of the entries at the front are of the phrase and set of another.
fn front_of_group(first: &PackedEntry, more: &[PackedEntry]) -> usize
    ensures value { result ≡ group_front first.now more.now }
    ensures bound { result ≤ length more.now }
{
    let mut count = 0;
    for entry in more {
        if !is_same_group(first, entry) {
            return count;
        }
        count += 1;
    }
    count
}

/// How many entries the first group has.
pub(crate) fn group_length(entries: &[PackedEntry]) -> usize
    ensures value { result ≡ first_group_length entries.now }
    ensures bound { result ≤ length entries.now }
{
    match entries {
        [] => 0,
        [first, more @ ..] => 1 + front_of_group(first, more),
    }
}
