//! Bytes as records.

ghost use Rattle.std.specs.Prelude.{◌≡◌, ◌⊎◌, ◌++◌, ◌<◌, ◌≤◌, ◌^◌, ℕ, List, length, drop, Ok, Err, IfOk, IfErr, OnErr};
ghost use Rattle.std.specs.Int.{w32, w64};
ghost use Rattle.std.specs.Io.{StartsWith};
ghost use Rattle.geo_base.specs.declared.refusal.Refused.TheVariants as refused;
ghost use Rattle.grid_row.specs.declared.fault.RowFault.{RowFault};
ghost use Rattle.grid_row.specs.declared.fault.RowFault.TheVariants.{Short, Count};
ghost use Rattle.grid_row.specs.declared.record.Record.{Record};
ghost use Rattle.grid_row.specs.Spelling.{IsRecord, spelling};
ghost use Rattle.grid_row.specs.Reading.{number_at, set_at, count_at, row_at, rows_at, record_at, front};
ghost use Rattle.grid_row.specs.Kept.{seen, Fails, Gives, rows_behind};

use crate::fault::RowFault;
use crate::record::Record;
use crate::row_numbers::RowNumbers;
use geo_base::lang_set::LangSet;
use geo_base::refusal::Refused;
use std::alloc::Global;

const MOST_ROWS: u32 = 8_388_608;

fn u32_at(bytes: &[u8]) -> Result<(u32, &[u8]), RowFault>
    ensures { seen result ≡ number_at w32 bytes.now }
{
    if bytes.len() < 4 {
        return Err(RowFault::Short);
    }
    let (front, rest) = bytes.split_at(4);
    let number = u32::from_le_bytes([front[0], front[1], front[2], front[3]]);
    Ok((number, rest))
}

fn u64_at(bytes: &[u8]) -> Result<(u64, &[u8]), RowFault>
    ensures { seen result ≡ number_at w64 bytes.now }
{
    if bytes.len() < 8 {
        return Err(RowFault::Short);
    }
    let (front, rest) = bytes.split_at(8);
    let number = u64::from_le_bytes([
        front[0], front[1], front[2], front[3], front[4], front[5], front[6], front[7],
    ]);
    Ok((number, rest))
}

#[tactic(auto, unfolding(crate::specs::Reading::set_at))]
pub(crate) fn set_of(bytes: &[u8]) -> Result<(u128, &[u8]), RowFault>
    ensures { seen result ≡ set_at bytes.now }
{
    let (low, rest) = u64_at(bytes)?;
    let (high, rest) = u64_at(rest)?;
    Ok((u128::from(low) + (u128::from(high) << 64), rest))
}

#[tactic(auto, unfolding(crate::specs::Reading::count_at))]
pub(crate) fn count_of(bytes: &[u8]) -> Result<(u32, &[u8]), RowFault>
    ensures value { seen result ≡ count_at bytes.now }
    ensures count { IfOk result (λ x. (0 < x.0) × (x.0 ≤ 8388608)) }
{
    let (count, rest) = u32_at(bytes)?;
    if count == 0 || MOST_ROWS < count {
        return Err(RowFault::Count);
    }
    Ok((count, rest))
}

/// A row that has to lie below `top`.
#[tactic(auto, unfolding(crate::specs::Reading::row_at))]
fn row_of(top: u128, bytes: &[u8]) -> Result<(u64, &[u8]), RowFault>
    ensures { seen result ≡ row_at top bytes.now }
{
    let (row, rest) = u64_at(bytes)?;
    if u128::from(row) == top {
        return Err(RowFault::ZeroDifference);
    }
    if top < u128::from(row) {
        return Err(RowFault::BelowZero);
    }
    Ok((row, rest))
}

/// Reads so many rows to the end of a list; gives the bytes after them. Room is asked for once, and never for more rows than
/// the bytes can hold.
pub(crate) fn read_rows<'a>(
    rows: &mut Vec<u64>,
    count: u32,
    bytes: &'a [u8],
) -> Result<&'a [u8], Refused<RowFault>>
    ensures ok { IfOk result (λ rest. rows_behind rows.old.items (rows_at count (2 ^ 64) bytes.now) ≡ Ok (rows.new.items, rest.now)) }
    ensures err { IfErr result (λ e. Fails e (rows_at count (2 ^ 64) bytes.now)) }
    ensures front { OnErr result (StartsWith rows.new.items rows.old.items) }
{
    rows.reserve((count as usize).min(bytes.len() / 8))?;
    let mut top = 1u128 << 64;
    let mut rest = bytes;
    for _ in 0..count {
        let (row, after) = row_of(top, rest)?;
        rows.push(row)?;
        top = u128::from(row);
        rest = after;
    }
    Ok(rest)
}

/// The record at the front, and the bytes after it.
#[tactic(auto, unfolding(crate::specs::Reading::record_at))]
fn record_of(alloc: Global, bytes: &[u8]) -> Result<(Record, &[u8]), Refused<RowFault>>
    ensures gives { Gives (λ x. (x.0, x.1.now)) result (record_at bytes.now) }
    ensures short { length bytes.now < 20 → result ≡ Err (refused.Fault Short) }
    ensures outright { record_at bytes.now ≡ Err Count → result ≡ Err (refused.Fault Count) }
{
    let (bits, rest) = set_of(bytes)?;
    let (count, rest) = count_of(rest)?;
    let mut list = Vec::new(alloc);
    let rest = read_rows(&mut list, count, rest)?;
    let set = LangSet { bits };
    Ok((
        Record {
            set,
            rows: RowNumbers { list },
        },
        rest,
    ))
}

/// The record at the front and how many bytes it takes.
fn front_of(alloc: Global, bytes: &[u8]) -> Result<(Record, usize), Refused<RowFault>>
    ensures gives { Gives (λ x. x) result (front bytes.now) }
    ensures short { length bytes.now < 20 → result ≡ Err (refused.Fault Short) }
    ensures outright { front bytes.now ≡ Err Count → result ≡ Err (refused.Fault Count) }
{
    let (found, rest) = record_of(alloc, bytes)?;
    Ok((found, bytes.len() - rest.len()))
}

/// The record at the front and the number of bytes that it takes, or the first rule that is broken from the left:
/// the set of 16 bytes, the number of rows in 4, which is 1 to 8,388,608, and the rows of 8 bytes each, which strictly fall.
/// Bytes may follow the record.
///
/// Memory may be refused in place of any answer but `Count` and, where there are fewer than 20 bytes, `Short`: both are found
/// before room is asked for, which is never for more rows than the bytes can hold.
pub fn read_record(alloc: Global, bytes: &[u8]) -> Result<(Record, usize), Refused<RowFault>>
    // What is read is spelled so, at the front.
    ensures spelled { IfOk result (λ x. IsRecord x.0 × (x.1 ≡ length (spelling x.0)) × (bytes.now ≡ spelling x.0 ++ drop x.1 bytes.now)) }
    // What is spelled so at the front is read, whatever follows it.
    ensures read { (r : Record) (rest : List ℕ) → IsRecord r → bytes.now ≡ spelling r ++ rest
        → (result ≡ Ok (r, length (spelling r))) ⊎ (result ≡ Err refused.Memory) }
    ensures record { IfOk result (λ x. front bytes.now ≡ Ok x) }
    ensures fault { (e : RowFault) → result ≡ Err (refused.Fault e) → front bytes.now ≡ Err e }
    ensures short { length bytes.now < 20 → result ≡ Err (refused.Fault Short) }
    ensures outright { front bytes.now ≡ Err Count → result ≡ Err (refused.Fault Count) }
{
    front_of(alloc, bytes)
}
