//! Bytes as lists of records.

ghost use Rattle.std.specs.Prelude.{◌≡◌, ◌⊎◌, ◌<◌, [], List, length, Ok, Err, IfOk};
ghost use Rattle.geo_base.specs.declared.refusal.Refused.TheVariants as refused;
ghost use Rattle.grid_row.specs.declared.fault.RowFault.{RowFault};
ghost use Rattle.grid_row.specs.declared.fault.RowFault.TheVariants.{Short, Count};
ghost use Rattle.grid_row.specs.declared.record.Record.{Record};
ghost use Rattle.grid_row.specs.Spelling.{AreRecords, spellings};
ghost use Rattle.grid_row.specs.Reading.{record_at, decoding, front};
ghost use Rattle.grid_row.specs.Kept.{Gives, records_behind};

use crate::fault::RowFault;
use crate::row_list::RowList;
use geo_base::refusal::Refused;
use std::alloc::Global;

/// The records of a list, and those of the bytes behind them.
fn records_of(list: RowList, bytes: &[u8]) -> Result<RowList, Refused<RowFault>>
    ensures gives { Gives (λ rs. rs) result (records_behind list (decoding bytes.now)) }
    ensures short { 0 < length bytes.now → length bytes.now < 20 → result ≡ Err (refused.Fault Short) }
    ensures outright { record_at bytes.now ≡ Err Count → result ≡ Err (refused.Fault Count) }
{
    let mut list = list;
    let mut rest = bytes;
    while !rest.is_empty() {
        rest = list.read_front(rest)?;
    }
    Ok(list)
}

/// The records of the bytes, one after another to their end, or the first rule that is broken from the left, as
/// [`crate::reading::read_record`] has them. No bytes give no records.
///
/// Memory may be refused in place of any answer, but not where the first record has a number of rows out of range, nor where
/// there are bytes but fewer than 20, which end before that number: this is found before room is asked for.
pub fn decode(alloc: Global, bytes: &[u8]) -> Result<RowList, Refused<RowFault>>
    // What is read is spelled so.
    ensures spelled { IfOk result (λ rs. AreRecords rs × (bytes.now ≡ spellings rs)) }
    // What is spelled so is read.
    ensures read { (rs : List Record) → AreRecords rs → bytes.now ≡ spellings rs → (result ≡ Ok rs) ⊎ (result ≡ Err refused.Memory) }
    ensures records { IfOk result (λ rs. decoding bytes.now ≡ Ok rs) }
    ensures fault { (e : RowFault) → result ≡ Err (refused.Fault e) → decoding bytes.now ≡ Err e }
    ensures short { 0 < length bytes.now → length bytes.now < 20 → result ≡ Err (refused.Fault Short) }
    ensures outright { front bytes.now ≡ Err Count → result ≡ Err (refused.Fault Count) }
{
    decode_into(RowList::new(alloc), bytes)
}

/// As [`decode`], in the room of a list that has no records.
pub fn decode_into(room: RowList, bytes: &[u8]) -> Result<RowList, Refused<RowFault>>
    requires { room ≡ [] }
    ensures spelled { IfOk result (λ rs. AreRecords rs × (bytes.now ≡ spellings rs)) }
    ensures read { (rs : List Record) → AreRecords rs → bytes.now ≡ spellings rs → (result ≡ Ok rs) ⊎ (result ≡ Err refused.Memory) }
    ensures records { IfOk result (λ rs. decoding bytes.now ≡ Ok rs) }
    ensures fault { (e : RowFault) → result ≡ Err (refused.Fault e) → decoding bytes.now ≡ Err e }
    ensures short { 0 < length bytes.now → length bytes.now < 20 → result ≡ Err (refused.Fault Short) }
    ensures outright { front bytes.now ≡ Err Count → result ≡ Err (refused.Fault Count) }
{
    records_of(room, bytes)
}
