//! Records as bytes.

ghost use Rattle.std.specs.Prelude.{◌≡◌, ◌≤◌, ◌++◌, OnErr, OnOk};
ghost use Rattle.std.specs.Io.{StartsWith};
ghost use Rattle.std.specs.List.{flat_map};
ghost use Rattle.std.specs.Int.{w64, to_le_bytes};
ghost use Rattle.grid_row.specs.Rows.{IsRowNumbers};
ghost use Rattle.grid_row.specs.Spelling.{set_bytes, spelling, room_of};

use crate::record::Record;
use geo_base::lang_set::LangSet;
use geo_base::refusal::Memory;

/// The most bytes of so many records with so many rows, both at most 8,388,608.
pub fn room(records: usize, rows: usize) -> usize
    requires records { records ≤ 8388608 }
    requires rows { rows ≤ 8388608 }
    ensures { result ≡ room_of records rows }
{
    20 * records + 8 * rows
}

fn append_set(set: LangSet, out: &mut Vec<u8>) -> Result<(), Memory>
    ensures ok { OnOk result (out.new.items ≡ out.old.items ++ set_bytes set.bits) }
    ensures err { OnErr result (StartsWith out.new.items out.old.items) }
{
    let low = (set.bits % (1 << 64)) as u64;
    let high = (set.bits >> 64) as u64;
    out.extend_from_slice(&low.to_le_bytes())?;
    out.extend_from_slice(&high.to_le_bytes())?;
    Ok(())
}

fn append_rows(rows: &[u64], out: &mut Vec<u8>) -> Result<(), Memory>
    ensures ok { OnOk result (out.new.items ≡ out.old.items ++ flat_map (to_le_bytes w64) rows.now) }
    ensures err { OnErr result (StartsWith out.new.items out.old.items) }
{
    for row in rows {
        out.extend_from_slice(&row.to_le_bytes())?;
    }
    Ok(())
}

/// Appends the record of a set and rows. Want of memory leaves what was there at the front.
fn append(set: LangSet, rows: &[u64], out: &mut Vec<u8>) -> Result<(), Memory>
    requires { IsRowNumbers rows.now }
    ensures ok { OnOk result (out.new.items ≡ out.old.items ++ spelling (record { set = set; rows = rows.now })) }
    ensures err { OnErr result (StartsWith out.new.items out.old.items) }
{
    out.reserve(room(1, rows.len()))?;
    append_set(set, out)?;
    out.extend_from_slice(&(rows.len() as u32).to_le_bytes())?;
    append_rows(rows, out)?;
    Ok(())
}

/// Appends the one spelling of the record of a set and of rows, as [`write_record`] does.
pub fn write_rows(set: LangSet, rows: &[u64], out: &mut Vec<u8>) -> Result<(), Memory>
    requires { IsRowNumbers rows.now }
    ensures ok { OnOk result (out.new.items ≡ out.old.items ++ spelling (record { set = set; rows = rows.now })) }
    ensures err { OnErr result (out.new.items ≡ out.old.items) }
{
    let before = out.len();
    match append(set, rows, out) {
        Ok(()) => Ok(()),
        Err(Memory) => {
            out.truncate(before);
            Err(Memory)
        }
    }
}

/// Appends the one spelling of the record: the set in 16 bytes, the number of rows in 4, and each row in 8, the greatest
/// first, all with the low byte first. Room is asked for once. Want of memory leaves the bytes as they were.
pub fn write_record(r: &Record, out: &mut Vec<u8>) -> Result<(), Memory>
    ensures ok { OnOk result (out.new.items ≡ out.old.items ++ spelling r.now) }
    ensures err { OnErr result (out.new.items ≡ out.old.items) }
{
    write_rows(r.set, r.rows.as_slice(), out)
}
