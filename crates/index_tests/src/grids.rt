//! Rows of a grid, records of them, and stores of grid entries.

ghost use Rattle.std.specs.Prelude.{◌<◌};
ghost use Rattle.grid_row.specs.Packed.{IsRow};

use geo_base::lang_set::LangSet;
use geo_base::refusal::Refused;
use grid_row::decoding::decode;
use grid_row::fault::RowFault;
use grid_row::reading::read_record;
use grid_row::record::Record;
use grid_row::row::Row;
use grid_row::row_list::RowList;
use grid_row::row_numbers::RowNumbers;
use grid_row::writing::{write_record, write_rows};
use grid_store::entry::GridEntry;
use grid_store::store::GridStore;
use std::alloc::Global;
use std::process::Abort;

/// The set of all languages.
const ALL: LangSet = LangSet { bits: u128::MAX };

/// The record of a feature with id 1, relevance 100 and score 0 on the tiles 6/33/32 and 6/32/32, in all languages.
const USA: [u8; 36] = [
    255, 255, 255, 255, 255, 255, 255, 255, 255, 255, 255, 255, 255, 255, 255, 255, 2, 0, 0, 0, 1,
    0, 0, 128, 0, 132, 0, 192, 1, 0, 0, 128, 0, 128, 0, 192,
];

/// That feature at a column.
fn usa_at(x: u32) -> Row
    requires { x < 65536 }
    ensures { IsRow result }
{
    Row {
        relev: 100,
        score: 0,
        x,
        y: 32,
        id: 1,
    }
}

/// The bytes of a record of so many rows, the last of them 7.
fn record_bytes(rt: &impl Abort, alloc: Global, rows: u32) -> Vec<u8> {
    let mut out = Vec::new(alloc);
    out.extend_from_slice(&[0; 16]).expect(rt, "memory");
    out.extend_from_slice(&rows.to_le_bytes())
        .expect(rt, "memory");
    for n in 0..rows {
        let row = 7 + u64::from(rows - 1 - n) * 1_000_003;
        out.extend_from_slice(&row.to_le_bytes())
            .expect(rt, "memory");
    }
    out
}

#[test]
fn records_are_written_and_read(rt: HostRuntime) {
    let alloc = rt.alloc();
    let mut rows = RowNumbers::new(alloc, 0xC000_8400_8000_0001).expect(&rt, "memory");
    rows.push(0xC000_8000_8000_0001).expect(&rt, "memory");
    let usa = Record { set: ALL, rows };
    let mut bytes = Vec::new(alloc);
    write_record(&usa, &mut bytes).expect(&rt, "memory");
    assert!(rt; bytes.as_slice() == USA.as_slice());
    write_rows(ALL, &[0], &mut bytes).expect(&rt, "memory");
    assert!(rt; bytes.len() == 64);
    let large = record_bytes(&rt, alloc, 5_000);
    bytes.extend_from_slice(&large).expect(&rt, "memory");
    let (first, used) = read_record(alloc, &bytes).expect(&rt, "a record");
    assert!(rt; used == 36 && first.rows.as_slice() == usa.rows.as_slice());
    let mut list = decode(alloc, &bytes).expect(&rt, "records");
    list.push(&first).expect(&rt, "memory");
    assert!(rt; list.len() == 4);
    assert!(rt; list.at(1).rows == [0].as_slice() && list.at(2).rows.len() == 5_000);
    assert!(rt; list.at(3).set == ALL && list.at(3).rows == list.at(0).rows);
    let mut again = Vec::new(alloc);
    for place in 0..3 {
        let record = list.at(place);
        write_rows(record.set, record.rows, &mut again).expect(&rt, "memory");
    }
    assert!(rt; again.as_slice() == bytes.as_slice());
    let mut roomy = RowList::with_room(alloc, 1, 2).expect(&rt, "memory");
    roomy.push(&usa).expect(&rt, "memory");
    assert!(rt; roomy.at(0).rows == usa.rows.as_slice());
}

/// The fault of bytes that are no record.
fn fault_of(rt: &impl Abort, alloc: Global, bytes: &[u8]) -> RowFault {
    match read_record(alloc, bytes) {
        Err(Refused::Fault(fault)) => fault,
        _ => panic!(rt; "a fault"),
    }
}

#[test]
fn the_first_broken_rule_is_told(rt: HostRuntime) {
    let alloc = rt.alloc();
    assert!(rt; fault_of(&rt, alloc, &USA[..35]) == RowFault::Short);
    let mut equal = USA;
    equal[33] = 132;
    assert!(rt; fault_of(&rt, alloc, &equal) == RowFault::ZeroDifference);
    let mut rising = USA;
    rising[33] = 133;
    assert!(rt; fault_of(&rt, alloc, &rising) == RowFault::BelowZero);
}

/// The entry of `usa` at a column.
fn usa_entry(x: u32) -> GridEntry
    requires { x < 65536 }
    ensures { IsRow result.row }
{
    GridEntry {
        phrase: 0,
        set: ALL,
        row: usa_at(x),
    }
}

#[test]
fn two_entries_are_one_record(rt: HostRuntime) {
    let alloc = rt.alloc();
    let list = vec![in alloc; usa_entry(32), usa_entry(33)].expect(&rt, "memory");
    let store = GridStore::build(alloc, list).expect(&rt, "memory");
    assert!(rt; store.bytes(0..1) == USA.as_slice());
    assert!(rt; store.count(0..1) == 2 && store.count(1..1) == 0);
    assert!(rt; store.top(0..1, None) == Some((10_000, 0)));
    assert!(rt; store.top(1..1, None).is_none());
}
