//! Laws of rows and of the spelling of records, and worked examples, as the contracts of functions that do nothing.

ghost use Rattle.std.specs.Prelude.{◌≡◌, ◌≤◌, ◌<◌, ◌-◌, ◌^◌, ◌++◌, ℕ, List, [], ◌∷◌, length, take, Ok, Err};
ghost use Rattle.grid_row.specs.declared.fault.RowFault.TheVariants.{Short, ZeroDifference, BelowZero, Count};
ghost use Rattle.grid_row.specs.declared.record.Record.{Record};
ghost use Rattle.grid_row.specs.declared.row.Row.{Row};
ghost use Rattle.grid_row.specs.Packed.{IsRow, packed, unpacked};
ghost use Rattle.grid_row.specs.Spelling.{IsRecord, AreRecords, spelling, spellings, rows_in, room_of};
ghost use Rattle.grid_row.specs.Reading.{record_at, decoding, front, Stays};
ghost use Rattle.grid_row.specs.Examples.{new_york, usa_at, usa, usa_bytes, least_bytes};

/// What was written is read again, whatever follows it.
pub fn written_is_read()
    ensures { (r : Record) (rest : List ℕ) → IsRecord r → record_at (spelling r ++ rest) ≡ Ok (r, rest) }
{}

/// Each row is what its number unpacks to, and each number of 64 bits packs a row.
pub fn packing_is_one_to_one()
    ensures unpacks { (r : Row) → IsRow r → unpacked (packed r) ≡ r }
    ensures fits { (r : Row) → IsRow r → packed r < 2 ^ 64 }
    ensures packs { (w : ℕ) → w < 2 ^ 64 → packed (unpacked w) ≡ w }
    ensures row { (w : ℕ) → w < 2 ^ 64 → IsRow (unpacked w) }
{}

/// No spelling is a front of another, and each record has one.
pub fn one_spelling()
    ensures { (a b : Record) (x y : List ℕ) → IsRecord a → IsRecord b → spelling a ++ x ≡ spelling b ++ y → (a ≡ b) × (x ≡ y) }
{}

/// What is read from the front is read there whatever follows, and so is each fault but `Short`: a fault stands
/// in the bytes that break the rule and in nothing behind them.
pub fn what_follows_plays_no_part()
    ensures { (bytes more : List ℕ) → Stays more (record_at bytes) (record_at (bytes ++ more)) }
{}

/// Records take no more bytes than [`crate::writing::room`] says.
pub fn spellings_fit()
    ensures { (rs : List Record) → length (spellings rs) ≤ room_of (length rs) (rows_in rs) }
{}

/// Rows and the numbers that they pack to.
pub fn worked_rows()
    ensures city { packed new_york ≡ 16429272180283408386 }
    ensures country { packed (usa_at 33) ≡ 13835203192964513793 }
    ensures one_column_less { packed (usa_at 33) - packed (usa_at 32) ≡ 4398046511104 }
{}

/// Records and the bytes that spell them, and bytes that break a rule.
pub fn worked_records()
    ensures usa { spelling usa ≡ usa_bytes }
    ensures usa_again { front usa_bytes ≡ Ok (usa, 36) }
    ensures least { front least_bytes ≡ Ok (record { set = record { bits = 0 }; rows = 0 ∷ [] }, 28) }
    ensures both { decoding (usa_bytes ++ least_bytes) ≡ Ok (usa ∷ record { set = record { bits = 0 }; rows = 0 ∷ [] } ∷ []) }
    ensures nothing { decoding [] ≡ Ok [] }
    ensures ends { front (take 35 usa_bytes) ≡ Err Short }
    ensures ends_in_the_set { front (take 15 usa_bytes) ≡ Err Short }
    ensures no_rows { front (take 16 usa_bytes ++ (0 ∷ 0 ∷ 0 ∷ 0 ∷ [])) ≡ Err Count }
    ensures too_many_rows { front (take 16 usa_bytes ++ (1 ∷ 0 ∷ 0x80 ∷ 0 ∷ [])) ≡ Err Count }
    ensures equal_rows { front (take 28 usa_bytes ++ (0x01 ∷ 0 ∷ 0 ∷ 0x80 ∷ 0 ∷ 0x84 ∷ 0 ∷ 0xC0 ∷ [])) ≡ Err ZeroDifference }
    ensures rising_rows { front (take 28 usa_bytes ++ (0x02 ∷ 0 ∷ 0 ∷ 0x80 ∷ 0 ∷ 0x84 ∷ 0 ∷ 0xC0 ∷ [])) ≡ Err BelowZero }
{}
