//! A row of a grid, and the number that it packs to.

ghost use Rattle.std.specs.Prelude.{◌≡◌};
ghost use Rattle.grid_row.specs.Packed.{IsRow, packed, unpacked};

/// A feature at one of its tiles, as one of its phrases reaches it.
#[derive(Clone, Copy, Debug, PartialEq, Eq)]
pub struct Row {
    /// The relevance of the phrase: 40, 60, 80 or 100.
    pub relev: u8,
    /// The feature's level of score, 0 to 15.
    pub score: u8,
    /// The column of the tile, below 2^16.
    pub x: u32,
    /// The row of the tile, below 2^16.
    pub y: u32,
    /// The id of the feature, below 2^26.
    pub id: u32,
}

/// The row as one number of 64 bits. Numbers of rows are in order by relevance, then score, then column, then row, then id.
pub fn pack(r: &Row) -> u64
    requires { IsRow r.now }
    ensures packed { result ≡ packed r.now }
    ensures inverse { unpacked result ≡ r.now }
{
    let level = u64::from(r.relev) / 20 - 2;
    (level << 62)
        + (u64::from(r.score) << 58)
        + (u64::from(r.x) << 42)
        + (u64::from(r.y) << 26)
        + u64::from(r.id)
}

/// The row that packs to this number: there is one for each number.
pub fn unpack(w: u64) -> Row
    ensures unpacked { result ≡ unpacked w }
    ensures row { IsRow result }
    ensures inverse { packed result ≡ w }
{
    let level = (w >> 62) as u8;
    Row {
        relev: 40 + 20 * level,
        score: ((w >> 58) % (1 << 4)) as u8,
        x: ((w >> 42) % (1 << 16)) as u32,
        y: ((w >> 26) % (1 << 16)) as u32,
        id: (w % (1 << 26)) as u32,
    }
}
