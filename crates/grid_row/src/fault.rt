//! Why bytes are no record.

use geo_base::refusal::Refused;

/// The first rule that bytes break, from the left.
#[derive(Clone, Copy, Debug, PartialEq, Eq, Drop)]
pub enum RowFault {
    /// The bytes end before the record does.
    Short,
    /// A number is spelled with more bytes than it takes. Here each number has a fixed number of bytes, so this never comes.
    LongNumber,
    /// A row is the one before it.
    ZeroDifference,
    /// A row is greater than the one before it.
    BelowZero,
    /// The number of rows is 0 or over 8,388,608.
    Count,
}

impl From<RowFault> for Refused<RowFault> {
    ghost use Rattle.std.specs.Prelude.{◌≡◌};
    ghost use Rattle.geo_base.specs.declared.refusal.Refused.TheVariants as refused;

    ghost from_gives = { λ f r. r ≡ refused.Fault f };

    fn from(fault: RowFault) -> Self {
        Refused::Fault(fault)
    }
}
