//! What takes features: a table, or whoever builds from one.

ghost use Rattle.std.specs.Prelude.{◌≡◌, ◌↔◌, IsTrue, ℕ, Bool, true, Ok, Err, IfOk};
ghost use Rattle.geo_base.specs.declared.refusal.Refused.TheVariants as refused;
ghost use Rattle.feature_reader.specs.FeatureView.{zoom_of};
ghost use Rattle.feature_reader.specs.Table.{Table, put, put_answer};
ghost use Rattle.feature_reader.specs.declared.taker.PutFault.{PutFault};

use crate::feature::Feature;
use geo_base::refusal::Refused;

/// What a put answers.
#[derive(Clone, Copy, Debug, PartialEq, Eq)]
pub enum Taken {
    /// No feature of its layer and id stood there.
    New,
    /// It stands in the place of the feature of its layer and id.
    Changed,
}

impl Taken {
    /// Whether the two are the same.
    pub fn is(&self, other: &Taken) -> bool
        ensures { IsTrue result ↔ (self.now ≡ other.now) }
    {
        self == other
    }
}

/// Why a feature isn't taken, in the order in which the faults are tried.
#[derive(Clone, Copy, Debug, PartialEq, Eq)]
pub enum PutFault {
    /// It would be new, and 262,144 features stand already.
    TooManyFeatures,
    /// The rows, which are a feature's phrases times its tiles, would be more than 8,388,608 in all.
    TooManyRows,
}

impl PutFault {
    /// Whether the two are the same.
    pub fn is(&self, other: &PutFault) -> bool
        ensures { IsTrue result ↔ (self.now ≡ other.now) }
    {
        self == other
    }
}

/// What takes features into layers.
pub trait Taker {
    /// The features and their layers, rising by layer and then id, each pair once.
    ghost table: { Self → Table };

    /// Whether it takes features of a layer whose tiles have a zoom.
    ghost takes: { Self → ℕ → ℕ → Bool };

    /// The same with other features.
    ghost with_table: { Self → Table → Self };

    /// Takes a feature into a layer, in the place of the one of its layer and id where one stood.
    /// A feature that is refused, for a limit or for want of memory, is dropped, and all stays as before.
    /// Nothing but the features changes.
    fn take(&mut self, layer: u8, f: Feature) -> Result<Taken, Refused<PutFault>>
        requires { takes self.old layer (zoom_of f) ≡ true }
        ensures layers { takes self.new ≡ takes self.old }
        ensures rest { with_table self.new ≡ with_table self.old }
        ensures ok { IfOk result (λ taken. (put_answer (table self.old) layer f ≡ Ok taken) × (table self.new ≡ put (table self.old) layer f)) }
        ensures fault { (fault : PutFault) → result ≡ Err (refused.Fault fault) → (put_answer (table self.old) layer f ≡ Err fault) × (table self.new ≡ table self.old) }
        ensures memory { result ≡ Err refused.Memory → table self.new ≡ table self.old };
}
