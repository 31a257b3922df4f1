//! The table of features.

ghost use Rattle.std.specs.Prelude.{◌≡◌, ◌+◌, ◌<◌, ◌≤◌, ◌^◌, List, [], length, map, sum_by, slice_get, Some, Ok, Err, IfOk, IfErr, IfSome, OnOk, All, is_some, true, not, if◌then◌else◌};
ghost use Rattle.geo_base.specs.declared.refusal.Refused.TheVariants as refused;
ghost use Rattle.feature_reader.specs.declared.taker.PutFault.{PutFault};
ghost use Rattle.feature_reader.specs.declared.taker.Taken.TheVariants as taken;
ghost use Rattle.feature_reader.specs.Table.{IsTable, IsWithinLimits, entry_of, stands, without, with_feature, is_one_too_many, put, put_answer, rows_of, rows, most_features, most_rows, features_in};

use crate::feature::Feature;
use crate::taker::{PutFault, Taken, Taker};
use geo_base::refusal::{Memory, Refused};
use std::alloc::Global;
use std::collections::BTreeMap;
use std::collections::btree_map::{Iter, Range};
use std::marker::Model;

/// Where a feature stands in the table: by its layer, and in the layer by its id.
#[derive(Clone, Copy, Debug, PartialEq, Eq, PartialOrd, Ord)]
pub struct Place {
    /// The number of the layer, counted from 0.
    pub layer: u8,
    /// The id of the feature, below 2^26.
    pub id: u32,
}

/// The most features of a table.
const MOST_FEATURES: usize = 262_144;

/// The most rows of a table.
const MOST_ROWS: u128 = 8_388_608;

/// The features of the layers 0 to 15, seen as the list of their layers and themselves, rising by
/// layer and then id, each pair once: at most 262,144, and at most 8,388,608 rows, where the rows of
/// a feature are its phrases times its tiles.
#[derive(Drop)]
pub struct FeatureTable {
    features: BTreeMap<Place, Feature>,
    /// The rows of all features.
    row_count: u32,
}

impl Model for FeatureTable {
    ghost use Rattle.std.specs.Prelude.{map, All, ◌≡◌};
    ghost use Rattle.feature_reader.specs.Table.{Table, IsWithinLimits, entry_of, rows};

    ghost Value = { Table };

    ghost view = { λ t. map entry_of t.features.entries };

    ghost invariant = { λ t. All (λ e. e.0.id ≡ e.1.id) t.features.entries × (t.row_count ≡ rows (map entry_of t.features.entries)) × IsWithinLimits (map entry_of t.features.entries) };
}

/// What is answered where this feature stood at the place before.
fn instead_of(before: Option<Feature>) -> Taken
    ensures { result ≡ (if is_some before then taken.Changed else taken.New) }
{
    match before {
        Some(_) => Taken::Changed,
        None => Taken::New,
    }
}

/// The rows of a feature: its phrases times its tiles, which are at most 4,096.
fn rows_of(f: &Feature) -> u128
    ensures value { result ≡ rows_of f.now }
    ensures bound { result ≤ 2 ^ 76 }
{
    f.phrases().len() as u128 * f.tiles().len() as u128
}

impl Taker for FeatureTable {
    ghost use Rattle.std.specs.Prelude.{nat_lt};

    ghost table = { λ t. t };

    ghost takes = { λ t layer zoom. nat_lt layer 16 };

    ghost with_table = { λ t other. other };

    /// Takes a feature into a layer. A limit is found before any room is asked for, so memory is
    /// never refused in its place.
    fn take(&mut self, layer: u8, f: Feature) -> Result<Taken, Refused<PutFault>>
        ensures ok { IfOk result (λ taken. (put_answer self.old layer f ≡ Ok taken) × (self.new ≡ put self.old layer f)) }
        ensures fault { (fault : PutFault) → result ≡ Err (refused.Fault fault) → (put_answer self.old layer f ≡ Err fault) × (self.new ≡ self.old) }
        ensures memory { result ≡ Err refused.Memory → self.new ≡ self.old }
        ensures outright { (fault : PutFault) → put_answer self.old layer f ≡ Err fault → result ≡ Err (refused.Fault fault) }
    {
        let rows = match self.rows_with(layer, &f) {
            Ok(rows) => rows,
            Err(fault) => return Err(Refused::Fault(fault)),
        };
        let place = Place { layer, id: f.id() };
        let before = self.features.insert(place, f)?;
        self.row_count = rows;
        Ok(instead_of(before))
    }
}

impl FeatureTable {
    /// No features; takes no memory.
    pub fn new(alloc: Global) -> FeatureTable
        ensures { result ≡ [] }
    {
        FeatureTable {
            features: BTreeMap::new(alloc),
            row_count: 0,
        }
    }

    /// The rows of the feature of a layer and id, 0 where none stands there; None where a new one
    /// would be one feature too many.
    fn rows_at(&self, layer: u8, id: u32) -> Option<u128>
        ensures none { is_some result ≡ not (is_one_too_many self.now layer id) }
        ensures rows { IfSome result (λ n. rows (without self.now layer id) + n ≡ rows self.now) }
        ensures room { is_some result ≡ true → length (without self.now layer id) < most_features }
    {
        let features = self.features.len();
        match self.features.get(&Place { layer, id }) {
            Some(f) => Some(rows_of(f)),
            None if features >= MOST_FEATURES => None,
            None => Some(0),
        }
    }

    /// The rows of the table with a feature in a layer, or why it isn't taken.
    fn rows_with(&self, layer: u8, f: &Feature) -> Result<u32, PutFault>
        ensures value { IfOk result (λ n. n ≡ rows (with_feature self.now layer f.now)) }
        ensures limits { OnOk result (IsWithinLimits (with_feature self.now layer f.now)) }
        ensures answer { OnOk result (put_answer self.now layer f.now ≡ Ok (if stands self.now layer f.now.id then taken.Changed else taken.New)) }
        ensures fault { IfErr result (λ fault. put_answer self.now layer f.now ≡ Err fault) }
    {
        let Some(before) = self.rows_at(layer, f.id()) else {
            return Err(PutFault::TooManyFeatures);
        };
        let rows = u128::from(self.row_count) - before + rows_of(f);
        if rows > MOST_ROWS {
            return Err(PutFault::TooManyRows);
        }
        Ok(rows as u32)
    }

    /// Removes the feature of a layer and id, and says whether it stood there; takes no memory.
    pub fn drop_feature(&mut self, layer: u8, id: u32) -> bool
        ensures answer { result ≡ stands self.old layer id }
        ensures table { self.new ≡ without self.old layer id }
    {
        let _features = self.features.len(); // brings the order of the places here
        match self.features.remove(&Place { layer, id }) {
            Some(f) => {
                self.row_count -= rows_of(&f) as u32;
                true
            }
            None => false,
        }
    }

    /// The number of rows, at most 8,388,608.
    pub fn rows(&self) -> u32
        ensures { result ≡ rows self.now }
    {
        self.row_count
    }

    /// The number of features, at most 262,144.
    pub fn len(&self) -> u32
        ensures value { result ≡ length self.now }
        ensures is { IsTable self.now }
        ensures limits { IsWithinLimits self.now }
    {
        self.features.len() as u32
    }

    /// The layer and the feature at a place, counted from 0. It goes past those before it:
    /// to visit all of them go over `entries`.
    pub fn at(&self, n: u32) -> (u8, &Feature)
        requires { n < length self.now }
        ensures value { slice_get self.now n ≡ Some (result.0, result.1.now) }
        ensures is { IsTable self.now }
    {
        match self.features.iter().nth(n as usize) {
            Some((place, feature)) => (place.layer, feature),
            None => unreachable!(),
        }
    }

    /// Lends the features at their places, from the first to the last.
    pub fn entries(&self) -> Iter<'_, Place, Feature>
        ensures value { map entry_of result ≡ self.now }
        ensures places { All (λ entry. entry.0.id ≡ entry.1.id) result }
        ensures is { IsTable self.now }
    {
        self.features.iter()
    }

    /// Lends the features of a layer at their places, from the smallest id to the greatest, without a look at the others.
    pub fn layer(&self, layer: u8) -> Range<'_, Place, Feature>
        requires { layer < 16 }
        ensures value { map (λ entry. entry.1) result ≡ features_in self.now layer }
        ensures is { IsTable self.now }
        ensures few { sum_by rows_of (features_in self.now layer) ≤ most_rows }
    {
        let first = Place { layer, id: 0 };
        let next = Place {
            layer: layer + 1,
            id: 0,
        };
        self.features.range(first..next)
    }

    /// An equal table.
    pub fn copy(&self) -> Result<FeatureTable, Memory>
        ensures { IfOk result (λ t. t ≡ self.now) }
    {
        Ok(FeatureTable {
            features: self.features.clone()?,
            row_count: self.row_count,
        })
    }
}
