//! The texts in languages of a feature, as they are seen.

ghost use Rattle.std.specs.Prelude.{◌≡◌, [], map, OnOk, OnErr};
ghost use Rattle.feature_json.specs.Shape.{shape_of};
ghost use Rattle.feature_json.specs.Own.{own_entry, put_own};

use crate::seen::Seen;
use geo_base::refusal::Memory;
use std::alloc::Global;
use std::collections::BTreeMap;
use std::collections::btree_map::Iter;
use std::marker::Model;

/// Members whose names begin with `carmen:text_`, seen as the list of their names, rising by bytes and each once, and of
/// what is seen of their values.
#[derive(Drop)]
pub struct OwnMembers<'a> {
    by_name: BTreeMap<&'a str, Seen<'a>>,
}

impl<'a> Model for OwnMembers<'a> {
    ghost use Rattle.std.specs.Prelude.{ℕ, List, map};
    ghost use Rattle.feature_json.specs.Shape.{Shape};
    ghost use Rattle.feature_json.specs.Own.{own_entry};

    ghost Value = { List (List ℕ × Shape) };

    ghost view = { λ o. map own_entry o.by_name.entries };
}

impl<'a> OwnMembers<'a> {
    /// No members; takes no memory.
    pub fn new(alloc: Global) -> OwnMembers<'a>
        ensures { result ≡ [] }
    {
        OwnMembers {
            by_name: BTreeMap::new(alloc),
        }
    }

    /// Puts a member at its place in the order of the names, instead of one of the same name. After want of memory the
    /// members are as before.
    pub fn set(&mut self, name: &'a str, seen: Seen<'a>) -> Result<(), Memory>
        ensures ok { OnOk result (self.new ≡ put_own name.now (shape_of seen.entry) self.old) }
        ensures err { OnErr result (self.new ≡ self.old) }
    {
        self.by_name.insert(name, seen)?;
        Ok(())
    }

    /// Lends the members from the first to the last.
    pub fn entries(&self) -> Iter<'_, &'a str, Seen<'a>>
        ensures { map own_entry result ≡ self.now }
    {
        self.by_name.iter()
    }
}
