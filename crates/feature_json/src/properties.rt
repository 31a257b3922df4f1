//! The properties of a feature.

ghost use Rattle.std.specs.Prelude.{◌≡◌, ◌<◌, length, Some, None, false, IfOk, OnOk, option_map};
ghost use Rattle.json.specs.Reads.{token_of};
ghost use Rattle.json.specs.Json.{value, members};
ghost use Rattle.serde_json.specs.Data.{Data, Members, no_members, put};
ghost use Rattle.serde_json.specs.Find.{as_object};
ghost use Rattle.serde_json.specs.Read.{of_json, of_members, converted};
ghost use Rattle.feature_json.specs.Shape.{shape, shape_of};
ghost use Rattle.feature_json.specs.Own.{is_own_name};
ghost use Rattle.feature_json.specs.Said.{values_said, values_of, properties_said, properties_of};
ghost use Rattle.feature_json.specs.Reading.{begins_object, IsInvalid, Rising};

use crate::own_members::OwnMembers;
use crate::seen::{Seen, see, see_token};
use crate::stop::Stop;
use crate::tile_list::read_list;
use geo_base::refusal::Memory;
use geo_base::tile::Tile;
use json::{Reader, Token};
use std::alloc::Global;

/// The members of a feature's properties that count, as they are seen.
#[derive(Drop)]
pub struct Properties<'a> {
    /// `carmen:text`.
    pub text: Option<Seen<'a>>,
    /// `carmen:score`.
    pub score: Option<Seen<'a>>,
    /// `carmen:relev`.
    pub relev: Option<Seen<'a>>,
    /// The members whose names begin with `carmen:text_`.
    pub own: OwnMembers<'a>,
    /// Whether `carmen:zxy` is a list of strings that each name a tile.
    pub tiles_are_named: bool,
}

impl<'a> Properties<'a> {
    /// No members.
    fn new(alloc: Global) -> Properties<'a>
        ensures values { values_of result ≡ values_said no_members }
        ensures tiles { result.tiles_are_named ≡ false }
    {
        Properties {
            text: None,
            score: None,
            relev: None,
            own: OwnMembers::new(alloc),
            tiles_are_named: false,
        }
    }

    /// Notes a member that is no list of tiles, in place of an earlier one with the same name.
    #[inline(always)]
    fn note(&mut self, name: &'a str, seen: Seen<'a>) -> Result<(), Memory>
        ensures tiles { self.new.tiles_are_named ≡ self.old.tiles_are_named }
        ensures values { OnOk result ((d : Data) (found : Members) → Rising found → shape d ≡ shape_of seen.entry
            → values_of self.old ≡ values_said found → values_of self.new ≡ values_said (put name.now d found)) }
    {
        if name == "carmen:text" {
            self.text = Some(seen);
            return Ok(());
        }
        if name == "carmen:score" {
            self.score = Some(seen);
            return Ok(());
        }
        if name == "carmen:relev" {
            self.relev = Some(seen);
            return Ok(());
        }
        if is_own_name(name) {
            self.own.set(name, seen)?;
        }
        Ok(())
    }

    /// Reads a member, in place of an earlier one with the same name.
    #[inline(always)]
    fn read(
        &mut self,
        name: &'a str,
        reader: &mut Reader<'a>,
        depth: usize,
        tiles: &mut Vec<Tile>,
    ) -> Result<(), Stop>
        ensures ok { OnOk result ((d : Data) × (converted of_json (value depth reader.old) ≡ Some (d, reader.new))
            × ((found : Members) → Rising found → properties_of tiles.old.items self.old ≡ properties_said found
            → properties_of tiles.new.items self.new ≡ properties_said (put name.now d found))) }
        ensures shorter { OnOk result (length reader.new < length reader.old) }
        ensures err { IsInvalid result → converted of_json (value depth reader.old) ≡ None }
    {
        if name == "carmen:zxy" {
            self.tiles_are_named = read_list(reader, depth, tiles)?;
            return Ok(());
        }
        let seen = see(reader, depth)?;
        self.note(name, seen)?;
        Ok(())
    }
}

/// Whether a text in a language of its own is named so.
#[inline(always)]
fn is_own_name(name: &str) -> bool
    ensures { result ≡ is_own_name name.now }
{
    name.as_bytes().starts_with(b"carmen:text_")
}

/// Whether an object begins here.
#[inline(always)]
pub(crate) fn begins_object(token: &Token<'_>) -> bool
    ensures { result ≡ begins_object (token_of token.now) }
{
    matches!(token, Token::BeginObject)
}

/// The members of an object, whose brace was taken.
#[inline(never)]
fn read_members<'a>(
    alloc: Global,
    reader: &mut Reader<'a>,
    depth: usize,
    tiles: &mut Vec<Tile>,
) -> Result<Properties<'a>, Stop>
    ensures ok { IfOk result
        (λ p. (ms : Members) × (converted (λ ms. of_members ms no_members) (members (value depth) (length reader.old) reader.old)
        ≡ Some (ms, reader.new)) × (properties_of tiles.new.items p ≡ properties_said ms)) }
    ensures shorter { OnOk result (length reader.new < length reader.old) }
    ensures err { IsInvalid result
        → converted (λ ms. of_members ms no_members) (members (value depth) (length reader.old) reader.old) ≡ None }
{
    let mut found = Properties::new(alloc);
    'members: while let Some(name) = reader.next_key()? {
        found.read(name, reader, depth, tiles)?;
    }
    Ok(found)
}

/// Reads a value: its members, where it is an object.
pub(crate) fn read_properties<'a>(
    alloc: Global,
    reader: &mut Reader<'a>,
    depth: usize,
    tiles: &mut Vec<Tile>,
) -> Result<Option<Properties<'a>>, Stop>
    ensures ok { IfOk result
        (λ p. (d : Data) × (converted of_json (value depth reader.old) ≡ Some (d, reader.new))
        × (option_map (properties_of tiles.new.items) p ≡ option_map properties_said (as_object d))) }
    ensures shorter { OnOk result (length reader.new < length reader.old) }
    ensures err { IsInvalid result → converted of_json (value depth reader.old) ≡ None }
{
    let token = reader.next().ok_or(Stop::Invalid)?;
    if !begins_object(&token) {
        see_token(token, reader, depth)?;
        return Ok(None);
    }
    if depth == 0 {
        return Err(Stop::Invalid);
    }
    let found = read_members(alloc, reader, depth - 1, tiles)?;
    Ok(Some(found))
}
