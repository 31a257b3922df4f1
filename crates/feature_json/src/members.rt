//! The members of a feature.

ghost use Rattle.std.specs.Prelude.{◌≡◌, ◌<◌, length, Some, None, IfOk, OnOk, option_map, option_and_then};
ghost use Rattle.json.specs.Json.{value, members};
ghost use Rattle.serde_json.specs.Data.{Data, Members, no_members, put};
ghost use Rattle.serde_json.specs.Find.{as_object};
ghost use Rattle.serde_json.specs.Read.{of_json, of_members, converted, read};
ghost use Rattle.feature_json.specs.Said.{members_said, said, said_by};
ghost use Rattle.feature_json.specs.Reading.{IsInvalid};

use crate::properties::{Properties, begins_object, read_properties};
use crate::seen::{MAX_DEPTH, Seen, see, see_token};
use crate::stop::Stop;
use geo_base::refusal::Memory;
use geo_base::tile::Tile;
use json::{Reader, Scratch};
use std::alloc::Global;

/// The members of a feature that count.
#[derive(Drop)]
pub struct FeatureMembers<'a> {
    /// `id`.
    pub id: Option<Seen<'a>>,
    /// `properties`, where it is an object.
    pub properties: Option<Properties<'a>>,
}

impl<'a> FeatureMembers<'a> {
    /// No members.
    fn new() -> FeatureMembers<'a>
        ensures id { result.id ≡ None }
        ensures properties { result.properties ≡ None }
    {
        FeatureMembers {
            id: None,
            properties: None,
        }
    }

    /// Reads a member, in place of an earlier one with the same name.
    #[inline(always)]
    fn read(
        &mut self,
        alloc: Global,
        name: &'a str,
        reader: &mut Reader<'a>,
        depth: usize,
        tiles: &mut Vec<Tile>,
    ) -> Result<(), Stop>
        ensures ok { OnOk result ((d : Data) × (converted of_json (value depth reader.old) ≡ Some (d, reader.new))
            × ((found : Members) → said_by tiles.old.items self.old ≡ members_said found
            → said_by tiles.new.items self.new ≡ members_said (put name.now d found))) }
        ensures shorter { OnOk result (length reader.new < length reader.old) }
        ensures err { IsInvalid result → converted of_json (value depth reader.old) ≡ None }
    {
        if name == "properties" {
            self.properties = read_properties(alloc, reader, depth, tiles)?;
            return Ok(());
        }
        let seen = see(reader, depth)?;
        if name == "id" {
            self.id = Some(seen);
        }
        Ok(())
    }
}

/// The members of an object, whose brace was taken.
fn read_members<'a>(
    alloc: Global,
    reader: &mut Reader<'a>,
    depth: usize,
    tiles: &mut Vec<Tile>,
) -> Result<FeatureMembers<'a>, Stop>
    ensures ok { IfOk result
        (λ p. (ms : Members) × (converted (λ ms. of_members ms no_members) (members (value depth) (length reader.old) reader.old)
        ≡ Some (ms, reader.new)) × (said_by tiles.new.items p ≡ members_said ms)) }
    ensures shorter { OnOk result (length reader.new < length reader.old) }
    ensures err { IsInvalid result
        → converted (λ ms. of_members ms no_members) (members (value depth) (length reader.old) reader.old) ≡ None }
{
    let mut found = FeatureMembers::new();
    'members: while let Some(name) = reader.next_key()? {
        found.read(alloc, name, reader, depth, tiles)?;
    }
    Ok(found)
}

/// Reads a value: its members, where it is an object.
fn read_object<'a>(
    alloc: Global,
    reader: &mut Reader<'a>,
    depth: usize,
    tiles: &mut Vec<Tile>,
) -> Result<Option<FeatureMembers<'a>>, Stop>
    ensures ok { IfOk result
        (λ p. (d : Data) × (converted of_json (value depth reader.old) ≡ Some (d, reader.new))
        × (option_map (said_by tiles.new.items) p ≡ option_map members_said (as_object d))) }
    ensures shorter { OnOk result (length reader.new < length reader.old) }
    ensures err { IsInvalid result → converted of_json (value depth reader.old) ≡ None }
{
    let token = reader.next().ok_or(Stop::Invalid)?;
    if !begins_object(&token) {
        see_token(token, reader, depth)?;
        return Ok(None);
    }
    if depth == 0 {
        return Err(Stop::Invalid);
    }
    let found = read_members(alloc, reader, depth - 1, tiles)?;
    Ok(Some(found))
}

/// The members of the object that a text is.
fn read_text<'a>(
    alloc: Global,
    text: &'a str,
    scratch: &'a mut Scratch<Global>,
    tiles: &mut Vec<Tile>,
) -> Result<Option<FeatureMembers<'a>>, Memory>
    ensures { IfOk result (λ o. option_map (said_by tiles.new.items) o ≡ option_map members_said (option_and_then as_object (read text.now))) }
{
    let Ok(mut reader) = Reader::new(text, scratch) else {
        return Err(Memory);
    };
    match read_object(alloc, &mut reader, MAX_DEPTH, tiles) {
        Ok(found) => {
            if reader.next().is_some() {
                return Ok(None);
            }
            Ok(found)
        }
        Err(Stop::Invalid) => Ok(None),
        Err(Stop::Memory) => Err(Memory),
    }
}

/// The members that count of the object that the bytes of a JSON text stand for: None exactly
/// where the bytes aren't UTF-8, no JSON text, which nests at most 127 deep, or no object. The tiles
/// that the strings of `carmen:zxy` name are then in `tiles`, in their order, where the properties say
/// that each names one (`tiles_are_named`); else nothing is said of what is in it. What it and `scratch`
/// held before counts for nothing.
///
/// Memory may be refused in place of any answer.
pub fn members_of<'a>(
    alloc: Global,
    bytes: &'a [u8],
    scratch: &'a mut Scratch<Global>,
    tiles: &mut Vec<Tile>,
) -> Result<Option<FeatureMembers<'a>>, Memory>
    ensures { IfOk result (λ o. option_map (said_by tiles.new.items) o ≡ said bytes.now) }
{
    match simdutf8::basic::from_utf8(bytes) {
        Ok(text) => read_text(alloc, text, scratch, tiles),
        Err(_) => Ok(None),
    }
}
