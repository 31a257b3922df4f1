//! Passing over a value, and what is seen of it.

ghost use Rattle.std.specs.Prelude.{◌≡◌, ◌<◌, ◌≤◌, ◌∷◌, length, Some, None, IfOk, OnOk, OnErr};
ghost use Rattle.json.specs.Reads.{token_of};
ghost use Rattle.json.specs.Json.{value, items, members};
ghost use Rattle.serde_json.specs.Data.{Data, Items, Members, no_members};
ghost use Rattle.serde_json.specs.Read.{of_json, of_items, of_members, converted};
ghost use Rattle.feature_json.specs.Shape.{shape, shape_of};

use crate::number::Number;
use json::{Invalid, Reader, Token};

/// How deep arrays and objects may nest.
pub(crate) const MAX_DEPTH: usize = 127;

/// What is seen of a JSON value without looking inside arrays and objects.
#[derive(Clone, Copy, Debug, Drop)]
pub enum Seen<'a> {
    /// Null.
    Null,
    /// A boolean.
    Bool(bool),
    /// A number.
    Number(Number),
    /// A string, its escapes undone, lent from the bytes or from the scratch.
    Text(&'a str),
    /// An array.
    Array,
    /// An object.
    Object,
}

/// Passes over a value, all of which is checked, and tells what is seen of it.
#[cycle(see)]
#[inline(always)]
pub(crate) fn see<'a>(reader: &mut Reader<'a>, depth: usize) -> Result<Seen<'a>, Invalid>
    ensures ok { IfOk result
        (λ s. (d : Data) × (converted of_json (value depth reader.old) ≡ Some (d, reader.new)) × (shape d ≡ shape_of s)) }
    ensures shorter { OnOk result (length reader.new < length reader.old) }
    ensures err { OnErr result (converted of_json (value depth reader.old) ≡ None) }
{
    let token = reader.next().ok_or(Invalid)?;
    see_token(token, reader, depth)
}

/// Passes over a value whose first token was taken.
#[cycle(see)]
#[inline(always)]
pub(crate) fn see_token<'a>(
    token: Token<'a>,
    reader: &mut Reader<'a>,
    depth: usize,
) -> Result<Seen<'a>, Invalid>
    ensures ok { IfOk result
        (λ s. (d : Data) × (converted of_json (value depth (token_of token.entry ∷ reader.old)) ≡ Some (d, reader.new)) × (shape d ≡ shape_of s)) }
    ensures shorter { OnOk result (length reader.new ≤ length reader.old) }
    ensures err { OnErr result (converted of_json (value depth (token_of token.entry ∷ reader.old)) ≡ None) }
{
    match token {
        Token::String(text) => Ok(Seen::Text(text)),
        Token::Number(text) => match Number::parse(text) {
            Some(number) => Ok(Seen::Number(number)),
            None => Err(Invalid),
        },
        Token::Bool(b) => Ok(Seen::Bool(b)),
        Token::Null => Ok(Seen::Null),
        Token::EndObject | Token::EndArray | Token::Key(_) | Token::Bad => Err(Invalid),
        Token::BeginArray => {
            if depth == 0 {
                return Err(Invalid);
            }
            see_items(reader, depth - 1)?;
            Ok(Seen::Array)
        }
        Token::BeginObject => {
            if depth == 0 {
                return Err(Invalid);
            }
            see_members(reader, depth - 1)?;
            Ok(Seen::Object)
        }
    }
}

/// Passes over the items of an array, whose bracket was taken.
#[cycle(see)]
#[inline(never)]
fn see_items(reader: &mut Reader<'_>, depth: usize) -> Result<(), Invalid>
    ensures ok { OnOk result
        ((ds : Items) × (converted of_items (items (value depth) (length reader.old) reader.old) ≡ Some (ds, reader.new))) }
    ensures shorter { OnOk result (length reader.new < length reader.old) }
    ensures err { OnErr result (converted of_items (items (value depth) (length reader.old) reader.old) ≡ None) }
{
    'items: while !reader.take_end_array() {
        see(reader, depth)?;
    }
    Ok(())
}

/// Passes over the members of an object, whose brace was taken.
#[cycle(see)]
#[inline(never)]
fn see_members(reader: &mut Reader<'_>, depth: usize) -> Result<(), Invalid>
    ensures ok { OnOk result
        ((ms : Members) × (converted (λ ms. of_members ms no_members) (members (value depth) (length reader.old) reader.old)
        ≡ Some (ms, reader.new))) }
    ensures shorter { OnOk result (length reader.new < length reader.old) }
    ensures err { OnErr result
        (converted (λ ms. of_members ms no_members) (members (value depth) (length reader.old) reader.old) ≡ None) }
{
    'members: while let Some(_) = reader.next_key()? {
        see(reader, depth)?;
    }
    Ok(())
}
