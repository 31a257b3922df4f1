//! The layer that a JSON value or a JSON text stands for.

ghost use Rattle.std.specs.Prelude.{◌≡◌, ◌<◌, ◌≤◌, ◌==◌, ◌||◌, true, [], codes, length, None, Some, Ok, Err, ok_or, IfOk, option_map, option_and_then};
ghost use Rattle.std.specs.Int.{is_in_range};
ghost use Rattle.std.specs.List.{list_all};
ghost use Rattle.serde_json.specs.Find.{as_str};
ghost use Rattle.serde_json.specs.View.{view, members_view};
ghost use Rattle.geo_base.specs.declared.refusal.Refused.TheVariants as refused;
ghost use Rattle.geo_text.specs.Numbers.{below};
ghost use Rattle.geo_layer.specs.Json.{member, natural_of, each_of, optional};
ghost use Rattle.geo_layer.specs.Layer.{is_name};
ghost use Rattle.geo_layer.specs.LayerText.{layer_of, layer_of_data, last_zoom, name_of, stack_of, one_token, pairs_of, distinct_pairs, replacements_of, scale_of, needs_no_room};
ghost use Rattle.geo_layer.specs.declared.layer.LayerFault.TheVariants as fault;
ghost use Rattle.geo_layer.specs.declared.layer.LayerFault.{LayerFault};

use crate::json::read_json;
use crate::layer::{Layer, LayerFault};
use crate::layers::Layers;
use geo_base::refusal::{Memory, Refused};
use geo_text::text::{Text, Tokens};
use geo_text::token_map::TokenMap;
use geo_text::tokens::tokens;
use serde_json::Value;
use serde_json::value::Map;
use std::alloc::Global;

/// The byte may stand in a name.
fn is_name_byte(b: &u8) -> bool
    ensures { result ≡ (is_in_range 97 122 b.now || (is_in_range 48 57 b.now || (b.now == 95 || b.now == 45))) }
{
    b.is_ascii_lowercase() || b.is_ascii_digit() || *b == b'_' || *b == b'-'
}

/// Each byte may stand in a name.
fn are_name_bytes(text: &[u8]) -> bool
    ensures { result ≡ list_all (λ c. is_in_range 97 122 c || (is_in_range 48 57 c || (c == 95 || c == 45))) text.now }
{
    text.iter().all(is_name_byte)
}

/// Whether the text is a name: 1 to 32 characters out of `a` to `z`, `0` to `9`, `_` and `-`.
pub fn is_name(text: &[u8]) -> bool
    ensures { result ≡ is_name text.now }
{
    if text.is_empty() || text.len() > 32 {
        return false;
    }
    are_name_bytes(text)
}

/// The name that a value is.
fn name_of(value: &Value) -> Option<&str>
    ensures { option_map (λ t. t.now) result ≡ name_of (view value.now) }
{
    let text = value.as_str()?;
    if is_name(text.as_bytes()) {
        Some(text)
    } else {
        None
    }
}

/// The name of a layer.
fn name_in(value: &Value) -> Option<&str>
    ensures { option_map (λ t. t.now) result ≡ option_and_then name_of (member (codes "name") (view value.now)) }
{
    value.get("name").and_then(name_of)
}

/// The zoom of a layer.
fn zoom_in(value: &Value) -> Option<u8>
    ensures { result ≡ option_and_then (below 17) (option_and_then natural_of (member (codes "zoom") (view value.now))) }
{
    let zoom = value.get("zoom").and_then(Value::as_u64)?;
    if zoom < 17 { Some(zoom as u8) } else { None }
}

/// The names that values are, where each is one.
fn names_in(alloc: Global, values: &[Value]) -> Result<Option<Tokens>, Memory>
    ensures { IfOk result (λ o. o ≡ each_of (λ v. name_of (view v)) values.now) }
{
    let mut names = Tokens::new(alloc);
    for value in values {
        match name_of(value) {
            Some(name) => names.push(Text::of(alloc, name)?)?,
            None => return Ok(None),
        }
    }
    Ok(Some(names))
}

/// The words of a stack, where the value is an array of at most 64 names.
fn stack_of(alloc: Global, value: &Value) -> Result<Option<Tokens>, Memory>
    ensures { IfOk result (λ o. option_map Some o ≡ stack_of (view value.now)) }
{
    let Some(values) = value.as_array() else {
        return Ok(None);
    };
    if values.len() > 64 {
        return Ok(None);
    }
    names_in(alloc, values.as_slice())
}

/// The stack of a layer, which may be absent; None where it is there and of another form.
fn stack_in(alloc: Global, value: &Value) -> Result<Option<Option<Tokens>>, Memory>
    ensures { IfOk result (λ o. ok_or o fault.Stack ≡ optional stack_of None fault.Stack (member (codes "stack") (view value.now))) }
{
    match value.get("stack") {
        Some(stack) if !stack.is_null() => Ok(stack_of(alloc, stack)?.map(Some)),
        _ => Ok(Some(None)),
    }
}

/// The one token of a text.
fn one_token(alloc: Global, text: &str) -> Result<Option<Text>, Memory>
    ensures { IfOk result (λ o. o ≡ one_token text.now) }
{
    let tokens = tokens(alloc, text, &TokenMap::new(alloc))?;
    if tokens.len() == 1 {
        Ok(Some(tokens.at(0).copy()?))
    } else {
        Ok(None)
    }
}

/// The one token of a string.
fn token_of(alloc: Global, value: &Value) -> Result<Option<Text>, Memory>
    ensures { IfOk result (λ o. o ≡ option_and_then one_token (as_str (view value.now))) }
{
    match value.as_str() {
        Some(text) => one_token(alloc, text),
        None => Ok(None),
    }
}

/// What tokens are replaced by, where each key and each value of the members has one token, and no two keys the same.
fn map_of(alloc: Global, members: &Map<String, Value>) -> Result<Option<TokenMap>, Memory>
    ensures { IfOk result (λ o. o ≡ option_and_then distinct_pairs (pairs_of (members_view members.now.entries))) }
{
    let mut map = TokenMap::new(alloc);
    for (key, value) in members {
        let Some(from) = one_token(alloc, key.as_str())? else {
            return Ok(None);
        };
        if map.get(from.as_str()).is_some() {
            return Ok(None);
        }
        let Some(to) = token_of(alloc, value)? else {
            return Ok(None);
        };
        map.insert(from, to)?;
    }
    Ok(Some(map))
}

/// What tokens are replaced by, where the value is an object of at most 4,096 members of one token each, the keys'
/// tokens all different.
fn replacements_of(alloc: Global, value: &Value) -> Result<Option<TokenMap>, Memory>
    ensures { IfOk result (λ o. o ≡ replacements_of (view value.now)) }
{
    let Some(members) = value.as_object() else {
        return Ok(None);
    };
    if members.len() > 4096 {
        return Ok(None);
    }
    map_of(alloc, members)
}

/// What a layer replaces tokens by, which may be absent; None where it is there and of another form.
fn tokens_in(alloc: Global, value: &Value) -> Result<Option<TokenMap>, Memory>
    ensures { IfOk result (λ o. ok_or o fault.Tokens ≡ optional replacements_of [] fault.Tokens (member (codes "tokens") (view value.now))) }
{
    match value.get("tokens") {
        Some(tokens) if !tokens.is_null() => replacements_of(alloc, tokens),
        _ => Ok(Some(TokenMap::new(alloc))),
    }
}

/// The scale of scores that a value is.
fn scale_of(value: &Value) -> Option<u32>
    ensures { result ≡ scale_of (view value.now) }
{
    let scale = value.as_u64()?;
    if scale >= 1 && scale <= 1_000_000_000 {
        Some(scale as u32)
    } else {
        None
    }
}

/// The scale of scores of a layer, 15 where it is absent; None where it is there and of another form.
fn scale_in(value: &Value) -> Option<u32>
    ensures { ok_or result fault.ScoreMax ≡ optional scale_of 15 fault.ScoreMax (member (codes "scoremax") (view value.now)) }
{
    match value.get("scoremax") {
        Some(scale) if !scale.is_null() => scale_of(scale),
        _ => Some(15),
    }
}

/// The layer that a value stands for after the layers `before`, or the first of its faults.
/// Members that are null count as absent, of equal keys the last value stays, and other members
/// play no part. The layer may be added to those before.
///
/// Memory may be refused in place of any answer but the faults `Json`, `Name`, `Zoom` and `Falling`, which are found
/// before any room is asked for.
pub fn layer_of_value(
    alloc: Global,
    value: &Value,
    before: &Layers,
) -> Result<Layer, Refused<LayerFault>>
    ensures layer { IfOk result (λ l. layer_of_data before.now (view value.now) ≡ Ok l) }
    ensures fits { IfOk result (λ l. (length before.now < 16) × (last_zoom before.now ≤ l.zoom)) }
    ensures fault { (e : LayerFault) → result ≡ Err (refused.Fault e) → layer_of_data before.now (view value.now) ≡ Err e }
    ensures outright { (e : LayerFault) → needs_no_room e ≡ true → layer_of_data before.now (view value.now) ≡ Err e → result ≡ Err (refused.Fault e) }
{
    if !value.is_object() {
        return Err(Refused::Fault(LayerFault::Json));
    }
    let Some(name) = name_in(value) else {
        return Err(Refused::Fault(LayerFault::Name));
    };
    let Some(zoom) = zoom_in(value) else {
        return Err(Refused::Fault(LayerFault::Zoom));
    };
    if zoom < before.last_zoom() {
        return Err(Refused::Fault(LayerFault::Falling));
    }
    let Some(stack) = stack_in(alloc, value)? else {
        return Err(Refused::Fault(LayerFault::Stack));
    };
    let Some(tokens) = tokens_in(alloc, value)? else {
        return Err(Refused::Fault(LayerFault::Tokens));
    };
    if before.len() >= 16 {
        return Err(Refused::Fault(LayerFault::TooMany));
    }
    let Some(scoremax) = scale_in(value) else {
        return Err(Refused::Fault(LayerFault::ScoreMax));
    };
    let name = Text::of(alloc, name)?;
    let _token_count = tokens.len(); // brings the rule of a token map here: its texts are words
    Ok(Layer::from_parts(name, zoom, stack, scoremax, tokens))
}

/// The layer that a JSON text stands for after the layers `before`, or the first of its faults:
/// `Json` where the text is no JSON, else as [`layer_of_value`] says.
///
/// Memory may be refused in place of any answer.
pub fn read_layer(alloc: Global, line: &str, before: &Layers) -> Result<Layer, Refused<LayerFault>>
    ensures layer { IfOk result (λ l. layer_of before.now line.now ≡ Ok l) }
    ensures fits { IfOk result (λ l. (length before.now < 16) × (last_zoom before.now ≤ l.zoom)) }
    ensures fault { (e : LayerFault) → result ≡ Err (refused.Fault e) → layer_of before.now line.now ≡ Err e }
{
    match read_json(alloc, line.as_bytes())? {
        Some(value) => layer_of_value(alloc, &value, before),
        None => Err(Refused::Fault(LayerFault::Json)),
    }
}
