//! Reads the lines of a session's head.

ghost use Rattle.std.specs.Prelude.{◌≡◌, false, Ok, Err, IfOk};
ghost use Rattle.geo_base.specs.declared.refusal.Refused.TheVariants as refused;
ghost use Rattle.session_text.specs.Session.{SessionView, Fits, title_line, langs_line, layer_line, needs_no_room};
ghost use Rattle.session_text.specs.declared.why.Why.{Why};

use crate::fields::{are_spaces, next_field};
use crate::item::Item;
use crate::why::Why;
use geo_base::refusal::Refused;
use geo_layer::json::read_json;
use geo_layer::langs::read_langs;
use geo_layer::layer::LayerFault;
use geo_layer::layers::Layers;
use geo_layer::read_layer::layer_of_value;
use geo_text::cut::after_word_of;
use std::alloc::Global;

/// The title of a session, `carmen 1`, which spaces may follow.
pub fn read_title(text: &[u8]) -> Result<Item, Why>
    ensures { result ≡ title_line text.now }
{
    match text.strip_prefix(b"carmen 1") {
        Some(rest) if are_spaces(rest) => Ok(Item::Title),
        _ => Err(Why::Head),
    }
}

/// The languages of a line.
pub fn read_langs_line(alloc: Global, text: &str) -> Result<Item, Refused<Why>>
    ensures ok { IfOk result (λ item. langs_line text.now ≡ Ok item) }
    ensures fault { (why : Why) → result ≡ Err (refused.Fault why) → langs_line text.now ≡ Err why }
{
    match read_langs(alloc, after_word_of(text)) {
        Ok(langs) => Ok(Item::Langs(langs)),
        Err(Refused::Fault(_)) => Err(Refused::Fault(Why::Lang)),
        Err(Refused::Memory) => Err(Refused::Memory),
    }
}

/// The layer of a line, after these layers.
pub fn read_layer_line(alloc: Global, layers: &Layers, text: &[u8]) -> Result<Item, Refused<Why>>
    ensures ok { IfOk result (λ item. layer_line layers.now text.now ≡ Ok item) }
    ensures fits { (session : SessionView) → session.head.layers ≡ layers.now → IfOk result (λ item. Fits session item) }
    ensures fault { (why : Why) → result ≡ Err (refused.Fault why) → layer_line layers.now text.now ≡ Err why }
    ensures memory { result ≡ Err refused.Memory → (why : Why) → layer_line layers.now text.now ≡ Err why → needs_no_room why ≡ false }
{
    let Some(value) = read_json(alloc, next_field(text))? else {
        return Err(Refused::Fault(Why::Layer(LayerFault::Json)));
    };
    match layer_of_value(alloc, &value, layers) {
        Ok(layer) => Ok(Item::Layer(layer)),
        Err(Refused::Fault(fault)) => Err(Refused::Fault(Why::Layer(fault))),
        Err(Refused::Memory) => Err(Refused::Memory),
    }
}
