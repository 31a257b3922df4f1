//! The tokens of a query, with the replacements of each layer.

ghost use Rattle.std.specs.Prelude.{◌≡◌, map, IfOk};
ghost use Rattle.geo_text.specs.Tokens.{replaced};

use geo_base::refusal::Memory;
use geo_layer::head::Head;
use geo_query::query::Query;
use geo_text::text::Tokens;
use geo_text::tokens::replaced;
use std::alloc::Global;

/// The query's tokens as each layer replaces them, by the number of the layer.
pub fn tokens_by_layer(alloc: Global, head: &Head, query: &Query) -> Result<Vec<Tokens>, Memory>
    ensures { IfOk result (λ v. v.items ≡ map (λ l. replaced l.tokens query.now.tokens) head.now.layers) }
{
    let mut tokens = Vec::with_capacity(alloc, head.layers.len())?;
    for number in 0..head.layers.len() {
        let layer = head.layers.at(number);
        tokens.push(replaced(alloc, query.tokens(), layer.tokens())?)?;
    }
    Ok(tokens)
}
