//! How many grid entries a query matches.

ghost use Rattle.std.specs.Prelude.{◌≡◌, ◌*◌, ◌<◌, ◌≤◌, length, map, filter, slice_get};
ghost use Rattle.geo_text.specs.Tokens.{replaced};
ghost use Rattle.feature_reader.specs.FeatureView.{IsFeature};
ghost use Rattle.feature_reader.specs.Table.{rows_of};
ghost use Rattle.plain_answer.specs.Match.{runs_from, matches};
ghost use Rattle.plain_answer.specs.Count.{run_count, feature_count, count};

use crate::matching::is_match;
use feature_reader::feature::Feature;
use feature_reader::phrase::Phrase;
use feature_reader::table::FeatureTable;
use geo_layer::head::Head;
use geo_layer::layer::Layer;
use geo_query::query::Query;
use geo_text::text::{Text, Tokens};

/// How many of the runs from one token on match a phrase.
fn runs_from_count(tokens: &[Text], auto: bool, from: usize, phrase: &str) -> u32
    requires within { from < length tokens.now }
    requires few { length tokens.now ≤ 20 }
    ensures value { result ≡ length (filter (λ run. matches tokens.now auto run.0 run.1 phrase.now) (runs_from (length tokens.now) from)) }
    ensures bound { result ≤ 20 }
{
    let mut count = 0;
    for to in from + 1..tokens.len() + 1 {
        if is_match(tokens, auto, from, to, phrase) {
            count += 1;
        }
    }
    count
}

/// How many of a query's runs match a phrase. `tokens` are the query's with the layer's replacements.
fn run_count(query: &Query, layer: &Layer, tokens: &Tokens, phrase: &Phrase) -> u32
    requires few { length tokens.now ≤ 20 }
    requires tokens { tokens.now ≡ replaced layer.now.tokens query.now.tokens }
    ensures value { result ≡ run_count query.now layer.now phrase.now }
    ensures bound { result ≤ 400 }
{
    let mut count = 0;
    for from in 0..tokens.len() {
        count += runs_from_count(tokens.as_slice(), query.auto(), from, phrase.text.as_str());
    }
    count
}

/// How many entries of a feature of a layer the query matches, where there is such a layer: at most 400 for each of its rows.
fn feature_count(
    head: &Head,
    query: &Query,
    tokens: &[Tokens],
    number: u8,
    feature: &Feature,
) -> u128
    requires { tokens.now ≡ map (λ l. replaced l.tokens query.now.tokens) head.now.layers }
    ensures value { result ≡ feature_count query.now (slice_get head.now.layers number) feature.now }
    ensures bound { result ≤ 400 * rows_of feature.now }
    ensures feature { IsFeature feature.now }
{
    let tiles = feature.tiles().len() as u128;
    let place = usize::from(number);
    if place >= head.layers.len() {
        return 0;
    }
    let _tokens = query.tokens(); // brings the rule of a query here: at most 20 tokens
    let layer = head.layers.at(place);
    let mut count = 0;
    for phrase in feature.phrases().as_slice() {
        count += u128::from(run_count(query, layer, &tokens[place], phrase)) * tiles;
    }
    count
}

/// The grid count of a query over a head and a table. `tokens` are the query's with the replacements of each layer.
pub fn count_of(head: &Head, table: &FeatureTable, query: &Query, tokens: &[Tokens]) -> u64
    requires { tokens.now ≡ map (λ l. replaced l.tokens query.now.tokens) head.now.layers }
    ensures { result ≡ count head.now table.now query.now }
{
    let _rows = table.len(); // brings the limits of a table here
    let mut count: u128 = 0;
    for (place, feature) in table.entries() {
        count += feature_count(head, query, tokens, place.layer, feature);
    }
    count as u64
}
