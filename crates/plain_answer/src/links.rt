//! The links of a query over a head and a table of features.

ghost use Rattle.std.specs.Prelude.{◌≡◌, ◌+◌, ◌*◌, ◌<◌, ◌≤◌, ◌++◌, List, [], ◌∷◌, length, map, filter, flat_map, slice_get, OnOk, IfOk};
ghost use Rattle.geo_base.specs.TileView.{TileView};
ghost use Rattle.geo_base.specs.declared.link.Link.{Link};
ghost use Rattle.geo_text.specs.Tokens.{replaced};
ghost use Rattle.geo_layer.specs.Layer.{LayerView};
ghost use Rattle.feature_reader.specs.FeatureView.{IsFeature};
ghost use Rattle.plain_answer.specs.Match.{runs_from, runs, matches_in};
ghost use Rattle.plain_answer.specs.Links.{factor, meets_bounds, link_of, run_links, phrase_links, feature_links, links};

use crate::bounds::meets_bounds;
use crate::matching::is_match;
use feature_reader::feature::Feature;
use feature_reader::phrase::Phrase;
use feature_reader::table::FeatureTable;
use geo_base::link::Link;
use geo_base::refusal::Memory;
use geo_layer::head::Head;
use geo_layer::langs::Langs;
use geo_layer::layer::Layer;
use geo_query::query::Query;
use geo_text::text::Tokens;
use std::alloc::Global;

/// 100 where no language is asked for, or the phrase speaks for the one that is; else 96.
fn factor(langs: &Langs, query: &Query, phrase: &Phrase) -> u32
    ensures { result ≡ factor langs.now query.now.lang phrase.now }
{
    match query.lang() {
        Some(code) => {
            if phrase.set.has(langs.bit(code)) {
                100
            } else {
                96
            }
        }
        None => 100,
    }
}

/// A query over one layer: what stays the same while the links of a feature of the layer are made.
#[derive(Drop)]
struct LayerQuery<'a> {
    head: &'a Head,
    query: &'a Query,
    layer: &'a Layer,
    /// The query's tokens with the layer's replacements.
    tokens: &'a Tokens,
    /// The number of the layer.
    number: u8,
}

impl LayerQuery<'_> {
    /// Adds the links of a run that matches a phrase, one for each tile in the box.
    fn add_run(
        &self,
        links: &mut Vec<Link>,
        feature: &Feature,
        phrase: &Phrase,
        from: usize,
        to: usize,
    ) -> Result<(), Memory>
        requires some { from < to }
        requires few { to ≤ 20 }
        ensures { OnOk result (links.new.items ≡ links.old.items ++ map (link_of self.now.head.now self.now.query.now self.now.number feature.now phrase.now (from, to)) (filter (meets_bounds self.now.query.now.bounds) feature.now.tiles)) }
    {
        let relevance = phrase.relev;
        let factor = factor(&self.head.langs, self.query, phrase);
        let value = (to - from) as u32 * u32::from(relevance) * factor;
        let (id, score) = (feature.id(), feature.score());
        for tile in feature.tiles().as_slice() {
            if meets_bounds(self.query, tile) {
                links.push(Link {
                    layer: self.number,
                    from: from as u8,
                    to: to as u8,
                    id,
                    tile: *tile,
                    value,
                    score,
                })?;
            }
        }
        Ok(())
    }

    /// Adds the links of a run, where it matches the phrase.
    fn add_match(
        &self,
        links: &mut Vec<Link>,
        feature: &Feature,
        phrase: &Phrase,
        from: usize,
        to: usize,
    ) -> Result<(), Memory>
        requires some { from < to }
        requires within { to ≤ length self.now.tokens.now }
        requires few { length self.now.tokens.now ≤ 20 }
        requires tokens { self.now.tokens.now ≡ replaced self.now.layer.now.tokens self.now.query.now.tokens }
        ensures { OnOk result (links.new.items ≡ links.old.items ++ run_links self.now.head.now self.now.query.now self.now.layer.now self.now.number feature.now phrase.now (from, to)) }
    {
        let tokens = self.tokens.as_slice();
        if is_match(tokens, self.query.auto(), from, to, phrase.text.as_str()) {
            self.add_run(links, feature, phrase, from, to)
        } else {
            Ok(())
        }
    }

    /// Adds the links of the runs from one token on that match a phrase.
    fn add_runs_from(
        &self,
        links: &mut Vec<Link>,
        feature: &Feature,
        phrase: &Phrase,
        from: usize,
    ) -> Result<(), Memory>
        requires within { from < length self.now.tokens.now }
        requires few { length self.now.tokens.now ≤ 20 }
        requires tokens { self.now.tokens.now ≡ replaced self.now.layer.now.tokens self.now.query.now.tokens }
        ensures { OnOk result (links.new.items ≡ links.old.items ++ flat_map (run_links self.now.head.now self.now.query.now self.now.layer.now self.now.number feature.now phrase.now) (runs_from (length self.now.tokens.now) from)) }
    {
        for to in from + 1..self.tokens.len() + 1 {
            self.add_match(links, feature, phrase, from, to)?;
        }
        Ok(())
    }

    /// Adds the links of the runs that match a phrase.
    fn add_phrase(
        &self,
        links: &mut Vec<Link>,
        feature: &Feature,
        phrase: &Phrase,
    ) -> Result<(), Memory>
        requires few { length self.now.tokens.now ≤ 20 }
        requires tokens { self.now.tokens.now ≡ replaced self.now.layer.now.tokens self.now.query.now.tokens }
        ensures { OnOk result (links.new.items ≡ links.old.items ++ phrase_links self.now.head.now self.now.query.now self.now.layer.now self.now.number feature.now phrase.now) }
    {
        for from in 0..self.tokens.len() {
            self.add_runs_from(links, feature, phrase, from)?;
        }
        Ok(())
    }

    /// Adds the links of a feature of the layer.
    fn add_feature(&self, links: &mut Vec<Link>, feature: &Feature) -> Result<(), Memory>
        requires few { length self.now.tokens.now ≤ 20 }
        requires tokens { self.now.tokens.now ≡ replaced self.now.layer.now.tokens self.now.query.now.tokens }
        ensures links { OnOk result (links.new.items ≡ links.old.items ++ flat_map (phrase_links self.now.head.now self.now.query.now self.now.layer.now self.now.number feature.now) feature.now.phrases) }
        ensures feature { IsFeature feature.now }
    {
        for phrase in feature.phrases().as_slice() {
            self.add_phrase(links, feature, phrase)?;
        }
        Ok(())
    }
}

/// Adds the links of a feature of a layer, where there is such a layer.
fn add_entry(
    links: &mut Vec<Link>,
    head: &Head,
    query: &Query,
    tokens: &[Tokens],
    number: u8,
    feature: &Feature,
) -> Result<(), Memory>
    requires { tokens.now ≡ map (λ l. replaced l.tokens query.now.tokens) head.now.layers }
    ensures links { OnOk result (links.new.items ≡ links.old.items ++ feature_links head.now query.now (slice_get head.now.layers number) number feature.now) }
{
    let place = usize::from(number);
    if place >= head.layers.len() {
        return Ok(());
    }
    let _tokens = query.tokens(); // brings the rule of a query here: at most 20 tokens
    let in_layer = LayerQuery {
        head,
        query,
        layer: head.layers.at(place),
        tokens: &tokens[place],
        number,
    };
    in_layer.add_feature(links, feature)
}

/// The links of a query over a head and a table. `tokens` are the query's with the replacements of each layer.
pub fn links_of(
    alloc: Global,
    head: &Head,
    table: &FeatureTable,
    query: &Query,
    tokens: &[Tokens],
) -> Result<Vec<Link>, Memory>
    requires { tokens.now ≡ map (λ l. replaced l.tokens query.now.tokens) head.now.layers }
    ensures { IfOk result (λ v. v.items ≡ links head.now table.now query.now) }
{
    let mut links = Vec::new(alloc);
    for (place, feature) in table.entries() {
        add_entry(&mut links, head, query, tokens, place.layer, feature)?;
    }
    Ok(links)
}
