//! The answer to a query.

ghost use Rattle.std.specs.Prelude.{◌≡◌, Ok, Err, IfOk};
ghost use Rattle.geo_base.specs.declared.refusal.Refused.TheVariants as refused;
ghost use Rattle.geo_base.specs.declared.grids.Grids.{Grids};
ghost use Rattle.plain_answer.specs.Answering.{answer_of};
ghost use Rattle.feature_reader.specs.Table.{IsOfHead};

use crate::chains::best_contexts;
use crate::count::count_of;
use crate::layer_tokens::tokens_by_layer;
use crate::links::links_of;
use feature_reader::table::FeatureTable;
use geo_base::answer::Answer;
use geo_base::grids::Grids;
use geo_base::refusal::Refused;
use geo_layer::head::Head;
use geo_query::query::Query;
use std::alloc::Global;

/// The answer to a query over a head and a table of its features: the 40 best contexts of the query's links, one per target,
/// the best first; fewer where there are fewer targets.
///
/// The one fault is `Grids`, with the grid count and the limit, exactly where the count exceeds the limit. It is plain and
/// slow: it goes over all features, and follows each list of links that may stand together.
pub fn answer_plain(
    alloc: Global,
    head: &Head,
    table: &FeatureTable,
    limit: u64,
    query: &Query,
) -> Result<Answer, Refused<Grids>>
    requires { IsOfHead head.now table.now }
    ensures answer { IfOk result (λ a. answer_of head.now table.now limit query.now ≡ Ok a) }
    ensures grids { (g : Grids) → result ≡ Err (refused.Fault g) → answer_of head.now table.now limit query.now ≡ Err g }
{
    let _features = table.len(); // brings the order of the features here
    let _layers = head.layers.len(); // brings here that there are at most 16
    let tokens = tokens_by_layer(alloc, head, query)?;
    let total = count_of(head, table, query, &tokens);
    if total > limit {
        return Err(Refused::Fault(Grids { total, limit }));
    }
    let links = links_of(alloc, head, table, query, &tokens)?;
    let stacks = head.layers.stacks();
    let top = best_contexts(alloc, &stacks, &links)?;
    Ok(top.into_answer(query.tokens().len() as u8))
}
