//! Laws of the definitions, as the contracts of functions that do nothing.

ghost use Rattle.std.specs.Prelude.{◌≡◌, ◌≢◌, ℕ, All, AllPairs};
ghost use Rattle.geo_base.specs.Context.{Agree};
ghost use Rattle.geo_layer.specs.declared.head.Head.{Head};
ghost use Rattle.geo_query.specs.QueryView.{QueryView};
ghost use Rattle.feature_reader.specs.FeatureView.{IsFeature};
ghost use Rattle.feature_reader.specs.Table.{Table, IsTable, IsOfHead, features_in};
ghost use Rattle.plain_answer.specs.Count.{layer_entries, count, product_count};
ghost use Rattle.plain_answer.specs.Links.{links};

/// The links of a query agree on the zoom of each layer and on the score of each feature; so it has exactly one answer.
pub fn links_agree()
    ensures { (head : Head) → (table : Table) → (q : QueryView) → IsTable table → IsOfHead head table → Agree (links head table q) }
{}

/// The grid entries of a layer of a table all differ: none stands twice among those that a run matches.
pub fn entries_differ()
    ensures { (table : Table) → (k : ℕ) → IsTable table → All (λ e. IsFeature e.1) table
        → AllPairs (λ a b. a ≢ b) (layer_entries (features_in table k)) }
{}

/// The grid count of a query is the sum, over the features of a table, of the runs that match a phrase, times the tiles.
pub fn count_is_a_product()
    ensures { (head : Head) → (table : Table) → (q : QueryView) → IsTable table → All (λ e. IsFeature e.1) table
        → count head table q ≡ product_count head table q }
{}
