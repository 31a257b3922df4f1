//! What the definitions say of worked examples, and of all loads.

ghost use Rattle.std.specs.Prelude.{◌≡◌, ◌≢◌, ◌++◌, ◌∷◌, [], List, Some, codes};
ghost use Rattle.feature_reader.specs.declared.load_report.LoadEnd.TheVariants as at;
ghost use Rattle.feature_feed.specs.Feed.{FeedView};
ghost use Rattle.feature_feed.specs.JsonLines.{json_items};
ghost use Rattle.feature_feed.specs.Load.{Load, IsLoadOf};
ghost use Rattle.feature_feed.specs.declared.feed.FeedItem.{FeedItem};
ghost use Rattle.feature_feed.specs.declared.feed.FeedItem.TheVariants as item;

/// Lines of JSON: line feeds, carriage returns before them, empty lines, and a last line that no line feed ends.
pub fn lines_of_json()
    ensures nothing { json_items [] ≡ [] }
    ensures line { json_items (codes "{}" ++ 10 ∷ []) ≡ item.Json (codes "{}") ∷ [] }
    ensures unended { json_items (codes "{}") ≡ item.Json (codes "{}") ∷ [] }
    ensures empty { json_items (10 ∷ 13 ∷ 10 ∷ 10 ∷ []) ≡ [] }
    ensures returns { json_items (codes "1" ++ 13 ∷ 13 ∷ 10 ∷ codes "2" ++ 13 ∷ []) ≡ item.Json (codes "1" ++ 13 ∷ []) ∷ item.Json (codes "2" ++ 13 ∷ []) ∷ [] }
    ensures spaces { json_items (codes " " ++ 13 ∷ 10 ∷ codes "3") ≡ item.Json (codes " ") ∷ item.Json (codes "3") ∷ [] }
{}

/// A feed that tells its items may be loaded in one way, but for faults: two loads of it that didn't end by one gave the same
/// items and ended alike, whatever the feed was after each.
pub fn loads_without_faults_are_one()
    ensures { (before after later : FeedView) (items : List FeedItem) (load other : Load) → before.left ≡ Some items → IsLoadOf before after load → IsLoadOf before later other
        → load.end ≢ at.Fault → other.end ≢ at.Fault → load ≡ other }
{}
