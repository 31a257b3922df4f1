//! Laws of the definitions, as the contracts of functions that do nothing.

ghost use Rattle.std.specs.Prelude.{◌≡◌, ◌≢◌, ◌<◌, ◌≤◌, ◌⊎◌, ◌↔◌, ℕ, List, [], ◌∷◌, ◌++◌, length, map, All, AllPairs, Contains, slice_get, Some};
ghost use Rattle.geo_base.specs.declared.link.Link.{Link};
ghost use Rattle.geo_base.specs.declared.cells.Cell.{Cell};
ghost use Rattle.geo_base.specs.declared.job.Job.{Job};
ghost use Rattle.geo_base.specs.Context.{Agree};
ghost use Rattle.geo_base.specs.Order.{key_of, context_cmp, same_target};
ghost use Rattle.geo_base.specs.Best.{IsMet};
ghost use Rattle.geo_base.specs.Job.{Fits, IsJob, IsJobContext};
ghost use Rattle.stackable.specs.Partial.{IsPartial, IsUnder, partials, roots, candidates, bound, survivors, links_at};
ghost use Rattle.stackable.specs.Walk.{reached};
ghost use Rattle.stackable.specs.WorkedTree.{worked_job};
ghost use Rattle.geo_base.specs.Parents.{with_parents, FitsBelow};

/// The list of partials has exactly the partials, each piece is a root, and a candidate makes a partial of a partial.
pub fn partials_are_listed()
    ensures listed { (job : Job) (p : List ℕ) → Contains (partials job) p ↔ IsPartial job p }
    ensures roots { (job : Job) → IsJob job → (j : ℕ) → j < length job.pieces → (k : ℕ) × (k < length (roots job)) × (slice_get (roots job) k ≡ Some (j ∷ [])) }
    ensures children { (job : Job) → IsJob job → (p : List ℕ) (k : ℕ) → IsPartial job p → Contains (candidates job p) k → IsPartial job (p ++ k ∷ []) }
{}

/// The walk from the roots over children reaches every partial, nothing else, and none twice.
pub fn walk_reaches_each_once()
    ensures each { (job : Job) → IsJob job → (p : List ℕ) → Contains (reached job) p ↔ IsPartial job p }
    ensures once { (job : Job) → IsJob job → AllPairs (λ p q. p ≢ q) (reached job) }
{}

/// In the worked job the street may stand above the place `springfield`, whose tokens it leaves, and not above `main`.
/// So its bound counts that one token, and it is the first root.
pub fn worked_tree()
    ensures bounds { map (λ k. bound worked_job (k ∷ [])) (0 ∷ 1 ∷ 2 ∷ []) ≡ 153601 ∷ 160003 ∷ 480005 ∷ [] }
    ensures roots { roots worked_job ≡ (2 ∷ []) ∷ (1 ∷ []) ∷ (0 ∷ []) ∷ [] }
    ensures reached { reached worked_job ≡ (2 ∷ []) ∷ (2 ∷ 1 ∷ []) ∷ (1 ∷ []) ∷ (0 ∷ []) ∷ [] }
{}

/// No context under a partial has a key above the partial's bound.
pub fn bound_holds()
    ensures { (job : Job) (cells : List (List Cell)) → Fits job cells
        → (p : List ℕ) (c : List Link) → 0 < length p → IsUnder job cells p c → key_of c ≤ bound job p }
{}

/// A context under a partial is of exactly its pieces, and then a survivor is the same or comes before it, or it is under a child.
pub fn tree_has_all()
    ensures split { (job : Job) (cells : List (List Cell)) → (p : List ℕ) (c : List Link) → (u : IsUnder job cells p c)
        → (u.front ≡ c) ⊎ ((k : ℕ) × Contains (candidates job p) k × IsUnder job cells (p ++ k ∷ []) c) }
    ensures survivors { (job : Job) (cells : List (List Cell)) → Fits job cells → (p : List ℕ) (c : List Link) → 0 < length p
        → (u : IsUnder job cells p c) → u.front ≡ c → IsMet context_cmp same_target (survivors job cells p) c }
{}

/// The survivors of one piece are its links, each alone; with one more piece at the end of a partial,
/// each survivor that has a parent among the piece's links goes on with the best of them below it.
pub fn survivors_grow()
    ensures one { (job : Job) (cells : List (List Cell)) (k : ℕ) → survivors job cells (k ∷ []) ≡ map (λ l. l ∷ []) (links_at job cells k) }
    ensures more { (job : Job) (cells : List (List Cell)) → Fits job cells → (p : List ℕ) (k : ℕ) → 0 < length p → IsPartial job (p ++ k ∷ [])
        → survivors job cells (p ++ k ∷ []) ≡ with_parents (links_at job cells k) (survivors job cells p) }
{}

/// What is asked where survivors get one more piece holds of the survivors of a partial and the links of a piece;
/// and survivors are contexts of the job.
pub fn survivors_may_grow()
    ensures below { (job : Job) (cells : List (List Cell)) → Fits job cells → (p : List ℕ) (k : ℕ) → 0 < length p → IsPartial job (p ++ k ∷ [])
        → All (FitsBelow (links_at job cells k)) (survivors job cells p) }
    ensures agree { (job : Job) (cells : List (List Cell)) → Fits job cells → (k : ℕ) → Agree (links_at job cells k) }
    ensures contexts { (job : Job) (cells : List (List Cell)) → Fits job cells → (p : List ℕ) → length p ≤ 16 → All (IsJobContext job cells) (survivors job cells p) }
{}
