//! Laws of the search machine, as the contracts of functions that do nothing.

ghost use Rattle.std.specs.Prelude.{◌≡◌, ◌≢◌, ◌<◌, ◌≤◌, ◌↔◌, ◌+◌, ℕ, true, List, [], ◌∷◌, ◌++◌, length, All, AllPairs, Contains, fold, flat_map, map, sum_by, slice_get, Result, Ok};
ghost use Rattle.geo_base.specs.declared.link.Link.{Link};
ghost use Rattle.geo_base.specs.declared.cells.Cell.{Cell};
ghost use Rattle.geo_base.specs.declared.job.Job.{Job};
ghost use Rattle.geo_base.specs.declared.event.Event.{Event};
ghost use Rattle.geo_base.specs.declared.event.Event.TheVariants.{Claim, Look, Cut, Open, Raise};
ghost use Rattle.geo_base.specs.Job.{Fits, IsJob, IsJobContext, IsSound, job_best};
ghost use Rattle.geo_base.specs.Order.{context_cmp, same_target};
ghost use Rattle.geo_base.specs.Best.{best_of};
ghost use Rattle.search_core.specs.Covers.{IsGood, IsGoodWorker, IsTop};
ghost use Rattle.stackable.specs.Partial.{roots, children, partials, IsPartial};
ghost use Rattle.search_core.specs.Machine.{State, WorkerState, idle_worker, claimed, looked, cut, opened, may_cut, may_open, first_state, worker_of, is_allowed, happens, run, is_done, turn, one_run, worker_at, answer_of, replayed, Found, Illegal, Unfinished, opens, cuts};
ghost use Rattle.top_list.specs.Ranked.{IsRanked};
ghost use Rattle.top_list.specs.Merged.{floor_of};
ghost use Rattle.search_core.specs.Alone.{tree_size, last_state};
ghost use Rattle.search_core.specs.Claims.{all_claims, HasClaims};
ghost use Rattle.search_core.specs.Merging.{merged_tops};
ghost use Rattle.search_core.specs.WorkedSearches.{two_pieces, scored_cells, scored_places, even_cells, even_places, three_pieces, three_cells, street_in_town, street_beside_town};

/// The claimed numbers stay distinct, and stay all those below the next root, as far as they are roots. So once every root is done, they are the numbers of the roots, each once.
pub fn claims_are_the_roots()
    ensures first { (job : Job) → HasClaims job first_state }
    ensures events { (job : Job) (cells : List (List Cell)) → (s : State) (e : Event)
        → worker_of e < length s.workers → is_allowed job s e ≡ true → HasClaims job s → HasClaims job (happens job cells s e) }
    ensures runs { (job : Job) (cells : List (List Cell)) → (events : List Event) (s : State)
        → All (λ e. worker_of e < 8) events → run job cells 0 events first_state ≡ Ok s → HasClaims job s }
    ensures done { (job : Job) (s : State) → HasClaims job s → ((k : ℕ) → k < length (roots job) → is_done job s k ≡ true)
        → AllPairs (λ j k. j ≢ k) (all_claims s) × ((k : ℕ) → Contains (all_claims s) k ↔ (k < length (roots job))) }
{}

/// The run of one worker alone ends within its turns: each of its events may happen, every root is done at its end, and no turn is left. What it finds is the job's answer, and that is the worker's own list.
pub fn one_run_is_a_search()
    ensures goes { (job : Job) (cells : List (List Cell)) → IsJob job → run job cells 0 (one_run job cells) first_state ≡ Ok (last_state job cells) }
    ensures done { (job : Job) (cells : List (List Cell)) → IsJob job → (k : ℕ) → k < length (roots job) → is_done job (last_state job cells) k ≡ true }
    ensures rests { (job : Job) (cells : List (List Cell)) → IsJob job → turn job (last_state job cells) ≡ [] }
    ensures answer { (job : Job) (cells : List (List Cell)) → Fits job cells → answer_of (last_state job cells) ≡ job_best job cells }
    ensures found { (job : Job) (cells : List (List Cell)) → Fits job cells → replayed job cells (one_run job cells) ≡ Found (job_best job cells) }
    ensures list { (job : Job) (cells : List (List Cell)) → Fits job cells → (worker_at (last_state job cells) 0).top ≡ job_best job cells }
{}

/// How many partials begin with a partial: one, and those that begin with its children. All partials begin with a root.
pub fn trees_are_counted()
    ensures step { (job : Job) → IsJob job → (p : List ℕ) → IsPartial job p → tree_size job p ≡ 1 + sum_by (tree_size job) (children job p) }
    ensures all { (job : Job) → sum_by (tree_size job) (roots job) ≤ length (partials job) }
{}

/// Merging lists in turn gives the best of all: of the workers' lists into a new list, and into a list of the best.
pub fn merges_in_turn()
    ensures into_new { (workers : List WorkerState) → merged_tops [] workers ≡ best_of context_cmp same_target 40 (flat_map (λ w. w.top) workers) }
    ensures into_list { (top : List (List Link)) (workers : List WorkerState) → IsRanked top → merged_tops top workers ≡ best_of context_cmp same_target 40 (top ++ flat_map (λ w. w.top) workers) }
{}

/// Each event on one worker keeps a good worker good, whatever roots it has claimed: a look at a sound floor, a cut and an open that may happen, and a claim of a root while it has nothing on its stack.
pub fn workers_stay_good()
    ensures new { (job : Job) (cells : List (List Cell)) → Fits job cells → IsGoodWorker job cells idle_worker }
    ensures claimed { (job : Job) (cells : List (List Cell)) → Fits job cells → (w : WorkerState) (k : ℕ) → w.stack ≡ [] → IsGoodWorker job cells w → IsGoodWorker job cells (claimed w k (slice_get (roots job) k)) }
    ensures looked { (job : Job) (cells : List (List Cell)) → Fits job cells → (w : WorkerState) (floor : ℕ) → IsSound job cells floor → IsGoodWorker job cells w → IsGoodWorker job cells (looked w floor) }
    ensures cut { (job : Job) (cells : List (List Cell)) → Fits job cells → (w : WorkerState) → may_cut job w ≡ true → IsGoodWorker job cells w → IsGoodWorker job cells (cut w) }
    ensures opened { (job : Job) (cells : List (List Cell)) → Fits job cells → (w : WorkerState) → may_open job w ≡ true → IsGoodWorker job cells w → IsGoodWorker job cells (opened job cells w) }
    ensures raised { (job : Job) (cells : List (List Cell)) → Fits job cells → (w : WorkerState) → IsGoodWorker job cells w → IsSound job cells (floor_of w.top) }
{}

/// Good workers that have nothing on their stacks, and have claimed every root between them, have the job's answer: the merge of their lists in turn.
pub fn covered_roots_are_enough()
    ensures { (job : Job) (cells : List (List Cell)) → Fits job cells → (workers : List WorkerState) → All (IsGoodWorker job cells) workers → All (λ w. w.stack ≡ []) workers
        → ((k : ℕ) → k < length (roots job) → Contains (flat_map (λ w. w.claims) workers) k) → merged_tops [] workers ≡ job_best job cells }
{}

/// Each event that may happen keeps a good state good, and the floor of a worker's list is sound.
pub fn states_stay_good()
    ensures events { (job : Job) (cells : List (List Cell)) → Fits job cells → (s : State) (e : Event)
        → worker_of e < length s.workers → is_allowed job s e ≡ true → IsGood job cells s → IsGood job cells (happens job cells s e) }
    ensures floor { (job : Job) (cells : List (List Cell)) → (top : List (List Link)) → IsTop job cells top → IsSound job cells (floor_of top) }
{}

/// Whatever the schedule, a replay in which every event may happen and every root is done finds the job's answer.
pub fn schedule_is_free()
    ensures { (job : Job) (cells : List (List Cell)) → Fits job cells → (events : List Event) (answer : List (List Link))
        → All (λ e. worker_of e < 8) events → replayed job cells events ≡ Found answer → answer ≡ job_best job cells }
{}

/// Two searches of one token and one of three, worked out by hand: what they find, which schedules may happen, and how many partials one worker opens and cuts.
pub fn worked_searches()
    ensures best { job_best (two_pieces 5) scored_cells ≡ scored_places }
    ensures cut { replayed (two_pieces 5) scored_cells (Claim 0 ∷ Claim 1 ∷ Look 1 ∷ Open 0 ∷ Raise 0 ∷ Look 1 ∷ Cut 1 ∷ []) ≡ Found scored_places }
    ensures opened { replayed (two_pieces 5) scored_cells (Claim 0 ∷ Claim 1 ∷ Look 1 ∷ Open 0 ∷ Raise 0 ∷ Open 1 ∷ []) ≡ Found scored_places }
    ensures early { replayed (two_pieces 5) scored_cells (Claim 0 ∷ Claim 1 ∷ Look 1 ∷ Open 0 ∷ Raise 0 ∷ Cut 1 ∷ []) ≡ Illegal 5 }
    ensures low { replayed (two_pieces 5) scored_cells (Claim 0 ∷ Claim 1 ∷ Look 1 ∷ Open 0 ∷ Raise 0 ∷ Look 1 ∷ Open 1 ∷ []) ≡ Illegal 6 }
    ensures left { replayed (two_pieces 5) scored_cells (Claim 0 ∷ Claim 1 ∷ Look 1 ∷ Open 0 ∷ Raise 0 ∷ []) ≡ Unfinished 1 }
    ensures opens { opens (two_pieces 5) scored_cells ≡ 1 }
    ensures cuts { cuts (two_pieces 5) scored_cells ≡ 1 }
    ensures at_equality { replayed (two_pieces 0) even_cells (Claim 0 ∷ Claim 1 ∷ Open 1 ∷ Raise 1 ∷ Look 0 ∷ Cut 0 ∷ []) ≡ Illegal 5 }
    ensures even { replayed (two_pieces 0) even_cells (Claim 0 ∷ Claim 1 ∷ Open 1 ∷ Raise 1 ∷ Look 0 ∷ Open 0 ∷ []) ≡ Found even_places }
    ensures nested { job_best three_pieces (three_cells 6) ≡ street_in_town }
    ensures nested_opens { opens three_pieces (three_cells 6) ≡ 7 }
    ensures beside { job_best three_pieces (three_cells 7) ≡ street_beside_town }
    ensures beside_opens { opens three_pieces (three_cells 7) ≡ 6 }
{}
