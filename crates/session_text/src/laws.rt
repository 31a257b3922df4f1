//! Laws of the definitions, as the contracts of functions that do nothing.

ghost use Rattle.std.specs.Prelude.{◌≡◌, ◌≢◌, ◌<◌, ℕ, List, [], ◌∷◌, Bool, codes, All, AllPairs, None, Ok, Err};
ghost use Rattle.geo_base.specs.declared.event.Event.TheVariants.{Claim, Look, Cut, Open, Raise};
ghost use Rattle.session_text.specs.declared.body.BodyLine.{BodyLine};
ghost use Rattle.session_text.specs.declared.body.BodyLine.TheVariants.{Explain, Replay};
ghost use Rattle.session_text.specs.declared.replay_reply.ReplayReply.TheVariants.{Illegal, Unfinished};
ghost use Rattle.session_text.specs.Reading.{at_bad_line, unended, reading, reading_on, lines_of_rounds, feeds_named};
ghost use Rattle.session_text.specs.Reply.{replay_text};
ghost use Rattle.session_text.specs.Session.{SessionView, line_at, explain_line, replay_line, word_of, IsLineOf};
ghost use Rattle.session_text.specs.declared.item.Item.TheVariants.{Body};
ghost use Rattle.session_text.specs.declared.session.Kind.{Kind};
ghost use Rattle.session_text.specs.declared.session.Kind.TheVariants.{Asks};
ghost use Rattle.session_text.specs.declared.session.Stage.TheVariants as at;
ghost use Rattle.session_text.specs.declared.why.Why.TheVariants as why;
ghost use Rattle.session_text.specs.Examples.{city, city_body, city_without_feed, city_without_end, bad_drop, read_whole, read_open, ended_with};

/// What some worked sessions give: the rounds and the ending, the first fault of a line, and whether a rest without a line
/// feed is the `end` line.
pub fn worked_readings()
    ensures ended { read_whole city ≡ ended_with city_body }
    ensures last_feed { read_whole city_without_feed ≡ ended_with city_body }
    ensures not_ended { (read_open city_without_feed).ending ≡ unended }
    ensures unended { (read_whole city_without_end).ending ≡ unended }
    ensures nothing { (read_whole []).ending ≡ unended }
    ensures word { (read_whole (codes "end")).ending ≡ at_bad_line 1 why.Head }
    ensures number { (read_whole bad_drop).ending ≡ at_bad_line 5 why.Number }
{}

/// What some lines say that explain and replay, and what a replay is answered with that doesn't find anything.
pub fn worked_search_lines()
    ensures explain { explain_line [] (codes "explain  york") ≡ Ok (Body (Explain (codes " york"))) }
    ensures bare { explain_line [] (codes "explain") ≡ Ok (Body (Explain [])) }
    ensures replay { replay_line [] (codes "replay c0 c1 l1  o0 r0 x7 ; york") ≡ Ok (Body (Replay (Claim 0 ∷ Claim 1 ∷ Look 1 ∷ Open 0 ∷ Raise 0 ∷ Cut 7 ∷ []) (codes " york"))) }
    ensures no_events { replay_line [] (codes "replay ;") ≡ Ok (Body (Replay [] [])) }
    ensures two_marks { replay_line [] (codes "replay c0;a;b") ≡ Ok (Body (Replay (Claim 0 ∷ []) (codes "a;b"))) }
    ensures no_mark { replay_line [] (codes "replay c0 york") ≡ Err why.Form }
    ensures ninth { replay_line [] (codes "replay c8 ; york") ≡ Err why.Form }
    ensures word { word_of Asks (codes "explain") ≡ None }
    ensures illegal { replay_text (Illegal 1 5) ≡ codes "replay gen 1 illegal 5\n" }
    ensures unfinished { replay_text (Unfinished 1 0) ≡ codes "replay gen 1 unfinished 0\n" }
{}

/// Each line of the body that is taken keeps what its head asks for, and the number of feeds.
pub fn body_lines_fit_the_head()
    ensures { (session : SessionView) → (line : List ℕ) → (said : BodyLine) → line_at session line ≡ Ok (Body said) → IsLineOf session.feeds session.head said }
{}

/// The lines of a session's closed rounds name no feed twice, and none that wasn't handed in.
pub fn feeds_are_named_once()
    ensures once { (feeds : ℕ) → (kind : Kind) → (ended : Bool) → (bytes : List ℕ) → AllPairs (λ a b. a ≢ b) (feeds_named (lines_of_rounds (reading feeds kind ended bytes).rounds)) }
    ensures lent { (feeds : ℕ) → (kind : Kind) → (ended : Bool) → (bytes : List ℕ) → All (λ n. n < feeds) (feeds_named (lines_of_rounds (reading feeds kind ended bytes).rounds)) }
{}

/// From the body on the head stays.
pub fn head_stays_in_the_body()
    ensures { (session : SessionView) → (n : ℕ) → (begun : List ℕ) → (ended : Bool) → (more : List ℕ) → session.stage ≡ at.InBody → (reading_on session n begun ended more).head ≡ session.head }
{}
