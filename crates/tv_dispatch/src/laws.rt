// What holds of the definitions alone.
ghost use Rattle.std.specs.Prelude.{◌≡◌, ◌≤◌, ◌+◌, ◌*◌, ℕ, Bool, true, false, List, [], map, length, Ok};
ghost use Rattle.tv_value.specs.Values.{Value};
ghost use Rattle.tv_gate.specs.Outcomes.{Giving, Outcome, good};
ghost use Rattle.tv_dispatch.specs.declared.plan.Plan.{Plan};
ghost use Rattle.tv_value.specs.Activities.{Activity};
ghost use Rattle.tv_dispatch.specs.Jobs.{judged, tries, take_tries};
ghost use Rattle.tv_dispatch.specs.Plans.{asked, reached, first_next, taken_turns, turns_of, kind_of, came_right, number, IsFate};

/// However its outcomes come out, a job asks its tries in order, up to the first whose outcome is right or that opens a
/// flow. A bounced job asks nothing.
pub fn asks_in_turn()
    ensures asks { (p : Plan) (rs : List Bool) → asked p (first_next p false) rs
        ≡ taken_turns (turns_of p) rs }
    ensures bounced { (p : Plan) (rs : List Bool) → asked p (first_next p true) rs ≡ [] }
{}

/// Step by step a job makes the asks that the fold of its finished list of tries takes, and comes to the same end.
pub fn steps_are_the_fold()
    ensures asks { (p : Plan) (gives : Giving) (as' : List Activity) (vs : List Value) (ds : List ℕ)
        → p.activities ≡ map kind_of as' → let t = take_tries gives []
        (tries vs ds p.retries 0 as') in
        asked p (first_next p false) (map (came_right gives) t.asks) ≡ map number t.asks }
    ensures end { (p : Plan) (gives : Giving) (as' : List Activity) (vs : List Value) (ds : List ℕ)
        → p.activities ≡ map kind_of as' → let t = take_tries gives []
        (tries vs ds p.retries 0 as') in
        IsFate as' t.fate (reached p (first_next p false) (map (came_right gives) t.asks)) }
{}

/// However its outcomes come out, a job has at most activities times (`retries` + 1) asks.
pub fn asks_are_few()
    ensures { (p : Plan) (holds_error : Bool) (rs : List Bool)
        → length (asked p (first_next p holds_error) rs) ≤ length p.activities * (p.retries + 1) }
{}

/// Right values are those that were given.
pub fn right_values_are_given()
    ensures { (ds : List ℕ) (o : Outcome) (vs : List Value) → judged ds o ≡ Ok vs → o ≡ good vs }
{}
