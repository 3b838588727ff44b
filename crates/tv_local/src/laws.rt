// What holds of the table alone.
ghost use Rattle.std.specs.Prelude.{◌≡◌, ℕ, List, length};
ghost use Rattle.tv_value.specs.Values.{Name, Value};
ghost use Rattle.tv_gate.specs.Outcomes.{good};
ghost use Rattle.tv_local.specs.LocalGives.{local_gives};

/// Every good outcome has one value.
pub fn good_outcomes_have_one_value()
    ensures { (name : Name) (vs us : List Value) (n : ℕ) → local_gives name vs n ≡ good us
        → length us ≡ 1 }
{}
