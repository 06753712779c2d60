ghost use Rattle.std.specs.Prelude.{◌≡◌, List, Bool};
ghost use Rattle.wt_span.specs.Runs.{runs, AreRuns};

/// The runs of a list join to it, are cut where neighbours don't join, and no other list of lists
/// is so.
pub fn one_cut<T>()
    ensures are { (joins : T → T → Bool) (xs : List T) → AreRuns joins (runs joins xs) xs }
    ensures only { (joins : T → T → Bool) (rs : List (List T)) (xs : List T) → AreRuns joins rs xs → rs ≡ runs joins xs }
{}
