ghost use Rattle.std.specs.Prelude.{◌≡◌, ◌++◌, [], ℕ, List, Option as OptionOf, option_map};
ghost use Rattle.wt_expand.specs.Fronts.{names_told};
ghost use Rattle.wt_expand.specs.Work.{Entry, Pages, first_refusal};
ghost use Rattle.wt_transclusion.specs.Answers.{IsRefused};
ghost use Rattle.wt_transclusion.specs.Asked.{AreFirst};
ghost use Rattle.wt_transclusion.specs.Stops.{AnswersFewer, IsOfPages, Stops};
ghost use Rattle.wt_transclusion.specs.declared.refusal.ExpandRefusal.{ExpandRefusal as RefusalOf};
ghost use Rattle.wt_transclusion.specs.declared.refusal.ExpandRefusal.TheVariants as answers;

/// What follows where the work of a page stops. It is refused so, if it is for its own sake; then the
/// folder has answered exactly the names that are fetched before the first refusal. Where the folder
/// failed, the next of these names, at least, is one that it didn't answer; and in any case it answered
/// the first of them.
pub fn work_stops()
    ensures refused { (pages : Pages) (page : List ℕ) (work : List Entry) (before now : OptionOf (List (List ℕ))) (e : RefusalOf)
        → Stops pages page 0 [] work before now e → IsRefused (first_refusal pages page work) e }
    ensures told { (pages : Pages) (page : List ℕ) (work : List Entry) (before now : OptionOf (List (List ℕ))) (e : RefusalOf)
        → Stops pages page 0 [] work before now e → IsOfPages e → now ≡ option_map (λ names. names ++ names_told pages page work) before }
    ensures fails { (pages : Pages) (page : List ℕ) (work : List Entry) (before now : OptionOf (List (List ℕ)))
        → Stops pages page 0 [] work before now answers.FolderFault → AnswersFewer (names_told pages page work) before now }
    ensures within { (pages : Pages) (page : List ℕ) (work : List Entry) (before now : OptionOf (List (List ℕ))) (e : RefusalOf)
        → Stops pages page 0 [] work before now e → AreFirst now (option_map (λ names. names ++ names_told pages page work) before) }
{}
