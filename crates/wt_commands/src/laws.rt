ghost use Rattle.std.specs.Prelude.{◌≡◌, ◌++◌, [], ℕ, List, Option as OptionOf, Some, None, Ok, Err, length};
ghost use Rattle.wt_expand.specs.Expansion.{page_work};
ghost use Rattle.wt_expand.specs.Work.{Entry, Pages, Refused};
ghost use Rattle.wt_schema.specs.Read.{Read, page as as_page};
ghost use Rattle.wt_selser.specs.declared.refusal.EditRefusal.{EditRefusal as EditRefusalOf};
ghost use Rattle.wt_tree.specs.Tree.{Tree};
ghost use Rattle.wt_commands.specs.declared.refusal.Refusal.{Refusal as RefusalOf};
ghost use Rattle.wt_tree.specs.Source.{flat};
ghost use Rattle.wt_tree.specs.Tiling.{Tiled, Covers, InPreorder};
ghost use Rattle.wt_annotated.specs.Reached.{AreReachedSlices};
ghost use Rattle.wt_commands.specs.Answers.{Answer, answer_of_edit, input_answer, refused, refusal_of_page, title_answer, IsUnrefused};
ghost use Rattle.wt_commands.specs.Asked.{edited_work, input_work, title_work, work_done};
ghost use Rattle.wt_commands.specs.GivenBack.{IsGivenBack};
ghost use Rattle.wt_commands.specs.Unchanged.{StaysUnchanged};
ghost use Rattle.wt_page_round_trip.specs.PageTree.{page_tree};

/// The tree of a page that nothing refuses, with its templates, joins to the page, its ranges tile the
/// page and are slices of it, but for what is in groups, and its numbers are in preorder.
pub fn whole_tree()
    ensures source { (pages : Pages) (page : List ℕ) → IsUnrefused pages page
        → flat (page_tree pages page) ≡ page }
    ensures tiled { (pages : Pages) (page : List ℕ) → Tiled (page_tree pages page) }
    ensures covers { (pages : Pages) (page : List ℕ) → IsUnrefused pages page
        → Covers (length page) (page_tree pages page) }
    ensures reached { (pages : Pages) (page : List ℕ) → IsUnrefused pages page
        → AreReachedSlices page (page_tree pages page) }
    ensures numbered { (pages : Pages) (page : List ℕ) → InPreorder (page_tree pages page) }
{}

/// `wikitext` of what `html` answers for a page, over whatever folder, is this very page.
pub fn pages_come_back()
    ensures { (pages : Pages) (page : List ℕ) → IsGivenBack pages page }
{}

/// `edit` of what `html` answers for a page, given back unchanged over the same folder, is this very
/// page.
pub fn unchanged_page_stays()
    ensures { (pages : Pages) (page : List ℕ) → StaysUnchanged pages page }
{}

/// A command asks for no page after what refuses it. What is refused by what is under the title, or by
/// the input, asks for no work; where the page's expansion is refused it ends there, and where the edit is
/// refused it doesn't reach into a new page. Work that nothing refuses is done whole.
pub fn refused_calls_ask_no_further()
    ensures title { (stands : OptionOf (List ℕ)) (r : RefusalOf) (made : List ℕ → List Entry)
        → ((answer : List ℕ → Answer) → title_answer stands answer ≡ refused r) → title_work stands made ≡ [] }
    ensures input { (input : List ℕ) (r : RefusalOf) (made : Read → List Entry)
        → ((answer : Read → Answer) → input_answer answer input ≡ refused r) → input_work made input ≡ [] }
    ensures page { (pages : Pages) (page : List ℕ) (edited : Tree) (unsourced : OptionOf ℕ) (first : Refused)
        → refusal_of_page pages page ≡ Some first
        → edited_work pages page (as_page edited unsourced) ≡ work_done pages page }
    ensures edit { (pages : Pages) (page : List ℕ) (edited : Tree) (unsourced : OptionOf ℕ) (why : EditRefusalOf)
        → refusal_of_page pages page ≡ None → answer_of_edit pages page edited ≡ Err why
        → edited_work pages page (as_page edited unsourced) ≡ page_work pages page }
    ensures done { (pages : Pages) (page : List ℕ) (edited : Tree) (unsourced : OptionOf ℕ) (new : List ℕ)
        → refusal_of_page pages page ≡ None → answer_of_edit pages page edited ≡ Ok new → IsUnrefused pages new
        → edited_work pages page (as_page edited unsourced) ≡ page_work pages page ++ page_work pages new }
{}
