//! Laws of the new page, which do nothing when they are called.

ghost use Rattle.std.specs.Prelude.{◌≡◌, ◌≤◌, ℕ, Bool, List, [], length, None, Ok, true, false};
ghost use Rattle.wt_checks.specs.BareSections.{HasBareSections};
ghost use Rattle.wt_checks.specs.Checked.{checked};
ghost use Rattle.wt_checks.specs.PutBack.{IsOneBody};
ghost use Rattle.wt_tree.specs.Opened.{without_sections};
ghost use Rattle.wt_span.specs.Origins.{Expanded};
ghost use Rattle.wt_tree.specs.Tiling.{Covers, InPreorder, NoneIsGroup, Tiled};
ghost use Rattle.wt_tree.specs.Tree.{Label, Tree, Trees, label, tree};
ghost use Rattle.wt_tree.specs.declared.kind.Kind.TheVariants as kind;
ghost use Rattle.wt_checks.specs.Groups.{has_mark};
ghost use Rattle.std.specs.List.{flat_map};
ghost use Rattle.wt_checks.specs.Places.{is_body, page_of, places};
ghost use Rattle.wt_slices.specs.BodySlices.{slices};
ghost use Rattle.wt_slices.specs.Changes.{inside_at, AllStay};
ghost use Rattle.wt_selser.specs.Edits.{edit_answer, is_tangled, most_bytes};
ghost use Rattle.wt_selser.specs.Leaves.{LeavesHoldNoNumber, HoldsNoFrame};
ghost use Rattle.wt_isolation.specs.OpenTags.{before, touches_open_tag};
ghost use Rattle.wt_splice.specs.Splice.{Change, spliced, AreApart, OutsideStands};
ghost use Rattle.wt_isolation.specs.TextCalls.{touches_text_call};

/// Where the slices lie in the page one after the other, what is outside them is in the
/// new page byte for byte and in its order, and between it what was written for each slice.
#[tactic(auto, using(crate::proofs::Outside::outside_stands))]
pub fn outside_stands()
    ensures { (page : List ℕ) (changes : List Change) → AreApart 0 changes (length page) → OutsideStands page (spliced page changes) changes }
{}

/// A page without marks is its own new page.
#[tactic(auto, using(crate::proofs::Outside::nothing_changes))]
pub fn nothing_changes()
    ensures { (page : List ℕ) → spliced page [] ≡ page }
{}

/// Sections make no difference: the new page of an edit of a page in sections is the one of an edit of the page
/// without them, and so are its slices. So the other laws hold of a page in sections, too.
pub fn sections_make_no_difference()
    ensures answers { (same : Tree → Tree → Bool) (items : Expanded) (page : List ℕ) (tree edited : Tree) → HasBareSections tree → IsOneBody edited
        → edit_answer same items page tree edited ≡ edit_answer same items page (without_sections tree) edited }
    ensures sliced { (same : Tree → Tree → Bool) (tree edited : Tree) → HasBareSections tree → IsOneBody edited → checked false tree edited ≡ None
        → slices same tree edited ≡ slices same (without_sections tree) edited }
{}

/// The slices of an edit (the insides of nodes marked `content`, the ranges of missing children with their
/// separators, and the empty places of new ones) lie in the page one after the other, where the page's
/// tree tiles it, has its numbers in preorder and holds no body and no section in its body, and the checks
/// refuse nothing. So every byte of the page outside them is in the new page, in its order.
pub fn edit_is_a_splice()
    ensures apart { (same : Tree → Tree → Bool) (page : List ℕ) (tree edited : Tree) → (label tree).kind ≡ kind.Body → HoldsNoFrame tree → InPreorder tree → Tiled tree
        → Covers (length page) tree → LeavesHoldNoNumber tree → is_body (label edited).kind ≡ true → checked false tree edited ≡ None
        → AreApart 0 (slices same tree edited) (length page) }
    ensures stands { (same : Tree → Tree → Bool) (items : Expanded) (page new : List ℕ) (tree edited : Tree) → (label tree).kind ≡ kind.Body
        → HoldsNoFrame tree → InPreorder tree → Tiled tree → Covers (length page) tree → LeavesHoldNoNumber tree
        → is_body (label edited).kind ≡ true → edit_answer same items page tree edited ≡ Ok new
        → OutsideStands page new (slices same tree edited) }
{}

/// Where no node is marked `children` and the checks refuse nothing, the slices of an edit are the insides of
/// the nodes marked `content`, node by node in preorder.
#[tactic(auto, using(crate::proofs::Contents::contents_alone))]
pub fn contents_alone()
    ensures { (same : Tree → Tree → Bool) (tree edited : Tree) → (label tree).kind ≡ kind.Body → InPreorder tree → is_body (label edited).kind ≡ true
        → AllStay edited → checked false tree edited ≡ None
        → slices same tree edited ≡ flat_map (inside_at same (page_of tree)) (places edited) }
{}

/// Where nothing is marked and the checks refuse nothing, the new page is the page.
pub fn unmarked_edit_is_the_page()
    ensures { (same : Tree → Tree → Bool) (items : Expanded) (page : List ℕ) (tree edited : Tree) → has_mark edited ≡ false
        → checked false tree edited ≡ None → length page ≤ most_bytes → edit_answer same items page tree edited ≡ Ok page }
{}

/// A block without groups that touches no text call and no open tag isn't tangled.
#[tactic(auto, using(crate::proofs::NoGroups::untangled))]
pub fn groups_alone_tangle()
    ensures { (items : Expanded) (page : List ℕ) (l : Label) (ts : Trees) → NoneIsGroup ts → touches_text_call items.text_calls l.ranges ≡ false
        → touches_open_tag (before page l.ranges) (tree l ts) ≡ false → is_tangled items page (tree l ts) ≡ false }
{}
