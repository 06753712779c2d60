ghost use Rattle.std.specs.Prelude.{◌≡◌, ◌↔◌, ℕ, List, Option, Some, None, Bool, true, false};
ghost use Rattle.std.specs.Bool.{Decides};
ghost use Rattle.std.specs.List.{AllByRecursion};
ghost use Rattle.wt_tree.specs.declared.kind.AttrName.{AttrName};
ghost use Rattle.wt_tree.specs.declared.kind.Kind.{Kind};
ghost use Rattle.wt_tree.specs.declared.node.DataMw.{DataMw};
ghost use Rattle.wt_tree.specs.Stream.{StreamToken};
ghost use Rattle.wt_checks.specs.Alike.{same_kind, same_attrs, same_data};
ghost use Rattle.wt_checks.specs.Groups.{same_signs};
ghost use Rattle.wt_checks.specs.Unmarked.{Entry, same_entries};
ghost use Rattle.wt_tree.specs.Opened.{without_sections};
ghost use Rattle.wt_tree.specs.Tiling.{InPreorder};
ghost use Rattle.wt_tree.specs.Tree.{Tree, label};
ghost use Rattle.wt_tree.specs.declared.kind.Kind.TheVariants as kind;
ghost use Rattle.wt_checks.specs.declared.refusal.TreeRefusal.{TreeRefusal};
ghost use Rattle.wt_checks.specs.BareSections.{HasBareSections};
ghost use Rattle.wt_checks.specs.Checked.{checked, nodes_checked, is_of_nodes};
ghost use Rattle.wt_checks.specs.FirstRefusal.{IsFirstRefusal};
ghost use Rattle.wt_checks.specs.Kept.{Kept, ChildrenInOrder};
ghost use Rattle.wt_checks.specs.Gist.{gist};
ghost use Rattle.wt_checks.specs.Places.{is_body, places, page_of};
ghost use Rattle.wt_checks.specs.PutBack.{put_back, IsOneBody, TextsHoldNoNumber, AreAsRead, IsThePage};
ghost use Rattle.wt_checks.specs.WithoutMarks.{unmarked, groups_unmarked};
ghost use Rattle.wt_tree.specs.Plain.{plain};

/// Nothing is refused exactly where all that isn't marked is kept: under each kept parent the kept
/// nodes are some of the page's in their order, each node of the page has its kind, attributes and
/// data, and its texts and children where it isn't marked, groups are as they were, and marks are
/// where they may.
pub fn what_is_kept()
    ensures { (values : Bool) (page edited : Tree) → (label page).kind ≡ kind.Body → InPreorder page
        → (checked values page edited ≡ None) ↔ Kept values page edited }
{}

/// A refusal that is answered is the first of their order that holds at any place, and it names the
/// first place in preorder where it holds.
pub fn first_refusal()
    ensures { (values : Bool) (page edited : Tree) (c : TreeRefusal) → checked values page edited ≡ Some c → IsFirstRefusal values page edited c }
{}

/// Sections make no difference: what is refused of an edit of a page in sections is what is refused of one
/// of the page without them. So the other laws, which speak of a page without sections, hold of it, too.
pub fn sections_make_no_difference()
    ensures { (values : Bool) (page edited : Tree) → HasBareSections page → checked values page edited ≡ checked values (without_sections page) edited }
{}

/// Where nothing is refused, the edited tree is the page's but for the insides of marked nodes and of
/// groups: with these put back to the page's, it has the same nodes by their numbers, kinds, attributes
/// and data, with the same texts and children in the same order, and so the same plain view.
pub fn edited_is_the_page()
    ensures compared { (values : Bool) (page edited : Tree) → IsOneBody page → InPreorder page
        → is_body (label edited).kind ≡ true → checked values page edited ≡ None
        → gist (put_back values (page_of page) edited) ≡ gist page }
    ensures shown { (values : Bool) (page edited : Tree) → IsOneBody page → InPreorder page
        → is_body (label edited).kind ≡ true → checked values page edited ≡ None
        → plain (put_back values (page_of page) edited) ≡ plain page }
{}

/// And nothing else is taken. Of a tree whose only body is the root, and in which texts and what shows
/// nothing hold nothing, nothing is refused exactly where with all put back that may differ it is the
/// page's, kept nodes are in their order, groups are as they were, and so are, outside
/// marked content, hidden nodes and the kept nodes inside new elements; marks are where they may be.
pub fn only_the_page_is_taken()
    ensures { (values : Bool) (page edited : Tree) → IsOneBody page → InPreorder page → TextsHoldNoNumber page
        → IsOneBody edited → AreAsRead edited
        → (checked values page edited ≡ None) ↔ IsThePage values page edited }
{}

/// Where nothing is refused, the numbered nodes that a node holds itself are some of those that it holds
/// in the page, in their order: under a mark `children` none is exchanged, and none comes from elsewhere.
pub fn children_in_order()
    ensures { (values : Bool) (page edited : Tree) → IsOneBody page → InPreorder page → TextsHoldNoNumber page
        → checked values page edited ≡ None → AllByRecursion (ChildrenInOrder (page_of page)) (places edited) }
{}

/// The tests of two kinds, lists of attributes, values of `data-mw`, lists of texts and children, and
/// lists of signs say whether the two are one.
pub fn comparisons()
    ensures kinds { (a b : Kind) → Decides (same_kind a b) (a ≡ b) }
    ensures attributes { (xs ys : List (AttrName × List ℕ)) → Decides (same_attrs xs ys) (xs ≡ ys) }
    ensures values { (a b : Option DataMw) → Decides (same_data a b) (a ≡ b) }
    ensures held { (xs ys : List Entry) → Decides (same_entries xs ys) (xs ≡ ys) }
    ensures shown { (xs ys : List StreamToken) → Decides (same_signs xs ys) (xs ≡ ys) }
{}

/// The check of nodes alone answers what the whole check does where that refuses a node, or nothing. (After
/// a node that was moved there may be a changed group.)
pub fn nodes_as_checked()
    ensures refused { (page edited : Tree) (c : TreeRefusal) → checked false page edited ≡ Some c → is_of_nodes c ≡ true
        → nodes_checked page edited ≡ Some c }
    ensures taken { (page edited : Tree) → checked false page edited ≡ None → nodes_checked page edited ≡ None }
{}

/// Marks outside groups make no difference to the check of nodes.
pub fn nodes_without_marks()
    ensures { (page edited : Tree) → groups_unmarked edited ≡ true → nodes_checked page edited ≡ nodes_checked page (unmarked edited) }
{}
