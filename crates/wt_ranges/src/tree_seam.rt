//! Trees by the outermost calls that their items come from, without a list of their pieces.

ghost use Rattle.std.specs.Prelude.{◌≡◌};
ghost use Rattle.std.specs.List.{list_all, list_any};
ghost use Rattle.wt_inline.specs.ItemTree.{forest, tree_items, held_by_all};
ghost use Rattle.wt_inline.specs.View.{item_tree, item_trees};
ghost use Rattle.wt_annotated.specs.Clean.{is_page};
ghost use Rattle.wt_annotated.specs.Seams.{first_found, first_of};

use wt_annotated::{are_of_page, first_found, has_page_item};
use wt_inline::PieceTree;

// ---- the first item

#[cycle(finding)]
#[tactic(auto, using(crate::proofs::TreeSeams::found_parts, crate::proofs::TreeSeams::found_turn))]
fn first_found_in(tree: &PieceTree<'_>) -> Option<Option<u32>>
    ensures { result ≡ first_found (tree_items (item_tree tree.now)) }
{
    if let Some(call) = first_found(tree.opening.as_slice()) {
        return Some(call);
    }
    if let Some(call) = first_found_in_all(tree.children.as_slice()) {
        return Some(call);
    }
    first_found(tree.closing.as_slice())
}

#[cycle(finding)]
#[tactic(auto, using(crate::proofs::TreeSeams::found_parts, crate::proofs::TreeSeams::found_turn))]
fn first_found_in_all(trees: &[PieceTree<'_>]) -> Option<Option<u32>>
    ensures { result ≡ first_found (held_by_all (forest (item_trees trees.now))) }
{
    for tree in trees {
        if let Some(call) = first_found_in(tree) {
            return Some(call);
        }
    }
    None
}

/// The call of the first item of a tree, before one of the call `after`.
#[tactic(auto, using(wt_annotated::proofs::Seams::first_some, wt_annotated::proofs::Seams::first_none))]
pub fn first_call_of(tree: &PieceTree<'_>, after: Option<u32>) -> Option<u32>
    ensures { result ≡ first_of (tree_items (item_tree tree.now)) after }
{
    match first_found_in(tree) {
        Some(call) => call,
        None => after,
    }
}

/// The call of the first item of trees, before one of the call `after`.
#[tactic(auto, using(wt_annotated::proofs::Seams::first_some, wt_annotated::proofs::Seams::first_none))]
pub fn first_call_of_all(trees: &[PieceTree<'_>], after: Option<u32>) -> Option<u32>
    ensures { result ≡ first_of (held_by_all (forest (item_trees trees.now))) after }
{
    match first_found_in_all(trees) {
        Some(call) => call,
        None => after,
    }
}

// ---- items of the page

/// Whether some item of a tree is the page's own.
#[cycle(seeking)]
#[tactic(auto, using(crate::proofs::TreeSeams::any_parts, crate::proofs::TreeSeams::any_turn))]
pub fn holds_page_item(tree: &PieceTree<'_>) -> bool
    ensures { result ≡ list_any is_page (tree_items (item_tree tree.now)) }
{
    has_page_item(tree.opening.as_slice())
        || any_holds_page_item(tree.children.as_slice())
        || has_page_item(tree.closing.as_slice())
}

#[cycle(seeking)]
#[tactic(auto, using(crate::proofs::TreeSeams::any_parts, crate::proofs::TreeSeams::any_turn))]
fn any_holds_page_item(trees: &[PieceTree<'_>]) -> bool
    ensures { result ≡ list_any is_page (held_by_all (forest (item_trees trees.now))) }
{
    for tree in trees {
        if holds_page_item(tree) {
            return true;
        }
    }
    false
}

#[cycle(owning)]
#[tactic(auto, using(crate::proofs::TreeSeams::all_parts, crate::proofs::TreeSeams::all_turn))]
fn is_tree_of_page(tree: &PieceTree<'_>) -> bool
    ensures { result ≡ list_all is_page (tree_items (item_tree tree.now)) }
{
    are_of_page(tree.opening.as_slice())
        && are_trees_of_page(tree.children.as_slice())
        && are_of_page(tree.closing.as_slice())
}

/// Whether no item of trees comes from a call.
#[cycle(owning)]
#[tactic(auto, using(crate::proofs::TreeSeams::all_parts, crate::proofs::TreeSeams::all_turn))]
pub fn are_trees_of_page(trees: &[PieceTree<'_>]) -> bool
    ensures { result ≡ list_all is_page (held_by_all (forest (item_trees trees.now))) }
{
    for tree in trees {
        if !is_tree_of_page(tree) {
            return false;
        }
    }
    true
}
