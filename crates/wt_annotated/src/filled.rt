//! Trees in which no node is a group, since no item comes from a call and each node holds one.

ghost use Rattle.std.specs.Prelude.{◌≡◌};
ghost use Rattle.wt_span.specs.Items.{items};
ghost use Rattle.wt_inline.specs.ItemTree.{forest};
ghost use Rattle.wt_inline.specs.View.{item_tree, item_trees};
ghost use Rattle.wt_annotated.specs.Filled.{are_some, is_filled, is_round};

use crate::seam::{are_of_page, has_page_item};
use wt_inline::PieceTree;
use wt_span::Piece;

/// Whether delimiters are the page's, and where they aren't round nodes, an item is in them.
fn is_round(opening: &[Piece<'_>], some: bool, closing: &[Piece<'_>]) -> bool
    ensures { result ≡ is_round (items opening.now) some (items closing.now) }
{
    if !are_of_page(opening) || !are_of_page(closing) {
        return false;
    }
    some || has_page_item(opening) || has_page_item(closing)
}

fn are_some(trees: &[PieceTree<'_>]) -> bool
    ensures { result ≡ are_some (forest (item_trees trees.now)) }
{
    match trees {
        [] => false,
        _ => true,
    }
}

/// Whether no item of a tree comes from a call and each node of it holds an item.
pub fn is_filled(tree: &PieceTree<'_>) -> bool
    ensures { result ≡ is_filled (item_tree tree.now) }
{
    let some = are_some(tree.children.as_slice());
    if !is_round(tree.opening.as_slice(), some, tree.closing.as_slice()) {
        return false;
    }
    for child in tree.children.as_slice() {
        if !is_filled(child) {
            return false;
        }
    }
    true
}
