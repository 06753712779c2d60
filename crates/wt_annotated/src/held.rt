//! The pieces that trees hold.

ghost use Rattle.std.specs.Prelude.{◌≡◌, ◌++◌, IfOk, OnOk};
ghost use Rattle.wt_span.specs.Items.{items, sources};
ghost use Rattle.wt_tree.specs.View.{texts_of};
ghost use Rattle.wt_inline.specs.ItemTree.{forest, tree_items, held_by_all};
ghost use Rattle.wt_inline.specs.View.{item_tree, item_trees};

use std::alloc::Global;
use wt_inline::{PieceTree, with_room};
use wt_span::{List, NoMemory, Piece, Text};
use wt_tree::Slices;

fn push_held<'a>(out: &mut List<Piece<'a>>, tree: &PieceTree<'a>) -> Result<(), NoMemory>
    ensures { OnOk result (items out.new ≡ items out.old ++ tree_items (item_tree tree.now)) }
{
    out.extend_from_slice(tree.opening.as_slice())?;
    for child in tree.children.as_slice() {
        push_held(out, child)?;
    }
    out.extend_from_slice(tree.closing.as_slice())?;
    Ok(())
}

/// All pieces that trees hold, tree after tree.
pub fn pieces_of_all<'a>(
    alloc: Global,
    trees: &[PieceTree<'a>],
) -> Result<List<Piece<'a>>, NoMemory>
    ensures { IfOk result (λ l. items l ≡ held_by_all (forest (item_trees trees.now))) }
{
    let mut out = List::new(alloc);
    for tree in trees {
        push_held(&mut out, tree)?;
    }
    Ok(out)
}

/// These pieces, which aren't copied, with what trees and other pieces hold after them.
fn with_held<'a>(
    opening: List<Piece<'a>>,
    children: &[PieceTree<'a>],
    closing: &[Piece<'a>],
) -> Result<List<Piece<'a>>, NoMemory>
    ensures { IfOk result (λ l. items l ≡ items opening.entry ++ (held_by_all (forest (item_trees children.now)) ++ items closing.now)) }
{
    let mut own = opening;
    for child in children {
        push_held(&mut own, child)?;
    }
    own.extend_from_slice(closing)?;
    Ok(own)
}

/// All pieces of a leaf: those of its opening, which aren't copied, and what else it holds.
pub fn own_pieces<'a>(
    opening: List<Piece<'a>>,
    children: List<PieceTree<'a>>,
    closing: List<Piece<'a>>,
) -> Result<List<Piece<'a>>, NoMemory>
    ensures { IfOk result (λ l. items l ≡ items opening.entry ++ (held_by_all (forest (item_trees children.entry)) ++ items closing.entry)) }
{
    with_held(opening, children.as_slice(), closing.as_slice())
}

/// The texts of pieces in a list.
fn listed_texts<'a>(alloc: Global, pieces: &[Piece<'a>]) -> Result<List<Text<'a>>, NoMemory>
    ensures { IfOk result (λ l. texts_of l ≡ sources (items pieces.now)) }
{
    let mut texts = with_room(alloc, pieces.len())?;
    for piece in pieces {
        texts.push(piece.text)?;
    }
    Ok(texts)
}

/// The texts of pieces, as they were expanded.
pub fn source_texts<'a>(alloc: Global, pieces: &[Piece<'a>]) -> Result<Slices<'a>, NoMemory>
    ensures { IfOk result (λ l. texts_of l ≡ sources (items pieces.now)) }
{
    match pieces {
        [] => Ok(Slices::none()),
        [piece] => Ok(Slices::one(piece.text)),
        _ => {
            let texts = listed_texts(alloc, pieces)?;
            Ok(Slices::of_list(texts))
        }
    }
}
