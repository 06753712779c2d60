//! A child of a node that is kept: where it begins, whether the cut before it is free, and whether
//! it is clean.

use wt_inline::PieceTree;

/// A child with what is round it: the calls of the last item before it and of the first item
/// after it, the byte of the page at which it begins, whether the cut before it is free, and
/// whether it is clean.
#[derive(Drop)]
pub struct Child<'a> {
    pub tree: PieceTree<'a>,
    pub before: Option<u32>,
    pub after: Option<u32>,
    pub byte: u32,
    pub free: bool,
    pub clean: bool,
}
