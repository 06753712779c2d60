ghost use Rattle.std.specs.Prelude.{◌≡◌, IfOk};
ghost use Rattle.wt_tree.specs.View.{view};
ghost use Rattle.wt_listing.specs.Listing.{listing};

use crate::node_line::push_line_of;
use std::alloc::Global;
use wt_span::{List, NoMemory};
use wt_tree::{Node, walk};

/// The listing of a tree: for each node with a number, in preorder, `mwN KIND START END OPEN CLOSE`
/// and a line break. N is the number, KIND the word of its kind, START and END its place in bytes of
/// the page, OPEN and CLOSE the bytes of its delimiters, all as numbers in decimal digits. A node
/// without a place has no line; a page's numbered nodes all have one.
pub fn listing(alloc: Global, n: &Node<'_>) -> Result<List<u8>, NoMemory>
    ensures { IfOk result (λ bytes. bytes ≡ listing (view n.now)) }
{
    let rows = walk(alloc, n)?;
    let mut out = Vec::new(alloc);
    for row in rows.as_slice() {
        push_line_of(&mut out, row.0, row.1, row.2)?;
    }
    Ok(List::from_vec(out))
}
