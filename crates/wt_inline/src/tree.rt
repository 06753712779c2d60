ghost use Rattle.std.specs.Prelude.{◌≡◌, IfOk};
ghost use Rattle.wt_span.specs.Items.{items};
ghost use Rattle.wt_tree.specs.View.{attrs_of};
ghost use Rattle.wt_inline.specs.ItemTree.{plain, with_attrs, leaf};
ghost use Rattle.wt_inline.specs.View.{head_of, item_tree};

use std::alloc::Global;
use wt_span::{List, NoMemory, Piece};
use wt_tree::{Attr, Kind, More, Shown};

/// What a node is, and what its element has beside its source and children: the characters that it
/// shows (a text's and an entity's), the attributes that its kind doesn't decide, and the data of an
/// extension. It is given where the node is made.
#[derive(Drop)]
pub struct NodeHead<'a> {
    pub kind: Kind,
    pub shown: Shown<'a>,
    pub more: More,
}

impl<'a> NodeHead<'a> {
    /// The head of a node that has nothing beside its kind.
    pub fn plain(kind: Kind) -> NodeHead<'a>
        ensures { head_of result ≡ plain kind }
    {
        NodeHead {
            kind,
            shown: Shown::none(),
            more: More::none(),
        }
    }

    /// The head of a node that has attributes beside its kind.
    pub fn with_attrs(
        alloc: Global,
        kind: Kind,
        attrs: List<Attr>,
    ) -> Result<NodeHead<'a>, NoMemory>
        ensures { IfOk result (λ h. head_of h ≡ with_attrs kind (attrs_of attrs)) }
    {
        Ok(NodeHead {
            kind,
            shown: Shown::none(),
            more: More::with_attrs(alloc, attrs)?,
        })
    }
}

/// A node of a page's meaning, before it has a place and a number. It keeps the pieces of its
/// opening and of its closing delimiter; a leaf is all opening, and has no children.
#[derive(Drop)]
pub struct PieceTree<'a> {
    pub head: NodeHead<'a>,
    pub opening: List<Piece<'a>>,
    pub children: List<PieceTree<'a>>,
    pub closing: List<Piece<'a>>,
}

/// A leaf of these pieces.
pub fn leaf<'a>(alloc: Global, head: NodeHead<'a>, own: List<Piece<'a>>) -> PieceTree<'a>
    ensures { item_tree result ≡ leaf (head_of head.entry) (items own.entry) }
{
    PieceTree {
        head,
        opening: own,
        children: List::new(alloc),
        closing: List::new(alloc),
    }
}
