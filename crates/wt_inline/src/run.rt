ghost use Rattle.std.specs.Prelude.{◌≡◌, ◌<◌, ◌&&◌, ◌++◌, true, length, IfOk};
ghost use Rattle.wt_span.specs.Items.{items, items_of, call_of_origin};
ghost use Rattle.wt_lines.specs.Pieces.{is_chars};
ghost use Rattle.wt_inline.specs.Parts.{same_loose, same_origin, are_of, loose_leaf};
ghost use Rattle.wt_inline.specs.View.{item_tree};

use crate::carried::loose_head;
use crate::loose::Loose;
use crate::room::with_room;
use crate::tree::{PieceTree, leaf};
use std::alloc::Global;
use wt_span::{List, NoMemory, Origin, Piece};

/// Whether both are of the page, or both of the same call.
fn is_same_origin(a: Origin, b: Origin) -> bool
    ensures { result ≡ same_origin (call_of_origin a) (call_of_origin b) }
{
    match a {
        Origin::Page(_) => matches!(b, Origin::Page(_)),
        Origin::Call(call) => match b {
            Origin::Page(_) => false,
            Origin::Call(other) => call == other,
        },
    }
}

/// Characters of one origin that are in one leaf so far.
#[derive(Drop)]
pub struct Run<'a> {
    pub loose: Loose,
    pub origin: Origin,
    pub pieces: List<Piece<'a>>,
    pub ghost some: { 0 < length (items pieces) },
    pub ghost one_origin: { are_of (call_of_origin origin) (items pieces) ≡ true },
}

impl<'a> Run<'a> {
    /// The run that a piece begins.
    pub fn begun(alloc: Global, loose: Loose, piece: Piece<'a>) -> Result<Run<'a>, NoMemory>
        requires chars { is_chars piece.form ≡ true }
        requires some { 0 < length (items_of piece) }
        ensures loose { IfOk result (λ r. r.loose ≡ loose) }
        ensures origin { IfOk result (λ r. r.origin ≡ piece.entry.origin) }
        ensures items { IfOk result (λ r. items r.pieces ≡ items_of piece.entry) }
    {
        let origin = piece.origin;
        let mut pieces = with_room(alloc, 1)?;
        pieces.push(piece)?;
        Ok(Run {
            loose,
            origin,
            pieces,
        })
    }

    /// Whether characters of this origin go on in it.
    pub fn takes(&self, loose: Loose, origin: Origin) -> bool
        ensures { result ≡ (same_loose self.now.loose loose && same_origin (call_of_origin self.now.origin) (call_of_origin origin)) }
    {
        self.loose.is_same(loose) && is_same_origin(self.origin, origin)
    }

    /// The run with one more piece.
    pub fn with(self, piece: Piece<'a>) -> Result<Run<'a>, NoMemory>
        requires chars { is_chars piece.form ≡ true }
        requires same { same_origin (call_of_origin self.origin) (call_of_origin piece.origin) ≡ true }
        ensures loose { IfOk result (λ r. r.loose ≡ self.entry.loose) }
        ensures origin { IfOk result (λ r. r.origin ≡ self.entry.origin) }
        ensures items { IfOk result (λ r. items r.pieces ≡ items self.entry.pieces ++ items_of piece.entry) }
    {
        let Run {
            loose,
            origin,
            mut pieces,
        } = self;
        pieces.push_tight(piece)?;
        Ok(Run {
            loose,
            origin,
            pieces,
        })
    }

    /// The leaf that it makes.
    pub fn leaf(self, alloc: Global) -> Result<PieceTree<'a>, NoMemory>
        ensures { IfOk result (λ t. item_tree t ≡ loose_leaf self.entry.loose (items self.entry.pieces)) }
    {
        let Run { loose, pieces, .. } = self;
        let head = loose_head(alloc, loose, pieces.as_slice())?;
        Ok(leaf(alloc, head, pieces))
    }
}
