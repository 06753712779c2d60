ghost use Rattle.std.specs.Prelude.{◌≡◌, IfOk};
ghost use Rattle.wt_span.specs.Items.{items, items_of};
ghost use Rattle.wt_inline.specs.Parts.{parts};
ghost use Rattle.wt_inline.specs.Inline.{inline_parts};
ghost use Rattle.wt_inline.specs.Grown.{growth, Grows};

use crate::children::Children;
use crate::loose::Loose;
use crate::whole::whole_tree;
use std::alloc::Global;
use wt_lines::is_chars;
use wt_span::{NoMemory, Piece};

impl<'a> Children<'a> {
    /// These and what a piece is by itself.
    fn with_piece(
        self,
        alloc: Global,
        loose: Loose,
        piece: Piece<'a>,
    ) -> Result<Children<'a>, NoMemory>
        ensures { IfOk result (λ c. Grows (growth self.entry) (parts loose (items_of piece.entry)) (growth c)) }
    {
        if is_chars(piece.form) {
            self.with_chars(alloc, loose, piece)
        } else {
            let tree = whole_tree(alloc, piece)?;
            self.with_tree(alloc, tree)
        }
    }

    /// These and what each of the pieces is by itself: characters are of texts or of separators,
    /// and every other piece is a node.
    pub fn with_pieces(
        self,
        alloc: Global,
        loose: Loose,
        pieces: &[Piece<'a>],
    ) -> Result<Children<'a>, NoMemory>
        ensures { IfOk result (λ c. Grows (growth self.entry) (parts loose (items pieces.now)) (growth c)) }
    {
        let mut children = self;
        for piece in pieces {
            children = children.with_piece(alloc, loose, *piece)?;
        }
        Ok(children)
    }

    /// These and what is on a line, or in another context that is read alone.
    pub fn with_line(self, alloc: Global, pieces: &[Piece<'a>]) -> Result<Children<'a>, NoMemory>
        ensures { IfOk result (λ c. Grows (growth self.entry) (inline_parts (items pieces.now)) (growth c)) }
    {
        self.with_pieces(alloc, Loose::Text, pieces)
    }
}
