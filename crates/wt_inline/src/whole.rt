ghost use Rattle.std.specs.Prelude.{◌≡◌, IfOk, false};
ghost use Rattle.wt_span.specs.Slice.{bytes_of};
ghost use Rattle.wt_span.specs.Items.{call_of_origin};
ghost use Rattle.wt_lines.specs.Pieces.{is_chars};
ghost use Rattle.wt_inline.specs.Parts.{whole_tree};
ghost use Rattle.wt_inline.specs.View.{item_tree};

use crate::nowiki::{form_leaf, nowiki};
use crate::tree::PieceTree;
use std::alloc::Global;
use wt_span::{ItemForm, NoMemory, Piece};

/// The node of a piece that is one item.
pub fn whole_tree<'a>(alloc: Global, piece: Piece<'a>) -> Result<PieceTree<'a>, NoMemory>
    requires { is_chars piece.form ≡ false }
    ensures { IfOk result (λ t. item_tree t ≡ whole_tree piece.entry.form (call_of_origin piece.entry.origin) (bytes_of piece.entry.text)) }
{
    match piece.form {
        ItemForm::Nowiki => nowiki(alloc, piece.text, piece.origin),
        _ => form_leaf(alloc, piece),
    }
}
