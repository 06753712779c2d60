//! Pieces by the outermost calls that their items come from.

ghost use Rattle.std.specs.Prelude.{◌≡◌};
ghost use Rattle.std.specs.List.{list_all, list_any};
ghost use Rattle.wt_span.specs.Items.{call_of_origin, items, items_of};
ghost use Rattle.wt_annotated.specs.Clean.{is_page};
ghost use Rattle.wt_annotated.specs.Pieces.{is_hollow};
ghost use Rattle.wt_annotated.specs.Seams.{first_found, first_of, last_of, parted};

use wt_span::{ItemForm, Origin, Piece};

/// The outermost call that this origin is; the page itself is none.
pub fn call_of(origin: Origin) -> Option<u32>
    ensures { result ≡ call_of_origin origin }
{
    match origin {
        Origin::Page(_) => None,
        Origin::Call(call) => Some(call),
    }
}

/// Whether the cut between items of these calls is free.
pub fn is_parted(before: Option<u32>, after: Option<u32>) -> bool
    ensures { result ≡ parted before after }
{
    match (before, after) {
        (Some(before), Some(after)) => before != after,
        _ => true,
    }
}

/// Whether a piece stands for no item, being the characters of an empty text.
pub fn is_hollow(piece: Piece<'_>) -> bool
    ensures { result ≡ is_hollow piece.entry }
{
    match piece.form {
        ItemForm::Chars => piece.text.as_str().is_empty(),
        _ => false,
    }
}

/// The call of the last item of a piece, after one of the call `before`.
#[tactic(auto, using(crate::proofs::PieceWalks::last_piece))]
pub fn last_of_piece(before: Option<u32>, piece: Piece<'_>) -> Option<u32>
    ensures { result ≡ last_of before (items_of piece.entry) }
{
    if is_hollow(piece) {
        before
    } else {
        call_of(piece.origin)
    }
}

/// The call of the first item, if there is one.
#[tactic(auto, using(crate::proofs::PieceWalks::found_step))]
pub fn first_found(pieces: &[Piece<'_>]) -> Option<Option<u32>>
    ensures { result ≡ first_found (items pieces.now) }
{
    for piece in pieces {
        if !is_hollow(*piece) {
            return Some(call_of(piece.origin));
        }
    }
    None
}

/// The call of the first item, before one of the call `after`.
#[tactic(auto, using(crate::proofs::Seams::first_some, crate::proofs::Seams::first_none))]
pub fn first_call(pieces: &[Piece<'_>], after: Option<u32>) -> Option<u32>
    ensures { result ≡ first_of (items pieces.now) after }
{
    match first_found(pieces) {
        Some(call) => call,
        None => after,
    }
}

#[tactic(auto, using(crate::proofs::PieceWalks::all_piece))]
fn is_of_page(piece: Piece<'_>) -> bool
    ensures { result ≡ list_all is_page (items_of piece.entry) }
{
    is_hollow(piece) || call_of(piece.origin).is_none()
}

/// Whether no item comes from a call.
#[tactic(auto, using(crate::proofs::PieceWalks::all_step))]
pub fn are_of_page(pieces: &[Piece<'_>]) -> bool
    ensures { result ≡ list_all is_page (items pieces.now) }
{
    for piece in pieces {
        if !is_of_page(*piece) {
            return false;
        }
    }
    true
}

#[tactic(auto, using(crate::proofs::PieceWalks::any_piece))]
fn is_on_page(piece: Piece<'_>) -> bool
    ensures { result ≡ list_any is_page (items_of piece.entry) }
{
    !is_hollow(piece) && call_of(piece.origin).is_none()
}

/// Whether some item is the page's own.
#[tactic(auto, using(crate::proofs::PieceWalks::any_step))]
pub fn has_page_item(pieces: &[Piece<'_>]) -> bool
    ensures { result ≡ list_any is_page (items pieces.now) }
{
    for piece in pieces {
        if is_on_page(*piece) {
            return true;
        }
    }
    false
}
