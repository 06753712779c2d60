//! Laws of the slices of a page, which do nothing when they are called.

ghost use Rattle.std.specs.Prelude.{◌≡◌, List, None, [], map, true, false, if◌then◌else◌};
ghost use Rattle.wt_span.specs.declared.form.Piece.{Piece};
ghost use Rattle.wt_span.specs.Items.{char, items, items_of};
ghost use Rattle.wt_span.specs.Origins.{AreItems, IsSoundPiece, OuterCall, Span};
ghost use Rattle.wt_tree.specs.declared.kind.Ranges.{Ranges};
ghost use Rattle.wt_isolation.specs.GroupItems.{items_in, lies_in};
ghost use Rattle.wt_isolation.specs.PieceParts.{bytes_in, is_page_chars, part_of, parts_of, span_of_piece};

/// What lies of the page's items in a slice lies there piece by piece: of the page's characters those bytes
/// that are between its two places, and any other piece, as what a call gave, where all of it lies in the
/// slice, by the place of its own bytes or of its call.
#[tactic(auto, using(crate::proofs::SlicedPieces::by_pieces, crate::proofs::SliceItems::chars_part, crate::proofs::SliceItems::uncut_part))]
pub fn slice_lies_by_pieces()
    ensures pieces { (ps : List Piece) (calls : List OuterCall) (text_calls : List Span) (r : Ranges) → AreItems ps calls text_calls
        → items_in calls r 0 (items ps) ≡ parts_of calls r ps }
    ensures chars { (calls : List OuterCall) (r : Ranges) (p : Piece) → is_page_chars p ≡ true → IsSoundPiece p
        → part_of calls r p ≡ map (char None) (bytes_in r p.text) }
    ensures whole { (calls : List OuterCall) (r : Ranges) (p : Piece) → is_page_chars p ≡ false → IsSoundPiece p
        → part_of calls r p ≡ (if lies_in r (span_of_piece calls p) then items_of p else []) }
{}
