//! Values without the blanks and line breaks at their ends.
ghost use Rattle.std.specs.Prelude.{◌≡◌, ◌<◌, ◌++◌, ◌∷◌, [], IfOk, drop, length};
ghost use Rattle.wt_span.specs.Items.{is_char_in, items, items_of};
ghost use Rattle.wt_expand.specs.Texts.{is_space, without_front, trimmed_items};
ghost use Rattle.wt_transclusion.specs.Ends.{without_back, is_chars, BeginsAscii, IsLeft};

use crate::blanks::{back_end, front_len};
use std::alloc::Global;
use wt_span::{ItemForm, List, NoMemory, Piece, front_of, rest_of};

/// Whether a piece is characters.
pub fn is_chars(form: ItemForm) -> bool
    ensures { result ≡ is_chars form }
{
    matches!(form, ItemForm::Chars)
}

/// What is left of a piece without the blanks and line breaks at its start.
fn without_front(piece: Piece<'_>) -> Option<Piece<'_>>
    ensures { IsLeft (without_front (is_char_in is_space)) piece.entry result }
{
    if !is_chars(piece.form) {
        return Some(piece);
    }
    let text = piece.text.as_str();
    let from = front_len(text.as_bytes());
    if from == text.len() {
        return None;
    }
    let (_, rest) = piece.text.split_at(piece.text.range().start + from as u32);
    Some(Piece {
        text: rest,
        form: piece.form,
        origin: piece.origin,
    })
}

/// What is left of a piece without the blanks and line breaks at its end.
fn without_back(piece: Piece<'_>) -> Option<Piece<'_>>
    ensures { IsLeft (without_back (is_char_in is_space)) piece.entry result }
{
    if !is_chars(piece.form) {
        return Some(piece);
    }
    let to = back_end(piece.text.as_str().as_bytes());
    if to == 0 {
        return None;
    }
    let (front, _) = piece.text.split_at(piece.text.range().start + to as u32);
    Some(Piece {
        text: front,
        form: piece.form,
        origin: piece.origin,
    })
}

/// A piece and then others.
fn with_first<'a>(
    alloc: Global,
    first: Piece<'a>,
    rest: &[Piece<'a>],
) -> Result<List<Piece<'a>>, NoMemory>
    ensures { IfOk result (λ ps. ps ≡ first.entry ∷ rest.now) }
{
    let mut pieces = List::new(alloc);
    pieces.push(first)?;
    pieces.extend_from_slice(rest)?;
    Ok(pieces)
}

/// Pieces and then one more.
fn with_last<'a>(
    alloc: Global,
    front: &[Piece<'a>],
    last: Piece<'a>,
) -> Result<List<Piece<'a>>, NoMemory>
    ensures { IfOk result (λ ps. ps ≡ front.now ++ last.entry ∷ []) }
{
    let mut pieces = List::new(alloc);
    pieces.extend_from_slice(front)?;
    pieces.push(last)?;
    Ok(pieces)
}

/// Pieces without the blanks and line breaks at their start.
fn all_without_front<'a>(alloc: Global, pieces: &[Piece<'a>]) -> Result<List<Piece<'a>>, NoMemory>
    ensures { IfOk result (λ ps. items ps ≡ without_front (is_char_in is_space) (items pieces.now)) }
{
    for (i, piece) in pieces.iter().enumerate() {
        if let Some(first) = without_front(*piece) {
            return with_first(alloc, first, rest_of(pieces, i + 1));
        }
    }
    Ok(List::new(alloc))
}

/// Pieces without the blanks and line breaks at their end.
fn all_without_back<'a>(alloc: Global, pieces: &[Piece<'a>]) -> Result<List<Piece<'a>>, NoMemory>
    ensures { IfOk result (λ ps. items ps ≡ without_back (is_char_in is_space) (items pieces.now)) }
{
    let mut end = pieces.len();
    while end > 0 {
        if let Some(last) = without_back(pieces[end - 1]) {
            return with_last(alloc, front_of(pieces, end - 1), last);
        }
        end -= 1;
    }
    Ok(List::new(alloc))
}

/// A value that has a name: without the blanks and line breaks at both its ends. What lies inside of
/// an atom or a mark stays.
#[tactic(auto, unfolding(wt_expand::specs::Texts::trimmed_items))]
pub fn trimmed_items<'a>(alloc: Global, pieces: &[Piece<'a>]) -> Result<List<Piece<'a>>, NoMemory>
    ensures { IfOk result (λ ps. items ps ≡ trimmed_items (items pieces.now)) }
{
    let rest = all_without_front(alloc, pieces)?;
    all_without_back(alloc, rest.as_slice())
}

/// How many items a piece is: each byte of characters is one.
fn item_count(piece: Piece<'_>) -> usize
    ensures { result ≡ length (items_of piece.entry) }
{
    if is_chars(piece.form) {
        piece.text.as_str().len()
    } else {
        1
    }
}

/// A piece after its first items, of which it has more. It stays whole where that would cut a character,
/// and so never behind ASCII.
fn behind_bytes(piece: Piece<'_>, count: usize) -> Piece<'_>
    requires { count < length (items_of piece) }
    ensures { BeginsAscii count (items_of piece.entry) → items_of result ≡ drop count (items_of piece.entry) }
{
    if count == 0 {
        return piece;
    }
    let text = piece.text.as_str();
    if !text.is_char_boundary(count) {
        return piece;
    }
    let (_, rest) = piece.text.split_at(piece.text.range().start + count as u32);
    Piece {
        text: rest,
        form: piece.form,
        origin: piece.origin,
    }
}

/// Pieces after their first items, which are ASCII characters.
pub fn behind_items<'a>(
    alloc: Global,
    pieces: &[Piece<'a>],
    count: u32,
) -> Result<List<Piece<'a>>, NoMemory>
    ensures { IfOk result (λ ps. BeginsAscii count (items pieces.now) → items ps ≡ drop count (items pieces.now)) }
{
    let mut left = count as usize;
    for (i, piece) in pieces.iter().enumerate() {
        let len = item_count(*piece);
        if left < len {
            let first = behind_bytes(*piece, left);
            return with_first(alloc, first, rest_of(pieces, i + 1));
        }
        left -= len;
    }
    Ok(List::new(alloc))
}
