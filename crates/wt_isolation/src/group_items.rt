//! The pieces of the page that are in a slice of it, and the slice as it is read by itself.

ghost use Rattle.std.specs.Prelude.{◌≡◌, ◌<◌, ◌≤◌, ◌^◌, ◌++◌, ◌∷◌, [], true, false, All, IfOk, OnOk, MatchOption, Some, None, length, map, drop, slice_get, IsCharBoundary};
ghost use Rattle.std.specs.List.{prefix_len};
ghost use Rattle.wt_span.specs.Cuts.{page_of};
ghost use Rattle.wt_span.specs.Slice.{bytes_of};
ghost use Rattle.wt_span.specs.Items.{char, call_of_origin, items, items_of, sources};
ghost use Rattle.wt_span.specs.Origins.{IsAmong, IsSoundPiece, outer_call, same_call, span_of};
ghost use Rattle.wt_span.specs.Characters as byte;
ghost use Rattle.wt_lines.specs.Signs.{left, number};
ghost use Rattle.wt_expand.specs.Expansion.{is_block_sign, opens_block};
ghost use Rattle.wt_isolation.specs.GroupItems.{break_before, empty_nowiki, is_template, items_alone, lies_in, needs_break, with_break_anew};
ghost use Rattle.wt_isolation.specs.PieceParts.{AreOrderly, IsCutWhole, IsPieceCutWhole, IsPieceOf, bytes_in, begins_with_bar, is_page_chars, part_of, parts_of, span_of_piece};

use std::alloc::Global;
use wt_lines::{LineSign, Signs, chars_piece, is_chars};
use wt_span::{ItemForm, Items, List, NoMemory, Origin, Outer, Piece, Range, Text, front_of};
use wt_tree::Ranges;

/// Where a piece is in the page: at its own bytes, or where its call does.
fn place_of(piece: &Piece<'_>, outer: &[Outer<'_>]) -> Range
    requires { IsAmong (map outer_call outer.now) piece.now.origin }
    ensures { span_of result ≡ span_of_piece (map outer_call outer.now) piece.now }
{
    match piece.origin {
        Origin::Page(range) => range,
        Origin::Call(call) => outer[call as usize].source.range(),
    }
}

fn lies_in(span: Range, ranges: Ranges) -> bool
    ensures { result ≡ lies_in ranges (span_of span) }
{
    ranges.start <= span.start && span.end <= ranges.end
}

/// What is of a text in a slice of the page, where anything is. The slice's ends lie between its characters.
fn text_in<'a>(text: Text<'a>, ranges: Ranges) -> Option<Text<'a>>
    requires { IsCutWhole ranges text }
    ensures { MatchOption result (bytes_in ranges text.entry ≡ [])
        (λ part. (0 < length (bytes_of part)) × (bytes_of part ≡ bytes_in ranges text.entry)) }
{
    let range = text.range();
    let start = range.start.max(ranges.start);
    let end = range.end.min(ranges.end);
    if start >= end {
        return None;
    }
    let all = text.as_str();
    let part = &all[(start - range.start) as usize..(end - range.start) as usize];
    Some(Text::new(part, start))
}

fn is_page_chars(piece: &Piece<'_>) -> bool
    ensures { result ≡ is_page_chars piece.now }
{
    match piece.origin {
        Origin::Page(_) => is_chars(piece.form),
        Origin::Call(_) => false,
    }
}

/// What is of the page's characters in a slice.
fn chars_part<'a>(piece: &Piece<'a>, ranges: Ranges) -> Option<Piece<'a>>
    requires chars { is_page_chars piece.now ≡ true }
    requires whole { IsCutWhole ranges piece.now.text }
    ensures { IsPieceOf (map (char None) (bytes_in ranges piece.now.text)) result }
{
    let text = text_in(piece.text, ranges)?;
    Some(chars_piece(text, piece.origin))
}

/// A piece that can't be cut, where it lies in a slice.
fn whole_part<'a>(piece: &Piece<'a>, outer: &[Outer<'a>], ranges: Ranges) -> Option<Piece<'a>>
    requires sound { IsSoundPiece piece.now }
    requires named { IsAmong (map outer_call outer.now) piece.now.origin }
    requires uncut { is_page_chars piece.now ≡ false }
    ensures { IsPieceOf (part_of (map outer_call outer.now) ranges piece.now) result }
{
    if lies_in(place_of(piece, outer), ranges) {
        return Some(*piece);
    }
    None
}

/// What lies of a piece in a slice.
fn part_of<'a>(piece: &Piece<'a>, outer: &[Outer<'a>], ranges: Ranges) -> Option<Piece<'a>>
    requires sound { IsSoundPiece piece.now }
    requires named { IsAmong (map outer_call outer.now) piece.now.origin }
    requires whole { IsPieceCutWhole ranges piece.now }
    ensures { IsPieceOf (part_of (map outer_call outer.now) ranges piece.now) result }
{
    if is_page_chars(piece) {
        return chars_part(piece, ranges);
    }
    whole_part(piece, outer, ranges)
}

fn push_part<'a>(
    found: &mut List<Piece<'a>>,
    piece: &Piece<'a>,
    outer: &[Outer<'a>],
    ranges: Ranges,
) -> Result<(), NoMemory>
    requires sound { IsSoundPiece piece.now }
    requires named { IsAmong (map outer_call outer.now) piece.now.origin }
    requires whole { IsPieceCutWhole ranges piece.now }
    requires sound_before { All IsSoundPiece found.old }
    ensures items { OnOk result (items found.new ≡ items found.old ++ part_of (map outer_call outer.now) ranges piece.now) }
    ensures sound_after { OnOk result (All IsSoundPiece found.new) }
{
    if let Some(part) = part_of(piece, outer, ranges) {
        found.push(part)?;
    }
    Ok(())
}

/// A number of pieces at the front of which nothing lies in a slice: those that end before it.
#[tactic(auto, using(crate::proofs::SlicedPieces::nothing_before, crate::proofs::SlicedPieces::named_at))]
fn first_piece(pieces: &[Piece<'_>], outer: &[Outer<'_>], ranges: Ranges) -> usize
    requires { AreOrderly (map outer_call outer.now) pieces.now }
    ensures within { result ≤ length pieces.now }
    ensures parts { parts_of (map outer_call outer.now) ranges (drop result pieces.now) ≡ parts_of (map outer_call outer.now) ranges pieces.now }
{
    let mut low = 0;
    let mut high = pieces.len();
    while low < high {
        let middle = low + (high - low) / 2;
        if place_of(&pieces[middle], outer).end < ranges.start {
            low = middle + 1;
        } else {
            high = middle;
        }
    }
    low
}

/// The pieces of the page that lie in a slice of it.
#[tactic(auto, using(crate::proofs::SlicedPieces::nothing_after, crate::proofs::SlicedPieces::named_at, crate::proofs::SlicedPieces::sound_at))]
fn pieces_in<'a>(
    alloc: Global,
    pieces: &[Piece<'a>],
    outer: &[Outer<'a>],
    ranges: Ranges,
) -> Result<List<Piece<'a>>, NoMemory>
    requires orderly { AreOrderly (map outer_call outer.now) pieces.now }
    requires whole { All (IsPieceCutWhole ranges) pieces.now }
    ensures items { IfOk result (λ ps. items ps ≡ parts_of (map outer_call outer.now) ranges pieces.now) }
    ensures sound { IfOk result (λ ps. All IsSoundPiece ps) }
{
    let mut found = List::new(alloc);
    let first = first_piece(pieces, outer, ranges);
    for at in first..pieces.len() {
        let piece = &pieces[at];
        if place_of(piece, outer).start > ranges.end {
            return Ok(found);
        }
        push_part(&mut found, piece, outer, ranges)?;
    }
    Ok(found)
}

fn is_block_sign(sign: LineSign) -> bool
    ensures { result ≡ is_block_sign (number sign) }
{
    sign.is_byte(b'*') || sign.is_byte(b'#') || sign.is_byte(b':') || sign.is_byte(b';')
}

fn begins_with_bar(signs: Signs<'_, '_>) -> bool
    ensures { result ≡ begins_with_bar (left signs.entry) }
{
    match signs.split_first() {
        Some((sign, _)) => sign.is_byte(b'|'),
        None => false,
    }
}

/// Whether what is first only counts at the start of a line.
#[tactic(auto, using(crate::proofs::SlicedBreaks::opens_by_signs))]
fn opens_block(pieces: &[Piece<'_>]) -> bool
    ensures { result ≡ opens_block (items pieces.now) }
{
    match Signs::of(pieces).split_first() {
        Some((sign, rest)) => is_block_sign(sign) || sign.is_byte(b'{') && begins_with_bar(rest),
        None => false,
    }
}

/// Whether a piece comes from a call.
fn is_of_call(piece: &Piece<'_>, call: u32) -> bool
    ensures { result ≡ same_call (Some call) (call_of_origin piece.now.origin) }
{
    match piece.origin {
        Origin::Page(_) => false,
        Origin::Call(own) => call == own,
    }
}

/// How many pieces at the beginning one call gave.
fn given_len(pieces: &[Piece<'_>], call: u32) -> usize
    ensures value { result ≡ prefix_len (λ p. same_call (Some call) (call_of_origin p.origin)) pieces.now }
    ensures within { result ≤ length pieces.now }
{
    for (i, piece) in pieces.iter().enumerate() {
        if !is_of_call(piece, call) {
            return i;
        }
    }
    pieces.len()
}

fn is_template(outer: &[Outer<'_>], call: u32) -> bool
    ensures { result ≡ is_template (slice_get (map outer_call outer.now) call) }
{
    match outer.get(call as usize) {
        Some(outer) => !outer.argument,
        None => false,
    }
}

/// The call is a template, and what it gave opens a block.
fn needs_break(given: &[Piece<'_>], outer: &[Outer<'_>], call: u32) -> bool
    ensures { result ≡ needs_break (map outer_call outer.now) call (items given.now) }
{
    is_template(outer, call) && opens_block(given)
}

/// The call that pieces begin with, if its template needs a line break before what it gave.
fn broken_call(pieces: &[Piece<'_>], outer: &[Outer<'_>]) -> Option<u32>
    requires { All IsSoundPiece pieces.now }
    ensures { MatchOption result (break_before (map outer_call outer.now) (items pieces.now) ≡ [])
        (λ call. break_before (map outer_call outer.now) (items pieces.now) ≡ char (Some call) byte.line_break ∷ []) }
{
    if pieces.len() == 0 {
        return None;
    }
    let first = &pieces[0];
    match first.origin {
        Origin::Page(_) => None,
        Origin::Call(call) => {
            let given = front_of(pieces, given_len(pieces, call));
            if needs_break(given, outer, call) {
                Some(call)
            } else {
                None
            }
        }
    }
}

/// An empty `nowiki`.
fn empty_nowiki() -> Piece<'static>
    ensures items { items_of result ≡ empty_nowiki ∷ [] }
    ensures sound { IsSoundPiece result }
{
    let text = Text::new("<nowiki/>", 0);
    Piece {
        text,
        form: ItemForm::Nowiki,
        origin: Origin::Page(text.range()),
    }
}

/// Appends the line break before a call that pieces begin with, where one is needed.
fn push_break<'a>(
    out: &mut List<Piece<'a>>,
    pieces: &[Piece<'a>],
    outer: &[Outer<'a>],
) -> Result<(), NoMemory>
    requires sound { All IsSoundPiece pieces.now }
    requires sound_before { All IsSoundPiece out.old }
    ensures items { OnOk result (items out.new ≡ items out.old ++ break_before (map outer_call outer.now) (items pieces.now)) }
    ensures sound_after { OnOk result (All IsSoundPiece out.new) }
{
    if let Some(call) = broken_call(pieces, outer) {
        out.push(chars_piece(Text::new("\n", 0), Origin::Call(call)))?;
    }
    Ok(())
}

/// Pieces directly after `<nowiki/>`, with the line break before a call at their beginning.
fn behind_nowiki<'a>(
    alloc: Global,
    pieces: &[Piece<'a>],
    outer: &[Outer<'a>],
) -> Result<List<Piece<'a>>, NoMemory>
    requires { All IsSoundPiece pieces.now }
    ensures items { IfOk result (λ ps. items ps ≡ empty_nowiki ∷ with_break_anew (map outer_call outer.now) (items pieces.now)) }
    ensures sound { IfOk result (λ ps. All IsSoundPiece ps) }
{
    let mut alone = List::new(alloc);
    alone.push(empty_nowiki())?;
    push_break(&mut alone, pieces, outer)?;
    alone.extend_from_slice(pieces)?;
    Ok(alone)
}

/// The pieces of a slice of the page on a line of its own, directly after `<nowiki/>`. The line break
/// before a call at its beginning is taken anew. The slice's ends lie between the page's characters.
#[tactic(auto, using(crate::proofs::SlicedPieces::orderly))]
pub fn pieces_alone<'a>(
    alloc: Global,
    page: &Items<'a>,
    ranges: Ranges,
) -> Result<List<Piece<'a>>, NoMemory>
    requires start { IsCharBoundary (page_of page.now.outer page.now.items) ranges.start }
    requires end { IsCharBoundary (page_of page.now.outer page.now.items) ranges.end }
    ensures items { IfOk result (λ ps. items ps ≡ items_alone page.now.outer page.now.items ranges) }
    ensures few { IfOk result (λ ps. length (sources (items ps)) < 2 ^ 32) }
    ensures sound { IfOk result (λ ps. All IsSoundPiece ps) }
{
    let outer = page.outer();
    let found = pieces_in(alloc, page.pieces(), outer, ranges)?;
    behind_nowiki(alloc, found.as_slice(), outer)
}
