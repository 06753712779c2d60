//! Tiles: what each is, and its pieces.

ghost use Rattle.std.specs.Prelude.{◌≡◌, ◌<◌, ◌≤◌, ◌+◌, ◌-◌, ◌^◌, ◌++◌, true, length, map, take, drop, slice_get, All, IfOk, IfSome, OnOk, MatchOption, [], ◌∷◌};
ghost use Rattle.std.specs.Str.{IsCharBoundary};
ghost use Rattle.wt_span.specs.Slice.{bytes_of};
ghost use Rattle.wt_span.specs.Items.{items, items_of};
ghost use Rattle.wt_span.specs.Origins.{IsSoundPiece};
ghost use Rattle.wt_lines.specs.Pieces.{line_items, item_count, begins_char};
ghost use Rattle.wt_tiles.specs.Glyphs.{glyph_of, glyph_of_form, byte_glyphs};
ghost use Rattle.wt_tiles.specs.Tiles.{tiles, parts, size};
ghost use Rattle.wt_tiles.specs.Contexts.{in_line};
ghost use Rattle.wt_tiles.specs.Cutting.{tile_of, tile_items, AreSoundTiles, rest_pieces, IsEdgeIn, AreCuts};

use crate::context::Context;
use crate::glyph::Glyph;
use crate::read::shapes;
use crate::shape::{Shape, TileKind};
use std::alloc::Global;
use wt_lines::{Line, chars_piece, is_chars, item_count};
use wt_span::{ItemForm, List, NoMemory, Piece};

/// A part of a context: a form, or the characters between two. Its parts are counted in items: a byte
/// of a character is an item, and so is any other form.
#[derive(Debug, Drop)]
pub struct Tile<'a> {
    pub kind: TileKind,
    /// What the tile was cut from, in order.
    pub pieces: List<Piece<'a>>,
    /// How many items the opening delimiter takes; of a leaf all.
    pub opening: usize,
    /// How many are between the delimiters; of a bare URL and of characters all.
    pub inside: usize,
    /// How many the closing delimiter takes.
    pub closing: usize,
    /// How many letters after a link's `]]` join it.
    pub trail: usize,
}

fn glyph_of_form(form: ItemForm) -> Glyph
    ensures { result ≡ glyph_of_form form }
{
    match form {
        ItemForm::Entity(character) => Glyph::Entity(character),
        ItemForm::Chars | ItemForm::Nowiki | ItemForm::Extension | ItemForm::Function =>
            Glyph::Atom,
        ItemForm::Comment | ItemForm::Include | ItemForm::Hidden | ItemForm::EmptyCall =>
            Glyph::Mark,
    }
}

fn push_bytes(out: &mut List<Glyph>, bytes: &[u8]) -> Result<(), NoMemory>
    ensures { OnOk result (out.new ≡ out.old ++ byte_glyphs bytes.now) }
{
    for byte in bytes {
        out.push(Glyph::Byte(*byte))?;
    }
    Ok(())
}

/// Appends the items of a piece, as inline forms read them.
fn push_piece(out: &mut List<Glyph>, piece: &Piece<'_>) -> Result<(), NoMemory>
    ensures { OnOk result (out.new ≡ out.old ++ map glyph_of (items_of piece.now)) }
{
    if is_chars(piece.form) {
        push_bytes(out, piece.text.as_str().as_bytes())
    } else {
        out.push(glyph_of_form(piece.form))
    }
}

/// The items of pieces, as inline forms read them.
pub fn glyphs_of(alloc: Global, pieces: &[Piece<'_>]) -> Result<List<Glyph>, NoMemory>
    ensures { IfOk result (λ gs. gs ≡ map glyph_of (items pieces.now)) }
{
    let mut out = List::new(alloc);
    for piece in pieces {
        push_piece(&mut out, piece)?;
    }
    Ok(out)
}

/// Pieces that are taken from the front: what is left of one, and those after it.
#[derive(Clone, Copy, Debug)]
pub struct Rest<'p, 'a> {
    first: Option<Piece<'a>>,
    pieces: &'p [Piece<'a>],
}

impl<'p, 'a> Rest<'p, 'a> {
    /// All of these pieces.
    pub fn of(pieces: &'p [Piece<'a>]) -> Rest<'p, 'a>
        ensures { rest_pieces result ≡ pieces.entry.now }
    {
        Rest {
            first: None,
            pieces,
        }
    }

    /// The next piece, and those after it.
    pub fn split_first(self) -> Option<(Piece<'a>, &'p [Piece<'a>])>
        requires { All IsSoundPiece (rest_pieces self) }
        ensures value { MatchOption result (rest_pieces self.entry ≡ []) (λ r. rest_pieces self.entry ≡ r.0 ∷ r.1.now) }
        ensures sound { IfSome result (λ r. IsSoundPiece r.0 × All IsSoundPiece r.1.now) }
    {
        if let Some(piece) = self.first {
            return Some((piece, self.pieces));
        }
        let (piece, pieces) = self.pieces.split_first()?;
        Some((*piece, pieces))
    }

    /// All pieces that are left.
    pub fn all(self, alloc: Global) -> Result<List<Piece<'a>>, NoMemory>
        ensures { IfOk result (λ ps. ps ≡ rest_pieces self.entry) }
    {
        let mut all = List::new(alloc);
        if let Some(piece) = self.first {
            all.push_tight(piece)?;
        }
        all.extend_from_slice(self.pieces)?;
        Ok(all)
    }
}

/// A piece of characters whose first n bytes end here, as two.
fn cut_piece<'a>(piece: Piece<'a>, n: usize) -> (Piece<'a>, Piece<'a>)
    requires sound { IsSoundPiece piece }
    requires some { 0 < n }
    requires within { n < item_count piece }
    requires edge { IsEdgeIn (items_of piece) n }
    ensures front { items_of result.0 ≡ take n (items_of piece.entry) }
    ensures back { items_of result.1 ≡ drop n (items_of piece.entry) }
    ensures sound_front { IsSoundPiece result.0 }
    ensures sound_back { IsSoundPiece result.1 }
{
    let _text = piece.text.as_str();
    let (front, back) = piece.text.split_at(piece.text.range().start + n as u32);
    (
        chars_piece(front, piece.origin),
        chars_piece(back, piece.origin),
    )
}

/// Takes the first n items of a piece and those after it, as far as the piece goes: how many are
/// still to be taken, and what is left.
pub fn take_piece<'p, 'a>(
    taken: &mut List<Piece<'a>>,
    piece: Piece<'a>,
    pieces: &'p [Piece<'a>],
    n: usize,
) -> Result<(usize, Rest<'p, 'a>), NoMemory>
    requires sound { IsSoundPiece piece }
    requires sound_pieces { All IsSoundPiece pieces.now }
    requires sound_taken { All IsSoundPiece taken.old }
    requires some { 0 < n }
    requires edge { n < item_count piece → IsEdgeIn (items_of piece) n }
    ensures left { IfOk result (λ r. r.0 ≡ n - item_count piece.entry) }
    ensures front { OnOk result (items taken.new ≡ items taken.old ++ take n (items_of piece.entry)) }
    ensures back { IfOk result (λ r. items (rest_pieces r.1) ≡ drop n (items_of piece.entry) ++ items pieces.entry.now) }
    ensures sound_front { OnOk result (All IsSoundPiece taken.new) }
    ensures sound_back { IfOk result (λ r. All IsSoundPiece (rest_pieces r.1)) }
{
    let count = item_count(&piece);
    if count <= n {
        taken.push_tight(piece)?;
        return Ok((
            n - count,
            Rest {
                first: None,
                pieces,
            },
        ));
    }
    let cut = cut_piece(piece, n);
    taken.push_tight(cut.0)?;
    Ok((
        0,
        Rest {
            first: Some(cut.1),
            pieces,
        },
    ))
}

/// Takes n items from the front: their pieces, and what is left. No character may lie on both sides
/// of the cut.
pub fn take_items<'p, 'a>(
    alloc: Global,
    pieces: Rest<'p, 'a>,
    n: usize,
) -> Result<(List<Piece<'a>>, Rest<'p, 'a>), NoMemory>
    requires sound { All IsSoundPiece (rest_pieces pieces) }
    requires edge { IsEdgeIn (items (rest_pieces pieces)) n }
    ensures front { IfOk result (λ r. items r.0 ≡ take n (items (rest_pieces pieces.entry))) }
    ensures back { IfOk result (λ r. items (rest_pieces r.1) ≡ drop n (items (rest_pieces pieces.entry))) }
    ensures sound_front { IfOk result (λ r. All IsSoundPiece r.0) }
    ensures sound_back { IfOk result (λ r. All IsSoundPiece (rest_pieces r.1)) }
{
    let mut taken = List::new(alloc);
    let mut rest = pieces;
    let mut left = n;
    while left > 0 {
        let Some((piece, after)) = rest.split_first() else {
            return Ok((taken, rest));
        };
        let next = take_piece(&mut taken, piece, after, left)?;
        left = next.0;
        rest = next.1;
    }
    Ok((taken, rest))
}

impl<'a> Tile<'a> {
    /// A tile of this shape with its pieces.
    fn of(shape: &Shape, pieces: List<Piece<'a>>) -> Tile<'a>
        ensures value { tile_of result ≡ (shape.now, items pieces.entry) }
        ensures pieces_are { result.pieces ≡ pieces.entry }
    {
        Tile {
            kind: shape.kind,
            pieces,
            opening: shape.opening,
            inside: shape.inside,
            closing: shape.closing,
            trail: shape.trail,
        }
    }
}

/// The pieces, cut into tiles of these shapes.
fn cut<'a>(
    alloc: Global,
    pieces: &[Piece<'a>],
    shapes: &[Shape],
) -> Result<List<Tile<'a>>, NoMemory>
    requires sound { All IsSoundPiece pieces.now }
    requires cuts { AreCuts shapes.now (map glyph_of (items pieces.now)) }
    requires sizes { All (λ w. size w < 2 ^ 64) shapes.now }
    ensures value { IfOk result (λ ts. map tile_of ts ≡ parts shapes.now (items pieces.now)) }
    ensures sound_after { IfOk result (λ ts. AreSoundTiles ts) }
{
    let mut out = List::new(alloc);
    let mut rest = Rest {
        first: None,
        pieces,
    };
    for shape in shapes {
        let (taken, after) = take_items(alloc, rest, shape.len())?;
        out.push(Tile::of(shape, taken))?;
        rest = after;
    }
    Ok(out)
}

/// The tiles of a context, in order: at each place the first form that begins there, else a
/// character; characters that follow one another are one tile. Joined they are the pieces.
pub fn tiles_in<'a>(
    alloc: Global,
    context: Context,
    pieces: &[Piece<'a>],
) -> Result<List<Tile<'a>>, NoMemory>
    requires { All IsSoundPiece pieces.now }
    ensures value { IfOk result (λ ts. map tile_of ts ≡ tiles context (items pieces.now)) }
    ensures joined { IfOk result (λ ts. tile_items ts ≡ items pieces.now) }
    ensures sound { IfOk result (λ ts. AreSoundTiles ts) }
{
    let glyphs = glyphs_of(alloc, pieces)?;
    let shapes = shapes(alloc, context, glyphs.as_slice())?;
    cut(alloc, pieces, shapes.as_slice())
}

/// The tiles of a line, or of a cell.
pub fn tiles<'a>(alloc: Global, line: &Line<'a>) -> Result<List<Tile<'a>>, NoMemory>
    requires { All IsSoundPiece line.now.pieces }
    ensures value { IfOk result (λ ts. map tile_of ts ≡ tiles in_line (line_items line.now)) }
    ensures joined { IfOk result (λ ts. tile_items ts ≡ line_items line.now) }
    ensures sound { IfOk result (λ ts. AreSoundTiles ts) }
{
    tiles_in(alloc, Context::line(), line.pieces.as_slice())
}
