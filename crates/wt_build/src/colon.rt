//! Where a term ends: at the first `:` that lies in no tile.

ghost use Rattle.std.specs.Prelude.{ℕ, ◌≡◌, ◌≤◌, ◌==◌, ◌++◌, not, Bool, All, length, IfOk, OnOk};
ghost use Rattle.std.specs.List.{prefix_len, flat_map};
ghost use Rattle.wt_span.specs.Items.{items};
ghost use Rattle.wt_span.specs.Origins.{IsSoundPiece};
ghost use Rattle.wt_span.specs.Characters as byte;
ghost use Rattle.wt_lines.specs.Signs.{left, number};
ghost use Rattle.wt_tables.specs.Views.{numbers};
ghost use Rattle.wt_tiles.specs.Tiles.{tiles};
ghost use Rattle.wt_tiles.specs.Contexts.{in_line};
ghost use Rattle.wt_tiles.specs.Cutting.{tile_of};
ghost use Rattle.wt_page.specs.Lists.{is_bare, seen_signs, term_len};
ghost use Rattle.wt_build.specs.SeenSigns.{seen_by, seen_sign};

use std::alloc::Global;
use wt_lines::{LineSign, Signs};
use wt_span::{List, NoMemory, Piece};
use wt_tiles::{Context, Tile, TileKind, tiles_in};

/// Whether the characters of a tile are in no form.
fn is_bare(kind: TileKind) -> bool
    ensures { result ≡ is_bare kind }
{
    match kind {
        TileKind::Chars => true,
        TileKind::Link
        | TileKind::Category
        | TileKind::Media
        | TileKind::ExtLink
        | TileKind::BareUrl
        | TileKind::Br
        | TileKind::Pair
        | TileKind::TagIsland
        | TileKind::Switch
        | TileKind::Atom
        | TileKind::Mark => false,
    }
}

/// The sign of an item, by whether it is in no form.
fn seen_sign(bare: bool, sign: LineSign) -> LineSign
    ensures { number result ≡ seen_sign bare (number sign) }
{
    if bare { sign } else { LineSign::Atom }
}

/// Appends signs as they are, or each as the sign of an atom.
fn push_signs(out: &mut List<LineSign>, bare: bool, signs: Signs<'_, '_>) -> Result<(), NoMemory>
    ensures { OnOk result (numbers out.new ≡ numbers out.old ++ seen_by bare (left signs.entry)) }
{
    let mut rest = signs;
    while let Some((sign, after)) = rest.split_first() {
        out.push(seen_sign(bare, sign))?;
        rest = after;
    }
    Ok(())
}

/// Appends the signs of a tile; those of a form as the sign of an atom.
fn push_tile(out: &mut List<LineSign>, tile: &Tile<'_>) -> Result<(), NoMemory>
    ensures { OnOk result (numbers out.new ≡ numbers out.old ++ seen_signs (tile_of tile.now)) }
{
    push_signs(out, is_bare(tile.kind), Signs::of(tile.pieces.as_slice()))
}

/// The signs of a line; those of each form as the sign of an atom.
fn seen_signs(alloc: Global, line: &[Piece<'_>]) -> Result<List<LineSign>, NoMemory>
    requires { All IsSoundPiece line.now }
    ensures { IfOk result (λ l. numbers l ≡ flat_map seen_signs (tiles in_line (items line.now))) }
{
    let tiles = tiles_in(alloc, Context::line(), line)?;
    let mut out = List::new(alloc);
    for tile in tiles.as_slice() {
        push_tile(&mut out, tile)?;
    }
    Ok(out)
}

/// How many signs come before the first `:`.
fn colon_at(signs: &[LineSign]) -> usize
    ensures value { result ≡ prefix_len (λ s. not (s == byte.colon)) (numbers signs.now) }
    ensures within { result ≤ length signs.now }
{
    for (i, sign) in signs.iter().enumerate() {
        if sign.is_byte(b':') {
            return i;
        }
    }
    signs.len()
}

/// How many items come before the first `:` that lies in no tile, if there is one.
fn colon_len(alloc: Global, line: &[Piece<'_>]) -> Result<Option<usize>, NoMemory>
    requires { All IsSoundPiece line.now }
    ensures { IfOk result (λ o. o ≡ term_len 59 (items line.now)) }
{
    let signs = seen_signs(alloc, line)?;
    let at = colon_at(signs.as_slice());
    if at < signs.len() {
        return Ok(Some(at));
    }
    Ok(None)
}

/// How many items a term has, if it ends: after a prefix whose last sign is `;`, at the first `:`
/// that lies in no tile.
pub fn term_len(alloc: Global, sign: char, line: &[Piece<'_>]) -> Result<Option<usize>, NoMemory>
    requires { All IsSoundPiece line.now }
    ensures { IfOk result (λ o. o ≡ term_len sign (items line.now)) }
{
    if sign == ';' {
        colon_len(alloc, line)
    } else {
        Ok(None)
    }
}
