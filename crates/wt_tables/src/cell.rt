//! The cells of a line.

ghost use Rattle.std.specs.Prelude.{◌≡◌, ◌≤◌, ◌+◌, All, IfOk, true, length, map, take, drop, codes};
ghost use Rattle.std.specs.List.{list_all, flat_map};
ghost use Rattle.wt_span.specs.Items.{sign, items};
ghost use Rattle.wt_span.specs.Origins.{IsSoundPiece};
ghost use Rattle.wt_tree.specs.View.{attrs_of};
ghost use Rattle.wt_lines.specs.Pieces.{line_items};
ghost use Rattle.wt_tables.specs.Cells.{is_text_form, is_text, is_plain, bar_at, past_bar, attributes_by, cell_of, cells, cells_in, parts, sign_len, split_by, header_by, from_sign, begins_cell};
ghost use Rattle.wt_tables.specs.Views.{numbers, waiting, AreSound, IsLowCut, HasSign};
ghost use Rattle.wt_tables.specs.CellViews.{cell_view, IsSoundCell, whole_cell};

use crate::cursor::Cursor;
use crate::scan::{Splits, begins_one, blanks_from, has_link, idle_len, signs_of, single_at};
use std::alloc::Global;
use wt_attributes::read_attributes;
use wt_lines::{Line, LineSign};
use wt_span::{ItemForm, List, NoMemory, Piece, front_of, rest_of};
use wt_tree::Attr;

/// A cell of a line, or a caption. `opening` is its open delimiter: its sign, its attributes with
/// their `|`, and the blanks after. `rest` is what is left of it, its inline content.
#[derive(Debug, Drop)]
pub struct CellAt<'a> {
    pub header: bool,
    pub opening: List<Piece<'a>>,
    pub attrs: List<Attr>,
    pub rest: Line<'a>,
}

/// A character, an entity or a mark.
fn is_text(form: ItemForm) -> bool
    ensures { result ≡ is_text_form form }
{
    match form {
        ItemForm::Chars
        | ItemForm::Entity(_)
        | ItemForm::Comment
        | ItemForm::Include
        | ItemForm::Hidden
        | ItemForm::EmptyCall => true,
        ItemForm::Nowiki | ItemForm::Extension | ItemForm::Function => false,
    }
}

fn are_texts(pieces: &[Piece<'_>]) -> bool
    ensures { result ≡ list_all is_text (items pieces.now) }
{
    for piece in pieces {
        if !is_text(piece.form) {
            return false;
        }
    }
    true
}

/// What may come before the `|` of attributes.
fn is_plain(pieces: &[Piece<'_>], signs: &[LineSign]) -> bool
    requires { numbers signs.now ≡ map sign (items pieces.now) }
    ensures { result ≡ is_plain (items pieces.now) }
{
    are_texts(pieces) && !has_link(signs)
}

/// The `len` items after a sign of `n` items.
fn behind_sign<'a>(
    alloc: Global,
    n: usize,
    len: usize,
    part: &[Piece<'a>],
) -> Result<List<Piece<'a>>, NoMemory>
    requires sound { All IsSoundPiece part.now }
    requires sign { IsLowCut n (items part.now) }
    requires low { IsLowCut len (drop n (items part.now)) }
    ensures items { IfOk result (λ l. items l ≡ take len (drop n (items part.now))) }
{
    let inside = Cursor::of(part).skip(n);
    let (front, _rest) = inside.take(alloc, len)?;
    Ok(front)
}

/// How many items there are up to and with the `|` that ends the attributes of a cell, whose sign has
/// `n` items; the sign alone where it has no attributes. And the attributes.
fn read_attrs(
    alloc: Global,
    n: usize,
    part: &[Piece<'_>],
    signs: &[LineSign],
) -> Result<(usize, List<Attr>), NoMemory>
    requires sound { All IsSoundPiece part.now }
    requires signs_are { numbers signs.now ≡ map sign (items part.now) }
    requires sign { HasSign n (numbers signs.now) }
    ensures len { IfOk result (λ r. r.0 ≡ n + past_bar (bar_at (drop n (items part.now)))) }
    ensures attrs { IfOk result (λ r. attrs_of r.1 ≡ attributes_by (bar_at (drop n (items part.now))) (drop n (items part.now))) }
    ensures within { IfOk result (λ r. r.0 ≤ length signs.now) }
{
    let body = rest_of(signs, n);
    let len = single_at(body);
    if len == body.len() {
        return Ok((n, List::new(alloc)));
    }
    let front = behind_sign(alloc, n, len, part)?;
    if !is_plain(front.as_slice(), front_of(body, len)) {
        return Ok((n, List::new(alloc)));
    }
    let attrs = read_attributes(alloc, front.as_slice())?;
    Ok((signs.len() - (body.len() - len - 1), attrs))
}

/// The cell that these items are, of which the first `n` are its sign.
#[tactic(auto, unfolding(crate::specs::Cells::cell_of))]
fn read_cell<'a>(
    alloc: Global,
    header: bool,
    n: usize,
    part: &[Piece<'a>],
    signs: &[LineSign],
) -> Result<CellAt<'a>, NoMemory>
    requires sound { All IsSoundPiece part.now }
    requires signs_are { numbers signs.now ≡ map sign (items part.now) }
    requires sign { HasSign n (numbers signs.now) }
    ensures value { IfOk result (λ c. cell_view c ≡ cell_of header n (items part.now)) }
    ensures sound_cell { IfOk result IsSoundCell }
{
    let (from, attrs) = read_attrs(alloc, n, part, signs)?;
    let (opening, rest) = Cursor::of(part).take(alloc, blanks_from(from, signs))?;
    let pieces = rest.all(alloc)?;
    Ok(CellAt {
        header,
        opening,
        attrs,
        rest: Line { pieces },
    })
}

/// The cells of the items that are left, the first of which has a sign of `n` items.
fn read_cells<'a>(
    alloc: Global,
    by: Splits,
    header: bool,
    n: usize,
    cursor: Cursor<'_, 'a>,
    signs: &[LineSign],
) -> Result<List<CellAt<'a>>, NoMemory>
    requires sound { AreSound cursor }
    requires signs_are { numbers signs.now ≡ map sign (waiting cursor) }
    requires sign { HasSign n (numbers signs.now) }
    ensures value { IfOk result (λ cs. map cell_view cs ≡ cells_in header n (parts by n (waiting cursor.entry))) }
    ensures sound_cells { IfOk result (λ cs. All IsSoundCell cs) }
{
    let mut cells = List::new(alloc);
    let mut left = cursor;
    let mut at = 0;
    let mut sign_len = n;
    while at < signs.len() {
        let rest = rest_of(signs, at);
        let len = by.first_len(sign_len, rest);
        let (part, after) = left.take(alloc, len)?;
        let cell = read_cell(
            alloc,
            header,
            sign_len,
            part.as_slice(),
            front_of(rest, len),
        )?;
        cells.push(cell)?;
        left = after;
        at += len;
        sign_len = 2;
    }
    Ok(cells)
}

/// What splits a line that begins with these signs, whether its cells are header cells, and how many
/// items its first sign has.
fn mode(caption: bool, signs: &[LineSign]) -> (Splits, bool, usize)
    ensures by { result.0 ≡ split_by caption (numbers signs.now) }
    ensures header { result.1 ≡ header_by caption (numbers signs.now) }
    ensures len { result.2 ≡ sign_len caption }
{
    if caption {
        (Splits::Nothing, false, 2)
    } else if begins_one(signs, b'!') {
        (Splits::Headers, true, 1)
    } else {
        (Splits::Cells, false, 1)
    }
}

/// The cells of a line of a table, from its first sign on: the blanks and marks before that aren't
/// handed on. It asks for a line that begins with `|` or `!` after these, as lines of cells, header
/// cells and captions do. Where `caption` is true it asks for `|+`, and the line is read as one
/// caption with this sign; else a line with `|+` is a cell whose text begins with `+`.
///
/// `||` begins a further cell wherever it is, and `!!` does in a line that begins with `!`. A
/// single `|` ends attributes if characters, entities and marks alone come before it in the cell,
/// without `[[`. The rules are those of MediaWiki's table pass, in the profile's form.
#[tactic(auto, unfolding(crate::specs::Cells::cells))]
pub fn cells<'a>(alloc: Global, line: Line<'a>, caption: bool) -> Result<List<CellAt<'a>>, NoMemory>
    requires sound { All IsSoundPiece line.pieces }
    requires sign { begins_cell caption (line_items line) ≡ true }
    ensures value { IfOk result (λ cs. map cell_view cs ≡ cells caption (line_items line.entry)) }
    ensures joined { IfOk result (λ cs. flat_map whole_cell cs ≡ from_sign (line_items line.entry)) }
    ensures sound_cells { IfOk result (λ cs. All IsSoundCell cs) }
{
    let signs = signs_of(alloc, line.pieces.as_slice())?;
    let lead = idle_len(signs.as_slice());
    let rest = rest_of(signs.as_slice(), lead);
    let (by, header, n) = mode(caption, rest);
    let cursor = Cursor::of(line.pieces.as_slice()).skip(lead);
    let cells = read_cells(alloc, by, header, n, cursor, rest)?;
    Ok(cells)
}
