//! What is on the page for pieces: a call's own source once, where its first item is.

ghost use Rattle.std.specs.Prelude.{◌≡◌, ◌^◌, ◌<◌, ◌++◌, length, slice_get, IfOk, OnOk};
ghost use Rattle.wt_span.specs.Cuts.{source_of_call};
ghost use Rattle.wt_span.specs.Items.{items, items_of};
ghost use Rattle.wt_tree.specs.View.{texts_of};
ghost use Rattle.wt_annotated.specs.Pieces.{bytes_if_any, outer_calls};
ghost use Rattle.wt_annotated.specs.Progress.{outset, past};
ghost use Rattle.wt_annotated.specs.Seams.{text_from};

use crate::seam::{call_of, is_hollow, is_parted, last_of_piece};
use std::alloc::Global;
use wt_inline::with_room;
use wt_span::{List, NoMemory, Outer, Piece, Text};
use wt_tree::Slices;

/// How far a walk over pieces has come: the call of the last item, and how many bytes of the page
/// stand for what was read.
#[derive(Clone, Copy)]
pub struct Progress {
    pub last: Option<u32>,
    pub width: u32,
}

/// The source of an outermost call; none where there is no such call.
fn call_source<'a>(calls: &[Outer<'a>], call: u32) -> Option<Text<'a>>
    ensures { bytes_if_any result ≡ source_of_call (slice_get (outer_calls calls.now) call) }
{
    match calls.get(call as usize) {
        Some(outer) => Some(outer.source),
        None => None,
    }
}

/// What is on the page for the items of a piece, after an item of the call `before`.
#[tactic(auto, using(crate::proofs::PieceWalks::text_piece))]
fn page_text<'a>(calls: &[Outer<'a>], before: Option<u32>, piece: Piece<'a>) -> Option<Text<'a>>
    ensures { bytes_if_any result ≡ text_from (outer_calls calls.now) before (items_of piece.entry) }
{
    let call = call_of(piece.origin);
    if is_hollow(piece) || !is_parted(before, call) {
        return None;
    }
    match call {
        None => Some(piece.text),
        Some(call) => call_source(calls, call),
    }
}

fn text_width(text: Option<Text<'_>>) -> u32
    ensures { result ≡ length (bytes_if_any text.entry) }
{
    match text {
        Some(text) => text.as_str().len() as u32,
        None => 0,
    }
}

/// The start of a walk, after an item of the call `before`.
pub fn outset(before: Option<u32>) -> Progress
    ensures { result ≡ outset before }
{
    Progress {
        last: before,
        width: 0,
    }
}

/// How far a walk has come with another piece.
fn past_piece<'a>(calls: &[Outer<'a>], from: Progress, piece: Piece<'a>) -> Progress
    requires { (past (outer_calls calls.now) from (items_of piece)).width < 2 ^ 32 }
    ensures { result ≡ past (outer_calls calls.now) from (items_of piece.entry) }
{
    Progress {
        last: last_of_piece(from.last, piece),
        width: from.width + text_width(page_text(calls, from.last, piece)),
    }
}

/// How far a walk has come with more pieces.
pub fn past_pieces<'a>(calls: &[Outer<'a>], from: Progress, pieces: &[Piece<'a>]) -> Progress
    requires { (past (outer_calls calls.now) from (items pieces.now)).width < 2 ^ 32 }
    ensures { result ≡ past (outer_calls calls.now) from (items pieces.now) }
{
    let mut at = from;
    for piece in pieces {
        at = past_piece(calls, at, *piece);
    }
    at
}

/// How many bytes of the page stand for pieces, after an item of the call `before`.
pub fn page_width<'a>(calls: &[Outer<'a>], before: Option<u32>, pieces: &[Piece<'a>]) -> u32
    requires { length (text_from (outer_calls calls.now) before (items pieces.now)) < 2 ^ 32 }
    ensures { result ≡ length (text_from (outer_calls calls.now) before (items pieces.now)) }
{
    past_pieces(calls, outset(before), pieces).width
}

fn push_text<'a>(texts: &mut List<Text<'a>>, text: Option<Text<'a>>) -> Result<(), NoMemory>
    ensures { OnOk result (texts_of texts.new ≡ texts_of texts.old ++ bytes_if_any text.entry) }
{
    if let Some(text) = text {
        texts.push(text)?;
    }
    Ok(())
}

/// The one text, or none.
fn one_or_none<'a>(text: Option<Text<'a>>) -> Slices<'a>
    ensures { texts_of result ≡ bytes_if_any text.entry }
{
    match text {
        None => Slices::none(),
        Some(text) => Slices::one(text),
    }
}

/// What is on the page for pieces, in a list.
fn listed_texts<'a>(
    alloc: Global,
    calls: &[Outer<'a>],
    before: Option<u32>,
    pieces: &[Piece<'a>],
) -> Result<List<Text<'a>>, NoMemory>
    ensures { IfOk result (λ l. texts_of l ≡ text_from (outer_calls calls.now) before (items pieces.now)) }
{
    let mut texts = with_room(alloc, pieces.len())?;
    let mut last = before;
    for piece in pieces {
        push_text(&mut texts, page_text(calls, last, *piece))?;
        last = last_of_piece(last, *piece);
    }
    Ok(texts)
}

/// What is on the page for pieces, after an item of the call `before`.
pub fn page_texts<'a>(
    alloc: Global,
    calls: &[Outer<'a>],
    before: Option<u32>,
    pieces: &[Piece<'a>],
) -> Result<Slices<'a>, NoMemory>
    ensures { IfOk result (λ l. texts_of l ≡ text_from (outer_calls calls.now) before (items pieces.now)) }
{
    match pieces {
        [] => Ok(Slices::none()),
        [piece] => Ok(one_or_none(page_text(calls, before, *piece))),
        _ => {
            let texts = listed_texts(alloc, calls, before, pieces)?;
            Ok(Slices::of_list(texts))
        }
    }
}
