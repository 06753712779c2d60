//! What the element of a group carries: its calls, and the slices of the page between them.

ghost use Rattle.std.specs.Prelude.{◌≡◌, ◌+◌, ◌^◌, ◌<◌, ◌≤◌, ◌++◌, All, IfOk, MatchOption, None, OnOk, Some, length, slice_get};
ghost use Rattle.wt_span.specs.Items.{items, items_of};
ghost use Rattle.wt_span.specs.Origins.{IsSoundCall, outer_call};
ghost use Rattle.wt_span.specs.Slice.{bytes_of};
ghost use Rattle.wt_ranges.specs.DataSoFar.{CallFound, Continues, TextFound, begins_at};
ghost use Rattle.wt_annotated.specs.GroupData.{call_parts, group_data, literal_if_any, next_number};
ghost use Rattle.wt_annotated.specs.Pieces.{outer_calls};
ghost use Rattle.wt_annotated.specs.Seams.{text_from};
ghost use Rattle.wt_annotated.specs.Walked.{parts_from};

use std::alloc::Global;
use wt_annotated::{call_of, is_hollow, is_parted, last_of_piece};
use wt_call_data::call_part;
use wt_span::{List, NoMemory, Outer, Piece, Str, Text};
use wt_tree::{DataMw, Part};

/// What is found of a group's parts so far: those that are whole, how many calls are among them
/// without arguments, and what is since the last call; none before the first.
#[derive(Drop)]
pub struct PartsSoFar {
    pub parts: List<Part>,
    pub number: u32,
    pub since: Option<Str>,
}

/// The number of the call after this one.
fn next_number(outer: &Outer<'_>, number: u32) -> u32
    requires { next_number (Some (outer_call outer.now)) number < 2 ^ 32 }
    ensures { result ≡ next_number (Some (outer_call outer.now)) number }
{
    if outer.argument { number } else { number + 1 }
}

/// Appends the slice since the last call, if there is one and it isn't empty.
fn push_slice(parts: &mut List<Part>, since: Option<Str>) -> Result<(), NoMemory>
    ensures { OnOk result (parts.new ≡ parts.old ++ literal_if_any since) }
{
    if let Some(text) = since
        && !text.as_str().is_empty()
    {
        parts.push(Part::Literal(text))?;
    }
    Ok(())
}

/// The outermost call with this number, if it is there.
fn call_at<'a, 'b>(calls: &'b [Outer<'a>], call: u32) -> Option<&'b Outer<'a>>
    ensures { MatchOption result (slice_get (outer_calls calls.now) call ≡ None) (λ o. slice_get (outer_calls calls.now) call ≡ Some (outer_call o.now)) }
{
    calls.get(call as usize)
}

/// Appends a call with its number; one that isn't there is no part.
fn push_call<'a>(
    alloc: Global,
    calls: &[Outer<'a>],
    parts: &mut List<Part>,
    call: u32,
    number: u32,
) -> Result<u32, NoMemory>
    requires sound { All IsSoundCall (outer_calls calls.now) }
    requires room { next_number (slice_get (outer_calls calls.now) call) number < 2 ^ 32 }
    ensures parts { OnOk result (parts.new ≡ parts.old ++ call_parts (slice_get (outer_calls calls.now) call) number) }
    ensures number { IfOk result (λ n. n ≡ next_number (slice_get (outer_calls calls.now) call) number) }
{
    match call_at(calls, call) {
        None => Ok(number),
        Some(outer) => {
            let next = next_number(outer, number);
            parts.push(call_part(alloc, outer, number)?)?;
            Ok(next)
        }
    }
}

/// What is found with another text of the page.
fn with_text(found: PartsSoFar, text: Text<'_>) -> Result<PartsSoFar, NoMemory>
    ensures { IfOk result (λ f. TextFound found (bytes_of text.entry) f) }
{
    let PartsSoFar {
        parts,
        number,
        since,
    } = found;
    let since = match since {
        None => None,
        Some(mut before) => {
            before.push_str(text.as_str())?;
            Some(before)
        }
    };
    Ok(PartsSoFar {
        parts,
        number,
        since,
    })
}

/// What is found with a call that begins.
fn with_call<'a>(
    alloc: Global,
    calls: &[Outer<'a>],
    found: PartsSoFar,
    call: u32,
) -> Result<PartsSoFar, NoMemory>
    requires sound { All IsSoundCall (outer_calls calls.now) }
    requires room { next_number (slice_get (outer_calls calls.now) call) found.number < 2 ^ 32 }
    ensures { IfOk result (λ f. CallFound (outer_calls calls.now) found call f) }
{
    let PartsSoFar {
        mut parts,
        number,
        since,
    } = found;
    push_slice(&mut parts, since)?;
    let number = push_call(alloc, calls, &mut parts, call, number)?;
    Ok(PartsSoFar {
        parts,
        number,
        since: Some(Str::new(alloc)),
    })
}

/// Whether a piece stands for items, and the cut before it is free.
fn begins(before: Option<u32>, piece: Piece<'_>) -> bool
    ensures { result ≡ begins_at before piece.entry }
{
    !is_hollow(piece) && is_parted(before, call_of(piece.origin))
}

/// What is found with another piece, after an item of the call `before`.
fn with_piece<'a>(
    alloc: Global,
    calls: &[Outer<'a>],
    found: PartsSoFar,
    before: Option<u32>,
    piece: Piece<'a>,
) -> Result<PartsSoFar, NoMemory>
    requires sound { All IsSoundCall (outer_calls calls.now) }
    requires room { found.number + length (text_from (outer_calls calls.now) before (items_of piece)) < 2 ^ 32 }
    ensures parts { IfOk result (λ f. Continues (outer_calls calls.now) before found (items_of piece.entry) f) }
    ensures number { IfOk result (λ f. f.number ≤ found.number + length (text_from (outer_calls calls.now) before (items_of piece.entry))) }
{
    if !begins(before, piece) {
        return Ok(found);
    }
    match call_of(piece.origin) {
        None => with_text(found, piece.text),
        Some(call) => with_call(alloc, calls, found, call),
    }
}

/// What the element of a group carries that holds these pieces, after an item of the call `before`.
#[tactic(auto, unfolding(wt_annotated::specs::GroupData::group_data))]
pub fn group_data<'a>(
    alloc: Global,
    calls: &[Outer<'a>],
    before: Option<u32>,
    pieces: &[Piece<'a>],
) -> Result<Option<DataMw>, NoMemory>
    requires sound { All IsSoundCall (outer_calls calls.now) }
    requires few { length (text_from (outer_calls calls.now) before (items pieces.now)) < 2 ^ 32 }
    ensures { IfOk result (λ d. d ≡ group_data (outer_calls calls.now) (parts_from before None (items pieces.now))) }
{
    let mut found = PartsSoFar {
        parts: List::new(alloc),
        number: 0,
        since: None,
    };
    let mut last = before;
    for piece in pieces {
        found = with_piece(alloc, calls, found, last, *piece)?;
        last = last_of_piece(last, *piece);
    }
    Ok(Some(DataMw::Parts(found.parts)))
}
