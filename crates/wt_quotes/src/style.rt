//! The tree of styles: each begins at a toggle that opens or breaks it, and ends at the next one
//! that closes or breaks it. One pass over what the toggles do.

ghost use Rattle.std.specs.Prelude.{◌≡◌, ℕ, ◌+◌, ◌^◌, ◌<◌, ◌≤◌, true, false, not, All, IfOk, OnOk, length, ◌++◌};
ghost use Rattle.wt_quotes.specs.Runs.{bytes_of, are_apart};
ghost use Rattle.wt_quotes.specs.Styles.{width, effect_of, is_outer, opening_bytes, closing_bytes, opening_width, closing_width, closing_place, opening_place, begins, stops, ending, style_from, begun, styles_by, taken, Fits, style_tree_of};

use crate::chunk::{Chunk, total_bytes};
use crate::toggle::toggles_in;
use crate::turn::{Effect, PlacedToggle, turns};
use std::alloc::Global;
use wt_span::{List, NoMemory, rest_of};

/// A bold or italic stretch of a context. Places and widths are bytes from the start of the chunks:
/// `open_w` bytes from `from` on are its opening delimiter, `close_w` bytes before `to` its closing
/// one. A style that lies inside one that ends ends with it and begins again after it, as a style
/// of its own, without delimiters there; one that is open at the end of the context ends there
/// without a delimiter.
#[derive(Clone, Copy, Debug, PartialEq, Eq)]
pub struct Style {
    pub bold: bool,
    pub from: u32,
    pub open_w: u32,
    pub to: u32,
    pub close_w: u32,
}

/// Where a style ends, and how wide its closing delimiter is.
#[derive(Clone, Copy, Debug, PartialEq, Eq)]
pub struct End {
    pub to: u32,
    pub close_w: u32,
}

fn width(bold: bool) -> u32
    ensures { result ≡ width bold }
{
    if bold { 3 } else { 2 }
}

fn effect_of(bold: bool, turn: &PlacedToggle) -> Effect
    ensures { result ≡ effect_of bold turn.now }
{
    if bold { turn.bold } else { turn.italic }
}

fn is_outer(bold: bool, turn: &PlacedToggle) -> bool
    ensures { result ≡ is_outer bold turn.now }
{
    turn.bold_outside == bold
}

fn opening_bytes(bold: bool, effect: Effect) -> u32
    ensures { result ≡ opening_bytes bold effect }
{
    if effect == Effect::Opens {
        width(bold)
    } else {
        0
    }
}

fn closing_bytes(bold: bool, effect: Effect) -> u32
    ensures { result ≡ closing_bytes bold effect }
{
    if effect == Effect::Closes {
        width(bold)
    } else {
        0
    }
}

fn opening_width(bold: bool, turn: &PlacedToggle) -> u32
    ensures { result ≡ opening_width bold turn.now }
{
    opening_bytes(bold, effect_of(bold, turn))
}

fn closing_width(bold: bool, turn: &PlacedToggle) -> u32
    ensures { result ≡ closing_width bold turn.now }
{
    closing_bytes(bold, effect_of(bold, turn))
}

/// Where a style that ends at a toggle ends: closings take the first bytes, the inner style's first.
fn closing_place(total: u32, bold: bool, turn: &PlacedToggle) -> u32
    requires { Fits total turn.now }
    ensures { result ≡ closing_place bold turn.now }
{
    let inner = if is_outer(bold, turn) {
        closing_width(!bold, turn)
    } else {
        0
    };
    turn.start + (closing_width(bold, turn) + inner)
}

/// Where a style that begins at a toggle begins: openings take the bytes after the closings, the
/// outer style's first.
fn opening_place(total: u32, bold: bool, turn: &PlacedToggle) -> u32
    requires { Fits total turn.now }
    ensures { result ≡ opening_place bold turn.now }
{
    let closed = closing_width(true, turn) + closing_width(false, turn);
    let outer = if is_outer(bold, turn) {
        0
    } else {
        opening_width(!bold, turn)
    };
    turn.start + (closed + outer)
}

fn begins(effect: Effect) -> bool
    ensures { result ≡ begins effect }
{
    matches!(effect, Effect::Opens | Effect::Breaks)
}

fn stops(effect: Effect) -> bool
    ensures { result ≡ stops effect }
{
    matches!(effect, Effect::Closes | Effect::Breaks)
}

/// Where a style that is open before these toggles ends. It looks no further than that, so that
/// all looks together read each toggle once for bold and once for italic.
fn ending(bold: bool, total: u32, turns: &[PlacedToggle]) -> End
    requires { All (Fits total) turns.now }
    ensures { result ≡ ending bold total turns.now }
{
    for turn in turns {
        if stops(effect_of(bold, turn)) {
            return End {
                to: closing_place(total, bold, turn),
                close_w: closing_width(bold, turn),
            };
        }
    }
    End {
        to: total,
        close_w: 0,
    }
}

fn style_from(total: u32, bold: bool, turn: &PlacedToggle, end: End) -> Style
    requires { Fits total turn.now }
    ensures { result ≡ style_from bold turn.now end }
{
    Style {
        bold,
        from: opening_place(total, bold, turn),
        open_w: opening_width(bold, turn),
        to: end.to,
        close_w: end.close_w,
    }
}

/// Appends the style that begins at a toggle, if one does; `turns` are the toggles after it.
fn push_begun(
    styles: &mut List<Style>,
    bold: bool,
    total: u32,
    turn: &PlacedToggle,
    turns: &[PlacedToggle],
) -> Result<(), NoMemory>
    requires fits { Fits total turn.now }
    requires fit { All (Fits total) turns.now }
    ensures { OnOk result (styles.new ≡ styles.old ++ begun bold total turn.now turns.now) }
{
    if begins(effect_of(bold, turn)) {
        let end = ending(bold, total, turns);
        styles.push(style_from(total, bold, turn, end))?;
    }
    Ok(())
}

/// Appends the styles that begin at a toggle, the outer one first.
fn push_both(
    styles: &mut List<Style>,
    total: u32,
    turn: &PlacedToggle,
    turns: &[PlacedToggle],
) -> Result<(), NoMemory>
    requires fits { Fits total turn.now }
    requires fit { All (Fits total) turns.now }
    ensures { OnOk result (styles.new ≡ styles.old
        ++ (begun turn.now.bold_outside total turn.now turns.now ++ begun (not turn.now.bold_outside) total turn.now turns.now)) }
{
    push_begun(styles, turn.bold_outside, total, turn, turns)?;
    push_begun(styles, !turn.bold_outside, total, turn, turns)?;
    Ok(())
}

fn styles_by(alloc: Global, total: u32, turns: &[PlacedToggle]) -> Result<List<Style>, NoMemory>
    requires { All (Fits total) turns.now }
    ensures { IfOk result (λ styles. styles ≡ styles_by total turns.now) }
{
    let mut styles = List::new(alloc);
    for at in 0..turns.len() {
        push_both(&mut styles, total, &turns[at], rest_of(turns, at + 1))?;
    }
    Ok(styles)
}

/// The styles of a context, in preorder: the styles inside one follow it, the earlier first.
/// `NoMemory` says that no memory was found.
#[tactic(auto, unfolding(crate::specs::Styles::style_tree_of))]
pub fn style_tree(alloc: Global, chunks: &[Chunk]) -> Result<List<Style>, NoMemory>
    requires apart { are_apart chunks.now ≡ true }
    requires bytes { bytes_of chunks.now < 2 ^ 32 }
    requires members { length chunks.now < 2 ^ 32 }
    ensures { IfOk result (λ styles. styles ≡ style_tree_of chunks.now) }
{
    let toggles = toggles_in(alloc, chunks)?;
    let turns = turns(alloc, chunks, &toggles)?;
    styles_by(alloc, total_bytes(chunks), &turns)
}
