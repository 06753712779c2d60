//! Behaviour switches, as `__TOC__`.

ghost use Rattle.std.specs.Prelude.{◌≡◌, ◌≤◌, IfSome};
ghost use Rattle.wt_tiles.specs.Tiles.{switch_len, switch_names, switch_at};

use crate::glyph::{Glyph, begins};
use crate::link::leaf;
use crate::shape::{Shape, TileKind};
use wt_span::rest_of;

/// A switch's name and `__` after it: how many items they take.
#[tactic(auto, unfolding(crate::specs::Tiles::switch_names))]
fn switch_len(rest: &[Glyph]) -> Option<usize>
    ensures value { result ≡ switch_len switch_names rest.now }
    ensures within { IfSome result (λ n. n ≤ 16) }
{
    if begins(b"NOTOC__", rest) {
        Some(7)
    } else if begins(b"FORCETOC__", rest) {
        Some(10)
    } else if begins(b"TOC__", rest) {
        Some(5)
    } else if begins(b"NOEDITSECTION__", rest) {
        Some(15)
    } else if begins(b"NEWSECTIONLINK__", rest) {
        Some(16)
    } else if begins(b"HIDDENCAT__", rest) {
        Some(11)
    } else if begins(b"NOGALLERY__", rest) {
        Some(11)
    } else if begins(b"INDEX__", rest) {
        Some(7)
    } else if begins(b"NOINDEX__", rest) {
        Some(9)
    } else {
        None
    }
}

/// The switch that begins the items.
#[tactic(auto, unfolding(crate::specs::Tiles::switch_at))]
pub fn switch_at(glyphs: &[Glyph]) -> Option<Shape>
    ensures { result ≡ switch_at glyphs.now }
{
    if !begins(b"__", glyphs) {
        return None;
    }
    let n = switch_len(rest_of(glyphs, 2))?;
    Some(leaf(TileKind::Switch, 2 + n))
}
