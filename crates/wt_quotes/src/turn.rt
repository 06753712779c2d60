//! What each toggle does to bold and to italic: it opens a style, closes it, or breaks it, by the
//! numbers of toggles before it. One pass over the toggles.

ghost use Rattle.std.specs.Prelude.{◌≡◌, ℕ, ◌+◌, ◌^◌, ◌<◌, ◌≤◌, true, false, not, All, IfOk, IfSome, length, get_or};
ghost use Rattle.wt_quotes.specs.Runs.{bytes_of, chunk_bytes, places_of};
ghost use Rattle.wt_quotes.specs.Toggles.{IsOfRun, Switches};
ghost use Rattle.wt_quotes.specs.Styles.{Fits};
ghost use Rattle.wt_quotes.specs.Turns.{is_of, toggles_at, bold_ends_later, is_bold_outside, opened_of, is_outside, effect_on, is_bold_outside_at, start_of, turn_of, turns_of, flipped};

use crate::chunk::{Chunk, chunk_bytes};
use crate::toggle::Toggle;
use std::alloc::Global;
use wt_span::NoMemory;

/// What a run of apostrophes does to a style. `Breaks` closes it and opens it again, since the
/// style round it closes.
#[derive(Clone, Copy, Debug, PartialEq, Eq)]
pub enum Effect {
    Nothing,
    Opens,
    Closes,
    Breaks,
}

/// A toggle with its place: the byte where its delimiters begin, what it does to each style, and
/// which of the two is outside where it opens or closes both.
#[derive(Clone, Copy, Debug, PartialEq, Eq)]
pub struct PlacedToggle {
    pub start: u32,
    pub bold: Effect,
    pub italic: Effect,
    pub bold_outside: bool,
}

/// The toggles, by their places in the list, that opened the styles that are open.
#[derive(Clone, Copy, Debug, PartialEq, Eq)]
pub struct Opened {
    pub bold: Option<usize>,
    pub italic: Option<usize>,
}

fn is_of(bold: bool, toggle: &Toggle) -> bool
    ensures { result ≡ is_of bold toggle.now }
{
    if bold { toggle.bold } else { toggle.italic }
}

fn toggles_at(bold: bool, toggles: &[Toggle], at: usize) -> bool
    ensures { result ≡ toggles_at bold toggles.now at }
{
    toggles.get(at).is_some_and(|t| is_of(bold, t))
}

/// Of two styles that one toggle opened, the one that the next toggle closes is inside.
#[tactic(auto, using(crate::proofs::NextToggle::ends_later))]
fn bold_ends_later(toggles: &[Toggle], at: usize) -> bool
    requires switches { All Switches toggles.now }
    requires within { at < length toggles.now }
    ensures { result ≡ bold_ends_later toggles.now at }
{
    !toggles_at(true, toggles, at + 1)
}

fn is_bold_outside(toggles: &[Toggle], bold: usize, italic: usize) -> bool
    requires switches { All Switches toggles.now }
    requires within { bold < length toggles.now }
    ensures { result ≡ is_bold_outside toggles.now bold italic }
{
    bold < italic || bold == italic && bold_ends_later(toggles, bold)
}

impl Opened {
    ghost use Rattle.wt_quotes.specs.Turns.{opened_of};

    fn of(self, bold: bool) -> Option<usize>
        ensures { result ≡ opened_of bold self }
    {
        if bold { self.bold } else { self.italic }
    }
}

fn is_outside(bold: bool, toggles: &[Toggle], opened: Opened) -> bool
    requires switches { All Switches toggles.now }
    requires within { IfSome opened.bold (λ a. a < length toggles.now) }
    ensures { result ≡ is_outside bold toggles.now opened }
{
    match (opened.bold, opened.italic) {
        (Some(a), Some(b)) => is_bold_outside(toggles, a, b) == bold,
        _ => false,
    }
}

#[tactic(auto, unfolding(crate::specs::Turns::effect_on))]
fn effect_on(bold: bool, toggles: &[Toggle], at: usize, opened: Opened) -> Effect
    requires switches { All Switches toggles.now }
    requires within { IfSome opened.bold (λ a. a < length toggles.now) }
    ensures { result ≡ effect_on bold toggles.now at opened }
{
    if toggles_at(bold, toggles, at) {
        if opened.of(bold).is_some() {
            Effect::Closes
        } else {
            Effect::Opens
        }
    } else if toggles_at(!bold, toggles, at) && is_outside(!bold, toggles, opened) {
        Effect::Breaks
    } else {
        Effect::Nothing
    }
}

#[tactic(auto, unfolding(crate::specs::Turns::is_bold_outside_at))]
fn is_bold_outside_at(toggles: &[Toggle], at: usize, opened: Opened) -> bool
    requires switches { All Switches toggles.now }
    requires within { IfSome opened.bold (λ a. a < length toggles.now) }
    requires here { at < length toggles.now }
    ensures { result ≡ is_bold_outside_at toggles.now at opened }
{
    if opened.bold.is_some() || opened.italic.is_some() {
        is_outside(true, toggles, opened)
    } else {
        bold_ends_later(toggles, at)
    }
}

fn turn_of(start: u32, toggles: &[Toggle], at: usize, opened: Opened) -> PlacedToggle
    requires switches { All Switches toggles.now }
    requires within { IfSome opened.bold (λ a. a < length toggles.now) }
    requires here { at < length toggles.now }
    ensures { result ≡ turn_of start toggles.now at opened }
{
    PlacedToggle {
        start,
        bold: effect_on(true, toggles, at, opened),
        italic: effect_on(false, toggles, at, opened),
        bold_outside: is_bold_outside_at(toggles, at, opened),
    }
}

fn flipped(toggles: bool, at: usize, since: Option<usize>) -> Option<usize>
    ensures { result ≡ flipped toggles at since }
{
    if !toggles {
        since
    } else if since.is_some() {
        None
    } else {
        Some(at)
    }
}

/// What is open after a toggle.
fn opened_after(toggles: &[Toggle], at: usize, opened: Opened) -> Opened
    ensures bold { result.bold ≡ flipped (toggles_at true toggles.now at) at opened.bold }
    ensures italic { result.italic ≡ flipped (toggles_at false toggles.now at) at opened.italic }
{
    Opened {
        bold: flipped(toggles_at(true, toggles, at), at, opened.bold),
        italic: flipped(toggles_at(false, toggles, at), at, opened.italic),
    }
}

/// The places of the chunks' first bytes.
fn chunk_places(alloc: Global, chunks: &[Chunk]) -> Result<Vec<u32>, NoMemory>
    requires { bytes_of chunks.now < 2 ^ 32 }
    ensures { IfOk result (λ places. places.items ≡ places_of chunks.now) }
{
    let mut places = Vec::new(alloc);
    let mut place = 0u32;
    for at in 0..chunks.len() {
        places.push(place)?;
        place += chunk_bytes(&chunks[at]);
    }
    Ok(places)
}

fn start_of(chunks: &[Chunk], places: &[u32], toggle: &Toggle) -> u32
    requires bytes { bytes_of chunks.now < 2 ^ 32 }
    requires places { places.now ≡ places_of chunks.now }
    requires run { IsOfRun chunks.now toggle.now }
    ensures { result ≡ start_of chunks.now toggle.now }
{
    places[toggle.chunk as usize] + toggle.plain
}

/// What the toggles of a context do, each with its place.
pub fn turns(
    alloc: Global,
    chunks: &[Chunk],
    toggles: &[Toggle],
) -> Result<Vec<PlacedToggle>, NoMemory>
    requires bytes { bytes_of chunks.now < 2 ^ 32 }
    requires runs { All (IsOfRun chunks.now) toggles.now }
    requires switches { All Switches toggles.now }
    ensures value { IfOk result (λ turns. turns.items ≡ turns_of chunks.now toggles.now) }
    ensures fit { IfOk result (λ turns. All (Fits (bytes_of chunks.now)) turns.items) }
{
    let places = chunk_places(alloc, chunks)?;
    let mut turns = Vec::new(alloc);
    let mut opened = Opened {
        bold: None,
        italic: None,
    };
    for at in 0..toggles.len() {
        let start = start_of(chunks, &places, &toggles[at]);
        turns.push(turn_of(start, toggles, at, opened))?;
        opened = opened_after(toggles, at, opened);
    }
    Ok(turns)
}
