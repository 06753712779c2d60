//! Which runs of apostrophes switch bold and italic: by their length, and, where the numbers of
//! bold and of italic toggles are both odd, with one run of three read as a character and a run of
//! two (MediaWiki's `doQuotes`).

ghost use Rattle.std.specs.Prelude.{◌≡◌, ℕ, ◌+◌, ◌*◌, ◌^◌, ◌<◌, ◌≤◌, true, Some, All, IfOk, IfSome, length, slice_get, position};
ghost use Rattle.wt_quotes.specs.Runs.{run_length, last_of, before_of, chunk_before, bytes_of, are_apart};
ghost use Rattle.wt_quotes.specs.Toggles.{class_by, class_of, class_at, toggle_of, toggle_at, toggles_by_length, is_due, is_three, first_of, exchange_place, toggles_of, exchange_at};

use crate::chunk::{Chunk, chunk_before, items_before, run_length};
use std::alloc::Global;
use wt_span::{List, NoMemory};

/// A run of apostrophes that switches styles: its place among the chunks, how many of its
/// apostrophes are plain characters and are first in it, and which styles the rest switches:
/// italic (two apostrophes), bold (three), or both (five).
#[derive(Clone, Copy, Debug, PartialEq, Eq)]
pub struct Toggle {
    pub chunk: u32,
    pub plain: u32,
    pub italic: bool,
    pub bold: bool,
}

/// The class of a run of three, by the two items before it, which decides whether it is the one
/// that is exchanged: one letter comes before it, or a space does, or neither.
#[derive(Clone, Copy, Debug, PartialEq, Eq)]
pub enum Preceding {
    OneLetter,
    Middle,
    Space,
}

fn class_by(last: Option<char>, before: Option<char>) -> Preceding
    ensures { result ≡ class_by last before }
{
    match last {
        Some(' ') => Preceding::Space,
        Some(c) if c.is_ascii() && before == Some(' ') => Preceding::OneLetter,
        _ => Preceding::Middle,
    }
}

/// The class of a run after a chunk. The apostrophe of a run of four is the last item before its
/// run of three.
fn class_of(run: u32, before: Option<Chunk>) -> Preceding
    ensures { result ≡ class_of run before }
{
    let (last, before) = items_before(before);
    if run == 4 {
        class_by(Some('\''), last)
    } else {
        class_by(last, before)
    }
}

fn class_at(chunks: &[Chunk], at: usize) -> Preceding
    ensures { result ≡ class_at chunks.now at }
{
    class_of(
        run_length(chunks.get(at).copied()),
        chunk_before(chunks, at),
    )
}

fn toggle_of(chunk: u32, length: u32) -> Option<Toggle>
    ensures value { result ≡ toggle_of chunk length }
    ensures room { IfSome result (λ t. t.plain + 1 < 2 ^ 32) }
{
    let (plain, italic, bold) = match length {
        0 | 1 => return None,
        2 => (0, true, false),
        3 => (0, false, true),
        4 => (1, false, true),
        n => (n - 5, true, true),
    };
    Some(Toggle {
        chunk,
        plain,
        italic,
        bold,
    })
}

#[tactic(auto, unfolding(crate::specs::Toggles::toggle_at))]
fn toggle_at(chunks: &[Chunk], at: u32) -> Option<Toggle>
    ensures value { result ≡ toggle_at chunks.now at }
    ensures room { IfSome result (λ t. t.plain + 1 < 2 ^ 32) }
{
    toggle_of(at, run_length(chunks.get(at as usize).copied()))
}

fn toggles_by_length(alloc: Global, chunks: &[Chunk]) -> Result<Vec<Toggle>, NoMemory>
    requires { length chunks.now < 2 ^ 32 }
    ensures value { IfOk result (λ ts. ts.items ≡ toggles_by_length chunks.now) }
    ensures room { IfOk result (λ ts. All (λ t. t.plain + 1 < 2 ^ 32) ts.items) }
{
    let mut toggles = Vec::new(alloc);
    for at in 0..chunks.len() as u32 {
        if let Some(toggle) = toggle_at(chunks, at) {
            toggles.push(toggle)?;
        }
    }
    Ok(toggles)
}

fn is_three(chunks: &[Chunk], class: Preceding, toggle: &Toggle) -> bool
    ensures { result ≡ is_three chunks.now class toggle.now }
{
    toggle.bold && !toggle.italic && class_at(chunks, toggle.chunk as usize) == class
}

fn first_of(chunks: &[Chunk], class: Preceding, toggles: &[Toggle]) -> Option<usize>
    ensures { result ≡ first_of chunks.now class toggles.now }
{
    toggles.iter().position(|t| is_three(chunks, class, t))
}

fn exchange_place(chunks: &[Chunk], toggles: &[Toggle]) -> Option<usize>
    ensures { result ≡ exchange_place chunks.now toggles.now }
{
    first_of(chunks, Preceding::OneLetter, toggles)
        .or(first_of(chunks, Preceding::Middle, toggles))
        .or(first_of(chunks, Preceding::Space, toggles))
}

/// The exchange is due where both numbers of toggles are odd.
fn is_due(toggles: &[Toggle]) -> bool
    ensures { result ≡ is_due toggles.now }
{
    toggles.iter().filter(|t| t.bold).count() % 2 == 1
        && toggles.iter().filter(|t| t.italic).count() % 2 == 1
}

/// Makes the run of three at a place one character and a run of two.
fn exchange_at(toggles: &mut [Toggle], place: usize)
    requires { All (λ t. t.plain + 1 < 2 ^ 32) toggles.old }
    ensures { toggles.new ≡ exchange_at (Some place) toggles.old }
{
    if place < toggles.len() {
        let toggle = &mut toggles[place];
        toggle.plain += 1;
        toggle.italic = true;
        toggle.bold = false;
    }
}

#[tactic(auto, unfolding(crate::specs::Toggles::toggles_of))]
pub fn toggles_in(alloc: Global, chunks: &[Chunk]) -> Result<Vec<Toggle>, NoMemory>
    requires { length chunks.now < 2 ^ 32 }
    ensures { IfOk result (λ ts. ts.items ≡ toggles_of chunks.now) }
{
    let mut toggles = toggles_by_length(alloc, chunks)?;
    if is_due(&toggles)
        && let Some(place) = exchange_place(chunks, &toggles)
    {
        exchange_at(&mut toggles, place);
    }
    Ok(toggles)
}

/// The toggles of a context, in order: by the lengths of its runs, and the one exchange. `NoMemory`
/// says that no memory was found.
pub fn toggles(alloc: Global, chunks: &[Chunk]) -> Result<List<Toggle>, NoMemory>
    requires apart { are_apart chunks.now ≡ true }
    requires bytes { bytes_of chunks.now < 2 ^ 32 }
    requires members { length chunks.now < 2 ^ 32 }
    ensures { IfOk result (λ ts. ts ≡ toggles_of chunks.now) }
{
    Ok(List::from_vec(toggles_in(alloc, chunks)?))
}
