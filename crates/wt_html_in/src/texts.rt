//! Texts in the arena.

ghost use Rattle.std.specs.Prelude.{◌≡◌, ◌<◌, ◌^◌, length, IfOk};
ghost use Rattle.std.specs.Str.{IsCharBoundary};
ghost use Rattle.wt_tree.specs.View.{texts_of};

use bumpalo::Bump;
use std::alloc::Global;
use wt_span::{List, NoMemory, Text};
use wt_tree::Slices;

/// The most bytes of one `Text`.
const MOST_BYTES: usize = 4_294_967_295;

/// How many bytes of a text with more than `MOST_BYTES` go into its first `Text`: up to the last border
/// between characters within that limit.
fn front_len(text: &str) -> usize
    requires { MOST_BYTES < length text.now }
    ensures some { 0 < result }
    ensures few { result < 2 ^ 32 }
    ensures border { IsCharBoundary text.now result }
{
    text.floor_char_boundary(MOST_BYTES)
}

/// A text that is longer than one `Text`, cut.
fn cut<'a>(alloc: Global, text: &'a str) -> Result<List<Text<'a>>, NoMemory>
    ensures { IfOk result (λ l. texts_of l ≡ text.entry.now) }
{
    let mut texts = List::new(alloc);
    let mut rest = text;
    while rest.len() > MOST_BYTES {
        let (front, behind) = rest.split_at(front_len(rest));
        texts.push(Text::new(front, 0))?;
        rest = behind;
    }
    texts.push(Text::new(rest, 0))?;
    Ok(texts)
}

/// A text in the arena.
pub fn in_arena<'a>(arena: &'a Bump<Global>, text: &str) -> Result<&'a str, NoMemory>
    ensures { IfOk result (λ t. t.now ≡ text.now) }
{
    let text = arena.try_alloc_str(text)?;
    Ok(text)
}

/// A text as one `Text`, or as several where it is longer.
pub fn slices_of<'a>(alloc: Global, text: &'a str) -> Result<Slices<'a>, NoMemory>
    ensures { IfOk result (λ l. texts_of l ≡ text.entry.now) }
{
    if text.len() <= MOST_BYTES {
        return Ok(Slices::one(Text::new(text, 0)));
    }
    let texts = cut(alloc, text)?;
    Ok(Slices::of_list(texts))
}

/// A text in the arena; nothing where it is empty.
pub fn kept<'a>(alloc: Global, arena: &'a Bump<Global>, text: &str) -> Result<Slices<'a>, NoMemory>
    ensures { IfOk result (λ l. texts_of l ≡ text.now) }
{
    match text.as_bytes() {
        [] => Ok(Slices::none()),
        [_, ..] => {
            let text = in_arena(arena, text)?;
            slices_of(alloc, text)
        }
    }
}
