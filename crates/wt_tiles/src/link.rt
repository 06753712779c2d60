//! Links, categories and media.

ghost use Rattle.std.specs.Prelude.{◌≡◌, ◌<◌, ◌≤◌, ◌-◌, ◌+◌, length, drop, IfOk, IfSome};
ghost use Rattle.wt_tiles.specs.Links.{leaf, kind_of, target_len, to_close, inner_len, has_pipe, head_len, page_link, link_shape, link_with, link_in, link_at};
ghost use Rattle.wt_tiles.specs.Searches.{stops, bars, search_place, IsHead};

use crate::bracket::Brackets;
use crate::glyph::{Glyph, GlyphClass, begins, first_is, run_len};
use crate::shape::{Shape, TileKind};
use crate::target::{LinkKind, Target, target_of};
use std::alloc::Global;
use wt_span::{NoMemory, front_of, rest_of};

/// What is sought in a link.
#[derive(Clone, Copy, Debug, PartialEq, Eq)]
pub enum Search {
    /// The end of a target: `|` or `]]`, and no `[[` before it.
    Target,
    /// The end of a link: `]]`, and no `[[` before it.
    Close,
    /// The end of an external link's text: `]`, and no `[` before it.
    Text,
}

impl Search {
    fn stops(self, glyphs: &[Glyph]) -> bool
        ensures { result ≡ stops self glyphs.now }
    {
        match self {
            Search::Target => first_is(GlyphClass::Only(b'|'), glyphs) || begins(b"]]", glyphs),
            Search::Close => begins(b"]]", glyphs),
            Search::Text => first_is(GlyphClass::Only(b']'), glyphs),
        }
    }

    fn is_barred(self, glyphs: &[Glyph]) -> bool
        ensures { result ≡ bars self glyphs.now }
    {
        match self {
            Search::Target => begins(b"[[", glyphs),
            Search::Close => begins(b"[[", glyphs),
            Search::Text => first_is(GlyphClass::Only(b'['), glyphs),
        }
    }

    /// How many items come before what is sought, if it is there.
    pub fn place(self, glyphs: &[Glyph]) -> Option<usize>
        ensures value { result ≡ search_place self glyphs.now }
        ensures within { IfSome result (λ n. n < length glyphs.now) }
    {
        for at in 0..glyphs.len() {
            let rest = rest_of(glyphs, at);
            if self.stops(rest) {
                return Some(at);
            }
            if self.is_barred(rest) {
                return None;
            }
        }
        None
    }
}

/// How many items the target of a link takes that begins these, which come after the `[[`: up to
/// the first `|` or `]]`, and none where a `[[` comes before it.
pub fn target_len(glyphs: &[Glyph]) -> Option<usize>
    ensures value { result ≡ target_len glyphs.now }
    ensures within { IfSome result (λ n. n < length glyphs.now) }
{
    Search::Target.place(glyphs)
}

/// How many items come before the `]]` that ends a link, where no `[[` comes before it.
pub fn close_len(glyphs: &[Glyph]) -> Option<usize>
    ensures value { result ≡ to_close glyphs.now }
    ensures within { IfSome result (λ n. n < length glyphs.now) }
{
    Search::Close.place(glyphs)
}

/// A leaf of so many items.
pub fn leaf(kind: TileKind, len: usize) -> Shape
    ensures { result ≡ leaf kind len }
{
    Shape {
        kind,
        opening: len,
        inside: 0,
        closing: 0,
        trail: 0,
    }
}

/// How many items come before the `]]` of a target of n items, where the items after the `[[` are
/// the last `left` ones.
fn inner_len(
    alloc: Global,
    brackets: &mut Brackets<'_>,
    kind: LinkKind,
    n: usize,
    rest: &[Glyph],
) -> Result<Option<usize>, NoMemory>
    requires target { n < length rest.now }
    requires end { rest.now ≡ drop (length brackets.old - length rest.now) brackets.old }
    requires within { length rest.now ≤ length brackets.old }
    ensures kept { brackets.new ≡ brackets.old }
    ensures value { IfOk result (λ o. o ≡ inner_len kind n rest.now) }
{
    match kind {
        LinkKind::Media => match brackets.closing(alloc, rest.len())? {
            Some(left) => Ok(Some(rest.len() - left)),
            None => Ok(None),
        },
        LinkKind::Page | LinkKind::Category => match Search::Close.place(rest_of(rest, n)) {
            Some(k) => Ok(Some(n + k)),
            None => Ok(None),
        },
    }
}

/// Whether a `|` ends a target of n items.
fn has_pipe(n: usize, rest: &[Glyph]) -> bool
    requires { n ≤ length rest.now }
    ensures { result ≡ has_pipe n rest.now }
{
    first_is(GlyphClass::Only(b'|'), rest_of(rest, n))
}

/// How much of the open delimiter follows the `[[`.
fn head_len(colon: bool, n: usize, rest: &[Glyph]) -> usize
    requires { n < length rest.now }
    ensures { result ≡ head_len colon n rest.now }
{
    if has_pipe(n, rest) {
        n + 1
    } else if colon && first_is(GlyphClass::Only(b':'), rest) {
        1
    } else {
        0
    }
}

/// A link to a page, whose `]]` comes after k items.
fn page_link(head: usize, k: usize, rest: &[Glyph]) -> Shape
    requires head { head ≤ k }
    requires within { k + 2 ≤ length rest.now }
    ensures { result ≡ page_link head k rest.now }
{
    Shape {
        kind: TileKind::Link,
        opening: 2 + head,
        inside: k - head,
        closing: 2,
        trail: run_len(GlyphClass::Trail, rest_of(rest, k + 2)),
    }
}

/// The link, category or media whose `]]` comes after k items; `head` of them belong to a link's
/// open delimiter.
fn link_shape(kind: LinkKind, head: usize, k: usize, rest: &[Glyph]) -> Shape
    requires head { IsHead kind head k }
    requires within { k + 2 ≤ length rest.now }
    ensures { result ≡ link_shape kind head k rest.now }
{
    match kind {
        LinkKind::Page => page_link(head, k, rest),
        LinkKind::Category => leaf(TileKind::Category, k + 4),
        LinkKind::Media => leaf(TileKind::Media, k + 4),
    }
}

/// The link with this target of n items, by the place of its `]]`: none where that isn't there, or
/// its text is empty.
fn link_with(target: &Target, n: usize, close: Option<usize>, rest: &[Glyph]) -> Option<Shape>
    requires target { n < length rest.now }
    requires close { close ≡ inner_len (kind_of target.now) n rest.now }
    ensures { result ≡ link_with target.now n close rest.now }
{
    let k = close?;
    if has_pipe(n, rest) && k == n + 1 {
        return None;
    }
    let head = head_len(target.colon, n, rest);
    Some(link_shape(target.kind(), head, k, rest))
}

/// The link by what follows its `[[`.
#[tactic(auto, unfolding(crate::specs::Links::link_in))]
fn link_in(
    alloc: Global,
    brackets: &mut Brackets<'_>,
    rest: &[Glyph],
) -> Result<Option<Shape>, NoMemory>
    requires end { rest.now ≡ drop (length brackets.old - length rest.now) brackets.old }
    requires within { length rest.now ≤ length brackets.old }
    ensures kept { brackets.new ≡ brackets.old }
    ensures value { IfOk result (λ o. o ≡ link_in rest.now) }
{
    let Some(n) = Search::Target.place(rest) else {
        return Ok(None);
    };
    let Some(target) = target_of(alloc, front_of(rest, n))? else {
        return Ok(None);
    };
    let close = inner_len(alloc, brackets, target.kind(), n, rest)?;
    Ok(link_with(&target, n, close, rest))
}

/// The link, category or media that begins the last items of those in which brackets are balanced.
#[tactic(auto, unfolding(crate::specs::Links::link_at))]
pub fn link_at(
    alloc: Global,
    brackets: &mut Brackets<'_>,
    rest: &[Glyph],
) -> Result<Option<Shape>, NoMemory>
    requires end { rest.now ≡ drop (length brackets.old - length rest.now) brackets.old }
    requires within { length rest.now ≤ length brackets.old }
    ensures kept { brackets.new ≡ brackets.old }
    ensures value { IfOk result (λ o. o ≡ link_at rest.now) }
{
    if !begins(b"[[", rest) {
        return Ok(None);
    }
    link_in(alloc, brackets, rest_of(rest, 2))
}
