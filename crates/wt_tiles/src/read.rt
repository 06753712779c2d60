//! The tiles of a context, without their items.

ghost use Rattle.std.specs.Prelude.{◌≡◌, ◌<◌, ◌≤◌, ◌+◌, ◌-◌, ◌^◌, ◌++◌, ◌∷◌, [], true, false, length, drop, IfOk, IfSome, OnOk};
ghost use Rattle.wt_span.specs.declared.tag_name.TagName.{TagName as PairName};
ghost use Rattle.wt_tiles.specs.Tags.{tag_at};
ghost use Rattle.wt_tiles.specs.Tables.{pair_left};
ghost use Rattle.wt_tiles.specs.Tiles.{len_of, pair_or_island, closing_for, shape_of_tag, tag_tile, tag_or_switch, outside, link_or_url, form_at, tile_with, size, closed, shapes};
ghost use Rattle.wt_tiles.specs.Reading.{tile_at, word_before};
ghost use Rattle.wt_tiles.specs.Firsts.{may_begin};
ghost use Rattle.wt_tiles.specs.Glyphs.{is_in};
ghost use Rattle.wt_tiles.specs.Urls.{is_word};

use crate::context::Context;
use crate::glyph::Glyph;
use crate::known::Known;
use crate::link::leaf;
use crate::shape::{Shape, TileKind};
use crate::switch::switch_at;
use crate::tag::{Name, Tag, TagShape, tag_at};
use crate::url::{bare_url_at, ext_link_at};
use std::alloc::Global;
use wt_span::{List, NoMemory, TagName, rest_of};

/// How many pairs of tags may be open round each other.
pub const MOST_PAIRS: u32 = 16;

/// How many items the tag takes that begins the items.
fn tag_len(glyphs: &[Glyph]) -> usize
    ensures { result ≡ len_of (tag_at glyphs.now) }
{
    match tag_at(glyphs) {
        Some(tag) => tag.len,
        None => 0,
    }
}

/// A pair whose opening tag takes n items and from whose closing tag on so many are left; an island
/// without a closing tag.
fn pair_left(n: usize, closing: Option<usize>, rest: &[Glyph]) -> Shape
    requires { IfSome closing (λ left. n + left ≤ length rest.now) }
    ensures { result ≡ pair_left n closing rest.now }
{
    let Some(left) = closing else {
        return leaf(TileKind::TagIsland, n);
    };
    Shape {
        kind: TileKind::Pair,
        opening: n,
        inside: rest.len() - n - left,
        closing: tag_len(rest_of(rest, rest.len() - left)),
        trail: 0,
    }
}

/// The tile of an opening tag of a pair, which begins the last items of the context.
fn pair(
    alloc: Global,
    known: &mut Known<'_>,
    pairs: u32,
    tag: Tag,
    name: TagName,
    rest: &[Glyph],
) -> Result<Shape, NoMemory>
    requires tag { tag_at rest.now ≡ Some tag }
    requires name { tag.name ≡ Name.Paired name }
    requires shape { tag.shape ≡ TagShape.Opening }
    requires end { rest.now ≡ drop (length known.old - length rest.now) known.old }
    requires within { length rest.now ≤ length known.old }
    ensures kept { known.new ≡ known.old }
    ensures value { IfOk result (λ w. w ≡ pair_or_island tag.len (closing_for pairs name tag.len rest.now) rest.now) }
{
    if pairs >= MOST_PAIRS {
        return Ok(leaf(TileKind::TagIsland, tag.len));
    }
    let closing = known.closing(alloc, rest.len())?;
    Ok(pair_left(tag.len, closing, rest))
}

/// The tile of a tag that begins the last items of the context.
fn tag_shape(
    alloc: Global,
    known: &mut Known<'_>,
    pairs: u32,
    tag: Tag,
    rest: &[Glyph],
) -> Result<Shape, NoMemory>
    requires tag { tag_at rest.now ≡ Some tag }
    requires end { rest.now ≡ drop (length known.old - length rest.now) known.old }
    requires within { length rest.now ≤ length known.old }
    ensures kept { known.new ≡ known.old }
    ensures value { IfOk result (λ w. w ≡ shape_of_tag pairs tag.name tag.shape tag.len rest.now) }
{
    match tag.name {
        Name::Paired(name) => match tag.shape {
            TagShape::Opening => pair(alloc, known, pairs, tag, name, rest),
            TagShape::Alone | TagShape::Closing => Ok(leaf(TileKind::TagIsland, tag.len)),
        },
        Name::Break => match tag.shape {
            TagShape::Opening | TagShape::Alone => Ok(leaf(TileKind::Br, tag.len)),
            TagShape::Closing => Ok(leaf(TileKind::TagIsland, tag.len)),
        },
        Name::Island => Ok(leaf(TileKind::TagIsland, tag.len)),
    }
}

/// The tile of the tag that begins the last items of the context, if one does.
#[tactic(auto, unfolding(crate::specs::Tiles::tag_tile))]
fn tag_tile(
    alloc: Global,
    known: &mut Known<'_>,
    pairs: u32,
    rest: &[Glyph],
) -> Result<Option<Shape>, NoMemory>
    requires end { rest.now ≡ drop (length known.old - length rest.now) known.old }
    requires within { length rest.now ≤ length known.old }
    ensures kept { known.new ≡ known.old }
    ensures value { IfOk result (λ o. o ≡ tag_tile pairs rest.now) }
{
    let Some(tag) = tag_at(rest) else {
        return Ok(None);
    };
    let shape = tag_shape(alloc, known, pairs, tag, rest)?;
    Ok(Some(shape))
}

/// The link or URL that begins the last items of the context, if one does.
#[tactic(auto, unfolding(crate::specs::Tiles::link_or_url))]
fn link_or_url(
    alloc: Global,
    known: &mut Known<'_>,
    after_word: bool,
    rest: &[Glyph],
) -> Result<Option<Shape>, NoMemory>
    requires end { rest.now ≡ drop (length known.old - length rest.now) known.old }
    requires within { length rest.now ≤ length known.old }
    ensures kept { known.new ≡ known.old }
    ensures value { IfOk result (λ o. o ≡ link_or_url after_word rest.now) }
{
    if let Some(link) = known.link_at(alloc, rest)? {
        return Ok(Some(link));
    }
    if let Some(link) = ext_link_at(rest) {
        return Ok(Some(link));
    }
    Ok(bare_url_at(after_word, rest))
}

/// The link or URL, outside the texts of links.
fn outside(
    alloc: Global,
    known: &mut Known<'_>,
    in_link: bool,
    after_word: bool,
    rest: &[Glyph],
) -> Result<Option<Shape>, NoMemory>
    requires end { rest.now ≡ drop (length known.old - length rest.now) known.old }
    requires within { length rest.now ≤ length known.old }
    ensures kept { known.new ≡ known.old }
    ensures value { IfOk result (λ o. o ≡ outside in_link (link_or_url after_word rest.now)) }
{
    if in_link {
        Ok(None)
    } else {
        link_or_url(alloc, known, after_word, rest)
    }
}

/// The tag or switch that begins the last items of the context, if one does.
fn tag_or_switch(
    alloc: Global,
    known: &mut Known<'_>,
    pairs: u32,
    rest: &[Glyph],
) -> Result<Option<Shape>, NoMemory>
    requires end { rest.now ≡ drop (length known.old - length rest.now) known.old }
    requires within { length rest.now ≤ length known.old }
    ensures kept { known.new ≡ known.old }
    ensures value { IfOk result (λ o. o ≡ tag_or_switch pairs rest.now) }
{
    match tag_tile(alloc, known, pairs, rest)? {
        Some(tag) => Ok(Some(tag)),
        None => Ok(switch_at(rest)),
    }
}

/// The form that a character begins, of several the first.
#[tactic(auto, unfolding(crate::specs::Tiles::form_at))]
fn form_at(
    alloc: Global,
    known: &mut Known<'_>,
    context: Context,
    after_word: bool,
    rest: &[Glyph],
) -> Result<Option<Shape>, NoMemory>
    requires end { rest.now ≡ drop (length known.old - length rest.now) known.old }
    requires within { length rest.now ≤ length known.old }
    ensures kept { known.new ≡ known.old }
    ensures value { IfOk result (λ o. o ≡ form_at context after_word rest.now) }
{
    match outside(alloc, known, context.in_link, after_word, rest)? {
        Some(link) => Ok(Some(link)),
        None => tag_or_switch(alloc, known, context.pairs, rest),
    }
}

/// Whether a form may begin with this byte.
fn may_begin(byte: u8) -> bool
    ensures { result ≡ may_begin byte }
{
    match byte {
        b'[' | b'<' | b'_' | b'h' | b'H' | b'f' | b'F' => true,
        _ => false,
    }
}

/// An ASCII letter, a digit or `_`.
fn is_word(glyph: Glyph) -> bool
    ensures { result ≡ is_in is_word glyph }
{
    match glyph {
        Glyph::Byte(byte) => byte.is_ascii_alphanumeric() || byte == b'_',
        Glyph::Entity(_) | Glyph::Atom | Glyph::Mark => false,
    }
}

/// Whether an ASCII letter, a digit or `_` comes before a place.
fn is_after_word(glyphs: &[Glyph], at: usize) -> bool
    requires { at ≤ length glyphs.now }
    ensures { result ≡ word_before false glyphs.now at }
{
    at > 0 && is_word(glyphs[at - 1])
}

/// The tile that begins at a place, if one does.
fn tile_at(
    alloc: Global,
    known: &mut Known<'_>,
    context: Context,
    glyphs: &[Glyph],
    at: usize,
) -> Result<Option<Shape>, NoMemory>
    requires at { at < length glyphs.now }
    requires known { known.old ≡ glyphs.now }
    ensures kept { known.new ≡ known.old }
    ensures value { IfOk result (λ o. o ≡ tile_at context (word_before false glyphs.now at) (drop at glyphs.now)) }
{
    match glyphs[at] {
        Glyph::Byte(byte) if may_begin(byte) => {
            let after_word = is_after_word(glyphs, at);
            form_at(alloc, known, context, after_word, rest_of(glyphs, at))
        }
        Glyph::Byte(_) => Ok(None),
        Glyph::Entity(_) | Glyph::Atom => Ok(Some(leaf(TileKind::Atom, 1))),
        Glyph::Mark => Ok(Some(leaf(TileKind::Mark, 1))),
    }
}

/// Appends a run of characters, if it isn't empty.
#[tactic(auto, unfolding(crate::specs::Tiles::closed))]
fn push_chars(out: &mut List<Shape>, n: usize) -> Result<(), NoMemory>
    ensures { OnOk result (out.new ≡ out.old ++ closed n []) }
{
    if n > 0 {
        out.push(Shape {
            kind: TileKind::Chars,
            opening: 0,
            inside: n,
            closing: 0,
            trail: 0,
        })?;
    }
    Ok(())
}

impl Shape {
    /// How many items the tile takes.
    pub fn len(&self) -> usize
        requires { size self.now < 2 ^ 64 }
        ensures { result ≡ size self.now }
    {
        self.opening + self.inside + self.closing + self.trail
    }
}

/// The shapes of the tiles of a context, given its items.
pub fn shapes(alloc: Global, context: Context, glyphs: &[Glyph]) -> Result<List<Shape>, NoMemory>
    ensures { IfOk result (λ ws. ws ≡ shapes context glyphs.now) }
{
    let mut known = Known::new(glyphs);
    let mut out = List::new(alloc);
    let mut from = 0;
    let mut at = 0;
    while at < glyphs.len() {
        let Some(shape) = tile_at(alloc, &mut known, context, glyphs, at)? else {
            at += 1;
            continue;
        };
        push_chars(&mut out, at - from)?;
        out.push(shape)?;
        at += shape.len();
        from = at;
    }
    push_chars(&mut out, at - from)?;
    Ok(out)
}
