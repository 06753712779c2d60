//! Tags whose names count, as they begin a context.

ghost use Rattle.std.specs.Prelude.{◌≡◌, ◌<◌, ◌≤◌, ◌+◌, ◌^◌, length, drop, IfSome};
ghost use Rattle.wt_tiles.specs.Tags.{live_name, is_style_name, is_phrase_name, is_block_name, is_list_name, is_table_name, is_include_name, is_island_name, name_of, name_len, is_inside, shape_of, tag_after, opening_tag, closing_tag, tag_at};

use crate::glyph::{Glyph, GlyphClass, begins, first_is, is_like, run_len};
use wt_span::{TagName, front_of, rest_of};
/// What a tag that counts is by its name: one of a pair, a line break, or always an island.
#[derive(Clone, Copy, Debug, PartialEq, Eq)]
pub enum Name {
    Paired(TagName),
    Break,
    Island,
}

/// `<NAME>`, `<NAME/>` or `</NAME>`.
#[derive(Clone, Copy, Debug, PartialEq, Eq)]
pub enum TagShape {
    Opening,
    Alone,
    Closing,
}

/// A tag whose name counts, and of how many items it is.
#[derive(Clone, Copy, Debug, PartialEq, Eq)]
pub struct Tag {
    pub name: Name,
    pub shape: TagShape,
    pub len: usize,
}

/// What a tag is that is in pairs, or the line break, by its name.
#[tactic(auto, unfolding(crate::specs::Tags::live_name))]
fn live_name(name: &[Glyph]) -> Option<Name>
    ensures { result ≡ live_name name.now }
{
    if is_like(b"sup", name) {
        Some(Name::Paired(TagName::Sup))
    } else if is_like(b"sub", name) {
        Some(Name::Paired(TagName::Sub))
    } else if is_like(b"small", name) {
        Some(Name::Paired(TagName::Small))
    } else if is_like(b"s", name) {
        Some(Name::Paired(TagName::S))
    } else if is_like(b"u", name) {
        Some(Name::Paired(TagName::U))
    } else if is_like(b"code", name) {
        Some(Name::Paired(TagName::Code))
    } else if is_like(b"span", name) {
        Some(Name::Paired(TagName::Span))
    } else if is_like(b"br", name) {
        Some(Name::Break)
    } else {
        None
    }
}

#[tactic(auto, unfolding(crate::specs::Tags::is_style_name))]
fn is_style_name(name: &[Glyph]) -> bool
    ensures { result ≡ is_style_name name.now }
{
    is_like(b"b", name)
        || is_like(b"i", name)
        || is_like(b"em", name)
        || is_like(b"strong", name)
        || is_like(b"del", name)
        || is_like(b"ins", name)
        || is_like(b"big", name)
        || is_like(b"tt", name)
        || is_like(b"font", name)
        || is_like(b"strike", name)
}

#[tactic(auto, unfolding(crate::specs::Tags::is_phrase_name))]
fn is_phrase_name(name: &[Glyph]) -> bool
    ensures { result ≡ is_phrase_name name.now }
{
    is_like(b"kbd", name)
        || is_like(b"samp", name)
        || is_like(b"var", name)
        || is_like(b"cite", name)
        || is_like(b"dfn", name)
        || is_like(b"abbr", name)
        || is_like(b"mark", name)
        || is_like(b"q", name)
        || is_like(b"bdi", name)
        || is_like(b"bdo", name)
        || is_like(b"wbr", name)
}

#[tactic(auto, unfolding(crate::specs::Tags::is_block_name))]
fn is_block_name(name: &[Glyph]) -> bool
    ensures { result ≡ is_block_name name.now }
{
    is_like(b"div", name)
        || is_like(b"p", name)
        || is_like(b"center", name)
        || is_like(b"blockquote", name)
        || is_like(b"hr", name)
        || is_like(b"h1", name)
        || is_like(b"h2", name)
        || is_like(b"h3", name)
        || is_like(b"h4", name)
        || is_like(b"h5", name)
        || is_like(b"h6", name)
}

#[tactic(auto, unfolding(crate::specs::Tags::is_list_name))]
fn is_list_name(name: &[Glyph]) -> bool
    ensures { result ≡ is_list_name name.now }
{
    is_like(b"ul", name)
        || is_like(b"ol", name)
        || is_like(b"li", name)
        || is_like(b"dl", name)
        || is_like(b"dt", name)
        || is_like(b"dd", name)
}

#[tactic(auto, unfolding(crate::specs::Tags::is_table_name))]
fn is_table_name(name: &[Glyph]) -> bool
    ensures { result ≡ is_table_name name.now }
{
    is_like(b"table", name)
        || is_like(b"caption", name)
        || is_like(b"thead", name)
        || is_like(b"tbody", name)
        || is_like(b"tfoot", name)
        || is_like(b"tr", name)
        || is_like(b"td", name)
        || is_like(b"th", name)
}

#[tactic(auto, unfolding(crate::specs::Tags::is_include_name))]
fn is_include_name(name: &[Glyph]) -> bool
    ensures { result ≡ is_include_name name.now }
{
    is_like(b"noinclude", name) || is_like(b"includeonly", name) || is_like(b"onlyinclude", name)
}

#[tactic(auto, unfolding(crate::specs::Tags::is_island_name))]
fn is_island_name(name: &[Glyph]) -> bool
    ensures { result ≡ is_island_name name.now }
{
    is_style_name(name)
        || is_phrase_name(name)
        || is_block_name(name)
        || is_list_name(name)
        || is_table_name(name)
        || is_include_name(name)
}

/// What a tag of this name is, if the name counts.
#[tactic(auto, unfolding(crate::specs::Tags::name_of))]
fn name_of(name: &[Glyph]) -> Option<Name>
    ensures { result ≡ name_of name.now }
{
    match live_name(name) {
        Some(known) => Some(known),
        None if is_island_name(name) => Some(Name::Island),
        None => None,
    }
}

/// How many items of a name are first, 0 where none does.
pub fn name_len(glyphs: &[Glyph]) -> usize
    ensures value { result ≡ name_len glyphs.now }
    ensures within { result ≤ length glyphs.now }
{
    if first_is(GlyphClass::Letter, glyphs) {
        run_len(GlyphClass::Name, glyphs)
    } else {
        0
    }
}

/// Whether this may be between a tag's name and its `>`.
fn is_inside(glyphs: &[Glyph]) -> bool
    ensures { result ≡ is_inside glyphs.now }
{
    glyphs.len() == 0
        || (first_is(GlyphClass::Blank, glyphs)
            || (glyphs.len() == 1 && first_is(GlyphClass::Only(b'/'), glyphs)))
}

/// Whether a tag with this inside closes itself.
fn shape_of(inside: &[Glyph]) -> TagShape
    ensures { result ≡ shape_of inside.now }
{
    let before_last = inside.len().saturating_sub(1);
    if first_is(GlyphClass::Only(b'/'), rest_of(inside, before_last)) {
        TagShape::Alone
    } else {
        TagShape::Opening
    }
}

/// The opening tag of this name, by what follows the name.
#[tactic(auto, unfolding(crate::specs::Tags::tag_after))]
fn tag_after(name: &[Glyph], rest: &[Glyph]) -> Option<Tag>
    requires { length name.now + length rest.now < 2 ^ 63 }
    ensures { result ≡ tag_after name.now rest.now }
{
    let len = run_len(GlyphClass::Tag, rest);
    let inside = front_of(rest, len);
    if !(first_is(GlyphClass::Only(b'>'), rest_of(rest, len)) && is_inside(inside)) {
        return None;
    }
    let known = name_of(name)?;
    Some(Tag {
        name: known,
        shape: shape_of(inside),
        len: 2 + name.len() + inside.len(),
    })
}

/// The opening tag that begins the items.
#[tactic(auto, unfolding(crate::specs::Tags::opening_tag))]
pub fn opening_tag(glyphs: &[Glyph]) -> Option<Tag>
    ensures { result ≡ opening_tag glyphs.now }
{
    if !first_is(GlyphClass::Only(b'<'), glyphs) {
        return None;
    }
    let rest = rest_of(glyphs, 1);
    let n = name_len(rest);
    if n == 0 {
        return None;
    }
    tag_after(front_of(rest, n), rest_of(glyphs, 1 + n))
}

/// The closing tag that begins the items.
#[tactic(auto, unfolding(crate::specs::Tags::closing_tag))]
pub fn closing_tag(glyphs: &[Glyph]) -> Option<Tag>
    ensures { result ≡ closing_tag glyphs.now }
{
    if !begins(b"</", glyphs) {
        return None;
    }
    let rest = rest_of(glyphs, 2);
    let n = name_len(rest);
    let k = run_len(GlyphClass::Blank, rest_of(glyphs, 2 + n));
    if !(n > 0 && first_is(GlyphClass::Only(b'>'), rest_of(glyphs, 2 + n + k))) {
        return None;
    }
    let known = name_of(front_of(rest, n))?;
    Some(Tag {
        name: known,
        shape: TagShape::Closing,
        len: 3 + n + k,
    })
}

/// The tag that begins the items, if its name counts.
#[tactic(auto, unfolding(crate::specs::Tags::tag_at))]
pub fn tag_at(glyphs: &[Glyph]) -> Option<Tag>
    ensures { result ≡ tag_at glyphs.now }
{
    match opening_tag(glyphs) {
        Some(tag) => Some(tag),
        None => closing_tag(glyphs),
    }
}
