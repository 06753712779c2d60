//! External links and bare URLs.

ghost use Rattle.std.specs.Prelude.{◌≡◌, ◌<◌, ◌≤◌, ◌-◌, ◌+◌, ◌^◌, length, drop, take, reverse, IfSome};
ghost use Rattle.std.specs.List.{list_any, prefix_len};
ghost use Rattle.wt_tiles.specs.Glyphs.{is_in};
ghost use Rattle.wt_tiles.specs.Urls.{scheme_len, is_url_char, is_url_glyph, url_run, url_items, text_len, ext_shape, ext_link_after, ext_link_of, ext_link_at, is_word, is_dropped, has_paren, kept_len, bare_shape, bare_url_of, bare_url_at};

use crate::glyph::{Glyph, GlyphClass, begins, begins_like, first_is, run_len};
use crate::link::Search;
use crate::shape::{Shape, TileKind};
use wt_span::{front_of, rest_of};

/// How many items the beginning of a URL takes, 0 where none begins.
#[tactic(auto, unfolding(crate::specs::Urls::scheme_len))]
fn scheme_len(glyphs: &[Glyph]) -> usize
    ensures value { result ≡ scheme_len glyphs.now }
    ensures within { result ≤ length glyphs.now }
{
    if begins_like(b"http://", glyphs) {
        7
    } else if begins_like(b"https://", glyphs) {
        8
    } else if begins_like(b"ftp://", glyphs) {
        6
    } else {
        0
    }
}

/// Whether a character is in URLs.
#[tactic(auto, unfolding(crate::specs::Urls::is_url_char))]
fn is_url_char(character: u32) -> bool
    ensures { result ≡ is_url_char character }
{
    32 < character
        && !(character == 127
            || character == 91
            || character == 93
            || character == 60
            || character == 62
            || character == 34)
}

fn is_url_glyph(glyph: Glyph) -> bool
    ensures { result ≡ is_url_glyph glyph }
{
    match glyph {
        Glyph::Byte(byte) => is_url_char(byte as u32),
        Glyph::Entity(character) => is_url_char(character as u32),
        Glyph::Atom | Glyph::Mark => false,
    }
}

/// How many URL items are first; they end before `''`.
fn url_run(glyphs: &[Glyph]) -> usize
    ensures value { result ≡ url_run glyphs.now }
    ensures within { result ≤ length glyphs.now }
{
    for at in 0..glyphs.len() {
        if !(is_url_glyph(glyphs[at]) && !begins(b"''", rest_of(glyphs, at))) {
            return at;
        }
    }
    glyphs.len()
}

/// The items of a URL that follow its beginning of n items.
fn url_items(glyphs: &[Glyph], n: usize) -> &[Glyph]
    requires { n ≤ length glyphs.now }
    ensures { result.now ≡ take (url_run (drop n glyphs.entry.now)) (drop n glyphs.entry.now) }
{
    let rest = rest_of(glyphs, n);
    front_of(rest, url_run(rest))
}

/// The external link whose `[` and URL take n items.
fn ext_link_after(n: usize, glyphs: &[Glyph]) -> Option<Shape>
    requires { n ≤ length glyphs.now }
    ensures { result ≡ ext_link_after n glyphs.now }
{
    let opening = n + run_len(GlyphClass::Blank, rest_of(glyphs, n));
    let inside = Search::Text.place(rest_of(glyphs, opening))?;
    Some(Shape {
        kind: TileKind::ExtLink,
        opening,
        inside,
        closing: 1,
        trail: 0,
    })
}

/// The external link that begins the items.
#[tactic(auto, unfolding(crate::specs::Urls::ext_link_at))]
pub fn ext_link_at(glyphs: &[Glyph]) -> Option<Shape>
    ensures { result ≡ ext_link_at glyphs.now }
{
    if !first_is(GlyphClass::Only(b'['), glyphs) {
        return None;
    }
    let rest = rest_of(glyphs, 1);
    let scheme = scheme_len(rest);
    let items = url_items(rest, scheme).len();
    if !(0 < scheme && 0 < items) {
        return None;
    }
    ext_link_after(1 + scheme + items, glyphs)
}

/// Whether this is dropped from a URL's end; `paren` says whether the URL has a `(`.
#[tactic(auto, unfolding(crate::specs::Urls::is_dropped))]
fn is_dropped(paren: bool, byte: u8) -> bool
    ensures { result ≡ is_dropped paren byte }
{
    byte == b','
        || byte == b';'
        || byte == b'.'
        || byte == b':'
        || byte == b'!'
        || byte == b'?'
        || (!paren && byte == b')')
}

fn drops(paren: bool, glyph: Glyph) -> bool
    ensures { result ≡ is_in (is_dropped paren) glyph }
{
    match glyph {
        Glyph::Byte(byte) => is_dropped(paren, byte),
        Glyph::Entity(_) | Glyph::Atom | Glyph::Mark => false,
    }
}

fn has_paren(items: &[Glyph]) -> bool
    ensures { result ≡ has_paren items.now }
{
    items.iter().any(|glyph| GlyphClass::Only(b'(').has(*glyph))
}

/// How many of a URL's items are left when those that don't end it are dropped.
#[tactic(auto, unfolding(crate::specs::Urls::kept_len))]
fn kept_len(items: &[Glyph]) -> usize
    ensures value { result ≡ kept_len items.now }
    ensures within { result ≤ length items.now }
{
    let paren = has_paren(items);
    let mut end = items.len();
    while end > 0 && drops(paren, items[end - 1]) {
        end -= 1;
    }
    end
}

/// The bare URL that begins the items; `after_word` says whether an ASCII letter, a digit or `_`
/// comes before them.
#[tactic(auto, unfolding(crate::specs::Urls::bare_url_at))]
pub fn bare_url_at(after_word: bool, glyphs: &[Glyph]) -> Option<Shape>
    ensures { result ≡ bare_url_at after_word glyphs.now }
{
    if after_word {
        return None;
    }
    let scheme = scheme_len(glyphs);
    if scheme == 0 {
        return None;
    }
    let kept = kept_len(url_items(glyphs, scheme));
    if kept == 0 {
        return None;
    }
    Some(Shape {
        kind: TileKind::BareUrl,
        opening: 0,
        inside: scheme + kept,
        closing: 0,
        trail: 0,
    })
}
