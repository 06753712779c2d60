//! The heads of tiles: links, attributes and the names of switches.

ghost use Rattle.std.specs.Prelude.{◌≡◌, ◌++◌, ◌∷◌, [], ◌≤◌, length, map, drop, take, true, All, IfOk, not};
ghost use Rattle.std.specs.List.{prefix_len};
ghost use Rattle.wt_span.specs.Bytes.{is_blank};
ghost use Rattle.wt_span.specs.Items.{items};
ghost use Rattle.wt_tiles.specs.Glyphs.{glyph_of};
ghost use Rattle.wt_tiles.specs.Links.{has_pipe};
ghost use Rattle.wt_span.specs.Origins.{IsSoundPiece};
ghost use Rattle.wt_tree.specs.View.{attrs_of};
ghost use Rattle.wt_inline.specs.ItemTree.{with_attrs};
ghost use Rattle.wt_inline.specs.View.{head_of};
ghost use Rattle.wt_context.specs.Heads.{with_href, placeholder, target_size, target, href_to, link_head, key_after, key, href_with, category_head, behind_bracket, before_blank, bracketed_url, ext_link_head, bare_url_head, switch_property, switch_names, named, switch_head};

use crate::text::{source_of, text_of, visible_source};
use std::alloc::Global;
use wt_inline::NodeHead;
use wt_names::{Title, href_of};
use wt_span::{List, NoMemory, Piece, Str, front_of, rest_of};
use wt_tiles::{Glyph, Rest, Target, close_len, glyphs_of, take_items, target_len, target_of};
use wt_tree::{Attr, AttrName, Kind};

/// A head with one attribute.
fn with_attr<'a>(
    alloc: Global,
    kind: Kind,
    name: AttrName,
    value: Str,
) -> Result<NodeHead<'a>, NoMemory>
    ensures { IfOk result (λ h. head_of h ≡ with_attrs kind ((name, value) ∷ [])) }
{
    let mut attrs = List::new(alloc);
    attrs.push_tight(Attr { name, value })?;
    NodeHead::with_attrs(alloc, kind, attrs)
}

fn with_href<'a>(alloc: Global, kind: Kind, href: Str) -> Result<NodeHead<'a>, NoMemory>
    ensures { IfOk result (λ h. head_of h ≡ with_href kind href) }
{
    with_attr(alloc, kind, AttrName::Href, href)
}

/// The head of what is kept and not read into.
#[tactic(auto, unfolding(crate::specs::Heads::placeholder, wt_inline::specs::Carried::placeholder_typeof))]
pub fn placeholder<'a>(alloc: Global) -> Result<NodeHead<'a>, NoMemory>
    ensures { IfOk result (λ h. head_of h ≡ placeholder) }
{
    let value = Str::copy_of(alloc, "mw:Placeholder")?;
    with_attr(alloc, Kind::Island, AttrName::Typeof, value)
}

/// The items from a place on; none where there are fewer.
fn behind(glyphs: &[Glyph], at: usize) -> &[Glyph]
    ensures { result.now ≡ drop at glyphs.entry.now }
{
    rest_of(glyphs, at.min(glyphs.len()))
}

/// How many items a link's target takes.
#[tactic(auto, unfolding(crate::specs::Heads::target_size))]
fn target_size(glyphs: &[Glyph]) -> usize
    ensures value { result ≡ target_size glyphs.now }
    ensures within { result ≤ length (drop 2 glyphs.now) }
{
    target_len(behind(glyphs, 2)).unwrap_or(0)
}

#[tactic(auto, unfolding(crate::specs::Heads::target))]
fn target(alloc: Global, glyphs: &[Glyph]) -> Result<Option<Target>, NoMemory>
    ensures { IfOk result (λ t. t ≡ target glyphs.now) }
{
    let n = target_size(glyphs);
    target_of(alloc, front_of(behind(glyphs, 2), n))
}

fn href_to(alloc: Global, target: &Option<Target>) -> Result<Str, NoMemory>
    ensures { IfOk result (λ s. s ≡ href_to target.now) }
{
    match target {
        Some(target) => href_of(alloc, &target.title),
        None => Ok(Str::new(alloc)),
    }
}

/// The head of a link with these pieces.
#[tactic(auto, unfolding(crate::specs::Heads::link_head))]
pub fn link_head<'a>(alloc: Global, pieces: &[Piece<'a>]) -> Result<NodeHead<'a>, NoMemory>
    ensures { IfOk result (λ h. head_of h ≡ link_head (items pieces.now)) }
{
    let glyphs = glyphs_of(alloc, pieces)?;
    let target = target(alloc, glyphs.as_slice())?;
    let href = href_to(alloc, &target)?;
    with_href(alloc, Kind::WikiLink, href)
}

/// What is between the `|` after n items and the `]]`.
#[tactic(auto, unfolding(crate::specs::Heads::key_after))]
fn key_after(
    alloc: Global,
    pieces: &[Piece<'_>],
    glyphs: &[Glyph],
    n: usize,
) -> Result<Option<Str>, NoMemory>
    requires sound { All IsSoundPiece pieces.now }
    requires signs { glyphs.now ≡ map glyph_of (items pieces.now) }
    requires pipe { has_pipe n glyphs.now ≡ true }
    ensures { IfOk result (λ k. k ≡ key_after n (items pieces.now)) }
{
    let Some(k) = close_len(behind(glyphs, n + 1)) else {
        return Ok(None);
    };
    let (_, rest) = take_items(alloc, Rest::of(pieces), n + 1)?;
    let (key, _) = take_items(alloc, rest, k)?;
    let key = visible_source(alloc, key.as_slice())?;
    Ok(Some(key))
}

/// A category's key.
#[tactic(auto, unfolding(crate::specs::Heads::key))]
fn key(alloc: Global, pieces: &[Piece<'_>], glyphs: &[Glyph]) -> Result<Option<Str>, NoMemory>
    requires sound { All IsSoundPiece pieces.now }
    requires signs { glyphs.now ≡ map glyph_of (items pieces.now) }
    ensures { IfOk result (λ k. k ≡ key (items pieces.now)) }
{
    let n = 2 + target_size(glyphs);
    if is_pipe(glyphs, n) {
        key_after(alloc, pieces, glyphs, n)
    } else {
        Ok(None)
    }
}

fn is_pipe(glyphs: &[Glyph], n: usize) -> bool
    ensures { result ≡ has_pipe n glyphs.now }
{
    matches!(glyphs.get(n), Some(Glyph::Byte(b'|')))
}

fn href_with(alloc: Global, target: Option<Target>, key: Option<Str>) -> Result<Str, NoMemory>
    ensures { IfOk result (λ s. s ≡ href_with target key) }
{
    match target {
        Some(Target { title, .. }) => {
            let Title { ns, name, .. } = title;
            href_of(
                alloc,
                &Title {
                    ns,
                    name,
                    fragment: key,
                },
            )
        }
        None => Ok(Str::new(alloc)),
    }
}

/// The head of a category with these pieces.
#[tactic(auto, unfolding(crate::specs::Heads::category_head))]
pub fn category_head<'a>(alloc: Global, pieces: &[Piece<'a>]) -> Result<NodeHead<'a>, NoMemory>
    requires { All IsSoundPiece pieces.now }
    ensures { IfOk result (λ h. head_of h ≡ category_head (items pieces.now)) }
{
    let glyphs = glyphs_of(alloc, pieces)?;
    let target = target(alloc, glyphs.as_slice())?;
    let key = key(alloc, pieces, glyphs.as_slice())?;
    let href = href_with(alloc, target, key)?;
    with_href(alloc, Kind::Category, href)
}

/// How many bytes come before the first blank.
fn unblank_len(bytes: &[u8]) -> usize
    ensures value { result ≡ prefix_len (λ b. not (is_blank b)) bytes.now }
    ensures within { result ≤ length bytes.now }
{
    for (i, byte) in bytes.iter().enumerate() {
        if *byte == b' ' || *byte == b'\t' {
            return i;
        }
    }
    bytes.len()
}

/// What comes before the first blank.
fn before_blank(text: &str) -> &str
    ensures { result.now ≡ before_blank text.entry.now }
{
    text.split_at(unblank_len(text.as_bytes())).0
}

/// What comes after a `[` that begins the text.
fn behind_bracket(text: &str) -> &str
    ensures { result.now ≡ behind_bracket text.entry.now }
{
    let Some(first) = text.as_bytes().first() else {
        return text;
    };
    if *first == b'[' {
        text.split_at(1).1
    } else {
        text
    }
}

/// The URL of the open delimiter of an external link.
fn bracketed_url(text: &str) -> &str
    ensures { result.now ≡ bracketed_url text.entry.now }
{
    before_blank(behind_bracket(text))
}

/// The head of an external link with this open delimiter.
#[tactic(auto, unfolding(crate::specs::Heads::ext_link_head))]
pub fn ext_link_head<'a>(alloc: Global, opening: &[Piece<'a>]) -> Result<NodeHead<'a>, NoMemory>
    ensures { IfOk result (λ h. head_of h ≡ ext_link_head (items opening.now)) }
{
    let text = text_of(alloc, opening)?;
    let href = Str::copy_of(alloc, bracketed_url(text.as_str()))?;
    with_href(alloc, Kind::ExtLink, href)
}

/// The head of a bare URL of these pieces.
#[tactic(auto, unfolding(crate::specs::Heads::bare_url_head))]
pub fn bare_url_head<'a>(alloc: Global, pieces: &[Piece<'a>]) -> Result<NodeHead<'a>, NoMemory>
    ensures { IfOk result (λ h. head_of h ≡ bare_url_head (items pieces.now)) }
{
    let href = text_of(alloc, pieces)?;
    with_href(alloc, Kind::ExtLink, href)
}

/// What a switch that is written so is named as.
#[tactic(auto, unfolding(crate::specs::Heads::switch_names))]
fn switch_name(written: &str) -> &'static str
    ensures { result.now ≡ named switch_names written.now }
{
    match written {
        "__NOTOC__" => "notoc",
        "__FORCETOC__" => "forcetoc",
        "__TOC__" => "toc",
        "__NOEDITSECTION__" => "noeditsection",
        "__NEWSECTIONLINK__" => "newsectionlink",
        "__HIDDENCAT__" => "hiddencat",
        "__NOGALLERY__" => "nogallery",
        "__INDEX__" => "index",
        "__NOINDEX__" => "noindex",
        _ => "",
    }
}

#[tactic(auto, unfolding(crate::specs::Heads::switch_property))]
fn switch_property(alloc: Global, written: &str) -> Result<Str, NoMemory>
    ensures { IfOk result (λ s. s ≡ switch_property written.now) }
{
    let mut property = Str::copy_of(alloc, "mw:PageProp/")?;
    property.push_str(switch_name(written))?;
    Ok(property)
}

/// The head of a switch of these pieces.
#[tactic(auto, unfolding(crate::specs::Heads::switch_head))]
pub fn switch_head<'a>(alloc: Global, pieces: &[Piece<'a>]) -> Result<NodeHead<'a>, NoMemory>
    ensures { IfOk result (λ h. head_of h ≡ switch_head (items pieces.now)) }
{
    let written = source_of(alloc, pieces)?;
    let property = switch_property(alloc, written.as_str())?;
    with_attr(alloc, Kind::Switch, AttrName::Property, property)
}
