//! The targets of links.

ghost use Rattle.std.specs.Prelude.{◌≡◌, ◌≤◌, ◌-◌, ◌++◌, length, drop, take, reverse, IfOk, OnOk};
ghost use Rattle.std.specs.List.{list_any, flat_map, prefix_len};
ghost use Rattle.wt_names.specs.Written.{read_bytes};
ghost use Rattle.wt_span.specs.Bytes.{is_white};
ghost use Rattle.wt_tiles.specs.Links.{is_atom, text_of, trimmed_start, trimmed_end, target_in, target_of, kind_in, kind_of};

use crate::glyph::Glyph;
use std::alloc::Global;
use wt_names::{Ns, Title, read_title};
use wt_span::{NoMemory, front_of, rest_of};

/// What a link does by its target: it leads to a page, puts the page into a category, or shows
/// media.
#[derive(Clone, Copy, Debug, PartialEq, Eq)]
pub enum LinkKind {
    Page,
    Category,
    Media,
}

/// A link's target: its title, and whether a colon comes before that, with which a category and
/// media are only led to.
#[derive(Debug, Drop)]
pub struct Target {
    pub colon: bool,
    pub title: Title,
}

fn kind_in(ns: Ns) -> LinkKind
    ensures { result ≡ kind_in ns }
{
    match ns {
        Ns::File => LinkKind::Media,
        Ns::Category => LinkKind::Category,
        _ => LinkKind::Page,
    }
}

impl Target {
    /// What a link with this target does.
    pub fn kind(&self) -> LinkKind
        ensures { result ≡ kind_of self.now }
    {
        if self.colon {
            LinkKind::Page
        } else {
            kind_in(self.title.ns)
        }
    }
}

fn is_atom(glyph: Glyph) -> bool
    ensures { result ≡ is_atom glyph }
{
    match glyph {
        Glyph::Atom => true,
        Glyph::Byte(_) | Glyph::Entity(_) | Glyph::Mark => false,
    }
}

/// Whether an atom that is no entity is among the items.
fn has_atom(glyphs: &[Glyph]) -> bool
    ensures { result ≡ list_any is_atom glyphs.now }
{
    glyphs.iter().any(|glyph| is_atom(*glyph))
}

/// Appends the text of an item: a character's byte, an entity's character.
fn push_text(out: &mut Vec<u8>, glyph: Glyph) -> Result<(), NoMemory>
    ensures { OnOk result (out.new.items ≡ out.old.items ++ text_of glyph) }
{
    match glyph {
        Glyph::Byte(byte) => out.push(byte)?,
        Glyph::Entity(character) => {
            let mut buffer = [0; 4];
            let text = character.encode_utf8(&mut buffer);
            out.extend_from_slice(text.as_bytes())?;
        }
        Glyph::Atom | Glyph::Mark => {}
    }
    Ok(())
}

/// The text of items.
fn text_of(alloc: Global, glyphs: &[Glyph]) -> Result<Vec<u8>, NoMemory>
    ensures { IfOk result (λ text. text.items ≡ flat_map text_of glyphs.now) }
{
    let mut out = Vec::new(alloc);
    for glyph in glyphs {
        push_text(&mut out, *glyph)?;
    }
    Ok(out)
}

/// A space, a tab or a line break.
fn is_white(byte: u8) -> bool
    ensures { result ≡ is_white byte }
{
    byte == b' ' || byte == b'\t' || byte == b'\n'
}

/// How many blanks and line breaks are first.
fn space_len(bytes: &[u8]) -> usize
    ensures value { result ≡ prefix_len is_white bytes.now }
    ensures within { result ≤ length bytes.now }
{
    for (i, byte) in bytes.iter().enumerate() {
        if !is_white(*byte) {
            return i;
        }
    }
    bytes.len()
}

/// How many bytes there are up to and with the last one that is neither blank nor line break.
fn spaceless_len(bytes: &[u8]) -> usize
    ensures value { result ≡ length bytes.now - prefix_len is_white (reverse bytes.now) }
    ensures within { result ≤ length bytes.now }
{
    let mut end = bytes.len();
    while end > 0 && is_white(bytes[end - 1]) {
        end -= 1;
    }
    end
}

/// A text without the blanks and line breaks at both its ends.
fn trimmed(bytes: &[u8]) -> &[u8]
    ensures { result.now ≡ trimmed_end (trimmed_start bytes.entry.now) }
{
    let rest = rest_of(bytes, space_len(bytes));
    front_of(rest, spaceless_len(rest))
}

/// The title that bytes are, where they are a text and that is one.
fn read_bytes(alloc: Global, bytes: &[u8]) -> Result<Option<Title>, NoMemory>
    ensures { IfOk result (λ title. title ≡ read_bytes bytes.now) }
{
    match str::from_utf8(bytes) {
        Ok(text) => read_title(alloc, text),
        Err(_) => Ok(None),
    }
}

/// The target that a text is: a title, after a colon that may be first.
fn target_in(alloc: Global, bytes: &[u8]) -> Result<Option<Target>, NoMemory>
    ensures { IfOk result (λ target. target ≡ target_in bytes.now) }
{
    let colon = bytes.starts_with(b":");
    let text = if colon { rest_of(bytes, 1) } else { bytes };
    match read_bytes(alloc, text)? {
        Some(title) => Ok(Some(Target { colon, title })),
        None => Ok(None),
    }
}

/// The target that items are, if they are one: the text of characters and entities, trimmed, has to
/// be a good title after an optional colon, and no other atom may be among them.
#[tactic(auto, unfolding(crate::specs::Links::target_of))]
pub fn target_of(alloc: Global, glyphs: &[Glyph]) -> Result<Option<Target>, NoMemory>
    ensures { IfOk result (λ target. target ≡ target_of glyphs.now) }
{
    if has_atom(glyphs) {
        return Ok(None);
    }
    let text = text_of(alloc, glyphs)?;
    target_in(alloc, trimmed(text.as_slice()))
}
