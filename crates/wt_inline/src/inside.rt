//! The inside of `nowiki`: characters and entities.

ghost use Rattle.std.specs.Prelude.{◌≡◌, ◌<◌, ◌≤◌, ◌++◌, ◌∷◌, [], ℕ, None, Some, true, length, take, drop, map, IsSome, IfSome};
ghost use Rattle.std.specs.Str.{IsCharBoundary};
ghost use Rattle.wt_span.specs.Entities.{entity_at};
ghost use Rattle.wt_span.specs.Slice.{bytes_of};
ghost use Rattle.wt_span.specs.Items.{items_of, char, whole, call_of_origin};
ghost use Rattle.wt_span.specs.declared.form.ItemForm.TheVariants as form;
ghost use Rattle.wt_inline.specs.Inside.{inside_items};

use wt_lex::read_entity;
use wt_lines::chars_piece;
use wt_span::{ItemForm, Origin, Piece, Text, rest_of};

/// The entity that begins a text: its character, and how many bytes it takes.
fn entity_at(bytes: &[u8]) -> Option<(char, usize)>
    ensures { result ≡ entity_at bytes.now }
{
    if bytes.starts_with(b"&") {
        read_entity(bytes)
    } else {
        None
    }
}

/// The entity that begins a text, after which the text may be cut.
fn front_entity(text: &str) -> Option<(char, usize)>
    ensures value { result ≡ entity_at text.now }
    ensures fits { IfSome result (λ e. (0 < e.1) × (e.1 ≤ length text.now) × IsCharBoundary text.now e.1) }
{
    entity_at(text.as_bytes())
}

/// How many bytes come before the first entity; all where there is none.
fn chars_len(bytes: &[u8]) -> usize
    ensures within { result ≤ length bytes.now }
    ensures chars { (k : ℕ) → k < result → entity_at (drop k bytes.now) ≡ None }
    ensures stopped { result < length bytes.now → IsSome (entity_at (drop result bytes.now)) }
{
    for at in 0..bytes.len() {
        if entity_at(rest_of(bytes, at)).is_some() {
            return at;
        }
    }
    bytes.len()
}

/// An origin for this part of a text.
fn origin_of(origin: Origin, text: Text<'_>) -> Origin
    ensures { call_of_origin result ≡ call_of_origin origin }
{
    match origin {
        Origin::Page(_) => Origin::Page(text.range()),
        Origin::Call(call) => Origin::Call(call),
    }
}

/// An entity that begins a text, and what follows it.
fn split_entity<'a>(
    text: Text<'a>,
    character: char,
    len: usize,
    origin: Origin,
) -> (Piece<'a>, Text<'a>)
    requires within { len ≤ length (bytes_of text) }
    requires border { IsCharBoundary (bytes_of text) len }
    ensures items { items_of result.0 ≡ whole (form.Entity character) (call_of_origin origin) (take len (bytes_of text.entry)) ∷ [] }
    ensures rest { bytes_of result.1 ≡ drop len (bytes_of text.entry) }
{
    let place = text.range().start + len as u32;
    let (front, back) = text.split_at(place);
    let piece = Piece {
        text: front,
        form: ItemForm::Entity(character),
        origin: origin_of(origin, front),
    };
    (piece, back)
}

/// How many characters come before the first entity, where none begins the text.
fn front_len(text: &str) -> usize
    requires some { 0 < length text.now }
    requires none { entity_at text.now ≡ None }
    ensures some_chars { 0 < result }
    ensures within { result ≤ length text.now }
    ensures chars { (k : ℕ) → k < result → entity_at (drop k text.now) ≡ None }
    ensures border { IsCharBoundary text.now result }
{
    chars_len(text.as_bytes())
}

/// The characters that begin a text, and what follows them.
fn split_chars<'a>(text: Text<'a>, origin: Origin) -> (Piece<'a>, Text<'a>)
    requires some { 0 < length (bytes_of text) }
    requires none { entity_at (bytes_of text) ≡ None }
    ensures items { items_of result.0 ++ inside_items (call_of_origin origin) 0 (bytes_of result.1)
        ≡ inside_items (call_of_origin origin) 0 (bytes_of text.entry) }
    ensures shorter { length (bytes_of result.1) < length (bytes_of text.entry) }
{
    let place = text.range().start + front_len(text.as_str()) as u32;
    let (front, back) = text.split_at(place);
    (chars_piece(front, origin), back)
}

/// The first piece of the inside of `nowiki`, and what follows it.
pub fn split_inside<'a>(text: Text<'a>, origin: Origin) -> (Piece<'a>, Text<'a>)
    requires { 0 < length (bytes_of text) }
    ensures items { items_of result.0 ++ inside_items (call_of_origin origin) 0 (bytes_of result.1)
        ≡ inside_items (call_of_origin origin) 0 (bytes_of text.entry) }
    ensures shorter { length (bytes_of result.1) < length (bytes_of text.entry) }
{
    match front_entity(text.as_str()) {
        Some((character, len)) => split_entity(text, character, len, origin),
        None => split_chars(text, origin),
    }
}
