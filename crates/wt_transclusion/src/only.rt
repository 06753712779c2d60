//! The text that is taken of a template's page: where it has `<onlyinclude>` with a later
//! `</onlyinclude>`, only their insides.
ghost use Rattle.std.specs.Prelude.{◌≡◌, false, IfOk, option_map};
ghost use Rattle.wt_expand.specs.Templates.{begins_only, ends_only, has_only, insides, template_text};
ghost use Rattle.wt_transclusion.specs.Only.{first_at, behind_begin, IsNext};

use crate::blanks::behind;
use bumpalo::Bump;
use std::alloc::Global;
use wt_span::{NoMemory, Str, rest_of};

#[tactic(auto, unfolding(wt_expand::specs::Templates::begins_only))]
fn begins_only(bytes: &[u8]) -> bool
    ensures { result ≡ begins_only bytes.now }
{
    bytes.starts_with(b"<onlyinclude>")
}

#[tactic(auto, unfolding(wt_expand::specs::Templates::ends_only))]
fn ends_only(bytes: &[u8]) -> bool
    ensures { result ≡ ends_only bytes.now }
{
    bytes.starts_with(b"</onlyinclude>")
}

/// Where the first `<onlyinclude>` is.
fn first_begin(bytes: &[u8]) -> Option<usize>
    ensures { result ≡ first_at begins_only bytes.now }
{
    for at in 0..bytes.len() {
        if begins_only(rest_of(bytes, at)) {
            return Some(at);
        }
    }
    None
}

/// Where the first `</onlyinclude>` is.
fn first_end(bytes: &[u8]) -> Option<usize>
    ensures { result ≡ first_at ends_only bytes.now }
{
    for at in 0..bytes.len() {
        if ends_only(rest_of(bytes, at)) {
            return Some(at);
        }
    }
    None
}

/// What comes after the first `<onlyinclude>`.
fn behind_begin(text: &str) -> Option<&str>
    ensures { option_map (λ rest. rest.now) result ≡ behind_begin text.entry.now }
{
    match first_begin(text.as_bytes()) {
        Some(at) => Some(behind(behind(text, at), 13)),
        None => None,
    }
}

/// Whether an `<onlyinclude>` is anywhere with an `</onlyinclude>` after it.
fn has_only(text: &str) -> bool
    ensures { result ≡ has_only text.now }
{
    match behind_begin(text) {
        Some(rest) => first_end(rest.as_bytes()).is_some(),
        None => false,
    }
}

/// The next inside, up to its `</onlyinclude>` or the end, and what follows that.
fn next_inside(text: &str) -> Option<(&str, &str)>
    ensures { IsNext text.entry.now (option_map (λ cut. (cut.0.now, cut.1.now)) result) }
{
    let Some(inside) = behind_begin(text) else {
        return None;
    };
    let Some(end) = first_end(inside.as_bytes()) else {
        return Some((inside, ""));
    };
    let (front, rest) = inside.split_at(end);
    Some((front, behind(rest, 14)))
}

/// The insides, joined.
fn insides(alloc: Global, text: &str) -> Result<Str, NoMemory>
    ensures { IfOk result (λ taken. taken ≡ insides 0 false text.now) }
{
    let mut taken = Str::new(alloc);
    let mut left = text;
    while let Some((inside, rest)) = next_inside(left) {
        taken.push_str(inside)?;
        left = rest;
    }
    Ok(taken)
}

/// The text that is taken of a template's, in the arena.
#[tactic(auto, unfolding(wt_expand::specs::Templates::template_text))]
pub fn template_text<'a>(
    alloc: Global,
    arena: &'a Bump<Global>,
    text: &str,
) -> Result<&'a str, NoMemory>
    ensures { IfOk result (λ taken. taken.now ≡ template_text text.now) }
{
    if !has_only(text) {
        return Ok(arena.try_alloc_str(text)?);
    }
    let taken = insides(alloc, text)?;
    Ok(arena.try_alloc_str(taken.as_str())?)
}
