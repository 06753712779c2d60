//! What a good title is, and the reading of a text as a title, where it is one.
ghost use Rattle.std.specs.Prelude.{◌≡◌, IfOk};
ghost use Rattle.std.specs.List.{list_any};
ghost use Rattle.wt_names.specs.Namespace.{full_name_of};
ghost use Rattle.wt_names.specs.Good.{is_forbidden, is_allowed, begins, holds, ends, begins_with_escape, has_escape, has_signature, is_step, begins_with_step, holds_step, ends_with_step, is_relative, is_some_text, is_named, is_good, read_text};

use crate::reading::title_in;
use crate::title::{Title, full_name};
use std::alloc::Global;
use wt_span::{NoMemory, Str, rest_of};

/// Whether the text begins with the word.
fn begins(text: &str, word: &str) -> bool
    ensures { result ≡ begins word.now text.now }
{
    text.starts_with(word)
}

/// Whether the word is anywhere in the text.
fn holds(text: &str, word: &str) -> bool
    ensures { result ≡ holds word.now text.now }
{
    text.contains(word)
}

/// Whether the text ends with the word.
fn ends(text: &str, word: &str) -> bool
    ensures { result ≡ ends word.now text.now }
{
    text.ends_with(word)
}

/// Whether a byte may be in no title.
#[tactic(auto, unfolding(crate::specs::Good::is_forbidden))]
fn is_forbidden(byte: u8) -> bool
    ensures { result ≡ is_forbidden byte }
{
    matches!(
        byte,
        0..32 | 127 | b'<' | b'>' | b'[' | b']' | b'{' | b'}' | b'|'
    )
}

/// Whether a forbidden byte is among the bytes.
fn has_forbidden(bytes: &[u8]) -> bool
    ensures { result ≡ list_any is_forbidden bytes.now }
{
    bytes.iter().any(|byte| is_forbidden(*byte))
}

/// Whether no forbidden byte is in the text.
#[tactic(auto, unfolding(crate::specs::Good::is_allowed))]
fn is_allowed(text: &str) -> bool
    ensures { result ≡ is_allowed text.now }
{
    !has_forbidden(text.as_bytes())
}

/// Whether the bytes begin with `%` and two hexadecimal digits.
fn begins_with_escape(bytes: &[u8]) -> bool
    ensures { result ≡ begins_with_escape bytes.now }
{
    match bytes {
        [b'%', high, low, ..] => high.is_ascii_hexdigit() && low.is_ascii_hexdigit(),
        _ => false,
    }
}

/// Whether `%` and two hexadecimal digits are anywhere in the name.
fn has_escape(name: &[u8]) -> bool
    ensures { result ≡ has_escape name.now }
{
    for at in 0..name.len() {
        if begins_with_escape(rest_of(name, at)) {
            return true;
        }
    }
    false
}

/// Whether three tildes are in the name.
#[tactic(auto, unfolding(crate::specs::Good::has_signature))]
fn has_signature(name: &str) -> bool
    ensures { result ≡ has_signature name.now }
{
    holds(name, "~~~")
}

/// Whether the full name is a step to this folder or the one above.
#[tactic(auto, unfolding(crate::specs::Good::is_step))]
fn is_step(full: &str) -> bool
    ensures { result ≡ is_step full.now }
{
    full == "." || full == ".."
}

/// Whether it begins with one.
#[tactic(auto, unfolding(crate::specs::Good::begins_with_step))]
fn begins_with_step(full: &str) -> bool
    ensures { result ≡ begins_with_step full.now }
{
    begins(full, "./") || begins(full, "../")
}

/// Whether one is inside.
#[tactic(auto, unfolding(crate::specs::Good::holds_step))]
fn holds_step(full: &str) -> bool
    ensures { result ≡ holds_step full.now }
{
    holds(full, "/./") || holds(full, "/../")
}

/// Whether it ends with one.
#[tactic(auto, unfolding(crate::specs::Good::ends_with_step))]
fn ends_with_step(full: &str) -> bool
    ensures { result ≡ ends_with_step full.now }
{
    ends(full, "/.") || ends(full, "/..")
}

/// Whether a step to this folder or the one above is in the full name.
fn is_relative(full: &str) -> bool
    ensures { result ≡ is_relative full.now }
{
    is_step(full) || begins_with_step(full) || holds_step(full) || ends_with_step(full)
}

/// Whether there is a text that isn't empty.
fn is_some_text(text: &Option<Str>) -> bool
    ensures { result ≡ is_some_text text.now }
{
    match text {
        Some(text) => !text.as_str().is_empty(),
        None => false,
    }
}

/// Whether a title with this full name has a name, or nothing but a fragment.
fn is_named(title: &Title, full: &str) -> bool
    requires { full.now ≡ full_name_of title.now }
    ensures { result ≡ is_named title.now }
{
    !title.name.as_str().is_empty() || full.is_empty() && is_some_text(&title.fragment)
}

/// The most bytes of a full name.
pub const FULL_NAME_BYTES: usize = 255;

/// Whether a title with this full name is good.
#[tactic(auto, unfolding(crate::specs::Good::is_good))]
fn is_good(title: &Title, full: &str) -> bool
    requires { full.now ≡ full_name_of title.now }
    ensures { result ≡ is_good title.now }
{
    let name = title.name.as_str();
    is_named(title, full)
        && full.len() <= FULL_NAME_BYTES
        && !name.starts_with(':')
        && !has_escape(name.as_bytes())
        && !has_signature(name)
        && !is_relative(full)
}

/// The title that a text names, after MediaWiki's rules of page names; `None` where it names none:
/// where it holds a forbidden character, or what was read breaks one of the conditions of a good
/// title. The only other answer is want of memory.
#[tactic(auto, unfolding(crate::specs::Good::read_text))]
pub fn read_title(alloc: Global, text: &str) -> Result<Option<Title>, NoMemory>
    ensures { IfOk result (λ t. t ≡ read_text text.now) }
{
    if !is_allowed(text) {
        return Ok(None);
    }
    let title = title_in(alloc, text)?;
    let full = full_name(alloc, &title)?;
    if is_good(&title, full.as_str()) {
        Ok(Some(title))
    } else {
        Ok(None)
    }
}
