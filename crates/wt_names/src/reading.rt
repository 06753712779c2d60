//! How a text is read as a title, step by step.
ghost use Rattle.std.specs.Prelude.{◌≡◌, ◌<◌, IfOk, string_bytes, option_map};
ghost use Rattle.wt_names.specs.Reading.{split_once, squeezed, trimmed, raised, page_part, fragment_part, named_part, cut_namespace, spaced_title, title_in};

use crate::characters::spaced;
use crate::namespace::{Ns, namespace_named};
use crate::title::Title;
use std::alloc::Global;
use wt_span::{NoMemory, Str};

/// The text before the first `sign` and the text after it, where there is one.
fn split_once(text: &str, sign: char) -> Option<(&str, &str)>
    requires { sign < 128 }
    ensures { option_map (λ parts. (parts.0.now, parts.1.now)) result ≡ split_once sign text.now }
{
    text.split_once(sign)
}

/// The text with one space for each run of spaces.
fn squeezed(alloc: Global, text: &str) -> Result<String, NoMemory>
    ensures { IfOk result (λ s. string_bytes s ≡ squeezed text.now) }
{
    let mut out = String::new(alloc);
    let mut after_space = false;
    for c in text.chars() {
        if c != ' ' || !after_space {
            out.push(c)?;
        }
        after_space = c == ' ';
    }
    Ok(out)
}

/// The text without the spaces at its start and at its end.
fn trimmed(text: &str) -> &str
    ensures { result.now ≡ trimmed text.now }
{
    text.trim_start_matches(' ').trim_end_matches(' ')
}

/// The name with its first character in upper case, where that is an ASCII letter.
fn raised(alloc: Global, name: &str) -> Result<Str, NoMemory>
    ensures { IfOk result (λ s. s ≡ raised name.now) }
{
    let mut out = String::new(alloc);
    let mut chars = name.chars();
    if let Some(first) = chars.next() {
        out.push(first.to_ascii_uppercase())?;
        out.push_str(chars.as_str())?;
    }
    Ok(Str::from_string(out))
}

/// The fragment of a text with spaces: what follows its first `#`, where there is one.
fn fragment_in(alloc: Global, text: &str) -> Result<Option<Str>, NoMemory>
    ensures { IfOk result (λ fragment. fragment ≡ fragment_part (split_once 35 text.now)) }
{
    match split_once(text, '#') {
        Some((_, fragment)) => Ok(Some(Str::copy_of(alloc, trimmed(fragment))?)),
        None => Ok(None),
    }
}

/// The part of a text with spaces that names the page: what comes before its first `#`, or all.
fn page_part(text: &str) -> &str
    ensures { result.now ≡ page_part (split_once 35 text.now) text.now }
{
    match split_once(text, '#') {
        Some((page, _)) => page,
        None => text,
    }
}

/// The namespace that is named before the first colon and what follows it, where one is.
fn named_part(whole: &str) -> Option<(Ns, &str)>
    ensures { option_map (λ part. (part.0, part.1.now)) result ≡ named_part (split_once 58 whole.now) }
{
    let (prefix, rest) = split_once(whole, ':')?;
    let ns = namespace_named(trimmed(prefix))?;
    Some((ns, trimmed(rest)))
}

/// The namespace, and what is left of the part that names the page.
#[tactic(auto, unfolding(crate::specs::Reading::cut_namespace))]
fn cut_namespace(whole: &str) -> (Ns, &str)
    ensures { (result.0, result.1.now) ≡ cut_namespace whole.now }
{
    match named_part(whole) {
        Some((ns, name)) => (ns, name),
        None => (Ns::Main, whole),
    }
}

/// The title that a text with spaces names, good or not.
#[tactic(auto, unfolding(crate::specs::Reading::whole_in))]
fn spaced_title(alloc: Global, text: &str) -> Result<Title, NoMemory>
    ensures { IfOk result (λ t. t ≡ spaced_title text.now) }
{
    let squeezed = squeezed(alloc, page_part(text))?;
    let (ns, name) = cut_namespace(trimmed(squeezed.as_str()));
    Ok(Title {
        ns,
        name: raised(alloc, name)?,
        fragment: fragment_in(alloc, text)?,
    })
}

/// The title that a text names, good or not.
#[tactic(auto, unfolding(crate::specs::Reading::title_in))]
pub fn title_in(alloc: Global, text: &str) -> Result<Title, NoMemory>
    ensures { IfOk result (λ t. t ≡ title_in text.now) }
{
    let spaced = spaced(alloc, text)?;
    spaced_title(alloc, spaced.as_str())
}
