//! How a character of text is written.

ghost use Rattle.std.specs.Prelude.{◌≡◌, ◌++◌, OnOk, ℕ, List, string_bytes, codes, decimal};
ghost use Rattle.wt_guards.specs.Content.{ContentSign as AnySign};
ghost use Rattle.wt_guards.specs.Letters.{is_bracket, is_term, is_header, is_escaped, meets_mark, reference, written_by, written};
ghost use Rattle.wt_guards.specs.Views.{signs_left, IsBehind};

use crate::ahead::{is_apostrophe_or_end, is_end, is_next, opens_entity, opens_tag};
use crate::behind::Behind;
use crate::signs::Signs;
use std::alloc::AllocError;
use wt_tree::Place;

/// Written otherwise wherever they are.
fn is_bracket(c: char) -> bool
    ensures { result ≡ is_bracket c }
{
    c == '[' || c == ']' || c == '{' || c == '}' || c == '|' || c == '>'
}

fn is_term(place: Place) -> bool
    ensures { result ≡ is_term place }
{
    match place {
        Place::Term => true,
        Place::Paragraph | Place::Heading | Place::Item | Place::Cell | Place::Header => false,
    }
}

fn is_header(place: Place) -> bool
    ensures { result ≡ is_header place }
{
    match place {
        Place::Header => true,
        Place::Paragraph | Place::Heading | Place::Item | Place::Term | Place::Cell => false,
    }
}

/// Whether a `!` in a header cell is read with one beside it, or may be with the signs of the next cell, since it ends the
/// content. In the inside of a link or tag (`within`) no content ends.
fn meets_mark(within: bool, behind: Behind<'_>, after: Signs<'_, '_>) -> bool
    ensures { (source : List ℕ) (before : List AnySign) → IsBehind source before behind.entry
        → result ≡ meets_mark within before (signs_left after.entry) }
{
    is_next('!', behind.last) || is_next('!', after.peek()) || (!within && is_end(after.peek()))
}

/// Whether a character is written as a reference, by what comes before and after it. In the inside
/// of a link or tag (`within`) no line begins.
#[tactic(auto, unfolding(crate::specs::Letters::is_escaped))]
fn is_escaped(within: bool, place: Place, behind: Behind<'_>, c: char, after: Signs<'_, '_>) -> bool
    ensures { (source : List ℕ) (before : List AnySign) → IsBehind source before behind.entry
        → result ≡ is_escaped within place before c (signs_left after.entry) }
{
    if is_bracket(c) {
        return true;
    }
    match c {
        '<' => opens_tag(after.peek()),
        '&' => opens_entity(after.peek()),
        '\'' => is_apostrophe_or_end(behind.last) || is_apostrophe_or_end(after.peek()),
        '_' => is_next('_', behind.last),
        ':' => is_term(place) || after.are_slashes(),
        '=' => after.is_blank_to_end(),
        '!' => {
            (is_header(place) && meets_mark(within, behind, after))
                || (!within && behind.is_indented)
        }
        _ => false,
    }
}

/// Appends `>`, `<` and `&` by their names, and others by their numbers.
#[tactic(auto, unfolding(crate::specs::Letters::reference))]
fn push_reference(out: &mut String, c: char) -> Result<(), AllocError>
    ensures { OnOk result (string_bytes out.new ≡ string_bytes out.old ++ reference c) }
{
    match c {
        '>' => out.push_str("&gt;"),
        '<' => out.push_str("&lt;"),
        '&' => out.push_str("&amp;"),
        _ => push_number(out, c),
    }
}

fn push_number(out: &mut String, c: char) -> Result<(), AllocError>
    ensures { OnOk result (string_bytes out.new ≡ string_bytes out.old ++ (codes "&#" ++ (decimal c ++ codes ";"))) }
{
    let number = c as u32;
    let mut buffer = itoa::Buffer::new();
    out.push_str("&#")?;
    out.push_str(buffer.format(number))?;
    out.push_str(";")?;
    Ok(())
}

fn push_written(out: &mut String, is_escaped: bool, c: char) -> Result<(), AllocError>
    ensures { OnOk result (string_bytes out.new ≡ string_bytes out.old ++ written_by is_escaped c) }
{
    if is_escaped {
        push_reference(out, c)?;
    } else {
        out.push(c)?;
    }
    Ok(())
}

/// Appends a character of text, by what comes before and after it.
pub fn push_letter(
    out: &mut String,
    within: bool,
    place: Place,
    behind: Behind<'_>,
    c: char,
    after: Signs<'_, '_>,
) -> Result<(), AllocError>
    ensures { (source : List ℕ) (before : List AnySign) → IsBehind source before behind.entry
        → OnOk result (string_bytes out.new ≡ string_bytes out.old ++ written within place before c (signs_left after.entry)) }
{
    let is_escaped = is_escaped(within, place, behind, c, after);
    push_written(out, is_escaped, c)
}
