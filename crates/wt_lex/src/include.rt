ghost use Rattle.std.specs.Prelude.{◌≡◌, ◌+◌, ◌<◌, ◌≤◌, length, drop, IfOk, IfSome};
ghost use Rattle.wt_span.specs.Bytes.{lower};
ghost use Rattle.wt_span.specs.Tags.{opening_tag, closing_tag, hides, is_left_out, hidden_len, opening_include, closing_include, include_at};
ghost use Rattle.wt_lex.specs.TagView.{tag_of};

use crate::gone::Closings;
use crate::tag::{ReadTag, closing_tag, is_same_name, opening_tag};
use wt_span::{LexKind, Mode, NoMemory, rest_of};

/// Whether the inside of a tag of this name isn't shown.
fn hides(mode: Mode, name: &[u8]) -> bool
    ensures { result ≡ hides mode (lower name.now) }
{
    match mode {
        Mode::Page => is_same_name(name, b"includeonly"),
        Mode::Template => is_same_name(name, b"noinclude"),
    }
}

/// Whether a tag of this name is left out, and its inside shown.
fn is_left_out(mode: Mode, name: &[u8]) -> bool
    ensures { result ≡ is_left_out mode (lower name.now) }
{
    match mode {
        Mode::Page => is_same_name(name, b"noinclude") || is_same_name(name, b"onlyinclude"),
        Mode::Template => is_same_name(name, b"includeonly"),
    }
}

/// How many bytes a hidden part takes whose tag begins at a place.
fn hidden_len<'a>(
    closings: &mut Closings<'a>,
    tag: ReadTag<'a>,
    at: usize,
) -> Result<usize, NoMemory>
    requires some { 0 < tag.len }
    requires fits { at + tag.len ≤ length closings.old }
    ensures kept { closings.new ≡ closings.old }
    ensures value { IfOk result (λ n. n ≡ hidden_len (tag_of tag.entry) (drop at closings.old)) }
    ensures within { IfOk result (λ n. (0 < n) × (at + n ≤ length closings.old)) }
{
    let length = closings.text().len();
    match closings.with_inside(tag, at)? {
        Some(n) => Ok(n),
        None => Ok(length - at),
    }
}

/// The include tag, with a hidden inside or alone, that begins at a place by an opening tag.
fn opening_include(
    closings: &mut Closings<'_>,
    mode: Mode,
    at: usize,
) -> Result<Option<(LexKind, usize)>, NoMemory>
    requires { at ≤ length closings.old }
    ensures kept { closings.new ≡ closings.old }
    ensures value { IfOk result (λ o. o ≡ opening_include mode (opening_tag (drop at closings.old)) (drop at closings.old)) }
    ensures within { IfOk result (λ o. IfSome o (λ w. (0 < w.1) × (at + w.1 ≤ length closings.old))) }
{
    let Some(tag) = opening_tag(rest_of(closings.text(), at)) else {
        return Ok(None);
    };
    if hides(mode, tag.name) {
        let n = hidden_len(closings, tag, at)?;
        return Ok(Some((LexKind::Hidden, n)));
    }
    if is_left_out(mode, tag.name) {
        return Ok(Some((LexKind::Include, tag.len)));
    }
    Ok(None)
}

/// The closing include tag that begins a text.
fn closing_include(mode: Mode, bytes: &[u8]) -> Option<(LexKind, usize)>
    ensures value { result ≡ closing_include mode (closing_tag bytes.now) }
    ensures within { IfSome result (λ w. (0 < w.1) × (w.1 ≤ length bytes.now)) }
{
    match closing_tag(bytes) {
        Some(tag) if is_left_out(mode, tag.name) => Some((LexKind::Include, tag.len)),
        _ => None,
    }
}

/// The include tag that begins at a place.
#[tactic(auto, unfolding(wt_span::specs::Tags::include_at))]
pub fn include_at(
    closings: &mut Closings<'_>,
    mode: Mode,
    at: usize,
) -> Result<Option<(LexKind, usize)>, NoMemory>
    requires { at ≤ length closings.old }
    ensures kept { closings.new ≡ closings.old }
    ensures value { IfOk result (λ o. o ≡ include_at mode (drop at closings.old)) }
    ensures within { IfOk result (λ o. IfSome o (λ w. (0 < w.1) × (at + w.1 ≤ length closings.old))) }
{
    let rest = rest_of(closings.text(), at);
    let opening = opening_include(closings, mode, at)?;
    Ok(opening.or(closing_include(mode, rest)))
}
