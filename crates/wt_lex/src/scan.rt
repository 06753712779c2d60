ghost use Rattle.std.specs.Prelude.{◌≡◌, ◌+◌, ◌-◌, ◌<◌, ◌≤◌, ◌^◌, ◌++◌, ℕ, List, [], ◌∷◌, false, map, length, slice_index, drop, IfOk, OnOk, IfSome};
ghost use Rattle.std.specs.List.{All};
ghost use Rattle.std.specs.Str.{IsCharBoundary};
ghost use Rattle.wt_span.specs.Comments.{comment_len};
ghost use Rattle.wt_span.specs.Tags.{raw_len};
ghost use Rattle.wt_span.specs.Entities.{entity_at};
ghost use Rattle.wt_span.specs.Lexemes.{as_word, comment_line_word, entity_word, form_at, closed, words};
ghost use Rattle.wt_lex.specs.Places.{word_of, Follow, AtBorders};
ghost use Rattle.wt_lex.specs.Words.{after_break, may_begin, remark_word, tag_word, inner_word};

use crate::entity::read_entity;
use crate::gone::Closings;
use crate::include::include_at;
use crate::lexeme::Lexeme;
use crate::sign::sign_word;
use crate::tag::{is_raw_name, opening_tag};
use std::alloc::Global;
use wt_comments::{byte_at, comment_len, comment_line_len};
use wt_span::{LexKind, List, Mode, NoMemory, Range, rest_of};

/// Whether a line break comes before a place.
fn is_after_break(text: &[u8], at: usize) -> bool
    ensures { result ≡ after_break text.now at }
{
    at > 0 && byte_at(text, at - 1) == b'\n'
}

/// Whether a form may begin with this byte.
fn may_begin(is_after_break: bool, byte: u8) -> bool
    ensures { result ≡ may_begin is_after_break byte }
{
    match byte {
        b'<' | b'&' | b'{' | b'}' | b'[' | b']' | b'|' | b'=' => true,
        b' ' | b'\t' => is_after_break,
        _ => false,
    }
}

/// The first place from a place on at which a form may begin, or the end of the text.
fn next_place(text: &[u8], from: usize) -> usize
    requires { from ≤ length text.now }
    ensures order { from ≤ result }
    ensures within { result ≤ length text.now }
    ensures none { (k : ℕ) → from ≤ k → k < result → may_begin (after_break text.now k) (slice_index text.now k) ≡ false }
{
    for at in from..text.len() {
        if may_begin(is_after_break(text, at), text[at]) {
            return at;
        }
    }
    text.len()
}

/// The comment line that begins a text, where one may.
fn comment_line_word(is_after_break: bool, bytes: &[u8]) -> Option<(LexKind, usize)>
    ensures value { result ≡ comment_line_word is_after_break bytes.now }
    ensures within { IfSome result (λ w. (0 < w.1) × (w.1 ≤ length bytes.now)) }
{
    if !is_after_break {
        return None;
    }
    let n = comment_line_len(bytes)?;
    Some((LexKind::CommentLine, n))
}

/// The comment that begins a text.
fn comment_word(bytes: &[u8]) -> Option<(LexKind, usize)>
    ensures value { result ≡ as_word LexKind.Comment (comment_len bytes.now) }
    ensures within { IfSome result (λ w. (0 < w.1) × (w.1 ≤ length bytes.now)) }
{
    let n = comment_len(bytes)?;
    Some((LexKind::Comment, n))
}

/// The comment line or the comment that begins a text.
fn remark_word(is_after_break: bool, bytes: &[u8]) -> Option<(LexKind, usize)>
    ensures value { result ≡ remark_word is_after_break bytes.now }
    ensures within { IfSome result (λ w. (0 < w.1) × (w.1 ≤ length bytes.now)) }
{
    comment_line_word(is_after_break, bytes).or(comment_word(bytes))
}

/// The raw tag that begins at a place, with its inside.
#[tactic(auto, unfolding(wt_span::specs::Tags::raw_len))]
fn raw_word(closings: &mut Closings<'_>, at: usize) -> Result<Option<(LexKind, usize)>, NoMemory>
    requires { at ≤ length closings.old }
    ensures kept { closings.new ≡ closings.old }
    ensures value { IfOk result (λ o. o ≡ as_word LexKind.Raw (raw_len (drop at closings.old))) }
    ensures within { IfOk result (λ o. IfSome o (λ w. (0 < w.1) × (at + w.1 ≤ length closings.old))) }
{
    let Some(tag) = opening_tag(rest_of(closings.text(), at)) else {
        return Ok(None);
    };
    if !is_raw_name(tag.name) {
        return Ok(None);
    }
    match closings.with_inside(tag, at)? {
        Some(n) => Ok(Some((LexKind::Raw, n))),
        None => Ok(None),
    }
}

/// The raw tag or the include tag that begins at a place.
#[tactic(auto, using(crate::proofs::TagForms::tag_none))]
fn tag_word(
    closings: &mut Closings<'_>,
    mode: Mode,
    at: usize,
) -> Result<Option<(LexKind, usize)>, NoMemory>
    requires { at ≤ length closings.old }
    ensures kept { closings.new ≡ closings.old }
    ensures value { IfOk result (λ o. o ≡ tag_word mode (drop at closings.old)) }
    ensures within { IfOk result (λ o. IfSome o (λ w. (0 < w.1) × (at + w.1 ≤ length closings.old))) }
{
    if byte_at(rest_of(closings.text(), at), 0) != b'<' {
        return Ok(None);
    }
    match raw_word(closings, at)? {
        Some(word) => Ok(Some(word)),
        None => include_at(closings, mode, at),
    }
}

/// The entity that begins a text.
fn entity_word(bytes: &[u8]) -> Option<(LexKind, usize)>
    ensures value { result ≡ entity_word (entity_at bytes.now) }
    ensures within { IfSome result (λ w. (0 < w.1) × (w.1 ≤ length bytes.now)) }
{
    let (character, n) = read_entity(bytes)?;
    Some((LexKind::Entity(character), n))
}

/// The entity, the run of braces or the sign that begins a text.
fn inner_word(bytes: &[u8]) -> Option<(LexKind, usize)>
    ensures value { result ≡ inner_word bytes.now }
    ensures within { IfSome result (λ w. (0 < w.1) × (w.1 ≤ length bytes.now)) }
{
    entity_word(bytes).or(sign_word(bytes))
}

/// The form that begins at a place: of several the first.
#[tactic(auto, unfolding(wt_span::specs::Lexemes::form_at))]
fn form_word(
    closings: &mut Closings<'_>,
    mode: Mode,
    at: usize,
) -> Result<Option<(LexKind, usize)>, NoMemory>
    requires { at ≤ length closings.old }
    ensures kept { closings.new ≡ closings.old }
    ensures value { IfOk result (λ o. o ≡ form_at mode (after_break closings.old at) (drop at closings.old)) }
    ensures within { IfOk result (λ o. IfSome o (λ w. (0 < w.1) × (at + w.1 ≤ length closings.old))) }
{
    let text = closings.text();
    let rest = rest_of(text, at);
    if let Some(word) = remark_word(is_after_break(text, at), rest) {
        return Ok(Some(word));
    }
    if let Some(word) = tag_word(closings, mode, at)? {
        return Ok(Some(word));
    }
    Ok(inner_word(rest))
}

/// Appends a run of characters, if it isn't empty.
#[tactic(auto, unfolding(wt_span::specs::Lexemes::closed))]
fn push_chars(lexemes: &mut List<Lexeme>, start: usize, end: usize) -> Result<(), NoMemory>
    requires order { start ≤ end }
    requires fits { end < 2 ^ 32 }
    ensures words { OnOk result (map word_of lexemes.new ≡ map word_of lexemes.old ++ closed (end - start) []) }
    ensures follow { OnOk result (Follow 0 lexemes.old start → Follow 0 lexemes.new end) }
    ensures borders { OnOk result ((text : List ℕ) → IsCharBoundary text start → IsCharBoundary text end
        → All (AtBorders text) lexemes.old → All (AtBorders text) lexemes.new) }
{
    if start < end {
        lexemes.push(Lexeme {
            kind: LexKind::Chars,
            at: Range {
                start: start as u32,
                end: end as u32,
            },
        })?;
    }
    Ok(())
}

/// Appends a form.
fn push_form(
    lexemes: &mut List<Lexeme>,
    kind: LexKind,
    start: usize,
    len: usize,
) -> Result<(), NoMemory>
    requires fits { start + len < 2 ^ 32 }
    ensures words { OnOk result (map word_of lexemes.new ≡ map word_of lexemes.old ++ (kind, len) ∷ []) }
    ensures follow { OnOk result (Follow 0 lexemes.old start → Follow 0 lexemes.new (start + len)) }
    ensures borders { OnOk result ((text : List ℕ) → IsCharBoundary text start → IsCharBoundary text (start + len)
        → All (AtBorders text) lexemes.old → All (AtBorders text) lexemes.new) }
{
    lexemes.push(Lexeme {
        kind,
        at: Range {
            start: start as u32,
            end: (start + len) as u32,
        },
    })?;
    Ok(())
}

/// The lexemes of a text, each where the one before ends: at each place the first form that begins
/// there, else a character; characters that follow one another are one lexeme.
///
/// The text of a template is given as it is left when the parts outside `onlyinclude` are taken
/// away. Places are bytes. The text is read once, from left to right, and what is sought in vain
/// once isn't sought again.
pub fn lex(alloc: Global, text: &str, mode: Mode) -> Result<List<Lexeme>, NoMemory>
    requires { length text.now < 2 ^ 32 }
    ensures words { IfOk result (λ ls. map word_of ls ≡ words mode text.now) }
    ensures follow { IfOk result (λ ls. Follow 0 ls (length text.now)) }
    ensures borders { IfOk result (λ ls. All (AtBorders text.now) ls) }
{
    let bytes = text.as_bytes();
    let mut closings = Closings::new(alloc, bytes);
    let mut lexemes = List::new(alloc);
    let mut from = 0;
    let mut at = next_place(bytes, from);
    while at < bytes.len() {
        let Some((kind, len)) = form_word(&mut closings, mode, at)? else {
            at = next_place(bytes, at + 1);
            continue;
        };
        push_chars(&mut lexemes, from, at)?;
        push_form(&mut lexemes, kind, at, len)?;
        from = at + len;
        at = next_place(bytes, from);
    }
    push_chars(&mut lexemes, from, at)?;
    Ok(lexemes)
}
