//! One attribute, at the front of a text.

ghost use Rattle.std.specs.Prelude.{◌≡◌, ◌<◌, ◌-◌, None, Some, MatchOption, codes, true, option_map, length, drop, slice_index, if◌then◌else◌};
ghost use Rattle.std.specs.Str.{bytes_eq};
ghost use Rattle.wt_span.specs.Bytes.{lower};
ghost use Rattle.wt_attributes.specs.Attributes.{begins_any_case, after_word, name_at, quoted, bare, after_sign, value_at, after_equals, assigned, attribute_at};
ghost use Rattle.wt_attributes.specs.Classes.{ends_in_ascii};
ghost use Rattle.wt_attributes.specs.Views.{named};

use crate::class::{ScanClass, past_blanks};
use wt_span::front_of;
use wt_tree::AttrName;

/// An attribute as it is read in a text.
#[derive(Clone, Copy, Debug)]
pub struct Attribute<'t> {
    pub name: AttrName,
    pub value: &'t str,
}

/// Whether two texts are the same without ASCII case.
fn is_same(a: &[u8], b: &[u8]) -> bool
    ensures { result ≡ bytes_eq (lower a.now) (lower b.now) }
{
    a.eq_ignore_ascii_case(b)
}

/// The word begins the text, in any case.
#[tactic(auto, using(std::proofs::lemmas::List::take_min), unfolding(crate::specs::Attributes::begins_any_case))]
fn begins_any_case(word: &[u8], bytes: &[u8]) -> bool
    ensures { result ≡ begins_any_case word.now bytes.now }
{
    let len = word.len().min(bytes.len());
    is_same(front_of(bytes, len), word)
}

/// The name, where its word begins the text, and what is left after it.
fn after_word<'t>(name: AttrName, word: &[u8], text: &'t str) -> Option<(AttrName, &'t str)>
    requires some { 0 < length word.now }
    requires ascii { slice_index word.now (length word.now - 1) < 128 }
    ensures { option_map (λ r. (r.0, r.1.now)) result ≡ after_word name word.now text.entry.now }
{
    if begins_any_case(word, text.as_bytes()) {
        let (_, rest) = text.split_at(word.len());
        Some((name, rest))
    } else {
        None
    }
}

/// The name that begins a text, and what is left after it.
#[tactic(auto, unfolding(crate::specs::Attributes::name_at))]
fn name_at(text: &str) -> Option<(AttrName, &str)>
    ensures { option_map (λ r. (r.0, r.1.now)) result ≡ name_at text.entry.now }
{
    after_word(AttrName::Class, b"class", text)
        .or_else(|| after_word(AttrName::Colspan, b"colspan", text))
        .or_else(|| after_word(AttrName::Rowspan, b"rowspan", text))
        .or_else(|| after_word(AttrName::Scope, b"scope", text))
        .or_else(|| after_word(AttrName::Lang, b"lang", text))
        .or_else(|| after_word(AttrName::Dir, b"dir", text))
}

/// The value whose opening quote comes before the text, and what is left after the quote that ends
/// it.
#[tactic(auto, unfolding(crate::specs::Attributes::quoted))]
fn quoted(no_quote: ScanClass, text: &str) -> Option<(&str, &str)>
    requires { ends_in_ascii no_quote ≡ true }
    ensures { option_map (λ r. (r.0.now, r.1.now)) result ≡ quoted no_quote text.entry.now }
{
    no_quote.split_ended(text)
}

/// A value without quotes that begins a text, and what is left after it.
#[tactic(auto, unfolding(crate::specs::Attributes::bare))]
fn bare(text: &str) -> Option<(&str, &str)>
    ensures { option_map (λ r. (r.0.now, r.1.now)) result ≡ bare text.entry.now }
{
    let (value, rest) = ScanClass::Bare.split_run(text);
    if value.is_empty() {
        None
    } else {
        Some((value, rest))
    }
}

/// What follows a sign that begins a text.
fn after_sign(sign: u8, text: &str) -> Option<&str>
    requires { sign < 128 }
    ensures { option_map (λ r. r.now) result ≡ after_sign sign text.entry.now }
{
    let first = text.as_bytes().first()?;
    if *first == sign {
        Some(text.split_at(1).1)
    } else {
        None
    }
}

/// The value that begins a text, and what is left after it.
#[tactic(auto, unfolding(crate::specs::Attributes::value_at))]
fn value_at(text: &str) -> Option<(&str, &str)>
    ensures { option_map (λ r. (r.0.now, r.1.now)) result ≡ value_at text.entry.now }
{
    if let Some(inside) = after_sign(b'"', text) {
        return quoted(ScanClass::NoDouble, inside);
    }
    if let Some(inside) = after_sign(b'\'', text) {
        return quoted(ScanClass::NoSingle, inside);
    }
    bare(text)
}

/// What follows a `=` that begins a text, blanks passed over.
fn after_equals(text: &str) -> Option<&str>
    ensures { option_map (λ r. r.now) result ≡ after_equals text.entry.now }
{
    let rest = after_sign(b'=', text)?;
    Some(past_blanks(rest))
}

/// The value that is given with a `=` at the front of a text, and what is left after it.
#[tactic(auto, unfolding(crate::specs::Attributes::assigned))]
fn assigned(text: &str) -> Option<(&str, &str)>
    ensures { option_map (λ r. (r.0.now, r.1.now)) result ≡ assigned text.entry.now }
{
    let text = after_equals(past_blanks(text))?;
    value_at(text)
}

/// The attribute that begins a text, and what is left after it.
#[tactic(auto, unfolding(crate::specs::Attributes::attribute_at))]
pub fn attribute_at(text: &str) -> Option<(Attribute<'_>, &str)>
    ensures { option_map (λ r. (named r.0, r.1.now)) result ≡ attribute_at text.entry.now }
{
    let (name, text) = name_at(text)?;
    let (value, rest) = assigned(text)?;
    Some((Attribute { name, value }, rest))
}
