ghost use Rattle.std.specs.Prelude.{◌≡◌, ℕ, ◌&&◌, List, ◌∷◌, Option, find, length, drop, option_map};
ghost use Rattle.std.specs.Str.{bytes_eq};
ghost use Rattle.wt_html_elements.specs.Built.{pairs, view_content, views};
ghost use Rattle.wt_span.specs.Bytes.{begins};
ghost use Rattle.wt_tree.specs.Kinds.{fixed_of, level_digits, order, spelling_of};
ghost use Rattle.wt_schema.specs.Rows.{values_at, agrees, is_value, agrees_by, is_row, row_by, row, holds_text, shows_text};
ghost use Rattle.wt_schema.specs.Sections.{is_section_name};
ghost use Rattle.wt_recut.specs.Recut.{is_blank};
ghost use Rattle.wt_schema.specs.Fit.{are_blank, text_fits};
ghost use Rattle.wt_html_nodes.specs.Told.{is_blank_or_element};

use crate::attributes::value_of;
use crate::typed::{is_needed, is_word, passes};
use wt_html_elements::{Attribute, Content};
use wt_span::rest_of;
use wt_tree::{AttrName, Fixed, Kind, Own, Spelling, TagName, Texts, Values};

/// The kinds whose elements are read by their rows, of those the ones whose names begin with this letter.
fn kinds_from(letter: u8) -> &'static [Kind]
    ensures { (rest : List ℕ) (type property rel : Option (List ℕ))
        → find (is_row (letter ∷ rest) type property rel) result.now ≡ row_by (letter ∷ rest) type property rel }
{
    match letter {
        b'a' => &[Kind::WikiLink, Kind::ExtLink],
        b'b' => &[Kind::Bold, Kind::Br],
        b'c' => &[Kind::Caption, Kind::Tag(TagName::Code)],
        b'd' => &[Kind::Dl, Kind::Dt, Kind::Dd],
        b'h' => &[
            Kind::Heading(1),
            Kind::Heading(2),
            Kind::Heading(3),
            Kind::Heading(4),
            Kind::Heading(5),
            Kind::Heading(6),
            Kind::Rule,
        ],
        b'i' => &[Kind::Italic],
        b'l' => &[Kind::Category, Kind::Li],
        b'm' => &[Kind::Comment, Kind::Include, Kind::Switch, Kind::Skip],
        b'o' => &[Kind::Ol],
        b'p' => &[Kind::Para, Kind::Pre],
        b's' => &[
            Kind::Entity,
            Kind::Nowiki,
            Kind::Island,
            Kind::Tag(TagName::Span),
            Kind::Tag(TagName::Sup),
            Kind::Tag(TagName::Sub),
            Kind::Tag(TagName::Small),
            Kind::Tag(TagName::S),
        ],
        b't' => &[Kind::Td, Kind::Th, Kind::Tr, Kind::Tbody, Kind::Table],
        b'u' => &[Kind::Ul, Kind::Tag(TagName::U)],
        _ => &[],
    }
}

/// What a row says of the attribute at this place of the order, where a node may have it.
fn values_at(order: u8, own: &[Own]) -> Option<Values>
    ensures { result ≡ values_at order own.now }
{
    for one in own {
        if one.name.order() == order {
            return Some(one.values);
        }
    }
    None
}

/// Whether what a row says of an attribute holds of its value: one that the row has not may not be
/// there, and one that decides the kind must be.
fn agrees(values: Option<Values>, value: Option<&[u8]>) -> bool
    ensures { result ≡ agrees values (option_map (λ v. v.now) value.entry) }
{
    match values {
        None => match value {
            None => true,
            Some(_) => false,
        },
        Some(values) => match value {
            None => !is_needed(values),
            Some(value) => passes(values, value),
        },
    }
}

fn is_value(word: &[u8], value: Option<&[u8]>) -> bool
    ensures { result ≡ is_value word.now (option_map (λ v. v.now) value.entry) }
{
    match value {
        None => false,
        Some(value) => is_word(value, word),
    }
}

fn agrees_by(order: u8, fixed: Option<Fixed>, own: &[Own], value: Option<&[u8]>) -> bool
    ensures { result ≡ agrees_by order (fixed_of fixed) own.now (option_map (λ v. v.now) value.entry) }
{
    match fixed {
        None => agrees(values_at(order, own), value),
        Some(fixed) => {
            if fixed.name.order() == order {
                is_value(fixed.value, value)
            } else {
                agrees(values_at(order, own), value)
            }
        }
    }
}

/// Whether a row agrees with what the element has under this name.
fn tells(name: AttrName, value: Option<&[u8]>, spelling: &Spelling) -> bool
    ensures { result ≡ agrees_by (order name) (spelling_of spelling.now).fixed (spelling_of spelling.now).own (option_map (λ v. v.now) value.entry) }
{
    agrees_by(name.order(), spelling.fixed, spelling.own, value)
}

fn is_level(digits: &[u8], level: Option<u8>) -> bool
    ensures { result ≡ bytes_eq digits.now (level_digits level) }
{
    match level {
        None => is_word(digits, b""),
        Some(level) => {
            let mut buffer = itoa::Buffer::new();
            is_word(digits, buffer.format(level).as_bytes())
        }
    }
}

/// Whether an element of this name is one by this row: its name, and after it the digits of its level.
fn names(spelling: &Spelling, name: &[u8]) -> bool
    ensures { result ≡ begins (spelling_of spelling.now).name name.now && bytes_eq (drop (length (spelling_of spelling.now).name) name.now) (level_digits (spelling_of spelling.now).level) }
{
    if !name.starts_with(spelling.name) {
        return false;
    }
    is_level(rest_of(name, spelling.name.len()), spelling.level)
}

fn is_row(
    name: &[u8],
    type_name: Option<&[u8]>,
    property: Option<&[u8]>,
    rel: Option<&[u8]>,
    kind: Kind,
) -> bool
    ensures { result ≡ is_row name.now (option_map (λ v. v.now) type_name.entry) (option_map (λ v. v.now) property.entry)
        (option_map (λ v. v.now) rel.entry) kind }
{
    let spelling = kind.spelling();
    names(&spelling, name)
        && (tells(AttrName::Typeof, type_name, &spelling)
            && (tells(AttrName::Property, property, &spelling)
                && tells(AttrName::Rel, rel, &spelling)))
}

/// The first of these kinds whose row agrees with an element that has this name and these attributes.
fn first_row(
    kinds: &[Kind],
    name: &[u8],
    type_name: Option<&[u8]>,
    property: Option<&[u8]>,
    rel: Option<&[u8]>,
) -> Option<Kind>
    ensures { result ≡ find (is_row name.now (option_map (λ v. v.now) type_name.entry) (option_map (λ v. v.now) property.entry)
        (option_map (λ v. v.now) rel.entry)) kinds.now }
{
    kinds
        .iter()
        .copied()
        .find(|kind| is_row(name, type_name, property, rel, *kind))
}

fn row_by(
    name: &[u8],
    type_name: Option<&[u8]>,
    property: Option<&[u8]>,
    rel: Option<&[u8]>,
) -> Option<Kind>
    ensures { result ≡ row_by name.now (option_map (λ v. v.now) type_name.entry) (option_map (λ v. v.now) property.entry) (option_map (λ v. v.now) rel.entry) }
{
    match name.first() {
        None => None,
        Some(letter) => first_row(kinds_from(*letter), name, type_name, property, rel),
    }
}

/// Whether an element of this name is a section.
pub fn is_section_name(name: &[u8]) -> bool
    ensures { result ≡ is_section_name name.now }
{
    is_word(name, b"section")
}

/// The kind of an element: a section by its name alone, any other by the table of kinds.
pub fn row(name: &[u8], attributes: &[Attribute]) -> Option<Kind>
    ensures { result ≡ row name.now (pairs attributes.now) }
{
    if is_section_name(name) {
        return Some(Kind::Section(0));
    }
    row_by(
        name,
        value_of(AttrName::Typeof.text(), attributes),
        value_of(AttrName::Property.text(), attributes),
        value_of(AttrName::Rel.text(), attributes),
    )
}

/// Whether the texts directly in an element of this kind are its characters, and no texts of the page.
pub fn shows_text(kind: Kind) -> bool
    ensures { result ≡ shows_text kind }
{
    matches!(kind.shape().texts, Texts::OwnCharacter)
}

/// Whether text directly in an element of this kind is text of the page; in others it is separators.
pub fn holds_text(kind: Kind) -> bool
    ensures { result ≡ holds_text kind }
{
    !matches!(kind.shape().texts, Texts::Separators)
}

/// Whether a text is made of spaces, tabs and line breaks.
fn is_blank(text: &[u8]) -> bool
    ensures { result ≡ is_blank text.now }
{
    for byte in text {
        let blank = *byte == 32 || (*byte == 9 || *byte == 10);
        if !blank {
            return false;
        }
    }
    true
}

fn is_blank_or_element(content: &Content) -> bool
    ensures { result ≡ is_blank_or_element (view_content content.now) }
{
    match content {
        Content::Text(bytes) => is_blank(bytes.as_slice()),
        Content::Element { .. } => true,
    }
}

fn are_blank(contents: &[Content]) -> bool
    ensures { result ≡ are_blank (views contents.now) }
{
    for content in contents {
        if !is_blank_or_element(content) {
            return false;
        }
    }
    true
}

/// Whether the texts directly in an element of this kind may be there.
pub fn text_fits(kind: Kind, contents: &[Content]) -> bool
    ensures { result ≡ text_fits kind (views contents.now) }
{
    holds_text(kind) || are_blank(contents)
}
