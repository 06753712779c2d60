//! The attributes of a group's first element: the group's, and its own.

ghost use Rattle.std.specs.Prelude.{◌≡◌, ◌++◌, [], ◌∷◌, true, option_map, IfOk, OnOk};
ghost use Rattle.wt_span.specs.Bytes.{begins};
ghost use Rattle.wt_tree.specs.View.{attrs_of};
ghost use Rattle.wt_html_elements.specs.Built.{pair, pairs};
ghost use Rattle.wt_schema.specs.Groups.{transclusion, param, spaced, is_word_of, word_in, word_of, word_attribute, group_attributes, is_groups, own_pair, own_pairs};
ghost use Rattle.wt_html_nodes.specs.Words.{behind, own_value, type_pairs};

use crate::attributes::value_of;
use crate::typed::is_word;
use std::alloc::Global;
use wt_html_elements::Attribute;
use wt_span::{List, NoMemory, Str, rest_of};
use wt_tree::{Attr, AttrName};

#[tactic(auto, unfolding(wt_schema::specs::Groups::transclusion))]
fn transclusion() -> &'static str
    ensures { result.now ≡ transclusion }
{
    "mw:Transclusion"
}

#[tactic(auto, unfolding(wt_schema::specs::Groups::param))]
fn param() -> &'static str
    ensures { result.now ≡ param }
{
    "mw:Param"
}

/// Whether a text begins with this word and a space.
#[tactic(auto, using(crate::proofs::OwnPairs::begins_spaced))]
fn begins_spaced(word: &[u8], text: &[u8]) -> bool
    ensures { result ≡ begins (spaced word.now) text.now }
{
    text.starts_with(word) && rest_of(text, word.len()).starts_with(b" ")
}

/// Whether a `typeof` is this word, or begins with it and a space.
fn is_word_of(word: &[u8], type_name: &[u8]) -> bool
    ensures { result ≡ is_word_of word.now type_name.now }
{
    is_word(type_name, word) || begins_spaced(word, type_name)
}

/// The group's word in a `typeof`.
fn word_in(type_name: &[u8]) -> Option<&'static str>
    ensures { option_map (λ v. v.now) result ≡ word_in type_name.now }
{
    if is_word_of(transclusion().as_bytes(), type_name) {
        Some(transclusion())
    } else if is_word_of(param().as_bytes(), type_name) {
        Some(param())
    } else {
        None
    }
}

fn word_of(type_name: Option<&[u8]>) -> Option<&'static str>
    ensures { option_map (λ v. v.now) result ≡ word_of (option_map (λ v. v.now) type_name.entry) }
{
    match type_name {
        None => None,
        Some(type_name) => word_in(type_name),
    }
}

fn word_attribute(alloc: Global, word: Option<&str>) -> Result<List<Attr>, NoMemory>
    ensures { IfOk result (λ l. attrs_of l ≡ word_attribute (option_map (λ v. v.now) word.entry)) }
{
    let mut attrs = List::new(alloc);
    match word {
        None => Ok(attrs),
        Some(word) => {
            let value = Str::copy_of(alloc, word)?;
            attrs.push(Attr {
                name: AttrName::Typeof,
                value,
            })?;
            Ok(attrs)
        }
    }
}

/// The attributes of a group, by those of its first element.
pub fn group_attributes(alloc: Global, attributes: &[Attribute]) -> Result<List<Attr>, NoMemory>
    ensures { IfOk result (λ l. attrs_of l ≡ group_attributes (pairs attributes.now)) }
{
    word_attribute(alloc, word_of(value_of(b"typeof".as_slice(), attributes)))
}

/// Whether an attribute of this name belongs to the group.
fn is_groups(name: &[u8]) -> bool
    ensures { result ≡ is_groups name.now }
{
    is_word(name, b"about")
        || is_word(name, b"id")
        || is_word(name, b"data-mw")
        || is_word(name, b"data-parsoid")
        || is_word(name, b"data-wt-edit")
}

/// What comes after the word that begins a `typeof`, where something does.
fn behind<'t>(word: &[u8], type_name: &'t [u8]) -> Option<&'t [u8]>
    requires { is_word_of word.now type_name.now ≡ true }
    ensures { option_map (λ v. v.now) result ≡ behind word.now type_name.now }
{
    if is_word(type_name, word) {
        None
    } else {
        Some(rest_of(type_name, word.len() + 1))
    }
}

/// The `typeof` of the first element's own, where it has one.
fn own_value(type_name: &[u8]) -> Option<&[u8]>
    ensures { option_map (λ v. v.now) result ≡ own_value type_name.now }
{
    if is_word_of(transclusion().as_bytes(), type_name) {
        behind(transclusion().as_bytes(), type_name)
    } else if is_word_of(param().as_bytes(), type_name) {
        behind(param().as_bytes(), type_name)
    } else {
        Some(type_name)
    }
}

fn push_copy(
    alloc: Global,
    own: &mut Vec<Attribute>,
    name: &[u8],
    value: &[u8],
) -> Result<(), NoMemory>
    ensures { OnOk result (pairs own.new.items ≡ pairs own.old.items ++ (name.now, value.now) ∷ []) }
{
    let name = Vec::from_slice(alloc, name)?;
    let value = Vec::from_slice(alloc, value)?;
    own.push(Attribute { name, value })?;
    Ok(())
}

/// Puts a `typeof` after other attributes, where there is one.
fn push_type(alloc: Global, own: &mut Vec<Attribute>, value: Option<&[u8]>) -> Result<(), NoMemory>
    ensures { OnOk result (pairs own.new.items ≡ pairs own.old.items ++ type_pairs (option_map (λ v. v.now) value.entry)) }
{
    match value {
        None => Ok(()),
        Some(value) => push_copy(alloc, own, b"typeof".as_slice(), value),
    }
}

/// Puts what of an attribute is the element's own after others.
fn push_own(alloc: Global, own: &mut Vec<Attribute>, attribute: &Attribute) -> Result<(), NoMemory>
    ensures { OnOk result (pairs own.new.items ≡ pairs own.old.items ++ own_pair (pair attribute.now)) }
{
    let name = attribute.name.as_slice();
    let value = attribute.value.as_slice();
    if is_groups(name) {
        return Ok(());
    }
    if is_word(name, b"typeof") {
        push_type(alloc, own, own_value(value))
    } else {
        push_copy(alloc, own, name, value)
    }
}

/// The attributes of its own that a group's first element has.
pub fn own_attributes(alloc: Global, attributes: &[Attribute]) -> Result<Vec<Attribute>, NoMemory>
    ensures { IfOk result (λ v. pairs v.items ≡ own_pairs (pairs attributes.now)) }
{
    let mut own = Vec::new(alloc);
    for attribute in attributes {
        push_own(alloc, &mut own, attribute)?;
    }
    Ok(own)
}
