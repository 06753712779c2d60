//! The attributes of the elements of a group.

ghost use Rattle.std.specs.Prelude.{◌≡◌, ◌++◌, ◌∷◌, [], None, OnOk, codes};
ghost use Rattle.wt_schema.specs.Html.{attribute, attributes, about_attribute, joined_type, with_type, first_attributes, next_attributes, group_attributes};
ghost use Rattle.wt_schema.specs.Escapes.{escaped_double};
ghost use Rattle.wt_tree.specs.Kinds.{fixed_of, one_if_any, fixed_attributes};
ghost use Rattle.wt_tree.specs.View.{attrs_of, label_of};
ghost use Rattle.wt_tree.specs.declared.node.Node.{out-Node};

use crate::attributes::{push_attribute, push_carried, push_fixed, push_own};
use crate::bytes::{Escaping, push_escaped};
use std::alloc::Global;
use wt_devices::{push, push_count};
use wt_span::NoMemory;
use wt_tree::{Attr, AttrName, Fixed, Kind, Node};

/// The number of the group.
#[tactic(auto, unfolding(wt_schema::specs::Html::about_attribute))]
fn push_about(out: &mut Vec<u8>, number: usize) -> Result<(), NoMemory>
    ensures { OnOk result (out.new.items ≡ out.old.items ++ about_attribute number) }
{
    push(out, b" about=\"#mwt")?;
    push_count(out, number)?;
    push(out, b"\"")?;
    Ok(())
}

/// Two values with a space between them, escaped.
fn push_values(out: &mut Vec<u8>, first: &[u8], second: &[u8]) -> Result<(), NoMemory>
    ensures { OnOk result (out.new.items ≡ out.old.items ++ escaped_double (first.now ++ (codes " " ++ second.now))) }
{
    push_escaped(out, Escaping::DoubleQuoted, first)?;
    push(out, b" ")?;
    push_escaped(out, Escaping::DoubleQuoted, second)?;
    Ok(())
}

/// An attribute whose value is the group's word, a space and the element's own value.
#[tactic(auto, unfolding(wt_schema::specs::Html::attribute))]
fn push_both(out: &mut Vec<u8>, word: &Attr, value: &[u8]) -> Result<(), NoMemory>
    ensures { OnOk result (out.new.items ≡ out.old.items ++ attribute ((word.now).name, (word.now).value ++ (codes " " ++ value.now))) }
{
    push(out, b" ")?;
    push(out, word.name.text())?;
    push(out, b"=\"")?;
    push_values(out, word.value.as_str().as_bytes(), value)?;
    push(out, b"\"")
}

/// The group's word and an attribute of its first element.
fn push_joined_type(
    out: &mut Vec<u8>,
    word: &Attr,
    name: AttrName,
    value: &[u8],
) -> Result<(), NoMemory>
    ensures { OnOk result (out.new.items ≡ out.old.items ++ attributes (joined_type ((word.now).name, (word.now).value) (name, value.now))) }
{
    if name.order() == word.name.order() {
        push_both(out, word, value)?;
        return Ok(());
    }
    push_attribute(out, word.name, word.value.as_str().as_bytes())?;
    push_attribute(out, name, value)
}

/// The group's word and the element's own attributes.
fn push_before_own(out: &mut Vec<u8>, word: &Attr, attrs: &[Attr]) -> Result<(), NoMemory>
    ensures { OnOk result (out.new.items ≡ out.old.items ++ attributes (with_type (((word.now).name, (word.now).value) ∷ []) (attrs_of attrs.now))) }
{
    match attrs {
        [] => push_attribute(out, word.name, word.value.as_str().as_bytes()),
        [first, rest @ ..] => {
            push_joined_type(out, word, first.name, first.value.as_str().as_bytes())?;
            push_own(out, rest)
        }
    }
}

/// The group's word, the attribute that the element's kind tells, if it does, and its own ones.
fn push_word(
    out: &mut Vec<u8>,
    word: &Attr,
    fixed: Option<Fixed>,
    attrs: &[Attr],
) -> Result<(), NoMemory>
    ensures { OnOk result (out.new.items ≡ out.old.items ++ attributes
        (with_type (((word.now).name, (word.now).value) ∷ []) (one_if_any (fixed_of fixed) ++ attrs_of attrs.now))) }
{
    match fixed {
        None => push_before_own(out, word, attrs),
        Some(fixed) => {
            push_joined_type(out, word, fixed.name, fixed.value)?;
            push_own(out, attrs)
        }
    }
}

/// The attributes of an element of this kind, after the word that its group has.
fn push_typed(out: &mut Vec<u8>, words: &[Attr], kind: Kind, attrs: &[Attr]) -> Result<(), NoMemory>
    ensures { OnOk result (out.new.items ≡ out.old.items ++ attributes (with_type (attrs_of words.now) (fixed_attributes kind ++ attrs_of attrs.now))) }
{
    match words {
        [] => {
            push_fixed(out, kind)?;
            push_own(out, attrs)
        }
        [word, ..] => push_word(out, word, kind.fixed(), attrs),
    }
}

/// The attributes of a group's first element, which has this kind and these attributes of its own.
#[tactic(auto, unfolding(wt_schema::specs::Html::first_attributes))]
fn push_first(
    alloc: Global,
    out: &mut Vec<u8>,
    number: usize,
    group: &Node<'_>,
    kind: Kind,
    attrs: &[Attr],
) -> Result<(), NoMemory>
    ensures { OnOk result (out.new.items ≡ out.old.items ++ first_attributes number (label_of (out-Node group.now))
        (fixed_attributes kind ++ attrs_of attrs.now)) }
{
    push_about(out, number)?;
    push_typed(out, group.attrs(), kind, attrs)?;
    push_carried(alloc, out, group)
}

/// The attributes of another element of a group.
#[tactic(auto, unfolding(wt_schema::specs::Html::next_attributes))]
fn push_next(out: &mut Vec<u8>, number: usize, kind: Kind, attrs: &[Attr]) -> Result<(), NoMemory>
    ensures { OnOk result (out.new.items ≡ out.old.items ++ next_attributes number (fixed_attributes kind ++ attrs_of attrs.now)) }
{
    push_about(out, number)?;
    push_fixed(out, kind)?;
    push_own(out, attrs)
}

/// An element of a group.
#[derive(Clone, Copy)]
pub struct GroupElement<'g, 't> {
    /// Whether it is the first one.
    pub first: bool,
    /// The number of the group.
    pub number: usize,
    pub group: &'g Node<'t>,
    pub kind: Kind,
    /// The attributes of its own.
    pub attrs: &'g [Attr],
}

/// The attributes of an element of a group, the first or not.
pub fn push_group_attributes(
    alloc: Global,
    out: &mut Vec<u8>,
    element: GroupElement<'_, '_>,
) -> Result<(), NoMemory>
    ensures { OnOk result (out.new.items ≡ out.old.items
        ++ group_attributes element.entry.first element.entry.number (label_of (out-Node element.entry.group.now))
        (fixed_attributes element.entry.kind ++ attrs_of element.entry.attrs.now)) }
{
    let GroupElement {
        first,
        number,
        group,
        kind,
        attrs,
    } = element;
    if first {
        push_first(alloc, out, number, group, kind, attrs)
    } else {
        push_next(out, number, kind, attrs)
    }
}
