ghost use Rattle.std.specs.Prelude.{◌≡◌, ◌≤◌, ◌++◌, take, drop, length, option_copied, IfOk, OnOk};
ghost use Rattle.wt_schema.specs.Escapes.{escaped_single};
ghost use Rattle.wt_schema.specs.Html.{attribute, attributes, id_attribute, mw_attribute, leaf_sync, inner_sync, sync_of, sync_start, sync_value, sync_attribute, carried_attributes, attributes_of};
ghost use Rattle.wt_datamw.specs.Mw.{mw_text};
ghost use Rattle.wt_datamw.specs.Sync.{sync_text};
ghost use Rattle.wt_tree.specs.Kinds.{one_if_any, fixed_of, fixed_attributes};
ghost use Rattle.wt_tree.specs.View.{texts_of, attrs_of, label_of};
ghost use Rattle.wt_tree.specs.declared.node.Node.{out-Node};

use crate::bytes::{Escaping, plain_len, push_escaped};
use std::alloc::Global;
use wt_datamw::{push_mw_text, push_sync_text};
use wt_devices::{push, push_number};
use wt_span::{NoMemory, Str, Text, rest_of};
use wt_tree::{Attr, AttrName, DataMw, Fixed, Kind, Node, Ranges, Shown};

#[tactic(auto, unfolding(wt_schema::specs::Html::attribute))]
pub fn push_attribute(out: &mut Vec<u8>, name: AttrName, value: &[u8]) -> Result<(), NoMemory>
    ensures { OnOk result (out.new.items ≡ out.old.items ++ attribute (name, value.now)) }
{
    push(out, b" ")?;
    push(out, name.text())?;
    push(out, b"=\"")?;
    push_escaped(out, Escaping::DoubleQuoted, value)?;
    push(out, b"\"")
}

/// An attribute, where there is one.
fn push_if_any(out: &mut Vec<u8>, fixed: Option<Fixed>) -> Result<(), NoMemory>
    ensures { OnOk result (out.new.items ≡ out.old.items ++ attributes (one_if_any (fixed_of fixed))) }
{
    if let Some(fixed) = fixed {
        push_attribute(out, fixed.name, fixed.value)?;
    }
    Ok(())
}

/// The attribute that the kind alone decides.
pub fn push_fixed(out: &mut Vec<u8>, kind: Kind) -> Result<(), NoMemory>
    ensures { OnOk result (out.new.items ≡ out.old.items ++ attributes (fixed_attributes kind)) }
{
    push_if_any(out, kind.fixed())
}

pub fn push_own(out: &mut Vec<u8>, attrs: &[Attr]) -> Result<(), NoMemory>
    ensures { OnOk result (out.new.items ≡ out.old.items ++ attributes (attrs_of attrs.now)) }
{
    for attr in attrs {
        push_attribute(out, attr.name, attr.value.as_str().as_bytes())?;
    }
    Ok(())
}

#[tactic(auto, unfolding(wt_schema::specs::Html::id_attribute))]
fn push_id(out: &mut Vec<u8>, id: u32) -> Result<(), NoMemory>
    ensures { OnOk result (out.new.items ≡ out.old.items ++ id_attribute id) }
{
    if id == 0 {
        return Ok(());
    }
    push(out, b" id=\"mw")?;
    push_number(out, id)?;
    push(out, b"\"")
}

/// Escapes what comes after a place, as a value that is in `'`. Mostly nothing of it needs an
/// escape, and it stays as it is.
fn escape_behind(alloc: Global, out: &mut Vec<u8>, at: usize) -> Result<(), NoMemory>
    requires { at ≤ length out.old.items }
    ensures { OnOk result (out.new.items ≡ take at out.old.items ++ escaped_single (drop at out.old.items)) }
{
    let written = rest_of(out.as_slice(), at);
    if plain_len(b'\'', written) == written.len() {
        return Ok(());
    }
    let text = Vec::from_slice(alloc, written)?;
    out.truncate(at);
    push_escaped(out, Escaping::SingleQuoted, text.as_slice())?;
    Ok(())
}

/// The text of `data-mw`, as a value that is in `'`.
fn push_mw_escaped(alloc: Global, out: &mut Vec<u8>, mw: &DataMw) -> Result<(), NoMemory>
    ensures { OnOk result (out.new.items ≡ out.old.items ++ escaped_single (mw_text mw.now)) }
{
    let at = out.len();
    push_mw_text(alloc, out, mw)?;
    escape_behind(alloc, out, at)
}

#[tactic(auto, unfolding(wt_schema::specs::Html::mw_attribute))]
fn push_mw(alloc: Global, out: &mut Vec<u8>, mw: Option<&DataMw>) -> Result<(), NoMemory>
    ensures { OnOk result (out.new.items ≡ out.old.items ++ mw_attribute (option_copied mw.entry)) }
{
    let Some(value) = mw else {
        return Ok(());
    };
    push(out, b" data-mw='")?;
    push_mw_escaped(alloc, out, value)?;
    push(out, b"'")
}

/// Texts as one: a single text where it is, several put together.
fn joined<'t>(alloc: Global, texts: &'t [Text<'_>]) -> Result<Shown<'t>, NoMemory>
    ensures { IfOk result (λ s. s ≡ texts_of texts.now) }
{
    if let [text] = texts {
        return Ok(Shown::written(text.as_str()));
    }
    let mut all = Str::new(alloc);
    for text in texts {
        all.push_str(text.as_str())?;
    }
    Ok(Shown::made(all))
}

/// What `data-parsoid` says of a leaf with these ranges.
fn push_leaf_sync(
    alloc: Global,
    out: &mut Vec<u8>,
    node: &Node<'_>,
    dsr: Ranges,
) -> Result<(), NoMemory>
    ensures { OnOk result (out.new.items ≡ out.old.items ++ sync_text (leaf_sync (label_of (out-Node node.now)) dsr)) }
{
    let source = joined(alloc, node.own())?;
    push_sync_text(out, dsr, "", "", Some(source.as_str()))
}

/// What `data-parsoid` says of a node with these ranges that is no leaf.
fn push_inner_sync(
    alloc: Global,
    out: &mut Vec<u8>,
    node: &Node<'_>,
    dsr: Ranges,
) -> Result<(), NoMemory>
    ensures { OnOk result (out.new.items ≡ out.old.items ++ sync_text (inner_sync (label_of (out-Node node.now)) dsr)) }
{
    let opening = joined(alloc, node.opening())?;
    let closing = joined(alloc, node.closing())?;
    push_sync_text(out, dsr, opening.as_str(), closing.as_str(), None)
}

/// What `data-parsoid` says of a node with these ranges.
#[tactic(auto, unfolding(wt_schema::specs::Html::sync_of))]
fn push_sync_of(
    alloc: Global,
    out: &mut Vec<u8>,
    node: &Node<'_>,
    dsr: Ranges,
) -> Result<(), NoMemory>
    ensures { OnOk result (out.new.items ≡ out.old.items ++ sync_text (sync_of (label_of (out-Node node.now)) dsr)) }
{
    if node.kind.is_leaf() {
        return push_leaf_sync(alloc, out, node, dsr);
    }
    push_inner_sync(alloc, out, node, dsr)
}

/// The same as a value that is in `'`.
fn push_sync_escaped(
    alloc: Global,
    out: &mut Vec<u8>,
    node: &Node<'_>,
    dsr: Ranges,
) -> Result<(), NoMemory>
    ensures { OnOk result (out.new.items ≡ out.old.items ++ escaped_single (sync_text (sync_of (label_of (out-Node node.now)) dsr))) }
{
    let at = out.len();
    push_sync_of(alloc, out, node, dsr)?;
    escape_behind(alloc, out, at)
}

#[tactic(auto, unfolding(wt_schema::specs::Html::sync_start))]
fn push_sync_start(out: &mut Vec<u8>) -> Result<(), NoMemory>
    ensures { OnOk result (out.new.items ≡ out.old.items ++ sync_start) }
{
    push(out, b" data-parsoid='")
}

#[tactic(auto, unfolding(wt_schema::specs::Html::sync_value))]
fn push_sync_value(
    alloc: Global,
    out: &mut Vec<u8>,
    node: &Node<'_>,
    dsr: Ranges,
) -> Result<(), NoMemory>
    ensures { OnOk result (out.new.items ≡ out.old.items ++ sync_value (sync_text (sync_of (label_of (out-Node node.now)) dsr))) }
{
    push_sync_start(out)?;
    push_sync_escaped(alloc, out, node, dsr)?;
    push(out, b"'")
}

#[tactic(auto, unfolding(wt_schema::specs::Html::sync_attribute))]
fn push_sync(alloc: Global, out: &mut Vec<u8>, node: &Node<'_>) -> Result<(), NoMemory>
    ensures { OnOk result (out.new.items ≡ out.old.items ++ sync_attribute (label_of (out-Node node.now)) (out-Node node.now).ranges) }
{
    let Some(dsr) = node.ranges else {
        return Ok(());
    };
    push_sync_value(alloc, out, node, dsr)
}

/// The number of a node and its data.
pub fn push_carried(alloc: Global, out: &mut Vec<u8>, node: &Node<'_>) -> Result<(), NoMemory>
    ensures { OnOk result (out.new.items ≡ out.old.items ++ carried_attributes (label_of (out-Node node.now))) }
{
    push_id(out, node.id)?;
    push_mw(alloc, out, node.mw())?;
    push_sync(alloc, out, node)
}

/// The attributes of a node's element, in their order.
#[tactic(auto, unfolding(wt_schema::specs::Html::attributes_of))]
pub fn push_attributes(alloc: Global, out: &mut Vec<u8>, node: &Node<'_>) -> Result<(), NoMemory>
    ensures { OnOk result (out.new.items ≡ out.old.items ++ attributes_of (label_of (out-Node node.now))) }
{
    push_fixed(out, node.kind)?;
    push_own(out, node.attrs())?;
    push_carried(alloc, out, node)
}
