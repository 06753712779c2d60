ghost use Rattle.std.specs.Prelude.{◌≡◌, ◌++◌, OnOk};
ghost use Rattle.wt_schema.specs.Html.{start_tag, void_tag, section_start, end_tag_of, end_tag};
ghost use Rattle.wt_tree.specs.View.{label_of};
ghost use Rattle.wt_tree.specs.declared.node.Node.{out-Node};

use crate::attributes::push_attributes;
use crate::names::push_name;
use std::alloc::Global;
use wt_devices::{push, push_number};
use wt_span::NoMemory;
use wt_tree::{Kind, Node};

#[tactic(auto, unfolding(wt_schema::specs::Html::start_tag))]
pub fn push_start(alloc: Global, out: &mut Vec<u8>, node: &Node<'_>) -> Result<(), NoMemory>
    ensures { OnOk result (out.new.items ≡ out.old.items ++ start_tag (label_of (out-Node node.now))) }
{
    push(out, b"<")?;
    push_name(out, node.kind)?;
    push_attributes(alloc, out, node)?;
    push(out, b">")
}

#[tactic(auto, unfolding(wt_schema::specs::Html::void_tag))]
pub fn push_void(alloc: Global, out: &mut Vec<u8>, node: &Node<'_>) -> Result<(), NoMemory>
    ensures { OnOk result (out.new.items ≡ out.old.items ++ void_tag (label_of (out-Node node.now))) }
{
    push(out, b"<")?;
    push_name(out, node.kind)?;
    push_attributes(alloc, out, node)?;
    push(out, b"/>")
}

/// The start tag of the section of this number.
#[tactic(auto, unfolding(wt_schema::specs::Html::section_start))]
pub fn push_section_start(out: &mut Vec<u8>, number: u32) -> Result<(), NoMemory>
    ensures { OnOk result (out.new.items ≡ out.old.items ++ section_start number) }
{
    push(out, b"<section data-mw-section-id=\"")?;
    push_number(out, number)?;
    push(out, b"\">")?;
    Ok(())
}

/// The end tag of an element of this kind.
pub fn push_end_of(out: &mut Vec<u8>, kind: Kind) -> Result<(), NoMemory>
    ensures { OnOk result (out.new.items ≡ out.old.items ++ end_tag_of kind) }
{
    push(out, b"</")?;
    push_name(out, kind)?;
    push(out, b">")
}

#[tactic(auto, unfolding(wt_schema::specs::Html::end_tag))]
pub fn push_end(out: &mut Vec<u8>, node: &Node<'_>) -> Result<(), NoMemory>
    ensures { OnOk result (out.new.items ≡ out.old.items ++ end_tag (label_of (out-Node node.now))) }
{
    push_end_of(out, node.kind)
}
