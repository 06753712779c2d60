ghost use Rattle.std.specs.Prelude.{◌≡◌, ◌++◌, ◌∷◌, [], map, OnOk, IfOk};
ghost use Rattle.wt_tree.specs.Stream.{byte};
ghost use Rattle.wt_tree.specs.Plain.{ended};
ghost use Rattle.wt_tree.specs.Kinds.{showing};
ghost use Rattle.wt_tree.specs.View.{view, views, label_of};
ghost use Rattle.wt_tree.specs.declared.node.Node.{out-Node};
ghost use Rattle.wt_checks.specs.Unmarked.{own_character};
ghost use Rattle.wt_checks.specs.Elements.{read_before, all_read, signs_in};
ghost use Rattle.wt_checks.specs.Tokens.{read_sign, read_signs, is_text, shows_characters, leaf_signs, element_signs};

use crate::shown::{is_text, own_character};
use std::alloc::Global;
use wt_span::NoMemory;
use wt_tree::{Node, Showing};

/// A part of the elements that were read in a group: a byte of a text, or an element that opens or
/// closes.
#[derive(Clone, Copy)]
pub enum Read<'t, 'a> {
    Byte(u8),
    Element(&'t Node<'a>),
    Close,
}

fn push_text(out: &mut Vec<Read<'_, '_>>, text: &str) -> Result<(), NoMemory>
    ensures { OnOk result (read_signs out.new.items ≡ read_signs out.old.items ++ map byte text.now) }
{
    for byte in text.as_bytes() {
        out.push(Read::Byte(*byte))?;
    }
    Ok(())
}

fn push_part<'t, 'a>(out: &mut Vec<Read<'t, 'a>>, part: Read<'t, 'a>) -> Result<(), NoMemory>
    ensures { OnOk result (read_signs out.new.items ≡ read_signs out.old.items ++ read_sign part.entry ∷ []) }
{
    out.push(part)?;
    Ok(())
}

fn shows_characters(showing: Showing) -> bool
    ensures { result ≡ shows_characters showing }
{
    match showing {
        Showing::Characters => true,
        Showing::Inside | Showing::Nothing | Showing::Element => false,
    }
}

fn push_leaf(out: &mut Vec<Read<'_, '_>>, node: &Node<'_>) -> Result<(), NoMemory>
    ensures { OnOk result (read_signs out.new.items ≡ read_signs out.old.items ++ leaf_signs (showing (out-Node node.now).kind) (out-Node node.now).source.shown) }
{
    if shows_characters(node.kind.showing()) {
        push_text(out, node.shown())?;
    }
    Ok(())
}

#[cycle(read)]
fn push_element<'t, 'a>(out: &mut Vec<Read<'t, 'a>>, node: &'t Node<'a>) -> Result<(), NoMemory>
    ensures { OnOk result (read_signs out.new.items
        ≡ read_signs out.old.items ++ element_signs (label_of (out-Node node.now))
        (signs_in (all_read (views (out-Node node.now).children)))) }
{
    push_part(out, Read::Element(node))?;
    push_text(out, own_character(node))?;
    push_all(out, node.children.as_slice())?;
    push_part(out, Read::Close)?;
    Ok(())
}

#[cycle(read)]
fn push<'t, 'a>(out: &mut Vec<Read<'t, 'a>>, node: &'t Node<'a>) -> Result<(), NoMemory>
    ensures { OnOk result (read_signs out.new.items ≡ read_signs out.old.items ++ signs_in (read_before (view node.now) ended)) }
{
    if is_text(node.kind) {
        push_leaf(out, node)?;
    } else {
        push_element(out, node)?;
    }
    Ok(())
}

#[cycle(read)]
fn push_all<'t, 'a>(out: &mut Vec<Read<'t, 'a>>, nodes: &'t [Node<'a>]) -> Result<(), NoMemory>
    ensures { OnOk result (read_signs out.new.items ≡ read_signs out.old.items ++ signs_in (all_read (views nodes.now))) }
{
    for node in nodes {
        push(out, node)?;
    }
    Ok(())
}

/// What was read of a group that holds these nodes.
pub fn elements_read<'t, 'a>(
    alloc: Global,
    nodes: &'t [Node<'a>],
) -> Result<Vec<Read<'t, 'a>>, NoMemory>
    ensures { IfOk result (λ rs. read_signs rs.items ≡ signs_in (all_read (views nodes.now))) }
{
    let mut out = Vec::new(alloc);
    push_all(&mut out, nodes)?;
    Ok(out)
}
