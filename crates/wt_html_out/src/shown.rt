//! What is inside an element of a group: nodes as what they show.

ghost use Rattle.std.specs.Prelude.{◌≡◌, ◌++◌, OnOk};
ghost use Rattle.wt_html_out.specs.Shown.{shown_html, shown_html_of_all};
ghost use Rattle.wt_schema.specs.Html.{attributes, tag_of, end_tag_of, element_by};
ghost use Rattle.wt_tree.specs.Kinds.{fixed_attributes, writing};
ghost use Rattle.wt_tree.specs.View.{attrs_of, view, views};
ghost use Rattle.wt_tree.specs.declared.node.Node.{out-Node};

use crate::attributes::{push_fixed, push_own};
use crate::bytes::{Escaping, push_escaped};
use crate::names::push_name;
use crate::tags::push_end_of;
use wt_devices::push;
use wt_span::NoMemory;
use wt_tree::{Node, Showing, Writing};

/// The tag of a node's element, with this end; it has neither number nor data.
fn push_tag(out: &mut Vec<u8>, node: &Node<'_>, end: &[u8]) -> Result<(), NoMemory>
    ensures { OnOk result (out.new.items ≡ out.old.items ++ tag_of (out-Node node.now).kind
        (attributes (fixed_attributes (out-Node node.now).kind ++ attrs_of (out-Node node.now).more.attrs)) end.now) }
{
    push(out, b"<")?;
    push_name(out, node.kind)?;
    push_fixed(out, node.kind)?;
    push_own(out, node.attrs())?;
    push(out, end)
}

/// An element of a group, inside of another one.
#[cycle(shown)]
fn push_element(out: &mut Vec<u8>, node: &Node<'_>) -> Result<(), NoMemory>
    ensures { OnOk result (out.new.items ≡ out.old.items ++ element_by (writing (out-Node node.now).kind) (out-Node node.now).kind
        (attributes (fixed_attributes (out-Node node.now).kind ++ attrs_of (out-Node node.now).more.attrs))
        (shown_html_of_all (views (out-Node node.now).children))) }
{
    match node.kind.writing() {
        Writing::AsVoid => push_tag(out, node, b"/>"),
        Writing::RoundCharacter | Writing::RoundChildren => {
            push_tag(out, node, b">")?;
            push_shown_all(out, node.children.as_slice())?;
            push_end_of(out, node.kind)
        }
        Writing::AsText | Writing::AsSection(_) | Writing::Unwritten => Ok(()),
    }
}

#[cycle(shown)]
fn push_shown(out: &mut Vec<u8>, node: &Node<'_>) -> Result<(), NoMemory>
    ensures { OnOk result (out.new.items ≡ out.old.items ++ shown_html (view node.now)) }
{
    match node.kind.showing() {
        Showing::Characters => push_escaped(out, Escaping::Text, node.shown().as_bytes()),
        Showing::Inside => push_shown_all(out, node.children.as_slice()),
        Showing::Nothing => Ok(()),
        Showing::Element => push_element(out, node),
    }
}

/// Nodes inside an element of a group.
#[cycle(shown)]
pub fn push_shown_all(out: &mut Vec<u8>, nodes: &[Node<'_>]) -> Result<(), NoMemory>
    ensures { OnOk result (out.new.items ≡ out.old.items ++ shown_html_of_all (views nodes.now)) }
{
    for node in nodes {
        push_shown(out, node)?;
    }
    Ok(())
}
