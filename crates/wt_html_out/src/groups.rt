//! Groups: the elements of what their nodes show.

ghost use Rattle.std.specs.Prelude.{◌≡◌, ◌++◌, IfOk, OnOk};
ghost use Rattle.wt_html_out.specs.Shown.{is_start, span_start, text_start, span_end, text_end, ending, text_part, after_text, after, after_all, part, parts, shown_html_of_all};
ghost use Rattle.wt_schema.specs.Html.{tag_of, group_attributes, group_element, group_html};
ghost use Rattle.wt_tree.specs.Elements.{span};
ghost use Rattle.wt_tree.specs.Plain.{ended, plains_before};
ghost use Rattle.wt_tree.specs.Kinds.{fixed_attributes};
ghost use Rattle.wt_tree.specs.View.{attrs_of, label_of, view, views};
ghost use Rattle.wt_tree.specs.declared.node.Node.{out-Node};

use crate::bytes::{Escaping, push_escaped};
use crate::group_attributes::{GroupElement, push_group_attributes};
use crate::names::push_name;
use crate::shown::push_shown_all;
use crate::tags::push_end_of;
use std::alloc::Global;
use wt_devices::push;
use wt_span::{List, NoMemory};
use wt_tree::{Attr, Kind, Node, Showing, TagName, Writing};

/// Where the writer of a group is: at its start, in the element of a text, or after an element.
#[derive(Clone, Copy)]
pub enum Progress {
    Start,
    InText,
    Behind,
}

fn is_start(progress: Progress) -> bool
    ensures { result ≡ is_start progress }
{
    matches!(progress, Progress::Start)
}

/// The tag of an element of a group, with this end.
fn push_group_tag(
    alloc: Global,
    out: &mut Vec<u8>,
    element: GroupElement<'_, '_>,
    end: &[u8],
) -> Result<(), NoMemory>
    ensures { OnOk result (out.new.items ≡ out.old.items ++ tag_of element.entry.kind
        (group_attributes element.entry.first element.entry.number
        (label_of (out-Node element.entry.group.now)) (fixed_attributes element.entry.kind ++ attrs_of element.entry.attrs.now)) end.now) }
{
    push(out, b"<")?;
    push_name(out, element.kind)?;
    push_group_attributes(alloc, out, element)?;
    push(out, end)
}

/// The start of the element round a text, or round nothing.
#[tactic(auto, unfolding(crate::specs::Shown::span_start))]
fn push_span(
    alloc: Global,
    out: &mut Vec<u8>,
    first: bool,
    number: usize,
    group: &Node<'_>,
) -> Result<(), NoMemory>
    ensures { OnOk result (out.new.items ≡ out.old.items ++ span_start first number (label_of (out-Node group.now))) }
{
    let attrs: List<Attr> = List::new(alloc);
    let element = GroupElement {
        first,
        number,
        group,
        kind: Kind::Tag(TagName::Span),
        attrs: attrs.as_slice(),
    };
    push_group_tag(alloc, out, element, b">")
}

#[tactic(auto, unfolding(crate::specs::Shown::span_end))]
fn push_span_end(out: &mut Vec<u8>) -> Result<(), NoMemory>
    ensures { OnOk result (out.new.items ≡ out.old.items ++ span_end) }
{
    push_end_of(out, Kind::Tag(TagName::Span))
}

/// The start of a text's element, where none is open.
fn push_text_start(
    alloc: Global,
    out: &mut Vec<u8>,
    progress: Progress,
    number: usize,
    group: &Node<'_>,
) -> Result<(), NoMemory>
    ensures { OnOk result (out.new.items ≡ out.old.items ++ text_start progress number (label_of (out-Node group.now))) }
{
    match progress {
        Progress::Start => push_span(alloc, out, true, number, group),
        Progress::InText => Ok(()),
        Progress::Behind => push_span(alloc, out, false, number, group),
    }
}

/// The end of a text's element, where one is open.
fn push_text_end(out: &mut Vec<u8>, progress: Progress) -> Result<(), NoMemory>
    ensures { OnOk result (out.new.items ≡ out.old.items ++ text_end progress) }
{
    match progress {
        Progress::Start | Progress::Behind => Ok(()),
        Progress::InText => push_span_end(out),
    }
}

/// A text that a group shows at its top.
fn push_text(
    alloc: Global,
    out: &mut Vec<u8>,
    progress: Progress,
    number: usize,
    group: &Node<'_>,
    text: &[u8],
) -> Result<Progress, NoMemory>
    ensures text { OnOk result (out.new.items ≡ out.old.items ++ text_part progress number (label_of (out-Node group.now)) text.now) }
    ensures after { IfOk result (λ p. p ≡ after_text progress text.now) }
{
    match text {
        [] => Ok(progress),
        [_, ..] => {
            push_text_start(alloc, out, progress, number, group)?;
            push_escaped(out, Escaping::Text, text)?;
            Ok(Progress::InText)
        }
    }
}

/// An element at the top of a group.
fn push_group_element(
    alloc: Global,
    out: &mut Vec<u8>,
    first: bool,
    number: usize,
    group: &Node<'_>,
    node: &Node<'_>,
) -> Result<(), NoMemory>
    ensures { OnOk result (out.new.items ≡ out.old.items ++ group_element first number (label_of (out-Node group.now)) (out-Node node.now).kind
        (fixed_attributes (out-Node node.now).kind ++ attrs_of (out-Node node.now).more.attrs) (shown_html_of_all (views (out-Node node.now).children))) }
{
    let element = GroupElement {
        first,
        number,
        group,
        kind: node.kind,
        attrs: node.attrs(),
    };
    match node.kind.writing() {
        Writing::AsVoid => push_group_tag(alloc, out, element, b"/>"),
        Writing::RoundCharacter | Writing::RoundChildren => {
            push_group_tag(alloc, out, element, b">")?;
            push_shown_all(out, node.children.as_slice())?;
            push_end_of(out, node.kind)
        }
        Writing::AsText | Writing::AsSection(_) | Writing::Unwritten => Ok(()),
    }
}

/// What a node shows at the top of a group.
#[cycle(parts)]
fn push_part(
    alloc: Global,
    out: &mut Vec<u8>,
    progress: Progress,
    number: usize,
    node: &Node<'_>,
    group: &Node<'_>,
) -> Result<Progress, NoMemory>
    ensures text { OnOk result (out.new.items ≡ out.old.items ++ part progress number (label_of (out-Node group.now)) (view node.now)) }
    ensures after { IfOk result (λ p. p ≡ after progress (view node.now)) }
{
    match node.kind.showing() {
        Showing::Characters => {
            push_text(alloc, out, progress, number, group, node.shown().as_bytes())
        }
        Showing::Inside => push_parts(
            alloc,
            out,
            progress,
            number,
            node.children.as_slice(),
            group,
        ),
        Showing::Nothing => Ok(progress),
        Showing::Element => {
            push_text_end(out, progress)?;
            push_group_element(alloc, out, is_start(progress), number, group, node)?;
            Ok(Progress::Behind)
        }
    }
}

#[cycle(parts)]
fn push_parts(
    alloc: Global,
    out: &mut Vec<u8>,
    progress: Progress,
    number: usize,
    nodes: &[Node<'_>],
    group: &Node<'_>,
) -> Result<Progress, NoMemory>
    ensures text { OnOk result (out.new.items ≡ out.old.items ++ parts progress number (label_of (out-Node group.now)) (views nodes.now)) }
    ensures after { IfOk result (λ p. p ≡ after_all progress (views nodes.now)) }
{
    let mut at = progress;
    for node in nodes {
        at = push_part(alloc, out, at, number, node, group)?;
    }
    Ok(at)
}

/// The end of a group: an empty element, where it shows nothing.
fn push_ending(
    alloc: Global,
    out: &mut Vec<u8>,
    progress: Progress,
    number: usize,
    group: &Node<'_>,
) -> Result<(), NoMemory>
    ensures { OnOk result (out.new.items ≡ out.old.items ++ ending progress number (label_of (out-Node group.now))) }
{
    match progress {
        Progress::Start => {
            push_span(alloc, out, true, number, group)?;
            push_span_end(out)
        }
        Progress::InText => push_span_end(out),
        Progress::Behind => Ok(()),
    }
}

/// The group of this number: an element for each text and each element that its nodes show.
pub fn push_group(
    alloc: Global,
    out: &mut Vec<u8>,
    number: usize,
    group: &Node<'_>,
) -> Result<(), NoMemory>
    ensures { OnOk result (out.new.items ≡ out.old.items ++ group_html number (label_of (out-Node group.now))
        (plains_before (views (out-Node group.now).children) ended)) }
{
    let nodes = group.children.as_slice();
    let progress = push_parts(alloc, out, Progress::Start, number, nodes, group)?;
    push_ending(alloc, out, progress, number, group)?;
    Ok(())
}
