//! Trees made by hand are compared.
use std::alloc::Global;
use wt_span::{List, NoMemory, Text};
use wt_tree::{Kind, More, Node, Ranges, Shown, Slices, Source, plain_eq};

/// A node of this kind and number that has nothing else.
fn node<'a>(alloc: Global, kind: Kind, id: u32) -> Node<'a> {
    Node {
        kind,
        id,
        ranges: None,
        source: Source::none(),
        more: More::none(),
        children: List::new(alloc),
    }
}

/// A leaf that shows its source; of a long text it shows all and has no source.
fn leaf<'a>(alloc: Global, kind: Kind, text: &'a str) -> Node<'a> {
    let own = if text.len() < 1000 {
        Slices::one(Text::new(text, 0))
    } else {
        Slices::none()
    };
    Node::leaf(alloc, kind, None, own, Shown::written(text))
}

/// A node with a further child.
fn with_child<'a>(mut outer: Node<'a>, child: Node<'a>) -> Result<Node<'a>, NoMemory> {
    outer.children.push(child)?;
    Ok(outer)
}

/// A node with a leaf as a further child.
fn with_leaf<'a>(
    alloc: Global,
    outer: Node<'a>,
    kind: Kind,
    text: &'a str,
) -> Result<Node<'a>, NoMemory> {
    with_child(outer, leaf(alloc, kind, text))
}

/// A heading `==  ==` without its text.
fn empty_heading<'a>(alloc: Global) -> Node<'a> {
    let opening = Slices::one(Text::new("== ", 1));
    let closing = Slices::one(Text::new(" ==", 5));
    let ranges = Ranges {
        start: 1,
        end: 8,
        open_w: 3,
        close_w: 3,
    };
    Node {
        ranges: Some(ranges),
        source: Source::round(opening, closing),
        ..node(alloc, Kind::Heading(2), 1)
    }
}

/// A heading `== A ==` with the given text.
fn heading<'a>(alloc: Global, text: &'a str) -> Result<Node<'a>, NoMemory> {
    with_leaf(alloc, empty_heading(alloc), Kind::Text, text)
}

/// Such a heading after a separator, in a body.
fn page<'a>(alloc: Global, text: &'a str) -> Result<Node<'a>, NoMemory> {
    let heading = heading(alloc, text)?;
    let body = with_leaf(alloc, node(alloc, Kind::Body, 0), Kind::Sep, "\n")?;
    with_child(body, heading)
}

/// The same heading in two texts, with another number and without the separator.
fn plain_page<'a>(alloc: Global) -> Result<Node<'a>, NoMemory> {
    let heading = with_leaf(alloc, node(alloc, Kind::Heading(2), 7), Kind::Text, "A")?;
    let heading = with_leaf(alloc, heading, Kind::Text, "")?;
    with_child(node(alloc, Kind::Body, 0), heading)
}

/// Whether pages of these headings show the same.
fn show_the_same(alloc: Global, one: &str, other: &str) -> Result<bool, NoMemory> {
    let one = page(alloc, one)?;
    let other = page(alloc, other)?;
    plain_eq(alloc, &one, &other)
}

/// Whether a page shows the same as one without its separator and with another number.
fn shows_no_separator(alloc: Global) -> Result<bool, NoMemory> {
    let body = page(alloc, "A")?;
    let plain = plain_page(alloc)?;
    plain_eq(alloc, &body, &plain)
}

#[test]
fn compares_what_is_shown(rt: HostRuntime) -> Result<(), NoMemory> {
    assert!(rt; show_the_same(rt.alloc(), "A", "A")?);
    assert!(rt; !show_the_same(rt.alloc(), "A", "B")?);
    assert!(rt; shows_no_separator(rt.alloc())?);
    Ok(())
}
