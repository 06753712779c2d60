//! A section round what it holds.

ghost use Rattle.std.specs.Prelude.{◌≡◌};
ghost use Rattle.wt_tree.specs.View.{view, views};
ghost use Rattle.wt_sections.specs.Gathering.{section_of, span_of};
ghost use Rattle.wt_sections.specs.Sections.{last_ranges, spanned};

use wt_span::List;
use wt_tree::{Kind, More, Node, Ranges, Source};

fn joined(first: Option<Ranges>, last: Option<Ranges>) -> Option<Ranges>
    ensures { result ≡ spanned first last }
{
    match (first, last) {
        (Some(first), Some(last)) => Some(Ranges {
            start: first.start,
            end: last.end,
            open_w: 0,
            close_w: 0,
        }),
        _ => None,
    }
}

/// The ranges of the last of these nodes, or those that are given where there is none.
fn last_ranges(ranges: Option<Ranges>, nodes: &[Node<'_>]) -> Option<Ranges>
    ensures { result ≡ last_ranges ranges (views nodes.now) }
{
    let mut last = ranges;
    for node in nodes {
        last = node.ranges;
    }
    last
}

/// From where the first node begins to where the last one ends.
fn span_of(nodes: &[Node<'_>]) -> Option<Ranges>
    ensures { result ≡ span_of (views nodes.now) }
{
    match nodes {
        [] => None,
        [first, rest @ ..] => joined(first.ranges, last_ranges(first.ranges, rest)),
    }
}

/// The section of this number that holds these nodes.
pub fn section_of<'a>(number: u32, nodes: Vec<Node<'a>>) -> Node<'a>
    ensures { view result ≡ section_of number (views nodes.entry.items) }
{
    let ranges = span_of(nodes.as_slice());
    Node {
        kind: Kind::Section(number),
        id: 0,
        ranges,
        source: Source::none(),
        more: More::none(),
        children: List::from_vec(nodes),
    }
}
