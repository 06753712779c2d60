//! Groups that may be at the start or end of a line though they were at none in the page, and beside anything.

use crate::joints::source_of;
use wt_guards::{Role, Stretch, Transclusion, Unit, line_start_hazard};
use wt_tree::{InlineForm, Kind, Node};

/// Whether a text that begins with a brace may be the start of a table, as it or with what comes after it.
fn may_begin_table(text: &str) -> bool {
    match text.as_bytes().get(1) {
        Some(second) => *second == b'|',
        None => true,
    }
}

/// Whether a text that begins with a dash may be a rule, as it or with what comes after it.
fn may_begin_rule(text: &str) -> bool {
    let bytes = text.as_bytes();
    let dashes = bytes.iter().take_while(|byte| **byte == b'-').count();
    dashes > 3 || dashes == bytes.len()
}

/// Whether a text may begin a line: it begins with no sign of a block.
fn may_begin(text: &str) -> bool {
    match text.chars().next() {
        None => false,
        Some('{') => !may_begin_table(text),
        Some('-') => !may_begin_rule(text),
        Some(first) => !line_start_hazard(first) && first != '|',
    }
}

/// Whether a text may be within a line, where it may not begin one: it begins with a blank or the sign of a list or a
/// rule, which means nothing there.
fn may_go_on(text: &str) -> bool {
    matches!(text.as_bytes().first(), Some(b' ' | b'*' | b'#' | b'-'))
}

/// Whether a kind is written for a sign of a line that is no block's, or shows nothing.
fn is_sign(kind: Kind) -> bool {
    matches!(
        kind,
        Kind::Entity
            | Kind::Island
            | Kind::Category
            | Kind::Nowiki
            | Kind::Switch
            | Kind::Comment
            | Kind::Include
    )
}

/// The first of these nodes that is no comment or include tag.
fn first_shown<'n, 'a>(nodes: &'n [Node<'a>]) -> Option<&'n Node<'a>> {
    for node in nodes {
        if !node.kind.is_mark() {
            return Some(node);
        }
    }
    None
}

/// Whether nodes are of one line: texts without line breaks, styles, links, tags, and what is written for a sign.
fn are_of_line(nodes: &[Node<'_>]) -> bool {
    for node in nodes {
        let is_of_line = match node.kind.edit_shape().inline {
            InlineForm::Characters => !node.shown().as_bytes().contains(&b'\n'),
            InlineForm::Bold | InlineForm::Italic | InlineForm::Tag => {
                are_of_line(node.children.as_slice())
            }
            InlineForm::PageLink | InlineForm::ExternalLink | InlineForm::Break => true,
            InlineForm::Shown | InlineForm::AsItStood => is_sign(node.kind),
            InlineForm::Nothing => false,
        };
        if !is_of_line {
            return false;
        }
    }
    true
}

/// Whether something of the line is before what comes next.
fn is_within_line(left: Option<&Unit<'_>>) -> bool {
    match left {
        Some(unit) => source_of(unit).last().is_some_and(|last| *last != b'\n'),
        None => false,
    }
}

/// Whether what a group shows begins and ends no block wherever it is in a line, or, where it begins with a blank or a
/// sign, where it is now, within one.
fn is_of_line(nodes: &[Node<'_>], left: Option<&Unit<'_>>) -> bool {
    let begins = match first_shown(nodes) {
        None => false,
        Some(node) if !matches!(node.kind, Kind::Text) => true,
        Some(node) => {
            may_begin(node.shown()) || (may_go_on(node.shown()) && is_within_line(left))
        }
    };
    begins && are_of_line(nodes)
}

/// What a group is to its neighbours where it may be at a line's start and end.
fn anywhere(group: Transclusion) -> Transclusion {
    Transclusion {
        slashes: group.slashes,
        is_invisible: group.is_invisible,
        is_blank: group.is_blank,
        opens_with_apostrophe: group.opens_with_apostrophe,
        closes_with_apostrophe: group.closes_with_apostrophe,
        began_line: true,
        ended_line: true,
        ended_content: true,
        between_equals: group.between_equals,
    }
}

/// Whether a group of one line begins and ends with nothing that joins its neighbours: no apostrophe and no URL.
fn is_plain(group: Transclusion) -> bool {
    !group.slashes
        && !group.is_invisible
        && !group.is_blank
        && !group.opens_with_apostrophe
        && !group.closes_with_apostrophe
}

fn begins_with_letter(nodes: &[Node<'_>]) -> bool {
    match nodes.first() {
        Some(node) => node
            .shown()
            .chars()
            .next()
            .is_some_and(|first| first.is_ascii_lowercase()),
        None => false,
    }
}

/// Whether a link ends before what begins at a place of the page, and didn't end there in the page.
fn is_behind_new_link(left: Option<&Unit<'_>>, place: Stretch) -> bool {
    match left {
        Some(Unit::Thing(thing)) if matches!(thing.role, Role::Link) => match thing.place {
            Some(before) => before.end != place.start,
            None => true,
        },
        _ => false,
    }
}

/// What a group is that is like a node which isn't one: a link where it ends with one, which takes letters after it.
fn role_of_plain(nodes: &[Node<'_>]) -> Role {
    match nodes.last() {
        Some(node) if matches!(node.kind, Kind::WikiLink) => Role::Link,
        _ => Role::Node,
    }
}

/// What a group of one line is to its neighbours.
fn role_of_line(
    group: Transclusion,
    nodes: &[Node<'_>],
    left: Option<&Unit<'_>>,
    place: Stretch,
) -> Role {
    let is_taken = begins_with_letter(nodes) && is_behind_new_link(left, place);
    if is_plain(group) && !is_taken {
        role_of_plain(nodes)
    } else {
        Role::Group(anywhere(group))
    }
}

/// What a call that gives nothing is to its neighbours: what a comment is.
fn role_of_nothing() -> Role {
    Role::Mark {
        ends_line: false,
        began_line: true,
    }
}

/// Whether what a group shows begins as a word goes on.
fn begins_in_word(nodes: &[Node<'_>]) -> bool {
    match nodes.first() {
        Some(node) if matches!(node.kind, Kind::Text) => node
            .shown()
            .chars()
            .next()
            .is_some_and(|first| first.is_ascii_alphanumeric()),
        _ => false,
    }
}

/// Whether typed text ends so that no URL begins after it.
fn ends_in_word(left: Option<&Unit<'_>>) -> bool {
    match left {
        Some(Unit::Text(text)) => text
            .as_bytes()
            .last()
            .is_some_and(|last| last.is_ascii_alphanumeric()),
        _ => false,
    }
}

/// What a node of the page, which was at this place, is to its neighbours after `left`, where nothing joins at a
/// line's start or end.
pub fn role_in_line(role: Role, node: &Node<'_>, left: Option<&Unit<'_>>, place: Stretch) -> Role {
    let nodes = node.children.as_slice();
    match role {
        Role::Group(group) if group.is_invisible => role_of_nothing(),
        Role::Group(group) if group.slashes && begins_in_word(nodes) && ends_in_word(left) => {
            Role::Node
        }
        Role::Group(group) if is_of_line(nodes, left) => role_of_line(group, nodes, left, place),
        Role::Mark { ends_line, .. } => Role::Mark {
            ends_line,
            began_line: true,
        },
        other => other,
    }
}
