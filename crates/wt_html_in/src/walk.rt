ghost use Rattle.std.specs.Prelude.{◌≡◌, ◌+◌, ◌<◌, ◌^◌, ◌&&◌, ◌||◌, true, Some, option_map, IfOk, OnOk};
ghost use Rattle.std.specs.Str.{is_utf8};
ghost use Rattle.wt_tree.specs.Tree.{tree, none as no_trees, more as one_more};
ghost use Rattle.wt_tree.specs.View.{view, views as trees};
ghost use Rattle.wt_recut.specs.Recutting.{appended};
ghost use Rattle.wt_html_elements.specs.Built.{view_content, pairs, views};
ghost use Rattle.wt_schema.specs.Groups.{is_grouped, single};
ghost use Rattle.wt_schema.specs.Fit.{leaf_in, row_as, fit_row, elements, elements_of_all};
ghost use Rattle.wt_schema.specs.Unsourced.{lacks_source};
ghost use Rattle.wt_html_nodes.specs.Texts.{are_utf8_values, is_utf8_markup, are_utf8_markups};
ghost use Rattle.wt_html_nodes.specs.Heads.{RowFits, spot_with, label_of_head, piece_by};
ghost use Rattle.wt_html_in.specs.Roles.{text_piece};
ghost use Rattle.wt_html_in.specs.Gathering.{with_child, into_last, gathered_with};
ghost use Rattle.wt_html_in.specs.Fits.{held_in, is_block_piece, piece_of, FitsPiece, FitsNodes, Passed, is_asked, unsourced_here};

use crate::nodes::{leaf_in, node_of};
use crate::roles::{Role, role_in, roles, standing_in};
use bumpalo::Bump;
use std::alloc::Global;
use wt_html_elements::{Attribute, Content};
use wt_html_nodes::{
    FitFault, Head, Headed, Position, StartTag, headed_by, is_grouped, is_section_name,
    is_unsourced,
};
use wt_schema::Standing;
use wt_span::{List, NoMemory};
use wt_tree::{Kind, Node};

/// Where a walk over elements in document order has come: the number of the next element, and the
/// first one so far that has no source.
#[derive(Clone, Copy)]
pub struct Traversal {
    pub next: u32,
    pub unsourced: Option<u32>,
}

/// Whether an element is asked for its source: of a group the first one is, and nothing else in one.
fn is_asked(inside: bool, standing: Standing) -> bool
    ensures { result ≡ is_asked inside standing }
{
    match standing {
        Standing::Alone => !inside,
        Standing::First => !inside,
        Standing::Further => false,
        Standing::Astray => !inside,
    }
}

/// Whether an element is asked for its source and has none. A section isn't asked.
fn lacks_source(inside: bool, standing: Standing, name: &[u8], attributes: &[Attribute]) -> bool
    ensures { result ≡ (is_asked inside standing && lacks_source name.now (pairs attributes.now)) }
{
    is_asked(inside, standing) && (!is_section_name(name) && is_unsourced(attributes))
}

/// Passes the start of an element, in a group or not; it gives the element's number.
fn enter(
    walk: &mut Traversal,
    inside: bool,
    standing: Standing,
    name: &[u8],
    attributes: &[Attribute],
) -> u32
    requires { walk.old.next + 1 < 2 ^ 32 }
    ensures number { result ≡ walk.old.next }
    ensures passed { Passed walk.old walk.new 1 (unsourced_here inside standing walk.old.next name.now (pairs attributes.now)) }
{
    let number = walk.next;
    if walk.unsourced.is_none() && lacks_source(inside, standing, name, attributes) {
        walk.unsourced = Some(number);
    }
    walk.next = number + 1;
    number
}

/// What an element is. Its start tag is freed.
fn begin(
    alloc: Global,
    walk: &mut Traversal,
    position: Position,
    standing: Standing,
    tag: StartTag,
    contents: &[Content],
) -> Result<Headed, FitFault>
    requires few { walk.old.next + 1 < 2 ^ 32 }
    requires values { are_utf8_values (pairs tag.attributes.items) ≡ true }
    requires texts { are_utf8_markups (views contents.now) ≡ true }
    ensures headed { RowFits (position.inside || is_grouped standing)
        (λ group held. fit_row walk.old.next (spot_with position group) standing
        (row_as standing tag.name.items (pairs tag.attributes.items)) (pairs tag.attributes.items)
        (views contents.now) held) result }
    ensures passed { Passed walk.old walk.new 1
        (unsourced_here position.inside standing walk.old.next tag.name.items (pairs tag.attributes.items)) }
{
    let number = enter(
        walk,
        position.inside,
        standing,
        tag.name.as_slice(),
        tag.attributes.as_slice(),
    );
    headed_by(alloc, number, position, standing, &tag, contents)
}

/// What a text or an element is made into: nothing, a node by itself, the head of a group with its first
/// node, or one more node of the group before it.
#[derive(Drop)]
pub enum Converted<'a> {
    Nothing,
    Single(Node<'a>),
    Begun { group: Head, first: Node<'a> },
    Further(Node<'a>),
}

/// What the node of an element is, by how it is.
fn made_of<'a>(standing: Standing, group: Option<Head>, node: Node<'a>) -> Converted<'a>
    ensures { piece_of result ≡ Some (piece_by group standing (view node.entry)) }
{
    match group {
        Some(group) => Converted::Begun { group, first: node },
        None => match standing {
            Standing::Alone => Converted::Single(node),
            Standing::First => Converted::Single(node),
            Standing::Further => Converted::Further(node),
            Standing::Astray => Converted::Single(node),
        },
    }
}

/// Whether one of the nodes up to this is a block or a list, in a group or not.
fn is_behind(behind: bool, made: &Converted<'_>) -> bool
    ensures { result ≡ (behind || is_block_piece (piece_of made.now)) }
{
    match made {
        Converted::Nothing => behind,
        Converted::Single(node) => behind || node.kind.is_block(),
        Converted::Begun { first, .. } => behind || first.kind.is_block(),
        Converted::Further(node) => behind || node.kind.is_block(),
    }
}

/// A node with one more child.
#[tactic(auto, using(crate::proofs::Pieces::views_push))]
fn with_child<'a>(node: Node<'a>, child: Node<'a>) -> Result<Node<'a>, NoMemory>
    ensures { IfOk result (λ n. view n ≡ with_child (view node.entry) (view child.entry)) }
{
    let mut node = node;
    node.children.push(child)?;
    Ok(node)
}

/// Puts a node into the last one, where there is one.
#[tactic(auto, using(crate::proofs::Pieces::views_push, crate::proofs::Pieces::into_pushed))]
fn push_into_last<'a>(nodes: &mut Vec<Node<'a>>, node: Node<'a>) -> Result<(), NoMemory>
    ensures { OnOk result (trees nodes.new.items ≡ into_last (trees nodes.old.items) (view node.entry)) }
{
    match nodes.pop() {
        None => Ok(()),
        Some(last) => {
            let last = with_child(last, node)?;
            nodes.push(last)?;
            Ok(())
        }
    }
}

#[tactic(auto, using(crate::proofs::Pieces::views_push))]
fn push_node<'a>(nodes: &mut Vec<Node<'a>>, node: Node<'a>) -> Result<(), NoMemory>
    ensures { OnOk result (trees nodes.new.items ≡ appended (trees nodes.old.items) (one_more (view node.entry) no_trees)) }
{
    nodes.push(node)?;
    Ok(())
}

/// The node of a group with its first child.
fn group_node<'a>(
    alloc: Global,
    arena: &'a Bump<Global>,
    group: Head,
    first: Node<'a>,
) -> Result<Node<'a>, NoMemory>
    ensures { IfOk result (λ n. view n ≡ tree (label_of_head group) (one_more (view first.entry) no_trees)) }
{
    let children = Vec::from_array(alloc, [first])?;
    node_of(alloc, arena, true, group, List::from_vec(children))
}

/// Puts what was made after others.
fn push_made<'a>(
    alloc: Global,
    arena: &'a Bump<Global>,
    nodes: &mut Vec<Node<'a>>,
    made: Converted<'a>,
) -> Result<(), NoMemory>
    ensures { OnOk result (trees nodes.new.items ≡ gathered_with (trees nodes.old.items) (piece_of made.entry)) }
{
    match made {
        Converted::Nothing => Ok(()),
        Converted::Single(node) => push_node(nodes, node),
        Converted::Begun { group, first } => {
            let node = group_node(alloc, arena, group, first)?;
            push_node(nodes, node)
        }
        Converted::Further(node) => push_into_last(nodes, node),
    }
}

/// What a text is made into.
fn leaf_made<'a>(
    alloc: Global,
    arena: &'a Bump<Global>,
    outer: Kind,
    bytes: &[u8],
) -> Result<Converted<'a>, NoMemory>
    requires { is_utf8 bytes.now ≡ true }
    ensures { IfOk result (λ m. piece_of m ≡ option_map single (leaf_in outer bytes.now)) }
{
    match leaf_in(alloc, arena, outer, bytes)? {
        None => Ok(Converted::Nothing),
        Some(leaf) => Ok(Converted::Single(leaf)),
    }
}

/// What a text of this role is made into.
fn text_made<'a>(
    alloc: Global,
    arena: &'a Bump<Global>,
    role: Role,
    outer: Kind,
    bytes: &[u8],
) -> Result<Converted<'a>, NoMemory>
    requires { is_utf8 bytes.now ≡ true }
    ensures { IfOk result (λ m. piece_of m ≡ text_piece role outer bytes.now) }
{
    match role {
        Role::Gap => Ok(Converted::Nothing),
        Role::Text => leaf_made(alloc, arena, outer, bytes),
        Role::Element(_) => leaf_made(alloc, arena, outer, bytes),
    }
}

/// What an element is made into, when the nodes that are in it are these, in a group or not.
fn made_with<'a>(
    alloc: Global,
    arena: &'a Bump<Global>,
    inside: bool,
    headed: Headed,
    nodes: List<Node<'a>>,
) -> Result<Converted<'a>, NoMemory>
    ensures { IfOk result (λ m. piece_of m ≡ Some (piece_by headed.group headed.standing
        (tree (label_of_head headed.head) (held_in inside headed.head.kind (trees nodes.entry))))) }
{
    let Headed {
        standing,
        group,
        head,
    } = headed;
    let node = node_of(alloc, arena, inside, head, nodes)?;
    Ok(made_of(standing, group, node))
}

/// Whether what is in an element is in a group.
fn is_within(inside: bool, standing: Standing) -> bool
    ensures { result ≡ (inside || is_grouped standing) }
{
    inside || is_grouped(standing)
}

/// What a text or an element of this role is made into, where it is.
#[cycle(fitting)]
fn piece<'a>(
    alloc: Global,
    arena: &'a Bump<Global>,
    walk: &mut Traversal,
    position: Position,
    role: Role,
    content: Content,
) -> Result<Converted<'a>, FitFault>
    requires few { walk.old.next + elements (view_content content) < 2 ^ 32 }
    requires utf8 { is_utf8_markup (view_content content) ≡ true }
    ensures { FitsPiece walk.old position role (view_content content) walk.new result }
{
    match content {
        Content::Text(bytes) => {
            let made = text_made(alloc, arena, role, position.outer, bytes.as_slice())?;
            Ok(made)
        }
        Content::Element {
            name,
            attributes,
            contents,
        } => {
            let standing = standing_in(role);
            let tag = StartTag { name, attributes };
            let headed = begin(alloc, walk, position, standing, tag, contents.as_slice())?;
            let inside = is_within(position.inside, standing);
            let children = nodes(alloc, arena, walk, headed.head.kind, inside, contents)?;
            let made = made_with(alloc, arena, inside, headed, children)?;
            Ok(made)
        }
    }
}

/// What is in an element of the kind `outer`, in a group or not. Each text and element is freed as
/// soon as its node is made.
#[cycle(fitting)]
pub fn nodes<'a>(
    alloc: Global,
    arena: &'a Bump<Global>,
    walk: &mut Traversal,
    outer: Kind,
    inside: bool,
    contents: Vec<Content>,
) -> Result<List<Node<'a>>, FitFault>
    requires few { walk.old.next + elements_of_all (views contents.items) < 2 ^ 32 }
    requires utf8 { are_utf8_markups (views contents.items) ≡ true }
    ensures { FitsNodes walk.old outer inside (views contents.items) walk.new result }
{
    let roles = roles(alloc, contents.as_slice())?;
    let mut children = Vec::with_capacity(alloc, contents.len())?;
    let mut behind = false;
    let mut at = 0;
    for content in contents {
        let position = Position {
            outer,
            inside,
            behind,
        };
        let made = piece(
            alloc,
            arena,
            walk,
            position,
            role_in(roles.as_slice(), at),
            content,
        )?;
        behind = is_behind(behind, &made);
        push_made(alloc, arena, &mut children, made)?;
        at += 1;
    }
    Ok(List::from_vec(children))
}
