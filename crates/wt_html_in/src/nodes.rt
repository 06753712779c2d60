ghost use Rattle.std.specs.Prelude.{◌≡◌, true, Some, None, option_map, IfOk};
ghost use Rattle.std.specs.Str.{is_utf8};
ghost use Rattle.wt_tree.specs.Tree.{tree, none as no_trees};
ghost use Rattle.wt_tree.specs.View.{view, views, texts_of};
ghost use Rattle.wt_tree.specs.Leaves.{text_leaf, sep_leaf};
ghost use Rattle.wt_schema.specs.Fit.{leaf_in, source_of};
ghost use Rattle.wt_html_nodes.specs.Heads.{label_of_head};
ghost use Rattle.wt_html_in.specs.Fits.{held_in};
ghost use Rattle.wt_html_in.specs.Sources.{source_view, source_told, sourced_label};

use crate::texts::{in_arena, kept, slices_of};
use bumpalo::Bump;
use std::alloc::Global;
use wt_datamw::Sync;
use wt_html_nodes::{Head, holds_text, shows_text, text_of};
use wt_recut::recut_texts;
use wt_span::{List, NoMemory, Str};
use wt_tree::{Kind, More, Node, Ranges, Shown, Slices, Source, Texts};

fn text_leaf<'a>(alloc: Global, arena: &'a Bump<Global>, text: &str) -> Result<Node<'a>, NoMemory>
    ensures { IfOk result (λ n. view n ≡ text_leaf None text.now) }
{
    let text = in_arena(arena, text)?;
    let own = slices_of(alloc, text)?;
    let shown = Shown::written(text);
    Ok(Node::leaf(alloc, Kind::Text, None, own, shown))
}

fn sep_leaf<'a>(alloc: Global, arena: &'a Bump<Global>, text: &str) -> Result<Node<'a>, NoMemory>
    ensures { IfOk result (λ n. view n ≡ sep_leaf None text.now) }
{
    let own = kept(alloc, arena, text)?;
    Ok(Node::leaf(alloc, Kind::Sep, None, own, Shown::none()))
}

/// What a text is that is directly in an element of the kind `outer`: no node where it is the
/// element's character.
pub fn leaf_in<'a>(
    alloc: Global,
    arena: &'a Bump<Global>,
    outer: Kind,
    bytes: &[u8],
) -> Result<Option<Node<'a>>, NoMemory>
    requires { is_utf8 bytes.now ≡ true }
    ensures { IfOk result (λ o. option_map view o ≡ leaf_in outer bytes.now) }
{
    if shows_text(outer) {
        return Ok(None);
    }
    let text = text_of(bytes);
    if holds_text(outer) {
        let node = text_leaf(alloc, arena, text)?;
        Ok(Some(node))
    } else {
        let node = sep_leaf(alloc, arena, text)?;
        Ok(Some(node))
    }
}

/// What `data-parsoid` says of a node, with its texts in the arena.
#[derive(Drop)]
struct ReadSource<'a> {
    ranges: Option<Ranges>,
    opening: Slices<'a>,
    closing: Slices<'a>,
    own: Slices<'a>,
}

fn no_source<'a>() -> ReadSource<'a>
    ensures { source_view result ≡ source_told None }
{
    ReadSource {
        ranges: None,
        opening: Slices::none(),
        closing: Slices::none(),
        own: Slices::none(),
    }
}

fn own_of<'a>(
    alloc: Global,
    arena: &'a Bump<Global>,
    src: &Option<Str>,
) -> Result<Slices<'a>, NoMemory>
    ensures { IfOk result (λ l. texts_of l ≡ source_of src.now) }
{
    match src {
        None => Ok(Slices::none()),
        Some(text) => kept(alloc, arena, text.as_str()),
    }
}

fn source_in<'a>(
    alloc: Global,
    arena: &'a Bump<Global>,
    sync: &Sync,
) -> Result<ReadSource<'a>, NoMemory>
    ensures { IfOk result (λ s. source_view s ≡ source_told (Some sync.now)) }
{
    let opening = kept(alloc, arena, sync.opening.as_str())?;
    let closing = kept(alloc, arena, sync.closing.as_str())?;
    let own = own_of(alloc, arena, &sync.src)?;
    Ok(ReadSource {
        ranges: Some(sync.dsr),
        opening,
        closing,
        own,
    })
}

fn source_for<'a>(
    alloc: Global,
    arena: &'a Bump<Global>,
    sync: &Option<Sync>,
) -> Result<ReadSource<'a>, NoMemory>
    ensures { IfOk result (λ s. source_view s ≡ source_told sync.now) }
{
    match sync {
        None => Ok(no_source()),
        Some(sync) => source_in(alloc, arena, sync),
    }
}

/// The node with this source.
fn sourced<'a>(
    alloc: Global,
    head: Head,
    source: ReadSource<'a>,
    children: List<Node<'a>>,
) -> Result<Node<'a>, NoMemory>
    ensures { IfOk result (λ n. view n ≡ tree (sourced_label head (source_view source.entry)) (views children.entry)) }
{
    let ReadSource {
        ranges,
        opening,
        closing,
        own,
    } = source;
    let Head {
        kind,
        id,
        shown,
        attrs,
        mark,
        mw,
        sync: _,
    } = head;
    let source = Source::of(alloc, opening, closing, own, Shown::made(shown))?;
    let more = More::of(alloc, attrs, mark, mw)?;
    Ok(Node {
        kind,
        id,
        ranges,
        source,
        more,
        children,
    })
}

/// What an element of this kind holds, when the nodes that are in it are these: in an item, a cell or
/// a caption texts and separators are cut at the border between them, but for those in groups.
fn children_in<'a>(
    alloc: Global,
    inside: bool,
    kind: Kind,
    nodes: List<Node<'a>>,
) -> Result<List<Node<'a>>, NoMemory>
    ensures { IfOk result (λ l. views l ≡ held_in inside kind (views nodes.entry)) }
{
    if inside {
        return Ok(nodes);
    }
    match kind.shape().texts {
        Texts::Bordered => recut_texts(alloc, nodes),
        Texts::Separators => Ok(nodes),
        Texts::Page => Ok(nodes),
        Texts::OwnCharacter => Ok(nodes),
    }
}

/// The node that an element is.
#[tactic(auto, using(crate::proofs::Sources::sourced_is))]
pub fn node_of<'a>(
    alloc: Global,
    arena: &'a Bump<Global>,
    inside: bool,
    head: Head,
    nodes: List<Node<'a>>,
) -> Result<Node<'a>, NoMemory>
    ensures { IfOk result (λ n. view n ≡ tree (label_of_head head) (held_in inside head.kind (views nodes.entry))) }
{
    let source = source_for(alloc, arena, &head.sync)?;
    let children = children_in(alloc, inside, head.kind, nodes)?;
    sourced(alloc, head, source, children)
}
