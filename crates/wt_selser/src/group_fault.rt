//! What makes a group no part of a block that is read by itself.

ghost use Rattle.std.specs.Prelude.{◌≡◌, ◌^◌, ◌<◌, All, IfOk, Ok, false, length};
ghost use Rattle.std.specs.Bool.{Decides};
ghost use Rattle.wt_span.specs.Items.{items, sources};
ghost use Rattle.wt_span.specs.Origins.{IsSoundPiece};
ghost use Rattle.wt_tree.specs.declared.node.Node.{out-Node};
ghost use Rattle.wt_tree.specs.Plain.{face};
ghost use Rattle.wt_tree.specs.Tiling.{HasNoGroup, NoneIsGroup};
ghost use Rattle.wt_tree.specs.View.{label_of, view, views};
ghost use Rattle.wt_page.specs.Body.{meaning};
ghost use Rattle.wt_annotated.specs.Annotated.{all_unplaced};
ghost use Rattle.wt_slices.specs.Borders.{HasBorders};
ghost use Rattle.wt_selser.specs.Borders.{AllHaveBorders, IsAtBorders, page_text};
ghost use Rattle.wt_selser.specs.GroupFaults.{faulty_at, has_faulty_group, is_faulty, is_faulty_node, one_paragraph, paragraph_face, shows_other, trees_in};
ghost use Rattle.wt_visible.specs.Views.{children_view};

use std::alloc::Global;
use wt_annotated::unplaced_nodes;
use wt_build::build_pieces;
use wt_inline::PieceTree;
use wt_isolation::{has_odd_line, has_open_text, pieces_alone};
use wt_span::{Items, List, NoMemory, Piece};
use wt_tiles::glyphs_of;
use wt_tree::{InlineForm, Kind, Node, Ranges, same_data, same_kind};
use wt_visible::{Child, shown_nodes, shows_same};

/// What pieces mean as a page, without places.
fn nodes_of<'a>(alloc: Global, pieces: &[Piece<'a>]) -> Result<List<Node<'a>>, NoMemory>
    requires sound { All IsSoundPiece pieces.now }
    requires few { length (sources (items pieces.now)) < 2 ^ 32 }
    ensures { IfOk result (λ ns. views ns ≡ all_unplaced (trees_in (meaning (items pieces.now)))) }
{
    let tree = build_pieces(alloc, pieces)?;
    let PieceTree { children, .. } = tree.into_body();
    let nodes = unplaced_nodes(alloc, children)?;
    Ok(nodes)
}

/// Whether a node is a paragraph without attributes.
fn is_paragraph(node: &Node<'_>) -> bool
    ensures { Decides result (face (label_of (out-Node node.now)) ≡ paragraph_face) }
{
    let para = same_kind(node.kind, Kind::Para);
    if !para {
        return false;
    }
    let bare = node.attrs().is_empty();
    if !bare {
        return false;
    }
    same_data(node.mw(), None)
}

/// Whether the only thing that is shown is a paragraph that shows what a group does.
fn is_one_paragraph(
    alloc: Global,
    shown: &[Child<'_, '_, '_>],
    group: &Node<'_>,
) -> Result<bool, NoMemory>
    ensures { IfOk result (λ b. Decides b (children_view shown.now ≡ one_paragraph (views (out-Node group.now).children))) }
{
    let count = shown.len();
    if count != 1 {
        return Ok(false);
    }
    match &shown[0] {
        Child::Text(_) => Ok(false),
        Child::Element(element) => {
            let para = is_paragraph(element.node);
            if !para {
                return Ok(false);
            }
            let same = shows_same(alloc, *element, group)?;
            Ok(same)
        }
    }
}

/// Whether pieces show something else than one paragraph of what a group shows.
fn shows_other(alloc: Global, pieces: &[Piece<'_>], group: &Node<'_>) -> Result<bool, NoMemory>
    requires sound { All IsSoundPiece pieces.now }
    requires few { length (sources (items pieces.now)) < 2 ^ 32 }
    ensures { IfOk result (λ b. b ≡ shows_other (items pieces.now) (views (out-Node group.now).children)) }
{
    let nodes = nodes_of(alloc, pieces)?;
    let shown = shown_nodes(alloc, &[], nodes.as_slice())?;
    let one = is_one_paragraph(alloc, shown.as_slice(), group)?;
    Ok(!one)
}

/// Whether a group has a fault, whose pieces alone are these.
fn is_faulty(alloc: Global, pieces: &[Piece<'_>], group: &Node<'_>) -> Result<bool, NoMemory>
    requires sound { All IsSoundPiece pieces.now }
    requires few { length (sources (items pieces.now)) < 2 ^ 32 }
    ensures { IfOk result (λ b. b ≡ is_faulty (items pieces.now) (views (out-Node group.now).children)) }
{
    let other = shows_other(alloc, pieces, group)?;
    if other {
        return Ok(true);
    }
    let glyphs = glyphs_of(alloc, pieces)?;
    let odd = has_odd_line(alloc, glyphs.as_slice())?;
    if odd {
        return Ok(true);
    }
    let unended = has_open_text(alloc, group.children.as_slice())?;
    Ok(unended)
}

/// Whether a group of the page at this place has a fault.
fn is_faulty_at(
    alloc: Global,
    page: &Items<'_>,
    ranges: Option<Ranges>,
    group: &Node<'_>,
) -> Result<bool, NoMemory>
    requires { IsAtBorders (page_text page.now) ranges }
    ensures { IfOk result (λ b. b ≡ faulty_at page.now ranges (views (out-Node group.now).children)) }
{
    match ranges {
        None => Ok(false),
        Some(ranges) => {
            let pieces = pieces_alone(alloc, page, ranges)?;
            let faulty = is_faulty(alloc, pieces.as_slice(), group)?;
            Ok(faulty)
        }
    }
}

/// Whether a group has a fault, or one in a bold or an italic node.
#[cycle(faults)]
fn is_faulty_node(alloc: Global, page: &Items<'_>, node: &Node<'_>) -> Result<bool, NoMemory>
    requires { HasBorders (page_text page.now) (view node.now) }
    ensures value { IfOk result (λ b. b ≡ is_faulty_node page.now (view node.now)) }
    ensures alone { HasNoGroup (view node.now) → result ≡ Ok false }
{
    if node.kind.is_group() {
        return is_faulty_at(alloc, page, node.ranges, node);
    }
    match node.kind.edit_shape().inline {
        InlineForm::Bold | InlineForm::Italic => has_faulty_group(
            alloc,
            page,
            node.children.as_slice(),
        ),
        InlineForm::Nothing | InlineForm::Characters | InlineForm::Shown | InlineForm::PageLink =>
            Ok(false),
        InlineForm::ExternalLink | InlineForm::Tag | InlineForm::Break | InlineForm::AsItStood =>
            Ok(false),
    }
}

/// Whether one of the groups among these nodes, or in their bold and italic nodes, has a fault. The places of the
/// nodes are between the page's characters.
#[cycle(faults)]
pub fn has_faulty_group(
    alloc: Global,
    page: &Items<'_>,
    nodes: &[Node<'_>],
) -> Result<bool, NoMemory>
    requires { AllHaveBorders (page_text page.now) (views nodes.now) }
    ensures value { IfOk result (λ b. b ≡ has_faulty_group page.now (views nodes.now)) }
    ensures alone { NoneIsGroup (views nodes.now) → result ≡ Ok false }
{
    for node in nodes {
        let faulty = is_faulty_node(alloc, page, node)?;
        if faulty {
            return Ok(true);
        }
    }
    Ok(false)
}
