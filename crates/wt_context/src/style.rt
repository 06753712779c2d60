//! Styles as nodes round a context's segments.

ghost use Rattle.std.specs.Prelude.{◌≡◌, ◌<◌, ◌≤◌, ◌+◌, ◌-◌, ◌^◌, length, take, drop, IfOk};
ghost use Rattle.std.specs.List.{prefix_len};
ghost use Rattle.wt_span.specs.Items.{items};
ghost use Rattle.wt_tree.specs.declared.kind.Kind.{Kind as NodeKind};
ghost use Rattle.wt_quotes.specs.Forest.{lies_in, forest_of};
ghost use Rattle.wt_inline.specs.ItemTree.{plain, inner, forest};
ghost use Rattle.wt_inline.specs.View.{item_tree, item_trees};
ghost use Rattle.wt_inline.specs.Grown.{growth, Grows};
ghost use Rattle.wt_context.specs.Styled.{style_kind, with_styles};
ghost use Rattle.wt_context.specs.Styling.{Fill, IsStyle, AreStyled};
ghost use Rattle.wt_context.specs.Tokens.{segments_of, rest_segments};

use crate::chunk::{chunks, segment_count};
use crate::rest::Rest;
use crate::token::Token;
use std::alloc::Global;
use wt_inline::{Children, NodeHead, PieceTree};
use wt_quotes::{Style, style_tree};
use wt_span::{List, NoMemory, Piece, front_of, rest_of};
use wt_tree::Kind;

/// Children of a node that are made, and what is left of the tokens.
#[derive(Drop)]
struct Styling<'a> {
    children: Children<'a>,
    rest: Rest<'a>,
}

fn style_kind(bold: bool) -> Kind
    ensures { result ≡ style_kind bold }
{
    if bold { Kind::Bold } else { Kind::Italic }
}

/// Whether a style lies between the delimiters of another one.
fn lies_in(inner: &Style, outer: &Style) -> bool
    ensures { result ≡ lies_in inner.now outer.now }
{
    u64::from(outer.from) + u64::from(outer.open_w) <= u64::from(inner.from)
        && u64::from(inner.to) + u64::from(outer.close_w) <= u64::from(outer.to)
}

/// How many of the styles after one lie in it.
fn inner_count(style: &Style, later: &[Style]) -> usize
    ensures value { result ≡ prefix_len (λ u. lies_in u style.now) later.now }
    ensures within { result ≤ length later.now }
{
    for (i, inner) in later.iter().enumerate() {
        if !lies_in(inner, style) {
            return i;
        }
    }
    later.len()
}

/// The node of a style.
fn style_node<'a>(
    alloc: Global,
    bold: bool,
    opening: List<Piece<'a>>,
    children: List<PieceTree<'a>>,
    closing: List<Piece<'a>>,
) -> PieceTree<'a>
    ensures { item_tree result ≡ inner (plain (style_kind bold)) (items opening.entry) (forest (item_trees children.entry)) (items closing.entry) }
{
    PieceTree {
        head: NodeHead::plain(style_kind(bold)),
        opening,
        children,
        closing,
    }
}

/// A style that begins at the place `low` or after it, with the segments before it; `inner` are
/// the styles in it.
#[cycle(styling)]
fn with_style<'a>(
    alloc: Global,
    now: Styling<'a>,
    low: u32,
    style: &Style,
    inner: &[Style],
) -> Result<Styling<'a>, NoMemory>
    requires start { low ≤ style.now.from }
    requires opening { style.now.from + style.now.open_w < 2 ^ 32 }
    requires closing { style.now.close_w ≤ style.now.to }
    requires inside { Fill (style.now.from + style.now.open_w) (style.now.to - style.now.close_w) (forest_of inner.now) }
    ensures { IfOk result (λ s. IsStyle low style.now inner.now (rest_segments now.entry.rest)
        (growth now.entry.children) (rest_segments s.rest) (growth s.children)) }
{
    let Styling { children, rest } = now;
    let (children, rest) = rest.onto(alloc, children, (style.from - low) as usize)?;
    let (opening, rest) = rest.pieces(alloc, style.open_w as usize)?;
    let inside = Styling {
        children: Children::new(alloc),
        rest,
    };
    let from = style.from + style.open_w;
    let inside = styled(alloc, inside, from, style.to - style.close_w, inner)?;
    let within = inside.children.finish(alloc)?;
    let (closing, rest) = inside.rest.pieces(alloc, style.close_w as usize)?;
    let node = style_node(alloc, style.bold, opening, within, closing);
    let children = children.with_tree(alloc, node)?;
    Ok(Styling { children, rest })
}

/// The segments between two places, with these styles, which lie there.
#[cycle(styling)]
fn styled<'a>(
    alloc: Global,
    now: Styling<'a>,
    low: u32,
    high: u32,
    styles: &[Style],
) -> Result<Styling<'a>, NoMemory>
    requires { Fill low high (forest_of styles.now) }
    ensures { IfOk result (λ s. AreStyled low high styles.now (rest_segments now.entry.rest)
        (growth now.entry.children) (rest_segments s.rest) (growth s.children)) }
{
    let mut now = now;
    let mut place = low;
    let mut at = 0;
    while at < styles.len() {
        let style = styles[at];
        let later = rest_of(styles, at + 1);
        let n = inner_count(&style, later);
        now = with_style(alloc, now, place, &style, front_of(later, n))?;
        place = style.to;
        at += 1 + n;
    }
    let Styling { children, rest } = now;
    let (children, rest) = rest.onto(alloc, children, (high - place) as usize)?;
    Ok(Styling { children, rest })
}

/// The children of a node with the segments of a context, styles round them.
#[tactic(auto, unfolding(crate::specs::Styled::with_styles))]
pub fn with_styles<'a>(
    alloc: Global,
    children: Children<'a>,
    tokens: List<Token<'a>>,
) -> Result<Children<'a>, NoMemory>
    requires { length (segments_of tokens) < 2 ^ 32 }
    ensures { IfOk result (λ c. Grows (growth children.entry) (with_styles (segments_of tokens.entry)) (growth c)) }
{
    let count = segment_count(tokens.as_slice());
    let chunks = chunks(alloc, tokens.as_slice())?;
    let styles = style_tree(alloc, chunks.as_slice())?;
    let now = Styling {
        children,
        rest: Rest::of(tokens),
    };
    let Styling { children, .. } = styled(alloc, now, 0, count, styles.as_slice())?;
    Ok(children)
}
