//! The heads of pairs of tags.

ghost use Rattle.std.specs.Prelude.{◌≡◌, ◌+◌, ◌≤◌, [], length, drop, take, All, IfOk};
ghost use Rattle.wt_span.specs.Items.{items};
ghost use Rattle.wt_span.specs.Origins.{IsSoundPiece};
ghost use Rattle.wt_tree.specs.View.{attrs_of};
ghost use Rattle.wt_inline.specs.View.{head_of};
ghost use Rattle.wt_context.specs.Heads.{name_end, attribute_items, attributes_of, pair_by_name, pair_by, pair_head};

use crate::head::placeholder;
use crate::parts::take_some;
use std::alloc::Global;
use wt_attributes::read_attributes;
use wt_inline::NodeHead;
use wt_span::{List, NoMemory, Piece, rest_of};
use wt_tiles::{Glyph, GlyphClass, Name, Rest, Tag, glyphs_of, run_len, tag_at};
use wt_tree::{Attr, Kind, TagName};

/// How many items there are up to the end of the name of a tag.
#[tactic(auto, unfolding(crate::specs::Heads::name_end))]
fn name_end(glyphs: &[Glyph]) -> usize
    ensures value { result ≡ name_end glyphs.now }
    ensures within { result ≤ length glyphs.now }
{
    if glyphs.is_empty() {
        return 0;
    }
    let rest = rest_of(glyphs, 1);
    if run_len(GlyphClass::Letter, rest) == 0 {
        return 0;
    }
    1 + run_len(GlyphClass::Name, rest)
}

/// The pieces that are between the name of an opening tag and its `>`.
#[tactic(auto, unfolding(crate::specs::Heads::attribute_items))]
fn attribute_pieces<'a>(alloc: Global, opening: &[Piece<'a>]) -> Result<List<Piece<'a>>, NoMemory>
    requires { All IsSoundPiece opening.now }
    ensures { IfOk result (λ l. items l ≡ attribute_items (items opening.now)) }
{
    let glyphs = glyphs_of(alloc, opening)?;
    let n = name_end(glyphs.as_slice());
    let k = run_len(GlyphClass::Tag, rest_of(glyphs.as_slice(), n));
    let (_, rest) = take_some(alloc, Rest::of(opening), n)?;
    let (inside, _) = take_some(alloc, rest, k)?;
    Ok(inside)
}

/// The attributes of an opening tag of this name.
fn attributes_of(
    alloc: Global,
    name: TagName,
    opening: &[Piece<'_>],
) -> Result<List<Attr>, NoMemory>
    requires { All IsSoundPiece opening.now }
    ensures { IfOk result (λ l. attrs_of l ≡ attributes_of name (items opening.now)) }
{
    match name {
        TagName::Span => {
            let inside = attribute_pieces(alloc, opening)?;
            read_attributes(alloc, inside.as_slice())
        }
        _ => Ok(List::new(alloc)),
    }
}

fn named<'a>(alloc: Global, name: TagName, opening: &[Piece<'a>]) -> Result<NodeHead<'a>, NoMemory>
    requires { All IsSoundPiece opening.now }
    ensures { IfOk result (λ h. head_of h ≡ pair_by_name (Name.Paired name) (items opening.now)) }
{
    let attrs = attributes_of(alloc, name, opening)?;
    NodeHead::with_attrs(alloc, Kind::Tag(name), attrs)
}

fn pair_by<'a>(
    alloc: Global,
    tag: Option<Tag>,
    opening: &[Piece<'a>],
) -> Result<NodeHead<'a>, NoMemory>
    requires { All IsSoundPiece opening.now }
    ensures { IfOk result (λ h. head_of h ≡ pair_by tag (items opening.now)) }
{
    match tag {
        Some(
            Tag {
                name: Name::Paired(name),
                ..
            },
        ) => named(alloc, name, opening),
        _ => placeholder(alloc),
    }
}

/// The head of a pair of tags with this open delimiter.
#[tactic(auto, unfolding(crate::specs::Heads::pair_head))]
pub fn pair_head<'a>(alloc: Global, opening: &[Piece<'a>]) -> Result<NodeHead<'a>, NoMemory>
    requires { All IsSoundPiece opening.now }
    ensures { IfOk result (λ h. head_of h ≡ pair_head (items opening.now)) }
{
    let glyphs = glyphs_of(alloc, opening)?;
    pair_by(alloc, tag_at(glyphs.as_slice()), opening)
}
