//! Headings, by their pieces.

ghost use Rattle.std.specs.Prelude.{◌≡◌, IfOk};
ghost use Rattle.wt_span.specs.Items.{items};
ghost use Rattle.wt_inline.specs.View.{item_tree};
ghost use Rattle.wt_page.specs.Headings.{heading};
ghost use Rattle.wt_page.specs.Cuts.{AreReady, IsOpenCut, IsInsideCut, heading_by};

use crate::split::split_before;
use std::alloc::Global;
use wt_blocks::{HeadingCuts, heading_cuts};
use wt_context::{line_children, take_some};
use wt_inline::{NodeHead, PieceTree};
use wt_span::{NoMemory, Piece};
use wt_tiles::Rest;
use wt_tree::Kind;

/// A heading that is cut here, of its line from the first `=` on.
fn heading_by<'a>(
    alloc: Global,
    cuts: HeadingCuts,
    line: &[Piece<'a>],
) -> Result<PieceTree<'a>, NoMemory>
    requires ready { AreReady line.now }
    requires opening { IsOpenCut cuts.open_len (items line.now) }
    requires inside { IsInsideCut cuts.open_len cuts.inside_len (items line.now) }
    ensures { IfOk result (λ t. item_tree t ≡ heading_by cuts.level cuts.open_len cuts.inside_len (items line.now)) }
{
    let (opening, behind) = take_some(alloc, Rest::of(line), cuts.open_len)?;
    let rest = behind.all(alloc)?;
    let (inside, closing) = split_before(alloc, rest.as_slice(), cuts.inside_len)?;
    let children = line_children(alloc, inside.as_slice())?;
    Ok(PieceTree {
        head: NodeHead::plain(Kind::Heading(cuts.level)),
        opening,
        children,
        closing,
    })
}

/// The node of a heading, of its line from the first `=` on and without its line break. Its level is
/// 1 to 6, as in MediaWiki's heading pass.
pub fn heading<'a>(alloc: Global, line: &[Piece<'a>]) -> Result<PieceTree<'a>, NoMemory>
    requires { AreReady line.now }
    ensures { IfOk result (λ t. item_tree t ≡ heading (items line.now)) }
{
    heading_by(alloc, heading_cuts(line), line)
}
