//! Texts and separators of items and cells, cut anew.

ghost use Rattle.std.specs.Prelude.{◌≡◌, IfOk};
ghost use Rattle.wt_tree.specs.Kinds.{texts_of_kind};
ghost use Rattle.wt_recut.specs.Recut.{recut};
ghost use Rattle.wt_tree.specs.View.{views};
ghost use Rattle.wt_annotated.specs.CutTexts.{cut_as};

use crate::stands_cut::stand_cut;
use std::alloc::Global;
use wt_recut::recut_texts;
use wt_span::{List, NoMemory};
use wt_tree::{Kind, Node, Texts};

/// What is in an item, a cell or a caption, cut anew; where it is known to be cut, as it is.
#[tactic(auto, using(crate::proofs::StandsCut::stay))]
fn cut_bordered<'a>(alloc: Global, nodes: List<Node<'a>>) -> Result<List<Node<'a>>, NoMemory>
    ensures { IfOk result (λ ns. views ns ≡ recut (views nodes.entry)) }
{
    if stand_cut(nodes.as_slice()) {
        return Ok(nodes);
    }
    recut_texts(alloc, nodes)
}

/// What is in a node of this kind, cut as its kind asks.
pub fn cut_as<'a>(
    alloc: Global,
    kind: Kind,
    nodes: List<Node<'a>>,
) -> Result<List<Node<'a>>, NoMemory>
    ensures { IfOk result (λ ns. views ns ≡ cut_as (texts_of_kind kind) (views nodes.entry)) }
{
    match kind.shape().texts {
        Texts::Bordered => cut_bordered(alloc, nodes),
        Texts::Separators => Ok(nodes),
        Texts::Page => Ok(nodes),
        Texts::OwnCharacter => Ok(nodes),
    }
}
