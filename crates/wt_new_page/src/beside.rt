//! An edited tree beside the page's.

ghost use Rattle.std.specs.Prelude.{◌≡◌, IfOk};
ghost use Rattle.wt_checks.specs.Places.{page_of};
ghost use Rattle.wt_checks.specs.View.{indexed};
ghost use Rattle.wt_new_page.specs.Besides.{IsBeside};
ghost use Rattle.wt_tree.specs.Tiling.{InPreorder};
ghost use Rattle.wt_tree.specs.Tree.{label};
ghost use Rattle.wt_tree.specs.View.{view};
ghost use Rattle.wt_tree.specs.declared.kind.Kind.TheVariants as kind;

use std::alloc::Global;
use wt_checks::{TreeRefusal, Visit, check_nodes, has_mark};
use wt_difference::remark;
use wt_span::NoMemory;
use wt_tree::Node;

/// An edited tree beside the page's.
#[derive(Drop)]
pub struct Beside<'a> {
    /// The edited tree with the marks of its difference from the page's, and no others.
    pub edited: Node<'a>,
    /// Whether nothing differs.
    pub same: bool,
    /// The first check that refuses one of its nodes.
    pub refused: Option<TreeRefusal>,
}

/// Sets an edited tree beside a page's, whose nodes `index` has by their numbers.
pub fn set_beside<'a>(
    alloc: Global,
    page: &Node<'a>,
    index: &[Visit<'_, 'a>],
    edited: Node<'a>,
) -> Result<Beside<'a>, NoMemory>
    requires body { (label (view page.now)).kind ≡ kind.Body }
    requires numbered { ∥ InPreorder (view page.now) ∥₁ }
    requires index { indexed index.now ≡ page_of (view page.now) }
    ensures { IfOk result (λ c. IsBeside (view page.now) (view edited.entry) c) }
{
    let edited = remark(alloc, index, edited)?;
    let same = !has_mark(&edited);
    let refused = check_nodes(alloc, &*page, &edited)?;
    Ok(Beside {
        edited,
        same,
        refused,
    })
}
