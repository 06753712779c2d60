//! The page of a block that is in it, and of a new one.

ghost use Rattle.std.specs.Prelude.{◌≡◌, [], IfOk, map, string_bytes};
ghost use Rattle.wt_tree.specs.Source.{flat};
ghost use Rattle.wt_tree.specs.View.{view};
ghost use Rattle.wt_original.specs.Kept.{kept_nodes};
ghost use Rattle.wt_original.specs.PageViews.{IsPageOf};

use crate::block::{Gathered, gather_block};
use crate::kept::kept_nodes;
use crate::page::Page;
use std::alloc::Global;
use wt_span::NoMemory;
use wt_tree::Node;

/// What the block was in the page.
pub fn page_of_block<'t, 'a>(alloc: Global, block: &'t Node<'a>) -> Result<Page<'t, 'a>, NoMemory>
    ensures { IfOk result (IsPageOf (kept_nodes (view block.now)) (flat (view block.now))) }
{
    let gathered = gather_block(alloc, block)?;
    let kept = kept_nodes(alloc, &gathered, block)?;
    let Gathered {
        source,
        seen: _,
        found: _,
    } = gathered;
    Ok(Page::with(kept, source))
}

/// A new block has no kept nodes.
pub fn no_page<'t, 'a>(alloc: Global) -> Page<'t, 'a>
    ensures { IsPageOf [] [] result }
{
    Page::with(Vec::new(alloc), String::new(alloc))
}
