//! Whether a block of a page can be read by itself.

ghost use Rattle.std.specs.Prelude.{◌≡◌, false, IfOk, Ok};
ghost use Rattle.wt_tree.specs.Tiling.{NoneIsGroup};
ghost use Rattle.wt_tree.specs.View.{view, views};
ghost use Rattle.wt_tree.specs.declared.node.Node.{out-Node};
ghost use Rattle.wt_isolation.specs.OpenTags.{before, touches_open_tag};
ghost use Rattle.wt_isolation.specs.Passes.{AreOf};
ghost use Rattle.wt_isolation.specs.TextCalls.{touches_text_call};
ghost use Rattle.wt_slices.specs.Borders.{HasBorders};
ghost use Rattle.wt_selser.specs.Borders.{page_text};
ghost use Rattle.wt_selser.specs.Edits.{is_tangled};

use crate::group_fault::has_faulty_group;
use std::alloc::Global;
use wt_isolation::Passes;
use wt_span::{Items, NoMemory};
use wt_tree::Node;

/// Whether a block of a page with these items can't be read by itself.
pub fn is_tangled(
    alloc: Global,
    items: &Items<'_>,
    page: &[u8],
    passes: &mut Passes,
    block: &Node<'_>,
) -> Result<bool, NoMemory>
    requires passes { AreOf items.now page.now passes.old }
    requires borders { HasBorders (page_text items.now) (view block.now) }
    ensures value { IfOk result (λ b. b ≡ is_tangled items.now page.now (view block.now)) }
    ensures passes { AreOf items.now page.now passes.new }
    ensures alone { NoneIsGroup (views (out-Node block.now).children) → touches_text_call items.now.text_calls (out-Node block.now).ranges ≡ false
        → touches_open_tag (before page.now (out-Node block.now).ranges) (view block.now) ≡ false → result ≡ Ok false }
{
    if passes.touches(items, page, block) {
        return Ok(true);
    }
    has_faulty_group(alloc, items, block.children.as_slice())
}

/// Whether a block of a page can't be read by itself: it touches a text call or an open tag, or a group in it
/// has a fault. `items` are the page's items with its templates expanded; the places of the block and of its nodes
/// are between the page's characters.
///
/// # Errors
///
/// Want of memory, but not for a block without groups that touches no text call and no open tag: it is
/// answered `false`.
pub fn tangled(
    alloc: Global,
    items: &Items<'_>,
    page: &str,
    block: &Node<'_>,
) -> Result<bool, NoMemory>
    requires { HasBorders (page_text items.now) (view block.now) }
    ensures value { IfOk result (λ b. b ≡ is_tangled items.now page.now (view block.now)) }
    ensures alone { NoneIsGroup (views (out-Node block.now).children) → touches_text_call items.now.text_calls (out-Node block.now).ranges ≡ false
        → touches_open_tag (before page.now (out-Node block.now).ranges) (view block.now) ≡ false → result ≡ Ok false }
{
    let mut passes = Passes::start();
    is_tangled(alloc, items, page.as_bytes(), &mut passes, block)
}
