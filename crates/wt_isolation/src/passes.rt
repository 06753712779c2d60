//! What is known of a page up to a block, so that no block goes through the page again.

ghost use Rattle.std.specs.Prelude.{◌≡◌, ◌||◌, List, map, ℕ};
ghost use Rattle.wt_span.specs.Origins.{AreInOrder, Expanded, span_of};
ghost use Rattle.wt_tree.specs.View.{view};
ghost use Rattle.wt_tree.specs.declared.node.Node.{out-Node};
ghost use Rattle.wt_isolation.specs.OpenTags.{before, touches_open_tag};
ghost use Rattle.wt_isolation.specs.Passes.{AreOf};
ghost use Rattle.wt_isolation.specs.TextCalls.{touches_text_call};

use crate::open_tag::touches_open_tag;
use crate::tag_pass::TagPass;
use crate::text_call::CallPass;
use wt_span::{Items, Range};
use wt_tree::Node;

/// One pass over the text calls of a page and one over its bytes.
#[derive(Clone, Copy)]
pub struct Passes {
    calls: CallPass,
    tags: TagPass,
}

impl Passes {
    /// Before the first text call, and at the page's beginning.
    pub fn start() -> Passes
        ensures { (items : Expanded) (page : List ℕ) → AreOf items page result }
    {
        Passes {
            calls: CallPass::start(),
            tags: TagPass::start(),
        }
    }

    /// Whether a block of the page with these items touches a text call or an open tag. Goes on to the block;
    /// what was passed already is gone through again only for a block that comes before it.
    pub fn touches(&mut self, items: &Items<'_>, page: &[u8], block: &Node<'_>) -> bool
        requires { AreOf items.now page.now self.old }
        ensures value { result ≡ (touches_text_call items.now.text_calls (out-Node block.now).ranges
            || touches_open_tag (before page.now (out-Node block.now).ranges) (view block.now)) }
        ensures passes { AreOf items.now page.now self.new }
    {
        let call = self.calls.touches(text_calls(items), block.ranges);
        if call {
            return true;
        }
        touches_open_tag(page, &mut self.tags, block)
    }
}

/// The text calls of a page. That they are in the order of their first bytes is known of its pieces.
fn text_calls<'i>(items: &'i Items<'_>) -> &'i [Range]
    ensures value { map span_of result.now ≡ items.now.text_calls }
    ensures in_order { AreInOrder items.now.text_calls }
{
    let _pieces = items.pieces();
    items.text_calls()
}
