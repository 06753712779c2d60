//! The annotated tree of a page, with the items that it comes from.

ghost use Rattle.std.specs.Prelude.{◌≡◌, ◌+◌, ◌^◌, ◌<◌, All, IfOk, length, map};
ghost use Rattle.wt_span.specs.Cuts.{page_of};
ghost use Rattle.wt_span.specs.Origins.{IsSoundCall, span_of};
ghost use Rattle.wt_tree.specs.Tiling.{InPreorder, Tiled};
ghost use Rattle.wt_tree.specs.View.{view};
ghost use Rattle.wt_inline.specs.ItemTree.{tree_items};
ghost use Rattle.wt_inline.specs.View.{item_tree};
ghost use Rattle.wt_page.specs.Body.{meaning};
ghost use Rattle.wt_annotated.specs.Annotated.{annotated};
ghost use Rattle.wt_annotated.specs.GroupData.{group_data};
ghost use Rattle.wt_annotated.specs.NumbersNeeded.{numbers_needed};
ghost use Rattle.wt_annotated.specs.Pieces.{outer_calls};
ghost use Rattle.wt_sections.specs.Gathering.{headings_in};
ghost use Rattle.wt_sections.specs.Sections.{with_sections};
ghost use Rattle.wt_ranges.specs.Preorder.{InPreorder-prop};

use crate::grouping::group_tree;
use std::alloc::Global;
use wt_inline::PieceTree;
use wt_sections::gather_sections;
use wt_span::{Items, NoMemory, Outer, Range};
use wt_tree::Node;

/// The annotated tree of a page, with the items of which it is made. Its ranges, in bytes of the page, tile it,
/// and its numbers are in preorder.
pub struct Annotated<'a> {
    tree: wt_tree::Annotated<'a>,
    items: Items<'a>,
    ghost numbered: { InPreorder (view tree.body) } by { InPreorder-prop (view tree.body) },
    ghost meant: { ∥ view tree.body ≡ with_sections (annotated items.outer (group_data items.outer) (meaning items.items)) ∥₁ },
}

// One call wherever the tree of a page is let go.
impl Drop for Annotated<'_> {
    fn drop(self) {
        let Annotated { tree: _, items: _ } = self;
    }
}

impl<'a> Annotated<'a> {
    fn of(body: Node<'a>, items: Items<'a>) -> Annotated<'a>
        requires tiled { Tiled (view body) }
        requires numbered { InPreorder (view body) }
        requires meant { view body ≡ with_sections (annotated items.outer (group_data items.outer) (meaning items.items)) }
        ensures body { result.tree.body ≡ body.entry }
        ensures items { result.items ≡ items.entry }
    {
        let tree = wt_tree::Annotated::of(body);
        Annotated { tree, items }
    }

    /// The body, which holds all other nodes.
    pub fn body(&self) -> &Node<'a>
        ensures body { result.now ≡ self.now.tree.body }
        ensures tiled { ∥ Tiled (view result.now) ∥₁ }
        ensures numbered { InPreorder (view result.now) }
        ensures meant { ∥ view result.now ≡ with_sections (annotated self.now.items.outer (group_data self.now.items.outer) (meaning self.now.items.items)) ∥₁ }
    {
        self.tree.body()
    }

    /// The tree by itself.
    pub fn into_tree(self) -> wt_tree::Annotated<'a>
        ensures { result ≡ self.entry.tree }
    {
        let Annotated { tree, items: _ } = self;
        tree
    }

    /// The items of the page.
    pub fn items(&self) -> &Items<'a>
        ensures { result.now ≡ self.now.items }
    {
        &self.items
    }

    /// Where the page's text calls outside its outermost calls are, in order of the first byte.
    pub fn text_calls(&self) -> &[Range]
        ensures { map span_of result.now ≡ self.now.items.text_calls }
    {
        self.items.text_calls()
    }
}

/// The outermost calls of items, each of which is sound.
fn sound_calls<'a, 'b>(items: &'b Items<'a>) -> &'b [Outer<'a>]
    ensures calls { outer_calls result.now ≡ items.now.outer }
    ensures sound { All IsSoundCall (outer_calls result.now) }
{
    let _held = items.pieces();
    items.outer()
}

/// The annotated tree of a page with this body, whose children are put into sections.
fn in_sections<'a>(
    alloc: Global,
    body: Node<'a>,
    items: Items<'a>,
) -> Result<Annotated<'a>, NoMemory>
    requires tiled { Tiled (view body) }
    requires numbered { InPreorder (view body) }
    requires few { headings_in (view body) < 2 ^ 32 }
    requires meant { view body ≡ annotated items.outer (group_data items.outer) (meaning items.items) }
    ensures tree { IfOk result (λ a. view a.tree.body ≡ with_sections (view body.entry)) }
    ensures items { IfOk result (λ a. a.items ≡ items.entry) }
{
    let gathered = gather_sections(alloc, body)?;
    Ok(Annotated::of(gathered, items))
}

/// The annotated tree of a page by its items and their meaning, the tree over them: its groups and the nodes
/// that are kept, each with its place in bytes of the page, its source as it is there, and its number; each
/// group carries its parts; the texts and separators of items and cells are cut anew; the body's children are
/// in sections. The items are kept beside the tree.
pub fn group<'a>(
    alloc: Global,
    items: Items<'a>,
    tree: PieceTree<'a>,
) -> Result<Annotated<'a>, NoMemory>
    requires meant { item_tree tree ≡ meaning items.items }
    requires bytes { length (page_of items.outer (tree_items (meaning items.items))) < 2 ^ 32 }
    requires numbers { 1 + numbers_needed items.outer (meaning items.items) < 2 ^ 32 }
    ensures tree { IfOk result (λ a. view a.tree.body ≡ with_sections (annotated items.entry.outer (group_data items.entry.outer) (meaning items.entry.items))) }
    ensures items { IfOk result (λ a. a.items ≡ items.entry) }
{
    let body = group_tree(alloc, sound_calls(&items), tree)?;
    in_sections(alloc, body, items)
}
