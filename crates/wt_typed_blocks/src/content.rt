//! Laws of what may be in a marked node, in the words of somebody who edits.

ghost use Rattle.std.specs.Prelude.{◌≡◌, ◌↔◌, Bool, None};
ghost use Rattle.wt_tree.specs.Tree.{Tree, label};
ghost use Rattle.wt_original.specs.Page.{TellsSame};
ghost use Rattle.wt_content.specs.Children.{bad_children, holder_of};
ghost use Rattle.wt_content.specs.Content.{bad_content, held, outermost};
ghost use Rattle.wt_typed_blocks.specs.NewChildren.{AreChildren};
ghost use Rattle.wt_typed_blocks.specs.TextEdits.{AreTextEdits};

/// Text that is typed round groups and other nodes of the page isn't refused for what is in the
/// block, where line breaks are directly in a paragraph alone.
#[tactic(auto, using(crate::proofs::TextEditsStand::text_edits_stand))]
pub fn text_edits_stand()
    ensures { (same : Tree → Tree → Bool) (old new : Tree) → TellsSame same → AreTextEdits old (outermost old).in_paragraph (held new)
        → bad_content same old new ≡ None }
{}

/// The children of a body or a list aren't refused exactly where each is white space, a node of the
/// page, or a new block of those that may come there and that holds what it may; and a list keeps an
/// item of the page.
pub fn children_by_grammar()
    ensures { (same : Tree → Tree → Bool) (new : Tree) → (bad_children same new ≡ None) ↔ AreChildren same (holder_of (label new).kind) (held new) }
{}
