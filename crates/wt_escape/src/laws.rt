//! Laws of the spelling, which do nothing when they are called.

ghost use Rattle.std.specs.Prelude.{◌≡◌, Bool};
ghost use Rattle.wt_tree.specs.declared.edit_shape.Place.{Place};
ghost use Rattle.wt_original.specs.Page.{TellsSame, page_of};
ghost use Rattle.wt_link_spelling.specs.Spelling.{children_of, inline_spelling};
ghost use Rattle.wt_escape.specs.LineBreaks.{breaks_in_all, HaveTexts};
ghost use Rattle.wt_escape.specs.OwnContent.{IsPlainBlock};
ghost use Rattle.wt_guards.specs.WrittenLaws.{breaks};
ghost use Rattle.wt_tree.specs.Source.{flat_of_all};
ghost use Rattle.wt_tree.specs.Tree.{Tree};

/// The page's own block is spelled to its own source, where nothing in it has to be guarded or
/// written as a reference.
#[tactic(auto, using(crate::proofs::Founds::spelled_back))]
pub fn spelled_back()
    ensures { (same : Tree → Tree → Bool) (block : Tree) (place : Place) → TellsSame same → IsPlainBlock same block place
        → inline_spelling same block block place ≡ flat_of_all (children_of block) }
{}

/// The content of an edited block is written with as many line breaks as it shows: those of its
/// texts, of its nodes that stay as they are in the page, and of what is written for the others.
#[tactic(auto, using(crate::proofs::ShownBreaks::breaks_shown))]
pub fn line_breaks_shown()
    ensures { (same : Tree → Tree → Bool) (old new : Tree) (place : Place) → HaveTexts (children_of new)
        → breaks (inline_spelling same old new place) ≡ breaks_in_all (page_of same old) (children_of new) }
{}
