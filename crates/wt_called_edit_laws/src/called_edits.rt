//! Laws of what is sent for paragraphs and headings with calls in them, and what it makes.

ghost use Rattle.std.specs.Prelude.{◌≡◌, ◌<◌, ℕ, List};
ghost use Rattle.wt_span.specs.Origins.{OuterCall};
ghost use Rattle.wt_tree.specs.Tree.{Label, Tree};
ghost use Rattle.wt_annotated.specs.CutTexts.{cut_texts};
ghost use Rattle.wt_expand.specs.Work.{Pages};
ghost use Rattle.wt_part_laws.specs.Expanded.{part_items};
ghost use Rattle.wt_part_laws.specs.HeldCalls.{block_in};
ghost use Rattle.wt_typed_blocks.specs.Edited.{Pieces};
ghost use Rattle.wt_text_edit_laws.specs.TextBlocks.{TextBlock};
ghost use Rattle.wt_called_edit_laws.specs.CalledContents.{tree_round};
ghost use Rattle.wt_called_edit_laws.specs.CalledEdits.{IsBesideCalls, IsCalledEditOf, MakesContentIn};
ghost use Rattle.wt_called_edit_laws.specs.Settled.{settled};
ghost use Rattle.wt_called_edit_laws.specs.StyledCallEdits.{IsBesideStyles, IsStyledCallEdit};

/// What is sent for a paragraph or heading of the page with calls in it (`IsBesideCalls`), wherever it is: its calls, each as it is in the page and in
/// their order, any of its other nodes, and any texts beside these, in a heading on one line; a paragraph isn't calls alone
/// (`IsCalledEditOf`). It is taken, what is written for it may stand in the place of the old content, and it makes the new block, with its groups
/// (`MakesContentIn`).
pub fn contents_beside_calls_are_made()
    ensures { (pages : Pages) (k : TextBlock) (q : List ℕ) (block : Tree) (m : Label) (ps : Pieces) (n at i : ℕ) (calls : List OuterCall) → 0 < n
        → block ≡ settled n at (cut_texts (block_in calls (tree_round k (part_items pages i q)))) → IsBesideCalls pages k q block → IsCalledEditOf pages k block ps
        → MakesContentIn pages k q block m ps }
{}

/// So for a paragraph or heading with bold and italic in it, also round calls that give none of their kind (`IsBesideStyles`): all its calls are sent, any of its other
/// nodes and styles, any texts between these and in the styles, and new bold and italic, as these may nest, round texts, nodes and such calls
/// (`IsStyledCallEdit`).
pub fn styles_beside_calls_are_made()
    ensures { (pages : Pages) (k : TextBlock) (q : List ℕ) (block : Tree) (m : Label) (ps : Pieces) (n at i : ℕ) (calls : List OuterCall) → 0 < n
        → block ≡ settled n at (cut_texts (block_in calls (tree_round k (part_items pages i q)))) → IsBesideStyles pages k q block
        → IsStyledCallEdit pages k block ps → MakesContentIn pages k q block m ps }
{}
