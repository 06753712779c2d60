//! Laws of what is written for paragraphs and headings with calls in them.

ghost use Rattle.std.specs.Prelude.{◌≡◌, ◌<◌, ℕ, List};
ghost use Rattle.wt_span.specs.Origins.{OuterCall};
ghost use Rattle.wt_tree.specs.Tree.{Label, Tree};
ghost use Rattle.wt_annotated.specs.CutTexts.{cut_texts};
ghost use Rattle.wt_expand.specs.Work.{Pages};
ghost use Rattle.wt_part_laws.specs.Expanded.{part_items};
ghost use Rattle.wt_part_laws.specs.HeldCalls.{block_in};
ghost use Rattle.wt_typed_blocks.specs.Edited.{Pieces};
ghost use Rattle.wt_text_edit_laws.specs.TextBlocks.{TextBlock};
ghost use Rattle.wt_called_edit_laws.specs.CalledContents.{tree_round};
ghost use Rattle.wt_called_edit_laws.specs.CalledEdits.{IsBesideCalls, IsCalledEditOf};
ghost use Rattle.wt_called_edit_laws.specs.Settled.{settled};
ghost use Rattle.wt_called_edit_laws.specs.SpelledBeside.{IsSpelledBeside};
ghost use Rattle.wt_called_edit_laws.specs.StyledCallEdits.{IsBesideStyles, IsStyledCallEdit};

/// What is written for a paragraph or heading of the page with calls in it, wherever it is, when texts are typed beside these calls, with bold and italic
/// (`IsBesideStyles`) or without (`IsBesideCalls`), makes nothing but what was typed (`IsSpelledBeside`): it is what was sent, as it is spelled. Its items are what each call gives, those of
/// each other node by itself, and of the texts the characters and references: no lexeme goes over from one into the other. Each of its lines has even
/// toggles, and it shows what was sent.
pub fn typed_texts_beside_calls_make_nothing_else()
    ensures texts { (pages : Pages) (k : TextBlock) (q : List ℕ) (block : Tree) (m : Label) (ps : Pieces) (n at i : ℕ) (calls : List OuterCall) → 0 < n
        → block ≡ settled n at (cut_texts (block_in calls (tree_round k (part_items pages i q)))) → IsBesideCalls pages k q block → IsCalledEditOf pages k block ps
        → IsSpelledBeside pages k block m ps }
    ensures styles { (pages : Pages) (k : TextBlock) (q : List ℕ) (block : Tree) (m : Label) (ps : Pieces) (n at i : ℕ) (calls : List OuterCall) → 0 < n
        → block ≡ settled n at (cut_texts (block_in calls (tree_round k (part_items pages i q)))) → IsBesideStyles pages k q block
        → IsStyledCallEdit pages k block ps → IsSpelledBeside pages k block m ps }
{}
