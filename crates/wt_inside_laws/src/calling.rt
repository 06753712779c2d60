//! Laws of retyped paragraphs and headings that hold calls.

ghost use Rattle.std.specs.Prelude.{◌≡◌, ◌≤◌, ℕ, true, None, List, length};
ghost use Rattle.std.specs.Str.{IsUtf8};
ghost use Rattle.wt_tree.specs.declared.kind.Kind.TheVariants as kind;
ghost use Rattle.wt_tree.specs.EditShapes.{edit_shape};
ghost use Rattle.wt_tree.specs.Source.{flat};
ghost use Rattle.wt_tree.specs.Tree.{Tree, label};
ghost use Rattle.wt_span.specs.declared.limits.TheConstants.{PAGE_BYTES};
ghost use Rattle.wt_span.specs.Origins.{Expanded};
ghost use Rattle.wt_link_spelling.specs.Spelling.{children_of};
ghost use Rattle.wt_visible.specs.SameNodes.{same_node};
ghost use Rattle.wt_expand.specs.PageCalls.{expanded_page};
ghost use Rattle.wt_expand.specs.Work.{Pages};
ghost use Rattle.wt_slices.specs.Changes.{Pair};
ghost use Rattle.wt_commands.specs.Answers.{refusal_of_page};
ghost use Rattle.wt_text_edit_laws.specs.TextBlocks.{TextBlock};
ghost use Rattle.wt_called_edit_laws.specs.BlockNodes.{IsOfNodes};
ghost use Rattle.wt_called_edit_laws.specs.CallingContents.{FitsIn};
ghost use Rattle.wt_called_edit_laws.specs.Groups.{called_tree};
ghost use Rattle.wt_called_edit_laws.specs.PiecedParagraphs.{IsTextAndCalls};
ghost use Rattle.wt_called_edit_laws.specs.RowBlocks.{IsReachedAt};
ghost use Rattle.wt_inside_laws.specs.AsSent.{edit_for};
ghost use Rattle.wt_inside_laws.specs.BesideEdits.{IsBesideBlock};
ghost use Rattle.wt_inside_laws.specs.NodeBlocks.{IsNodeBlock};
ghost use Rattle.wt_inside_laws.specs.RetypedCalls.{IsCallingNode, IsBeside, AreOwnTexts};
ghost use Rattle.wt_inside_laws.specs.RetypedPieces.{AreRead, AreUtf8};
ghost use Rattle.wt_inside_laws.specs.TextAndCallBlocks.{DoCallsMeet, IsTextAndCallBlock};
ghost use Rattle.wt_inside_laws.specs.TextEdits.{IsRetyped, takes_text};

/// A retyped paragraph or heading of the page that holds calls, beside which texts may be typed (`IsBeside`), is edited by
/// what was sent for it, with the page's own nodes (`FitsIn`): all its calls, other nodes and styles stay in their order, its
/// texts go and others come. Where all texts of a paragraph are deleted, another node or a style is left in it, or
/// `<nowiki/>` is put: so it isn't calls alone. Asked is that what was sent is as it is read.
#[tactic(auto)]
pub fn retyped_blocks_that_call_fit()
    ensures { (pages : Pages) (k : TextBlock) (q : List ℕ) (items : Expanded) (page : List ℕ) (p : Pair)
        → IsRetyped same_node items page p → AreRead (children_of p.new) → AreUtf8 (children_of p.new)
        → IsCallingNode pages k q p.old → IsBeside pages k q p.old → FitsIn pages k q (edit_for p) }
{}

/// In each paragraph and heading of a page's tree that is in no group each text shows its source, and something, and there
/// are no separators.
#[tactic(auto)]
pub fn texts_of_blocks_show_their_sources()
    ensures { (pages : Pages) (page path : List ℕ) (t : Tree) → IsUtf8 page → length page ≤ PAGE_BYTES → refusal_of_page pages page ≡ None
        → IsReachedAt path (called_tree pages page) t → takes_text (edit_shape (label t).kind).form ≡ true → AreOwnTexts (children_of t) }
{}

/// In a block that is texts and calls alone (`IsTextAndCalls`, `IsHeadingOfCalls` of `wt_called_edit_laws`), texts may be typed beside its calls
/// (`IsBesideBlock`), wherever it is in a page, if a text is behind each call, or nothing, or else what calls give that are side by side may meet. Of a
/// paragraph its source is asked.
#[tactic(auto)]
pub fn blocks_of_texts_and_calls_take_texts()
    ensures blocks { (pages : Pages) (page : List ℕ) (p : Pair) → IsTextAndCallBlock pages p.old → IsBesideBlock pages page p }
    ensures paragraphs { (pages : Pages) (t : Tree) → (label t).kind ≡ kind.Para → (h : IsTextAndCalls pages (flat t))
        → DoCallsMeet pages t h.pieces → IsTextAndCallBlock pages t }
{}

/// In a marked block of the page's tree whose nodes are texts, calls, other nodes, and bold and italic round such (`IsOfNodes` of
/// `wt_called_edit_laws`), texts may be typed beside its calls (`IsBesideBlock`), in its bold and italic, too. Of each node its source is asked.
#[tactic(auto)]
pub fn blocks_of_nodes_take_texts()
    ensures blocks { (pages : Pages) (page : List ℕ) (p : Pair) → IsRetyped same_node (expanded_page pages page) page p
        → IsNodeBlock pages p.old → IsBesideBlock pages page p }
    ensures paragraphs { (pages : Pages) (t : Tree) → (label t).kind ≡ kind.Para → IsOfNodes pages t → IsNodeBlock pages t }
{}
