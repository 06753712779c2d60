//! Text edits of a page and what they leave as it was, as definitions with laws.

ghost use Rattle.std.specs.Prelude.{◌≡◌, ℕ, suc, Bool, List, length};
ghost use Rattle.wt_span.specs.Origins.{Expanded};
ghost use Rattle.wt_tree.specs.Source.{flat, flat_of_all};
ghost use Rattle.wt_tree.specs.Tree.{Tree, Trees};
ghost use Rattle.wt_visible.specs.SameNodes.{same_node};
ghost use Rattle.wt_typed_blocks.specs.Edited.{PiecesStay};
ghost use Rattle.wt_link_spelling.specs.Spelling.{children_of};
ghost use Rattle.wt_slices.specs.Changes.{Pair};
ghost use Rattle.wt_text_edit_laws.specs.TextBlocks.{TextBlock, block_tree};
ghost use Rattle.wt_beside_laws.specs.FlatBlocks.{signs_in};
ghost use Rattle.wt_beside_laws.specs.OpenTags.{EndTags};
ghost use Rattle.wt_beside_laws.specs.StyledIn.{IsStyledIn, IsStyledEditOf};
ghost use Rattle.wt_called_edit_laws.specs.EditsAt.{IsStanding};
ghost use Rattle.wt_called_edit_laws.specs.SentAsIs.{HaveNumberedGroups};
ghost use Rattle.wt_inside_laws.specs.Contents.{borders, texts};
ghost use Rattle.wt_inside_laws.specs.Once.{HasOnce};
ghost use Rattle.wt_inside_laws.specs.Replaced.{Edit, with_inside};
ghost use Rattle.wt_inside_laws.specs.RetypedPieces.{pieces_of, as_own, AreRead, AreUtf8, ArePiecesOf, NodesStay};
ghost use Rattle.wt_inside_laws.specs.Swaps.{Swap};
ghost use Rattle.wt_inside_laws.specs.TextEdits.{IsRetyped};

/// Between the texts of a content are its borders: there is one text more than borders.
#[tactic(auto, using(crate::proofs::Between::texts_between))]
pub fn texts_stand_between_borders()
    ensures { (ts : Trees) → length (texts ts) ≡ suc (length (borders ts)) }
{}

/// Where the inside of a block of a page is replaced, its source is replaced in the page's, and every other
/// byte stays.
#[tactic(auto, using(crate::proofs::Sources::swapped))]
pub fn only_the_inside_changes()
    ensures { (e : Edit) (held : Trees) (t : Tree) → HasOnce e.number held t
        → Swap (flat_of_all held) (flat_of_all e.inside) (flat t) (flat (with_inside e t)) }
{}

/// What is sent for a block that was retyped is its content in pieces: its elements, and bold and italic, each
/// with what is sent in it; its texts go, and those that are sent come.
#[tactic(auto)]
pub fn retyped_blocks_are_pieces()
    ensures { (same : Tree → Tree → Bool) (items : Expanded) (page : List ℕ) (p : Pair)
        → IsRetyped same items page p → AreRead (children_of p.new)
        → ArePiecesOf (children_of p.old) (children_of p.new) (pieces_of (children_of p.old) (children_of p.new)) }
{}

/// Where the same borders are in what is sent for a content, and each node of it is sent as it is, what stays in
/// these pieces is sent as it is.
#[tactic(auto)]
pub fn retyped_nodes_stay()
    ensures { (ts us : Trees) → borders us ≡ borders ts → NodesStay ts us → PiecesStay (pieces_of ts us) }
{}

/// These pieces with the page's own nodes in the place of those that were sent (`as_own`) stay, where the groups of the content
/// are numbered, as in each page: the elements that are written for a group are sent for it.
#[tactic(auto)]
pub fn own_pieces_are_sent_as_they_are()
    ensures { (ts us : Trees) → HaveNumberedGroups ts → borders us ≡ borders ts → PiecesStay (as_own (pieces_of ts us)) }
{}

/// So a retyped paragraph or heading of the page, whose content may be edited (`IsStyledIn`), is edited by what was sent for it, with the
/// page's own nodes: its nodes and styles stay in their order, its texts go and others come, in a heading on one line, none in a style has a
/// line break, and a line begins before each line of comments. Asked is that what was sent is as it is read, and that behind a tag that
/// opens a pair and isn't closed on its line no node of this line ends in a tag that isn't ended, with a mark in it (`EndTags`).
#[tactic(auto)]
pub fn retyped_blocks_are_edited()
    ensures { (k : TextBlock) (q : List ℕ) (items : Expanded) (page : List ℕ) (p : Pair) → IsRetyped same_node items page p
        → AreRead (children_of p.new) → AreUtf8 (children_of p.new) → IsStanding (block_tree k q) p.old → IsStyledIn k q → EndTags (signs_in k q)
        → IsStyledEditOf k p.old (as_own (pieces_of (children_of p.old) (children_of p.new))) }
{}
