//! Laws of pages in which texts were typed: the new tree is the old one with the insides of their blocks replaced.

ghost use Rattle.std.specs.Prelude.{◌≡◌, ℕ, List};
ghost use Rattle.wt_devices.specs.Device.{Pages};
ghost use Rattle.wt_page_round_trip.specs.PageTree.{page_tree};
ghost use Rattle.wt_inside_laws.specs.Replaced.{with_inside, with_insides};
ghost use Rattle.wt_text_edit_laws.specs.TextBlocks.{TextBlock};
ghost use Rattle.wt_text_edit_laws.specs.BlockSpots.{BlockSpot, AreBlockSpots};
ghost use Rattle.wt_text_edit_laws.specs.BlockEdits.{BlockEdit, old_page, new_page, IsBlockEdit};
ghost use Rattle.wt_called_edit_laws.specs.AnyBlocks.{AreSpots};
ghost use Rattle.wt_inside_laws.specs.AnyReplaced.{ReplacesTexts};
ghost use Rattle.wt_inside_laws.specs.TextsReplaced.{Place, spots_with, page_with, replaced_by, all_replaced};

/// Where the text of one paragraph or heading of a page with such blocks among any others becomes another text, and
/// the page is such a page again, the tree of the new page, in its sections, is that of the old one with the
/// block's inside replaced: the nodes before the block are the same with their numbers and places, what is round it
/// ends later or earlier by the difference of the two texts, and what comes after it has its places moved by as
/// many bytes, and its numbers by the difference of how many nodes have a number in the two.
#[tactic(auto, using(crate::proofs::OneText::tree_replaced))]
pub fn only_that_text_is_another()
    ensures { (pages : Pages) (p : Place) (b : TextBlock) (old new : List ℕ) (further : List BlockSpot) (behind : List ℕ)
        → AreBlockSpots (spots_with p b old further) behind → AreBlockSpots (spots_with p b new further) behind
        → page_tree pages (page_with p b new further behind) ≡ with_inside (replaced_by p b old new) (page_tree pages (page_with p b old further behind)) }
{}

/// So of an edit that types texts in any of these paragraphs and headings, one, several or all: the tree of the new
/// page is that of the old one in which one block's inside after the other is replaced, the last one first.
#[tactic(auto, using(crate::proofs::AllTexts::edit_replaces))]
pub fn only_these_texts_are_others()
    ensures { (pages : Pages) (e : BlockEdit) → IsBlockEdit e
        → page_tree pages (new_page e) ≡ with_insides (all_replaced e) (page_tree pages (old_page e)) }
{}

/// And so where they are in cells and captions, too: of an edit that types texts in any paragraphs and headings of a
/// page, wherever they are, the tree of the new page is that of the old one in which one block's inside after the other
/// is replaced, the last one first. Each is found by its number, that of the node at its path. What is round it, such as
/// cells, rows and tables, ends later or earlier, and what comes after it is moved, and nothing else is another one.
#[tactic(auto, using(crate::proofs::AnyInsides::replaces_any))]
pub fn only_these_texts_are_others_anywhere()
    ensures { (ss : List BlockSpot) (behind : List ℕ) → AreSpots ss behind → ReplacesTexts ss behind }
{}
