//! Laws of the trees of pages with calls in which texts are typed: the groups and all other nodes stay what they are.

ghost use Rattle.std.specs.Prelude.{◌≡◌, ℕ, List};
ghost use Rattle.wt_span.specs.Origins.{OuterCall};
ghost use Rattle.wt_span.specs.Items.{Item};
ghost use Rattle.wt_inline.specs.ItemTree.{Head, ItemTree, inner, forest};
ghost use Rattle.wt_inline.specs.Parts.{Part, children};
ghost use Rattle.wt_part_laws.specs.Frames.{Frames};
ghost use Rattle.wt_part_laws.specs.MovedCalls.{AreMoved};
ghost use Rattle.wt_part_laws.specs.Rounded.{GroupsStayIn, HaveSameData, IsOwn};
ghost use Rattle.wt_part_laws.specs.HeldCalls.{block_in, HoldsItsCalls, IsRoundTexts, block_of_texts, IsRoundGiven, block_of_pieces, GroupsStayRoundIn};

/// A page with calls, with places for blocks in its body and in the cells and captions of its tables. Where each node
/// round a place is clean, the page's tree has the same groups and the same other nodes whatever blocks of the page are
/// at the places: all but numbers and places is the same, and each block is what it is on a page without calls.
#[tactic(auto, using(crate::proofs::GroupsStay::groups_stay))]
pub fn groups_stay_round_blocks()
    ensures { (calls : List OuterCall) (fs : Frames) (t : ℕ → ItemTree) → GroupsStayIn calls fs t }
{}

/// Calls that are only at other places of a page are such: groups carry the same of them.
#[tactic(auto, using(crate::proofs::MovedData::moved_data))]
pub fn moved_calls_have_the_same_data()
    ensures { (calls others : List OuterCall) → AreMoved calls others → HaveSameData calls others }
{}

/// The same of blocks in which calls are, each with the number that it has there: where each block is clean, and each node
/// round one, each block is what it is by itself, with the groups of its calls, also where it begins or ends with one.
#[tactic(auto, using(crate::proofs::GroupsStay::groups_stay_round))]
pub fn groups_stay_round_blocks_with_calls()
    ensures { (calls : List OuterCall) (fs : Frames) → GroupsStayRoundIn calls fs }
{}

/// A block of texts, of which calls give some, and of nodes of the page holds its calls (`HoldsItsCalls`) where something in
/// it is the page's own (`IsRoundTexts`): the characters of each call are a group, and everything else is itself. So does
/// each block of the page alone.
pub fn blocks_of_texts_hold_their_calls()
    ensures holds { (h : Head) (opening : List Item) (ps : List Part) (closing : List Item) → IsRoundTexts h opening ps closing
        → HoldsItsCalls (inner h opening (forest (children ps)) closing) }
    ensures block { (calls : List OuterCall) (h : Head) (opening : List Item) (ps : List Part) (closing : List Item) → IsRoundTexts h opening ps closing
        → block_in calls (inner h opening (forest (children ps)) closing) ≡ block_of_texts calls h opening ps closing }
    ensures own { (t : ItemTree) → IsOwn t → HoldsItsCalls t }
{}

/// So is a block of what calls give, whatever it is, and of what is the page's own (`IsRoundGiven`): what one call gives side by side, texts, links,
/// styles with what is in them or nothing, is one group, and everything else is itself.
pub fn blocks_of_what_calls_give_hold_these()
    ensures holds { (h : Head) (opening : List Item) (ps : List Part) (closing : List Item) → IsRoundGiven h opening ps closing
        → HoldsItsCalls (inner h opening (forest (children ps)) closing) }
    ensures block { (calls : List OuterCall) (h : Head) (opening : List Item) (ps : List Part) (closing : List Item) → IsRoundGiven h opening ps closing
        → block_in calls (inner h opening (forest (children ps)) closing) ≡ block_of_pieces calls h opening ps closing }
{}
