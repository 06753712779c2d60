//! Laws of edits that change the contents of blocks of a page, or type texts in them, and send the others as they are.

ghost use Rattle.std.specs.Prelude.{◌≡◌, ◌≤◌, ℕ, List, length, Bool, false, None, Ok};
ghost use Rattle.wt_span.specs.Origins.{Expanded};
ghost use Rattle.wt_tree.specs.Opened.{without_sections};
ghost use Rattle.wt_tree.specs.Source.{flat_of_all};
ghost use Rattle.wt_tree.specs.Tiling.{InPreorder, NoneIsGroup};
ghost use Rattle.wt_tree.specs.Tree.{Label, Tree, label};
ghost use Rattle.wt_tree.specs.declared.kind.Kind.TheVariants as kind;
ghost use Rattle.wt_checks.specs.BareSections.{HasBareSections};
ghost use Rattle.wt_checks.specs.Checked.{checked};
ghost use Rattle.wt_checks.specs.PutBack.{have_frame};
ghost use Rattle.wt_visible.specs.Children.{shown_children, listed};
ghost use Rattle.wt_visible.specs.Restored.{restored_from};
ghost use Rattle.wt_difference.specs.Remarked.{remarked};
ghost use Rattle.wt_selser.specs.Edits.{edit_answer, most_bytes};
ghost use Rattle.wt_typed_blocks.specs.Sent.{Sents, old_children, old_body, new_body, AreSent, AreOutsideGroups, all_show};
ghost use Rattle.wt_typed_blocks.specs.Typed.{new_sources, TakeTexts, StandAt, AreUntangled};
ghost use Rattle.wt_typed_blocks.specs.Unmarked.{free_body, AreToldApart};
ghost use Rattle.wt_typed_blocks.specs.Edited.{Edits, page_nodes, page_body, sent_body, AreEdited, AreOutside, edits_show};
ghost use Rattle.wt_typed_blocks.specs.EditedPage.{edited_sources, AreTaken, LieAt, AreApart};
ghost use Rattle.wt_typed_blocks.specs.EditedUnmarked.{bare_body, AreTold};
ghost use Rattle.wt_checks.specs.Places.{page_of};
ghost use Rattle.wt_slices.specs.BodySlices.{start, body_slices};
ghost use Rattle.wt_selser.specs.Edits.{if_short};
ghost use Rattle.wt_splice.specs.Splice.{spliced};
ghost use Rattle.wt_typed_blocks.specs.Coming.{Coming, page_children, body_before, body_sent, AllStay, AreListed, steps_of, coming_shows};

/// Where texts were typed in some paragraphs and headings of a body, outside its groups, and all else is sent as it is,
/// no check refuses it.
#[tactic(auto, using(crate::proofs::SentSections::passes))]
pub fn typed_texts_pass_the_checks()
    ensures { (l b : Label) (ss : Sents) → InPreorder (old_body l ss) → have_frame (old_children ss) ≡ false
        → AreSent ss → AreOutsideGroups ss → checked false (old_body l ss) (new_body l b ss) ≡ None }
{}

/// And `edit` is done: the new page is the old one, in which each of these blocks has its text between its
/// delimiters, spelled, unless that is longer than a page may be. No heading takes a line break, and none of these
/// blocks may be tangled. So it is of a page in sections, too.
#[tactic(auto, using(crate::proofs::SentSections::answer_is, crate::proofs::SentSections::answer_in_sections))]
pub fn typed_texts_are_taken()
    ensures body { (same : Tree → Tree → Bool) (items : Expanded) (page : List ℕ) (l b : Label) (ss : Sents) → InPreorder (old_body l ss)
        → have_frame (old_children ss) ≡ false → AreSent ss → AreOutsideGroups ss → TakeTexts ss → AreUntangled items page ss
        → page ≡ flat_of_all (old_children ss) → StandAt 0 ss → length (new_sources ss) ≤ most_bytes
        → edit_answer same items page (old_body l ss) (new_body l b ss) ≡ Ok (new_sources ss) }
    ensures sections { (same : Tree → Tree → Bool) (items : Expanded) (page : List ℕ) (tree : Tree) (l b : Label) (ss : Sents)
        → HasBareSections tree → without_sections tree ≡ old_body l ss → InPreorder (old_body l ss)
        → have_frame (old_children ss) ≡ false → AreSent ss → AreOutsideGroups ss → TakeTexts ss → AreUntangled items page ss
        → page ≡ flat_of_all (old_children ss) → StandAt 0 ss → length (new_sources ss) ≤ most_bytes
        → edit_answer same items page tree (new_body l b ss) ≡ Ok (new_sources ss) }
{}

/// What was sent shows what the page does, but in each of these blocks its text. Where no group is in the body, it shows
/// this with any page.
#[tactic(auto, using(crate::proofs::SentShows::page_shows, crate::proofs::SentShows::body_shows))]
pub fn typed_texts_are_shown()
    ensures page { (tree : Tree) (l b : Label) (ss : Sents) → HasBareSections tree → without_sections tree ≡ old_body l ss
        → InPreorder (old_body l ss) → AreSent ss → AreOutsideGroups ss
        → shown_children (restored_from tree (new_body l b ss)) ≡ listed (all_show ss) }
    ensures ungrouped { (tree : Tree) (l b : Label) (ss : Sents) → AreSent ss → NoneIsGroup (old_children ss)
        → shown_children (restored_from tree (new_body l b ss)) ≡ listed (all_show ss) }
{}

/// Without marks, as a browser sends it, the difference finds what was typed: of a page in sections, too, it marks
/// each of these blocks, and nothing else, where each text is another one than what the block held, and all else is
/// the page's own.
#[tactic(auto, using(crate::proofs::SentUnmarked::told_by_difference))]
pub fn typed_texts_are_told_apart()
    ensures { (tree : Tree) (l b : Label) (ss : Sents) → (label tree).kind ≡ kind.Body → InPreorder tree → HasBareSections tree
        → without_sections tree ≡ old_body l ss → InPreorder (old_body l ss)
        → have_frame (old_children ss) ≡ false → AreSent ss → AreToldApart ss → remarked tree (free_body l b ss) ≡ new_body l b ss }
{}

/// Where the contents of some paragraphs and headings of a body were edited, outside its groups, and all else is sent as
/// it is, no check refuses it, whatever texts are typed in them beside the nodes that stay, and whatever nodes of the
/// page aren't sent.
#[tactic(auto, using(crate::proofs::EditedKept::passes))]
pub fn edited_contents_pass_the_checks()
    ensures { (l b : Label) (es : Edits) → InPreorder (page_body l es) → have_frame (page_nodes es) ≡ false
        → AreEdited es → AreOutside es → checked false (page_body l es) (sent_body l b es) ≡ None }
{}

/// And `edit` is done where nothing is wrong in any of these contents and none of these blocks is tangled: the new page is
/// the old one, in which each of them has its content, as it is spelled, between its delimiters, unless that is longer
/// than a page may be. So it is of a page in sections, too.
#[tactic(auto, using(crate::proofs::EditedAnswer::answer_is, crate::proofs::EditedSections::answer_in_sections))]
pub fn edited_contents_are_taken()
    ensures body { (same : Tree → Tree → Bool) (items : Expanded) (page : List ℕ) (l b : Label) (es : Edits) → InPreorder (page_body l es)
        → have_frame (page_nodes es) ≡ false → AreEdited es → AreOutside es → AreTaken same es → AreApart items page es
        → page ≡ flat_of_all (page_nodes es) → LieAt 0 es → length (edited_sources same es) ≤ most_bytes
        → edit_answer same items page (page_body l es) (sent_body l b es) ≡ Ok (edited_sources same es) }
    ensures sections { (same : Tree → Tree → Bool) (items : Expanded) (page : List ℕ) (tree : Tree) (l b : Label) (es : Edits)
        → HasBareSections tree → without_sections tree ≡ page_body l es → InPreorder (page_body l es)
        → have_frame (page_nodes es) ≡ false → AreEdited es → AreOutside es → AreTaken same es → AreApart items page es
        → page ≡ flat_of_all (page_nodes es) → LieAt 0 es → length (edited_sources same es) ≤ most_bytes
        → edit_answer same items page tree (sent_body l b es) ≡ Ok (edited_sources same es) }
{}

/// What was sent shows what the page does, but in each of these blocks the texts that were sent and, between them, what
/// stays as the page shows it. Where no group is in the body, it shows this with any page.
#[tactic(auto, using(crate::proofs::EditedShows::page_shows, crate::proofs::EditedShows::body_shows))]
pub fn edited_contents_are_shown()
    ensures page { (tree : Tree) (l b : Label) (es : Edits) → HasBareSections tree → without_sections tree ≡ page_body l es
        → InPreorder (page_body l es) → AreEdited es → AreOutside es
        → shown_children (restored_from tree (sent_body l b es)) ≡ listed (edits_show es) }
    ensures ungrouped { (tree : Tree) (l b : Label) (es : Edits) → AreEdited es → NoneIsGroup (page_nodes es)
        → shown_children (restored_from tree (sent_body l b es)) ≡ listed (edits_show es) }
{}

/// Without marks, as a browser sends it, the difference finds what was edited: of a page in sections, too, it marks each
/// of these blocks, and nothing else, where each content is another one than that of the page's block, what stays in it
/// is inline, and all else is the page's own.
#[tactic(auto, using(crate::proofs::EditedUnmarked::told_by_difference))]
pub fn edited_contents_are_told_apart()
    ensures { (tree : Tree) (l b : Label) (es : Edits) → (label tree).kind ≡ kind.Body → InPreorder tree → HasBareSections tree
        → without_sections tree ≡ page_body l es → InPreorder (page_body l es)
        → have_frame (page_nodes es) ≡ false → AreEdited es → AreTold es → remarked tree (bare_body l b es) ≡ sent_body l b es }
{}

// ---- blocks that come and go

/// Where the body is marked `children`, some of its blocks aren't sent, the others are as they are, in their order, and
/// new paragraphs are among them, no check refuses the edit.
#[tactic(auto, using(crate::proofs::ComingPasses::passes))]
pub fn blocks_that_come_and_go_pass_the_checks()
    ensures { (l b : Label) (cs : Coming) → InPreorder (body_before l cs) → have_frame (page_children cs) ≡ false → AllStay cs
        → checked false (body_before l cs) (body_sent l b cs) ≡ None }
{}

/// And `edit` is done: the new page is the old one with the slices of these steps, unless that is longer than a page
/// may be. Asked is that what comes is listed directly after what stays before it. So it is of a page in sections, too.
#[tactic(auto, using(crate::proofs::ComingAnswer::answer_is, crate::proofs::ComingAnswer::answer_in_sections))]
pub fn blocks_that_come_and_go_are_taken()
    ensures body { (same : Tree → Tree → Bool) (items : Expanded) (page : List ℕ) (l b : Label) (cs : Coming) → InPreorder (body_before l cs)
        → have_frame (page_children cs) ≡ false → AllStay cs → AreListed cs
        → edit_answer same items page (body_before l cs) (body_sent l b cs)
        ≡ if_short (spliced page (body_slices same (page_of (body_before l cs)) start (steps_of cs))) }
    ensures sections { (same : Tree → Tree → Bool) (items : Expanded) (page : List ℕ) (tree : Tree) (l b : Label) (cs : Coming)
        → HasBareSections tree → without_sections tree ≡ body_before l cs → InPreorder (body_before l cs)
        → have_frame (page_children cs) ≡ false → AllStay cs → AreListed cs
        → edit_answer same items page tree (body_sent l b cs)
        ≡ if_short (spliced page (body_slices same (page_of (body_before l cs)) start (steps_of cs))) }
{}

/// Where no group is in the body, what was sent shows the blocks that stay as the page does, and the new paragraphs with
/// their texts.
#[tactic(auto, using(crate::proofs::ComingShows::body_shows))]
pub fn blocks_that_come_and_go_are_shown()
    ensures { (tree : Tree) (l b : Label) (cs : Coming) → AllStay cs → NoneIsGroup (page_children cs)
        → shown_children (restored_from tree (body_sent l b cs)) ≡ listed (coming_shows cs) }
{}
