ghost use Rattle.std.specs.Prelude.{◌≡◌, ◌<◌, ◌^◌, ℕ, [], List, length, None, IsUtf8, true};
ghost use Rattle.std.specs.List.{AllByRecursion};
ghost use Rattle.wt_span.specs.Cuts.{page_of};
ghost use Rattle.wt_span.specs.Origins.{OuterCall};
ghost use Rattle.wt_tree.specs.Opened.{without_sections};
ghost use Rattle.wt_tree.specs.Source.{flat};
ghost use Rattle.wt_tree.specs.Tiling.{Tiled, Covers, InPreorder, HasNoGroup};
ghost use Rattle.wt_schema.specs.Html.{html_text};
ghost use Rattle.wt_schema.specs.Read.{read, page as as_page};
ghost use Rattle.wt_schema.specs.Written.{unranged, IsWritten};
ghost use Rattle.wt_expand.specs.PageCalls.{expanded_page};
ghost use Rattle.wt_expand.specs.Expansion.{page_work};
ghost use Rattle.wt_expand.specs.Work.{Pages, first_refusal};
ghost use Rattle.wt_page.specs.Body.{meaning};
ghost use Rattle.wt_inline.specs.ItemTree.{ItemTree, tree_items};
ghost use Rattle.wt_annotated.specs.Annotated.{annotated, placed};
ghost use Rattle.wt_annotated.specs.Clean.{is_clean};
ghost use Rattle.wt_annotated.specs.CutTexts.{cut_texts};
ghost use Rattle.wt_annotated.specs.GroupData.{group_data};
ghost use Rattle.wt_annotated.specs.Grouped.{grouped};
ghost use Rattle.wt_annotated.specs.Numbering.{count};
ghost use Rattle.wt_annotated.specs.Reached.{AreReachedSlices, reached};
ghost use Rattle.wt_annotated.specs.Slices.{AreSlices};
ghost use Rattle.wt_page_round_trip.specs.GroupTexts.{
  AreOwnTexts,
  ArePageCalls,
  HasGroupLabel,
  HoldsTexts,
};
ghost use Rattle.wt_page_round_trip.specs.PageTree.{page_tree};

/// The HTML of a page with its templates is read as the page's own annotated tree, without its sections and
/// the ranges of its texts and separators, and with the nodes of a group's elements in the place of its own. Each
/// element outside groups, and each group, says where it comes from, and the source is the page. It
/// holds of each page in UTF-8 of fewer than 2^30 bytes whose expansion nothing refuses, which so gives
/// at most 2^23 bytes more.
pub fn page_is_read()
    ensures written { (pages : Pages) (page : List ℕ) → IsUtf8 page → length page < 2 ^ 30
        → first_refusal pages page (page_work pages page) ≡ None → IsWritten (page_tree pages page) }
    ensures read { (pages : Pages) (page : List ℕ) → IsUtf8 page → length page < 2 ^ 30
        → first_refusal pages page (page_work pages page) ≡ None
        → read (html_text (page_tree pages page)) ≡ as_page (unranged (without_sections (page_tree pages page))) None }
    ensures source { (pages : Pages) (page : List ℕ) → IsUtf8 page → first_refusal pages page (page_work pages page) ≡ None
        → flat (unranged (without_sections (page_tree pages page))) ≡ page }
{}

/// What is on a page for the meaning of its expanded items, each of its own once and of each
/// outermost call the source, is the page.
pub fn items_are_the_page()
    ensures { (pages : Pages) (page : List ℕ) → IsUtf8 page → first_refusal pages page (page_work pages page) ≡ None
        → page_of (expanded_page pages page).outer (tree_items (meaning (expanded_page pages page).items)) ≡ page }
{}

/// The tree of a page joins to the page, its ranges tile the page and those of all nodes but in groups
/// are slices of it, and its numbers are in preorder.
pub fn whole_page_tree()
    ensures source { (pages : Pages) (page : List ℕ) → IsUtf8 page → first_refusal pages page (page_work pages page) ≡ None
        → flat (page_tree pages page) ≡ page }
    ensures tiled { (pages : Pages) (page : List ℕ) → Tiled (page_tree pages page) }
    ensures covers { (pages : Pages) (page : List ℕ) → IsUtf8 page → first_refusal pages page (page_work pages page) ≡ None
        → Covers (length page) (page_tree pages page) }
    ensures reached { (pages : Pages) (page : List ℕ) → IsUtf8 page → first_refusal pages page (page_work pages page) ≡ None
        → AreReachedSlices page (page_tree pages page) }
    ensures slices { (pages : Pages) (page : List ℕ) → IsUtf8 page → first_refusal pages page (page_work pages page) ≡ None
        → HasNoGroup (page_tree pages page) → AreSlices page (page_tree pages page) }
    ensures numbered { (pages : Pages) (page : List ℕ) → InPreorder (page_tree pages page) }
{}

/// What an expanded page in UTF-8 has beside what `page_is_sound` of `wt_expansion` says: the source
/// of each outermost call is UTF-8 and not empty, and so is its link UTF-8; and the page's own
/// characters, between its calls and forms, are UTF-8, whatever the templates give.
pub fn expanded_page_is_text()
    ensures calls { (pages : Pages) (page : List ℕ) → IsUtf8 page → length page < 2 ^ 64 → ArePageCalls (expanded_page pages page).outer }
    ensures items { (pages : Pages) (page : List ℕ) → IsUtf8 page → AreOwnTexts [] (expanded_page pages page).items }
{}

/// The label of each group of an annotated tree is one that is written: it has a number and places of
/// a page, its source is UTF-8, it has the word of a group, and its parts are read as they are
/// written. It holds of trees that are cut between characters, with calls of a page in UTF-8, where
/// the page's bytes and its numbers are fewer than 2^32.
pub fn groups_are_labelled()
    ensures { (calls : List OuterCall) (t : ItemTree) → ArePageCalls calls → HoldsTexts t
        → is_clean (tree_items t) 0 t ≡ true → length (page_of calls (tree_items t)) < 2 ^ 32
        → count (cut_texts (placed calls (group_data calls) (tree_items t) (grouped (tree_items t) 0 t))) < 2 ^ 32
        → AllByRecursion HasGroupLabel (reached (annotated calls (group_data calls) t)) }
{}
