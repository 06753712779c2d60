//! What holds of the groups of any tree over items.

ghost use Rattle.std.specs.Prelude.{◌≡◌, ◌≤◌, ◌∷◌, ℕ, [], List, Option, None, Some, if◌then◌else◌, length, slice_get, true};
ghost use Rattle.wt_span.specs.Items.{Item};
ghost use Rattle.wt_span.specs.Cuts.{page_of};
ghost use Rattle.wt_span.specs.Origins.{OuterCall};
ghost use Rattle.wt_tree.specs.Source.{flat};
ghost use Rattle.wt_tree.specs.Tiling.{Covers, InPreorder, Tiled, HasNoGroup};
ghost use Rattle.wt_tree.specs.Tree.{Tree};
ghost use Rattle.wt_tree.specs.declared.node.DataMw.{DataMw};
ghost use Rattle.wt_tree.specs.declared.kind.Kind.TheVariants as node_kind;
ghost use Rattle.std.specs.List.{AllByRecursion, list_all};
ghost use Rattle.wt_tree.specs.Plain.{plain as plain_view};
ghost use Rattle.wt_inline.specs.ItemTree.{plain, ItemTree, inner, ItemTrees, nothing, further, tree_items};
ghost use Rattle.wt_annotated.specs.Annotated.{annotated, placed, unplaced};
ghost use Rattle.wt_annotated.specs.Numbering.{count};
ghost use Rattle.wt_annotated.specs.Counted.{nodes};
ghost use Rattle.wt_annotated.specs.CutTexts.{HasCutTexts, cut_texts};
ghost use Rattle.wt_annotated.specs.Clean.{is_clean, is_page};
ghost use Rattle.wt_annotated.specs.Grouped.{grouped};
ghost use Rattle.wt_annotated.specs.GroupData.{group_data};
ghost use Rattle.wt_annotated.specs.GroupParts.{Part, begun, called};
ghost use Rattle.wt_annotated.specs.GroupWord.{argument_word, group_word, transclusion_word};
ghost use Rattle.wt_annotated.specs.Reached.{
  AreReachedSlices,
  AreSmallest,
  AtFreeCuts,
  Fills,
  calls_in_groups,
  reached,
};
ghost use Rattle.wt_annotated.specs.Ungrouped.{ungrouped};
ghost use Rattle.wt_annotated.specs.Walked.{walked};
ghost use Rattle.wt_annotated.specs.WithoutCalls.{annotated as annotated_plainly, IsPlain};

/// The body of a page is clean, whatever it holds.
pub fn body_is_clean()
    ensures { (ts : ItemTrees) → is_clean (tree_items (inner (plain node_kind.Body) [] ts [])) 0 (inner (plain node_kind.Body) [] ts []) ≡ true }
{}

/// The four places of each node that is reached and both ends of each group are free cuts, and
/// what a node holds follows one another and fills it.
pub fn groups_end_at_free_cuts()
    ensures ends { (all : List Item) (n : ℕ) (t : ItemTree) → is_clean all n t ≡ true → AtFreeCuts all (grouped all n t) }
    ensures fills { (all : List Item) (n : ℕ) (t : ItemTree) → is_clean all n t ≡ true → Fills (grouped all n t) }
{}

/// No group could be smaller: it holds one node, which is unclean, or more between which no cut is
/// free.
pub fn groups_are_smallest()
    ensures { (all : List Item) (n : ℕ) (t : ItemTree) → AreSmallest all (grouped all n t) }
{}

/// The calls that begin in groups, group after group, are all calls, in their order: each lies in
/// one group.
pub fn each_call_in_one_group()
    ensures { (t : ItemTree) → is_clean (tree_items t) 0 t ≡ true
        → calls_in_groups (tree_items t) (grouped (tree_items t) 0 t) ≡ begun (tree_items t) 0 (length (tree_items t)) }
{}

/// The ranges of the annotated tree tile it, that of a body covers the page, each range of a node
/// that is reached is a slice of the page, the tree's source is the page, and its numbers are in
/// preorder.
pub fn annotated_page()
    ensures tiled { (calls : List OuterCall) (carried : List Part → Option DataMw) (t : ItemTree) → is_clean (tree_items t) 0 t ≡ true
        → Tiled (annotated calls carried t) }
    ensures covers { (calls : List OuterCall) (carried : List Part → Option DataMw) (ts : ItemTrees)
        → Covers (length (page_of calls (tree_items (inner (plain node_kind.Body) [] ts []))))
        (annotated calls carried (inner (plain node_kind.Body) [] ts [])) }
    ensures slices { (calls : List OuterCall) (carried : List Part → Option DataMw) (t : ItemTree) → is_clean (tree_items t) 0 t ≡ true
        → AreReachedSlices (page_of calls (tree_items t)) (annotated calls carried t) }
    ensures source { (calls : List OuterCall) (carried : List Part → Option DataMw) (t : ItemTree) → is_clean (tree_items t) 0 t ≡ true
        → flat (annotated calls carried t) ≡ page_of calls (tree_items t) }
    ensures numbered { (calls : List OuterCall) (carried : List Part → Option DataMw) (t : ItemTree) → InPreorder (annotated calls carried t) }
{}

/// Grouping leaves the plain view as it is: a group shows its own nodes and no others. Beyond that
/// the annotated tree shows what it shows when its texts and separators are cut anew.
pub fn plain_view_stays()
    ensures groups { (calls : List OuterCall) (carried : List Part → Option DataMw) (t : ItemTree)
        → plain_view (placed calls carried (tree_items t) (grouped (tree_items t) 0 t)) ≡ plain_view (unplaced t) }
    ensures numbers { (calls : List OuterCall) (carried : List Part → Option DataMw) (t : ItemTree)
        → plain_view (annotated calls carried t) ≡ plain_view (cut_texts (placed calls carried (tree_items t) (grouped (tree_items t) 0 t))) }
{}

/// Texts and separators cut anew: in each node that is reached they are as they should be, a tree in
/// which they do is left as it is, the source stays, and there are no more numbers than before.
pub fn texts_cut_anew()
    ensures cut { (t : Tree) → AllByRecursion HasCutTexts (reached (cut_texts t)) }
    ensures same { (t : Tree) → AllByRecursion HasCutTexts (reached t) → cut_texts t ≡ t }
    ensures source { (t : Tree) → flat (cut_texts t) ≡ flat t }
    ensures numbers { (t : Tree) → count (cut_texts t) ≤ count t }
{}

/// Where no item comes from a call and no node is empty, there is no group: the annotated tree is
/// that of a page without calls, its texts and separators cut anew; and just that tree, where they
/// are as they should be. The tree of a body has no group only where it is so.
pub fn annotated_without_calls()
    ensures anew { (calls : List OuterCall) (carried : List Part → Option DataMw) (t : ItemTree) → IsPlain t
        → annotated calls carried t ≡ cut_texts (annotated_plainly t) }
    ensures same { (calls : List OuterCall) (carried : List Part → Option DataMw) (t : ItemTree) → IsPlain t
        → AllByRecursion HasCutTexts (reached (annotated_plainly t)) → annotated calls carried t ≡ annotated_plainly t }
    ensures only { (calls : List OuterCall) (carried : List Part → Option DataMw) (ts : ItemTrees)
        → HasNoGroup (annotated calls carried (inner (plain node_kind.Body) [] ts [])) → IsPlain (inner (plain node_kind.Body) [] ts []) }
{}

/// A group's word is `mw:Param` where its first call is an argument, and `mw:Transclusion` where it is
/// another call, or where the group has no parts, as that of an empty style.
pub fn group_words()
    ensures called { (calls : List OuterCall) (k : ℕ) (ps : List Part) (c : OuterCall) → slice_get calls k ≡ Some c
        → group_word (group_data calls (called k ∷ ps)) ≡ (if c.argument then argument_word else transclusion_word) }
    ensures empty { (calls : List OuterCall) → group_word (group_data calls []) ≡ transclusion_word }
{}

/// A walk over the tree that knows only the calls of the items beside it, and the byte at which it
/// is, makes the tree with its groups.
pub fn groups_by_walking()
    ensures { (calls : List OuterCall) (carried : List Part → Option DataMw) (t : ItemTree)
        → walked calls carried None 0 None t ≡ placed calls carried (tree_items t) (grouped (tree_items t) 0 t) }
{}

/// At most as many nodes and groups have a number as the tree has nodes.
pub fn few_numbers_with_groups()
    ensures { (calls : List OuterCall) (carried : List Part → Option DataMw) (t : ItemTree)
        → count (cut_texts (placed calls carried (tree_items t) (grouped (tree_items t) 0 t))) ≤ nodes t }
{}

/// A tree with groups gives back the tree that it comes from: each group has its own nodes in their
/// order, and each kept node its own head and delimiters.
pub fn groups_taken_apart()
    ensures { (t : ItemTree) → ungrouped (tree_items t) (grouped (tree_items t) 0 t) nothing ≡ further t nothing }
{}
