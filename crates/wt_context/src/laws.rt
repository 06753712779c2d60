//! What holds of the inside of any context.

ghost use Rattle.std.specs.Prelude.{◌≡◌, ◌≤◌, ◌<◌, ◌++◌, ◌∷◌, Bool, List, false, length};
ghost use Rattle.wt_span.specs.Items.{Item, sources};
ghost use Rattle.wt_quotes.specs.declared.chunk.Chunk.TheVariants.{Run};
ghost use Rattle.wt_tiles.specs.declared.context.Context.{Context as Where};
ghost use Rattle.wt_inline.specs.Inside.{opened_all};
ghost use Rattle.wt_inline.specs.ItemTree.{forest, held_by_all};
ghost use Rattle.wt_inline.specs.Parts.{held_parts, children};
ghost use Rattle.wt_context.specs.Segments.{Segment};
ghost use Rattle.wt_context.specs.Chunks.{chunks};
ghost use Rattle.wt_context.specs.Nodes.{Reading, segments};
ghost use Rattle.wt_context.specs.Line.{context_parts, line_parts, line_trees};
ghost use Rattle.wt_context.specs.Nesting.{IsReading};
ghost use Rattle.wt_context.specs.RunCuts.{IsRunBetween, has_run, IsTold};
ghost use Rattle.wt_context.specs.Targets.{HaveTargets};
ghost use Rattle.wt_context.specs.Unstyled.{all_unstyled, plain_parts};
ghost use Rattle.wt_context.specs.StyledPlaces.{all_places, toggled, places_from};
ghost use Rattle.wt_tiles.specs.declared.read.TheConstants.{MOST_PAIRS};

/// What the parts of a line hold are its items in their order, but that a `nowiki` may be opened in
/// them; joined, their sources are those of the items. The trees that the parts make hold the same.
pub fn line_keeps_its_items()
    ensures items { (xs : List Item) → opened_all (held_parts (line_parts xs)) ≡ opened_all xs }
    ensures source { (xs : List Item) → sources (held_parts (line_parts xs)) ≡ sources xs }
    ensures trees { (xs : List Item) → opened_all (held_by_all (forest (line_trees xs))) ≡ opened_all xs }
    ensures trees_source { (xs : List Item) → sources (held_by_all (forest (line_trees xs))) ≡ sources xs }
{}

/// Every context in at most sixteen pairs is its segments with styles round them, where what is
/// inside its tiles is read so again, and no other reading is so: none is left without its inside.
pub fn contexts_nest()
    ensures are { IsReading context_parts }
    ensures only { (read : Reading) → IsReading read → (cx : Where) (xs : List Item) → cx.pairs ≤ MOST_PAIRS → read cx xs ≡ context_parts cx xs }
{}

/// A context, its styles taken away, is its tiles as nodes and the characters between them, the
/// delimiters of styles among these: no style begins or ends in a tile, and none changes one.
pub fn styles_lie_between_tiles()
    ensures { (cx : Where) (xs : List Item) → cx.pairs ≤ MOST_PAIRS → all_unstyled (forest (children (context_parts cx xs))) ≡ plain_parts context_parts cx xs }
{}

/// The chunks of a context are cut at each run of apostrophes, and the last chunk before a run tells
/// the last visible item since the run before it, and the one before that.
pub fn chunks_tell_items_before_runs()
    ensures cut { (us run vs : List Segment) → IsRunBetween us run vs → chunks (us ++ (run ++ vs)) ≡ chunks us ++ Run (length run) ∷ chunks vs }
    ensures told { (us : List Segment) → 0 < length us → has_run us ≡ false → IsTold us }
{}

/// Each part of a context is in bold where an odd number of bold toggles is before it, and
/// elsewhere in none; likewise italic. The apostrophes that switch are in delimiters, and nothing
/// else does.
pub fn parts_stand_in_styles()
    ensures { (kind : Bool) (cx : Where) (xs : List Item) → cx.pairs ≤ MOST_PAIRS
        → all_places kind false (forest (children (context_parts cx xs)))
        ≡ places_from (toggled kind (chunks (segments context_parts cx xs))) 0 (segments context_parts cx xs) }
{}

/// Each link and each category of a context holds a target in its own items, whose title the link
/// that is written for it leads back to.
pub fn links_lead_to_their_targets()
    ensures { (cx : Where) (xs : List Item) → HaveTargets cx xs }
{}
