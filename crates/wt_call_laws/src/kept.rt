//! Which bytes of a page `selser` keeps.
ghost use Rattle.std.specs.Prelude.{◌≤◌, ℕ, List, Option, length};
ghost use Rattle.std.specs.Str.{IsUtf8};
ghost use Rattle.wt_call_laws.specs.KeptBytes.{KeepsUnedited};
ghost use Rattle.wt_commands.specs.Answers.{remarked_of};
ghost use Rattle.wt_devices.specs.Device.{Pages};
ghost use Rattle.wt_page_round_trip.specs.PageTree.{page_tree};
ghost use Rattle.wt_pagetool.specs.Rewrites.{WroteSelser};
ghost use Rattle.wt_places.specs.Rewritten.{IsRewritten};
ghost use Rattle.wt_span.specs.declared.limits.TheConstants.{PAGE_BYTES};

/// Where `selser` wrote the page with places of the difference, and nothing else, written anew, this has the bytes of
/// each node that stays in its turn and is as it was.
pub fn unedited_nodes_keep_their_bytes()
    ensures { (pages : Pages) → (title input : List ℕ) → (left old new : Option (List ℕ)) → (w : WroteSelser pages title input left old new)
        → IsUtf8 w.page → length w.page ≤ PAGE_BYTES
        → IsRewritten w.page (page_tree pages w.page) (remarked_of pages w.page w.edited) w.changed
        → KeepsUnedited w.page (page_tree pages w.page) (remarked_of pages w.page w.edited) w.changed }
{}
