//! What is accepted of the attributes that an editor sends back.
ghost use Rattle.std.specs.Prelude.{◌≡◌, ◌↔◌, ℕ, List, Ok};
ghost use Rattle.wt_tree.specs.declared.node.DataMw.{DataMw};
ghost use Rattle.wt_datamw.specs.declared.sync.Sync.{Sync};
ghost use Rattle.wt_datamw.specs.MwRead.{mw_told};
ghost use Rattle.wt_datamw.specs.SyncRead.{sync_told};
ghost use Rattle.wt_page_laws.specs.Told.{SaysMw, SaysSync};

/// A text of `data-mw` is accepted exactly where it is JSON for the data that is written for its value.
pub fn only_written_data_mw()
    ensures { (text : List ℕ) → (value : DataMw) → (mw_told text ≡ Ok value) ↔ SaysMw text value }
{}

/// A text of `data-parsoid` is accepted exactly where it is JSON for an object with the four places,
/// maybe the delimiters and the source, and nothing else. So it is what is written for its value, but
/// for an empty delimiter, which isn't written.
pub fn only_written_data_parsoid()
    ensures { (text : List ℕ) → (value : Sync) → (sync_told text ≡ Ok value) ↔ SaysSync text value }
{}
