//! What is written is one.
ghost use Rattle.std.specs.Prelude.{◌≡◌, ◌++◌, ℕ, List, Option, Some};
ghost use Rattle.wt_devices.specs.Device.{Pages};
ghost use Rattle.wt_pagetool.specs.Reports.{WroteEdit, WrotePage, WroteSource, new_page};
ghost use Rattle.wt_pagetool.specs.declared.command.PageCommand.{PageCommand};
ghost use Rattle.wt_splice.specs.Splice.{spliced, OutsideStands};
ghost use Rattle.wt_tree.specs.Tree.{Tree};

/// What a call writes of a page, of an input, or of both, after what a sink had, is determined by them.
pub fn what_is_written_is_one()
    ensures page { (of : PageCommand) → (pages : Pages) → (title old new other : List ℕ) → WrotePage of pages title (Some old) (Some new) → WrotePage of pages title (Some old) (Some other) → new ≡ other }
    ensures source { (input old new other : List ℕ) → (left : Option (List ℕ)) → WroteSource input left (Some old) (Some new) → WroteSource input left (Some old) (Some other) → new ≡ other }
    ensures edit { (pages : Pages) → (title input old new other : List ℕ) → (left : Option (List ℕ)) → WroteEdit pages title input left (Some old) (Some new) → WroteEdit pages title input left (Some old) (Some other) → new ≡ other }
{}
