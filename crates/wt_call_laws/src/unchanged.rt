//! Which input changes nothing.
ghost use Rattle.std.specs.Prelude.{◌≡◌, ℕ, List, Some};
ghost use Rattle.wt_expand.specs.Work.{Pages};
ghost use Rattle.wt_commands.specs.Answers.{done, html_answer};
ghost use Rattle.wt_pagetool.specs.Selser.{IsUnchanged};

/// What `html` answers for a page differs from the page's own HTML in nothing that is compared.
pub fn own_html_is_unchanged()
    ensures { (pages : Pages) → (page bytes : List ℕ) → html_answer pages (Some page) ≡ done bytes → IsUnchanged pages page bytes }
{}
