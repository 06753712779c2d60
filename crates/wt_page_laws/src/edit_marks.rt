//! The mark of an edit: how an editor puts it on elements, and what is read then.
ghost use Rattle.std.specs.Prelude.{◌≡◌, ℕ, Bool, false, None, Ok, List};
ghost use Rattle.wt_tree.specs.Tree.{Tree};
ghost use Rattle.wt_html_grammar.specs.Markup.{Markup, Stands};
ghost use Rattle.wt_schema.specs.Fit.{fit};
ghost use Rattle.wt_schema.specs.Unsourced.{unsourced};
ghost use Rattle.wt_page_laws.specs.EditMarks.{document_marked, tree_marked};

/// Where an editor puts the mark `data-wt-edit="content"` on elements of a document that is a page, chosen by the numbers of
/// their nodes, the document is the same page with this mark on just these nodes (`fits`). Elements of groups aren't chosen.
/// And where each element said where it comes from, there is a text that stands for the document with the marks (`text`).
pub fn marks_are_read()
    ensures fits { (f : ℕ → Bool) (m : Markup) (t : Tree) → f 0 ≡ false → fit m ≡ Ok t → fit (document_marked f m) ≡ Ok (tree_marked f t) }
    ensures text { (f : ℕ → Bool) (bytes : List ℕ) (m : Markup) (t : Tree) → f 0 ≡ false → Stands bytes m → fit m ≡ Ok t → unsourced m ≡ None
        → (others : List ℕ) × Stands others (document_marked f m) }
{}
