//! Which texts are UTF-8.
ghost use Rattle.std.specs.Prelude.{◌≡◌, ◌↔◌, true};
ghost use Rattle.std.specs.List.{AllByRecursion};
ghost use Rattle.std.specs.Str.{is_utf8};
ghost use Rattle.wt_html_grammar.specs.Markup.{Markup};
ghost use Rattle.wt_html_nodes.specs.Texts.{is_utf8_markup};
ghost use Rattle.wt_page_laws.specs.Occurring.{texts_of};

/// A tree of elements is UTF-8 exactly where each text and each value that is in it is, by itself.
pub fn texts_are_utf8_one_by_one()
    ensures { (t : Markup) → (is_utf8_markup t ≡ true) ↔ (AllByRecursion (λ bs. is_utf8 bs ≡ true) (texts_of t)) }
{}
