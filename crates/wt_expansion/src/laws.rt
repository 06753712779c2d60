ghost use Rattle.std.specs.Prelude.{◌≡◌, ℕ, List, All};
ghost use Rattle.std.specs.Str.{IsUtf8};
ghost use Rattle.wt_span.specs.Items.{items};
ghost use Rattle.wt_span.specs.Origins.{AreInOrder, AreItems, IsSoundCall};
ghost use Rattle.wt_span.specs.declared.form.Piece.{Piece as PieceAt};
ghost use Rattle.wt_expand.specs.Work.{Pages};
ghost use Rattle.wt_expand.specs.PageCalls.{Stretch, expanded_page, outer_calls, page_stretches, text_spans};
ghost use Rattle.wt_expansion.specs.Made.{AreAlike, Give};
ghost use Rattle.wt_expansion.specs.Sound.{AreSoundItems};

/// What an expanded page has, for every page and every folder: each of its items is one whole form
/// and comes from where such a form may come from; the parts of its outermost calls lie in order at
/// character borders, with a `=` where a name ends; and its text calls are in order.
pub fn page_is_sound()
    ensures items { (pages : Pages) (page : List ℕ) → AreSoundItems (expanded_page pages page).items }
    ensures calls { (pages : Pages) (page : List ℕ) → IsUtf8 page → All IsSoundCall (expanded_page pages page).outer }
    ensures text_calls { (pages : Pages) (page : List ℕ) → AreInOrder (expanded_page pages page).text_calls }
{}

/// Pieces that give the stretches of a page one after another are what the items of a page owe each
/// other, and these are the expanded page.
pub fn pieces_are_the_page()
    ensures owed { (pages : Pages) (page : List ℕ) (ss : List Stretch) (ps : List PieceAt) (to : ℕ) → IsUtf8 page
        → AreAlike ss (page_stretches pages page) → Give 0 0 ss ps to → AreItems ps (outer_calls ss) (text_spans ss) }
    ensures same { (pages : Pages) (page : List ℕ) (ss : List Stretch) (ps : List PieceAt) (to : ℕ) → AreAlike ss (page_stretches pages page)
        → Give 0 0 ss ps to → record { items = items ps; outer = outer_calls ss; text_calls = text_spans ss } ≡ expanded_page pages page }
{}
