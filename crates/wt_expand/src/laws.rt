ghost use Rattle.std.specs.Prelude.{◌≡◌, ℕ, suc, List, [], ◌∷◌, ◌++◌, None, Some, false, length, map, take, ◌+◌, Contains};
ghost use Rattle.std.specs.List.{All};
ghost use Rattle.wt_span.specs.declared.form.Mode.TheVariants as text_mode;
ghost use Rattle.wt_span.specs.Braces.{call_count_of_all};
ghost use Rattle.wt_span.specs.Cuts.{page_of};
ghost use Rattle.wt_span.specs.Items.{Item, sources, call_of, is_char_in, items};
ghost use Rattle.wt_span.specs.Origins.{AreItems, OuterCall, Span, once, span_of_origin};
ghost use Rattle.wt_span.specs.declared.form.Piece.{Piece as PieceAt};
ghost use Rattle.wt_names.specs.declared.title.Title.{Title as TitleOf};
ghost use Rattle.wt_names.specs.Namespace.{full_name_of};
ghost use Rattle.std.specs.Prelude.{Bool as BoolOf};
ghost use Rattle.wt_span.specs.declared.function.Function.{Function as FunctionOf};
ghost use Rattle.wt_expand.specs.Asking.{AsksInTurn};
ghost use Rattle.wt_expand.specs.Agreement.{AgreeOn};
ghost use Rattle.wt_expand.specs.Asked.{AreArguments, AreOnce, IsLonger};
ghost use Rattle.wt_expand.specs.Fronts.{Front, NextFetches, NextRefuses, allowed_work, cost_of_all, known_after, names_told};
ghost use Rattle.wt_expand.specs.Expansion.{Frame, PartOutput, value_of, absent_text, chars, page_reading, page_work, template_output, text_given, text_members};
ghost use Rattle.wt_expand.specs.PageCalls.{expanded_page};
ghost use Rattle.wt_expand.specs.PageItems.{page_items};
ghost use Rattle.wt_expand.specs.PiecePlaces.{BeginFrom, end_of_spans};
ghost use Rattle.wt_expand.specs.Texts.{is_space, shown_text, trimmed, trimmed_items};
ghost use Rattle.wt_expand.specs.Trimmed.{IsTrimmed};
ghost use Rattle.wt_expand.specs.Work.{Entry, Pages, Refused, fetched, fetches, first_refusal, is_among, most_bytes, names_asked, template_refusal};

/// The sources of a page's items, joined, are the page, and none comes from a call.
pub fn whole_page()
    ensures joined { (page : List ℕ) → sources (page_items page) ≡ page }
    ensures no_calls { (page : List ℕ) → All (λ x. call_of x ≡ None) (page_items page) }
{}

/// Under what `Items` keeps: the cut before the first item of a page's own piece has the piece's
/// first byte as its place, and the page has as many bytes as the origins cover.
pub fn pieces_have_places()
    ensures begin { (ps : List PieceAt) (calls : List OuterCall) (ts : List Span) → AreItems ps calls ts → BeginFrom calls (items ps) 0 ps }
    ensures covered { (ps : List PieceAt) (calls : List OuterCall) (ts : List Span) → AreItems ps calls ts
        → length (page_of calls (items ps))
        ≡ end_of_spans 0 (map (span_of_origin calls) (once (map (λ p. p.origin) ps))) }
{}

/// The origins of an expanded page, each once, join to the page.
pub fn origins_join()
    ensures { (pages : Pages) (page : List ℕ) → page_of (expanded_page pages page).outer (expanded_page pages page).items ≡ page }
{}

/// The expanded page shows what its text gives, whatever calls it comes from.
pub fn shows_what_is_given()
    ensures { (pages : Pages) (page : List ℕ) → shown_text (expanded_page pages page).items ≡ shown_text (text_given (page_reading pages) page).items }
{}

/// A page without calls and arguments has the items of its lexemes, whatever the folder has.
pub fn without_calls()
    ensures { (pages : Pages) (page : List ℕ) → call_count_of_all (text_members text_mode.Page page) ≡ 0
        → expanded_page pages page ≡ record { items = page_items page; outer = []; text_calls = [] } }
{}

/// What an expansion gives, and its work, hang on no page that isn't fetched for it: with any other
/// folder that has the same pages where these are fetched they are the same.
pub fn hangs_on_what_is_fetched()
    ensures page { (pages others : Pages) (page : List ℕ) → AgreeOn pages others (page_work pages page) → expanded_page pages page ≡ expanded_page others page }
    ensures work { (pages others : Pages) (page : List ℕ) → AgreeOn pages others (page_work pages page) → page_work pages page ≡ page_work others page }
{}

/// A call whose page is absent gives the characters of the link to it, and asks for this page
/// alone.
pub fn absent_page_is_a_link()
    ensures { (pages : Pages) (left : ℕ) (titles : List (List ℕ)) (t : TitleOf) (v : Frame)
        → is_among (full_name_of t) titles ≡ false → pages (full_name_of t) ≡ None
        → template_output pages (suc left) titles t v
        ≡ record { items = chars (absent_text (full_name_of t)); work = fetched (full_name_of t) ∷ [] } }
{}

/// The names that are asked for are those that are fetched, each once; and as the work goes on, names
/// are appended: so they are in the order of their first fetch.
pub fn names_are_asked_once()
    ensures once { (work : List Entry) → AreOnce (names_asked work) }
    ensures asked { (work : List Entry) (name : List ℕ) → Contains (fetches work) name → Contains (names_asked work) name }
    ensures fetched { (work : List Entry) (name : List ℕ) → Contains (names_asked work) name → Contains (fetches work) name }
    ensures in_order { (work later : List Entry) → IsLonger (names_asked work) (names_asked (work ++ later)) }
{}

/// A page all whose calls are arguments fetches nothing.
pub fn arguments_fetch_nothing()
    ensures { (pages : Pages) (page : List ℕ) → AreArguments (text_members text_mode.Page page) → names_asked (page_work pages page) ≡ [] }
{}

/// What is trimmed lies between parts that pass the test, and neither its first nor its last member
/// passes it: of texts, and of items.
pub fn trimmed_ends()
    ensures texts { (text : List ℕ) → IsTrimmed is_space text (trimmed text) }
    ensures items { (xs : List Item) → IsTrimmed (is_char_in is_space) xs (trimmed_items xs) }
{}

/// A function begins, asks for its parts one after the other, each decided by the texts before it, and
/// ends with the part that is given. So only what is asked for is in its work, in this order.
pub fn functions_ask_in_turn()
    ensures { (f : FunctionOf) (n : ℕ) (at_start : BoolOf) (ps : List PartOutput) → AsksInTurn f n at_start ps }
{}

/// Of several values of a name the last one counts.
pub fn last_value_counts()
    ensures { (name : List ℕ) (before after : Frame) (v : List Item) → value_of name after ≡ None → value_of name (before ++ (name, v) ∷ after) ≡ Some v }
{}

/// A page of which only one byte more than a template may have is taken is refused as the whole
/// page is.
pub fn cut_page_is_refused()
    ensures { (title bytes : List ℕ) → template_refusal title (take (most_bytes + 1) bytes) ≡ template_refusal title bytes }
{}

/// Work is refused as the entry is after a front of it that is done, and this front is all that comes
/// before: so there is one such front. Each other front is the beginning of it. Work of which no entry
/// is refused is done whole.
pub fn work_stops_at_its_first_refusal()
    ensures refused { (pages : Pages) (page : List ℕ) (work done left : List Entry) (r : Refused) → Front pages page 0 work done left
        → NextRefuses pages page (cost_of_all done) r left → first_refusal pages page work ≡ Some r }
    ensures front { (pages : Pages) (page : List ℕ) (work done left : List Entry) (r : Refused) → Front pages page 0 work done left
        → NextRefuses pages page (cost_of_all done) r left → allowed_work pages page work ≡ done }
    ensures within { (pages : Pages) (page : List ℕ) (work done left : List Entry) → Front pages page 0 work done left
        → (more : List Entry) × (allowed_work pages page work ≡ done ++ more) }
    ensures whole { (pages : Pages) (page : List ℕ) (work : List Entry) → first_refusal pages page work ≡ None → allowed_work pages page work ≡ work }
{}

/// The names that are answered are exactly those that an entry before the first refusal fetches, each once.
pub fn told_names_are_fetched()
    ensures once { (pages : Pages) (page : List ℕ) (work : List Entry) → AreOnce (names_told pages page work) }
    ensures fetched { (pages : Pages) (page : List ℕ) (work : List Entry) (name : List ℕ) → Contains (names_told pages page work) name
        → Contains (allowed_work pages page work) (fetched name) }
    ensures told { (pages : Pages) (page : List ℕ) (work : List Entry) (name : List ℕ) → Contains (allowed_work pages page work) (fetched name)
        → Contains (names_told pages page work) name }
{}

/// Where a fetch fails, the names of what is done and then the name of this fetch are the first that
/// the work asks for.
pub fn failed_fetch_is_next()
    ensures { (pages : Pages) (page : List ℕ) (work done left : List Entry) → Front pages page 0 work done left
        → NextFetches (known_after [] (fetches done)) left → (title : List ℕ) × IsLonger (names_asked done ++ title ∷ []) (names_asked work) }
{}
