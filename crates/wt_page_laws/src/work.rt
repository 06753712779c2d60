//! Laws of the work of an expansion: which entry refuses it first, and for what.

ghost use Rattle.std.specs.Prelude.{◌≡◌, ◌↔◌, List, None, Some, ℕ};
ghost use Rattle.wt_expand.specs.Work.{Entry, Pages, Refused, first_refusal};
ghost use Rattle.wt_page_laws.specs.Refusals.{AreAllowed, IsFirstRefused};

/// Work is refused for what its first refused entry is refused for: some entries come before it, none
/// of which is refused at what was spent by then, and it is refused at what is spent with it. Where
/// no entry is refused so, the work isn't.
pub fn first_refused_entry_decides()
    ensures refused { (pages : Pages) (page : List ℕ) (work : List Entry) (r : Refused) → (first_refusal pages page work ≡ Some r) ↔ IsFirstRefused pages page work r }
    ensures allowed { (pages : Pages) (page : List ℕ) (work : List Entry) → (first_refusal pages page work ≡ None) ↔ AreAllowed pages page work }
{}
