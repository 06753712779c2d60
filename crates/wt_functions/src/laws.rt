//! What holds of every function call, for whoever calls these functions.
ghost use Rattle.std.specs.Prelude.{◌≡◌, ◌+◌, ℕ, Bool, List, Some, length, ◌↔◌};
ghost use Rattle.wt_span.specs.declared.function.Function.{Function};
ghost use Rattle.wt_span.specs.Functions.{function_of};
ghost use Rattle.wt_functions.specs.Laws.{NamesFunction, TellsInOrder, GivesAPart, TellsWhatIsNeeded, IsForGood, AsksAlong};

use crate::chooser::Chooser;

/// A target names a function exactly where it is blanks and line breaks, the function's word in any
/// case, and anything after it; and it names no other, nor at another place.
pub fn named_by_its_word(target: &str)
    ensures { (f : Function) → (part_0 : ℕ) → (function_of target.now ≡ Some (f, part_0)) ↔ NamesFunction f part_0 target.now }
{}

/// Parts are told in ascending order, each once, and only parts that are there are told or given.
pub fn parts_in_order(chooser: &Chooser)
    ensures told { TellsInOrder chooser.now }
    ensures given { GivesAPart chooser.now }
{}

/// Only what decides is told: of `If` part 0, of `IfEq` parts 0 and 1, of `Switch` no part after one
/// that is equal to part 0.
pub fn nothing_behind_equal(chooser: &Chooser)
    ensures { TellsWhatIsNeeded chooser.now }
{}

/// A part is given at most once: once the answer is no longer `Tell`, it stays what it is, whatever the
/// texts of the parts that weren't told. So it hangs on the told texts alone.
pub fn given_for_good(chooser: &Chooser)
    ensures { IsForGood chooser.now }
{}

/// Over the texts of all parts, one for each: the parts that are told are asked for one after the other,
/// and then the part is given that is chosen from all texts.
pub fn asks_along()
    ensures { (f : Function) → (equals : List Bool) → (texts : List (List ℕ)) → length texts ≡ length equals + 1 → AsksAlong f equals texts }
{}
