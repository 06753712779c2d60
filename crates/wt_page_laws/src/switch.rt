//! Which part a `#switch` gives.
ghost use Rattle.std.specs.Prelude.{◌≡◌, ℕ, Bool, List, Some, None};
ghost use Rattle.wt_span.specs.declared.function.Function.TheVariants.{Switch};
ghost use Rattle.wt_functions.specs.Choice.{chosen};
ghost use Rattle.wt_page_laws.specs.ReadingPlaces.{IsFirst, IsLast, IsNowhere};
ghost use Rattle.wt_page_laws.specs.Switches.{IsValue, IsWholeEnd, IsDefault};

/// The first part with a `=` that is equal to part 0 or after such a part is given; where there is
/// none, the last part, if it has no `=`; where that has one too, the last part with the name
/// `#default`; and else nothing.
pub fn part_of_switch()
    ensures value { (equals : List Bool) → (texts : List (List ℕ)) → (part : ℕ)
        → IsFirst (IsValue equals texts) part → chosen Switch equals texts ≡ Some part }
    ensures end { (equals : List Bool) → (texts : List (List ℕ)) → (part : ℕ)
        → IsNowhere (IsValue equals texts) → IsWholeEnd equals part → chosen Switch equals texts ≡ Some part }
    ensures default { (equals : List Bool) → (texts : List (List ℕ)) → (part : ℕ)
        → IsNowhere (IsValue equals texts) → IsNowhere (IsWholeEnd equals)
        → IsLast (IsDefault equals texts) part → chosen Switch equals texts ≡ Some part }
    ensures nothing { (equals : List Bool) → (texts : List (List ℕ))
        → IsNowhere (IsValue equals texts) → IsNowhere (IsWholeEnd equals)
        → IsNowhere (IsDefault equals texts) → chosen Switch equals texts ≡ None }
{}
