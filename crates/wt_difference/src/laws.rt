ghost use Rattle.std.specs.Prelude.{◌≡◌, [], not, true};
ghost use Rattle.std.specs.Bool.{Decides};
ghost use Rattle.wt_tree.specs.Opened.{without_sections};
ghost use Rattle.wt_tree.specs.Tiling.{InPreorder};
ghost use Rattle.wt_tree.specs.Tree.{Tree, label};
ghost use Rattle.wt_tree.specs.declared.kind.Kind.TheVariants as kind;
ghost use Rattle.wt_checks.specs.BareSections.{HasBareSections};
ghost use Rattle.wt_checks.specs.Groups.{has_mark};
ghost use Rattle.wt_checks.specs.Places.{Page, is_body};
ghost use Rattle.wt_checks.specs.PutBack.{IsOneBody};
ghost use Rattle.wt_checks.specs.WithoutMarks.{groups_unmarked, unmarked};
ghost use Rattle.wt_difference.specs.Difference.{are_none, difference, numbers, numbers_in, same_children, same_inside};
ghost use Rattle.wt_difference.specs.Insides.{held, inside};
ghost use Rattle.wt_difference.specs.Remarked.{remarked};
ghost use Rattle.wt_difference.specs.Seen.{all_seen};
ghost use Rattle.wt_difference.specs.Tokens.{all_tokens};
ghost use Rattle.wt_difference.specs.Unedited.{IsUnedited};

/// An edited tree that is the page's own doesn't differ from it.
pub fn nothing_differs()
    ensures { (page edited : Tree) → (label page).kind ≡ kind.Body → InPreorder page → HasBareSections page
        → IsOneBody edited → IsUnedited (without_sections page) edited → difference page edited ≡ [] }
{}

/// The remarked tree is the edited one but for its marks, no mark of it is on a group or inside one, and
/// it has none exactly where nothing differs.
pub fn marks_alone()
    ensures same { (page edited : Tree) → unmarked (remarked page edited) ≡ unmarked edited }
    ensures groups { (page edited : Tree) → is_body (label edited).kind ≡ true
        → groups_unmarked (remarked page edited) ≡ true }
    ensures none { (page edited : Tree) → are_none (difference page edited) ≡ not (has_mark (remarked page edited)) }
{}

/// The tests of two nodes say whether all that is seen of their insides is one (the texts by their
/// characters; the elements in order, each by its number, kind, attributes, data and character), and
/// whether the numbers of the children after them are.
pub fn comparisons()
    ensures insides { (old new : Tree) → Decides (same_inside old new)
        (all_seen (all_tokens (inside old)) ≡ all_seen (all_tokens (inside new))) }
    ensures children { (page : Page) (old new : Tree) → Decides (same_children page old new)
        (numbers (held old) ≡ numbers_in page (label new).id (held new)) }
{}
