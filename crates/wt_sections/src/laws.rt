//! What holds of the sections of any body.

ghost use Rattle.std.specs.Prelude.{◌≡◌, ◌++◌, map};
ghost use Rattle.std.specs.List.{AllByRecursion};
ghost use Rattle.wt_tree.specs.Opened.{opened};
ghost use Rattle.wt_tree.specs.Plain.{plain};
ghost use Rattle.wt_tree.specs.Source.{flat};
ghost use Rattle.wt_tree.specs.Tiling.{InPreorder, Tiled};
ghost use Rattle.wt_tree.specs.Tree.{Tree, Trees};
ghost use Rattle.wt_sections.specs.Sections.{gathered, lead_if_any, with_sections};
ghost use Rattle.wt_sections.specs.SectionLaws.{IsDeep, NoneIsSection, from_heading, lead_opening, opening, openings, sections_in_all, up_to_heading};

/// Sections change nothing but where children are: opened again, they give the children that were
/// gathered, in their order.
pub fn sections_open_again()
    ensures { (ts : Trees) → NoneIsSection ts → opened (gathered ts) ≡ ts }
{}

/// Each heading among the children opens one section, which begins with it, and the sections' numbers count
/// from 1 in the order of these headings; beside them there is the lead alone.
pub fn headings_open_sections()
    ensures { (ts : Trees) → NoneIsSection ts → map opening (sections_in_all (gathered ts)) ≡ lead_opening (up_to_heading ts) ++ openings 1 ts }
{}

/// The lead is there exactly where something comes before the first heading, holds just that, and is
/// before the sections of the rest, which are what they are without it.
pub fn lead_stands_before()
    ensures { (ts : Trees) → gathered ts ≡ lead_if_any (up_to_heading ts) (gathered (from_heading ts)) }
{}

/// The ranges of a tree that tile it do so with its sections, too: sections tile the body.
pub fn sections_tile()
    ensures { (t : Tree) → Tiled t → Tiled (with_sections t) }
{}

/// With its sections a tree has the source and the plain view that it has without, and its numbers stay in
/// preorder: sections have none.
pub fn sections_leave_the_page()
    ensures source { (t : Tree) → flat (with_sections t) ≡ flat t }
    ensures shown { (t : Tree) → plain (with_sections t) ≡ plain t }
    ensures numbers { (t : Tree) → InPreorder t → InPreorder (with_sections t) }
{}

/// In a section, after the heading that opens it, there is no heading of the same or a smaller level; in the lead
/// there is none at all.
pub fn sections_are_deep()
    ensures { (ts : Trees) → NoneIsSection ts → AllByRecursion IsDeep (sections_in_all (gathered ts)) }
{}
