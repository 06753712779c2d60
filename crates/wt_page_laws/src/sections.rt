//! Laws of the sections of a body (`wt_sections`), in other words than their definition: by the levels of
//! headings alone.

ghost use Rattle.std.specs.Prelude.{◌≡◌, ◌++◌, map, true};
ghost use Rattle.std.specs.List.{AllByRecursion};
ghost use Rattle.wt_tree.specs.Kinds.{is_section};
ghost use Rattle.wt_tree.specs.Tree.{Tree, Trees, label, listed};
ghost use Rattle.wt_sections.specs.Sections.{gathered};
ghost use Rattle.wt_sections.specs.SectionLaws.{NoneIsSection, sections_in_all, up_to_heading};
ghost use Rattle.wt_page_laws.specs.Levels.{AllReachUp, ChildrenReachUp, HoldsDeeper, IsHeaded};
ghost use Rattle.wt_page_laws.specs.Reaches.{held, lead_reach, reaches};

/// All children of a body are sections. The first child of each section but the lead is a clean heading,
/// whose level is the section's, and none of its other children is a heading; the lead holds no heading.
pub fn sections_begin_with_headings()
    ensures body { (ts : Trees) → NoneIsSection ts → AllByRecursion (λ (t : Tree). is_section (label t).kind ≡ true) (listed (gathered ts)) }
    ensures sections { (ts : Trees) → NoneIsSection ts → AllByRecursion IsHeaded (sections_in_all (gathered ts)) }
{}

/// After a section of level n, among the children of the body or of a section, is nothing, or a section
/// of level n or a smaller one. So of two sections side by side the later is never deeper.
pub fn sections_reach_up()
    ensures body { (ts : Trees) → NoneIsSection ts → AllReachUp (gathered ts) }
    ensures sections { (ts : Trees) → NoneIsSection ts → AllByRecursion ChildrenReachUp (sections_in_all (gathered ts)) }
{}

/// Inside a section of level n each section, at any depth, has a larger level.
pub fn sections_hold_deeper_ones()
    ensures { (ts : Trees) → NoneIsSection ts → AllByRecursion HoldsDeeper (sections_in_all (gathered ts)) }
{}

/// Each section, with the sections inside it opened, holds its heading and all that follows up to the next
/// heading of its level or a smaller one, or to the end; the lead holds what comes before the first heading.
pub fn sections_hold_what_follows()
    ensures { (ts : Trees) → NoneIsSection ts → map held (sections_in_all (gathered ts)) ≡ lead_reach (up_to_heading ts) ++ reaches ts }
{}
