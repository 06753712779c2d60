//! Which doubtful places of a page are found (`found` of `wt_lint`), by the nodes of its tree.
ghost use Rattle.std.specs.Prelude.{ℕ, List, false};
ghost use Rattle.wt_lint.specs.declared.finding.Kind.TheVariants as doubt;
ghost use Rattle.wt_lint.specs.Texts.{pairs, runs};
ghost use Rattle.wt_page_laws.specs.Doubtful.{AreFoundInTexts, IsFoundAt, IsOpenStyle, IsOpenTable, IsOpenTag, IsStrayTag, IsUnequalHeading, RepeatedAreFound, StrayEndsAreFound};
ghost use Rattle.wt_tree.specs.Tree.{Tree};

/// Bold or italic text that nothing closes and after which no apostrophe comes, and a group that holds nothing of the
/// page, are found as open styles, where they are in no group; and nothing else is.
pub fn open_styles_are_found()
    ensures { (page : List ℕ) (t : Tree) → IsFoundAt doubt.OpenStyle page t (IsOpenStyle page) }
{}

/// A table that nothing closes is found as an open table, and nothing else is.
pub fn open_tables_are_found()
    ensures { (page : List ℕ) (t : Tree) → IsFoundAt doubt.OpenTable page t (IsOpenTable page) }
{}

/// An island that is an opening tag is found as an open tag, one that is a closing tag as a stray tag, and nothing else
/// is.
pub fn lone_tags_are_found()
    ensures opening { (page : List ℕ) (t : Tree) → IsFoundAt doubt.OpenTag page t (IsOpenTag page) }
    ensures closing { (page : List ℕ) (t : Tree) → IsFoundAt doubt.StrayTag page t (IsStrayTag page) }
{}

/// A heading whose runs of `=` differ is found, and nothing else is of this kind.
pub fn unequal_headings_are_found()
    ensures { (page : List ℕ) (t : Tree) → IsFoundAt doubt.UnequalHeading page t (IsUnequalHeading page) }
{}

/// In each text that is in no group and no nowiki the whole runs of two or more braces are found, and nothing else is of
/// these kinds.
pub fn braces_are_found()
    ensures opening { (page : List ℕ) (t : Tree) → AreFoundInTexts doubt.OpenBraces page t (λ at bs. runs 123 at false bs) }
    ensures closing { (page : List ℕ) (t : Tree) → AreFoundInTexts doubt.StrayBraces page t (λ at bs. runs 125 at false bs) }
{}

/// In each such text the pairs of brackets are found, from the left, and nothing else is of these kinds.
pub fn brackets_are_found()
    ensures opening { (page : List ℕ) (t : Tree) → AreFoundInTexts doubt.OpenLink page t (λ at bs. pairs 91 at bs) }
    ensures closing { (page : List ℕ) (t : Tree) → AreFoundInTexts doubt.StrayLinkEnd page t (λ at bs. pairs 93 at bs) }
{}

/// A category is found where one with the same title comes before it, and nothing else is of this kind.
pub fn repeated_categories_are_found()
    ensures { (page : List ℕ) (t : Tree) → RepeatedAreFound page t }
{}

/// In each text that is directly in a paragraph, in no table and no group, each `|}` that is first on its line, blanks
/// apart, is found as the stray end of a table, and nothing else is of this kind.
pub fn stray_table_ends_are_found()
    ensures { (page : List ℕ) (t : Tree) → StrayEndsAreFound page t }
{}
