ghost use Rattle.std.specs.Prelude.{◌≡◌, ◌<◌, ◌≤◌, ◌^◌, ℕ, Ok, None};
ghost use Rattle.wt_tree.specs.declared.kind.Kind.{Kind};
ghost use Rattle.wt_tree.specs.declared.kind.Kind.TheVariants as kind;
ghost use Rattle.wt_tree.specs.Tiling.{HasNoGroup};
ghost use Rattle.wt_tree.specs.Opened.{without_sections};
ghost use Rattle.wt_tree.specs.Tree.{Tree};
ghost use Rattle.wt_tree.specs.Source.{flat};
ghost use Rattle.wt_tree.specs.Plain.{plain};
ghost use Rattle.wt_tree.specs.Tiling.{numbers};
ghost use Rattle.wt_schema.specs.Html.{groups, html_text};
ghost use Rattle.wt_html_grammar.specs.Markup.{Markup, Stands};
ghost use Rattle.wt_schema.specs.Fit.{fit};
ghost use Rattle.wt_schema.specs.Unsourced.{unsourced};
ghost use Rattle.wt_schema.specs.Read.{read, page};
ghost use Rattle.wt_schema.specs.Written.{unranged, WrittenIn, PartIn, IsWritten};

/// What is written for a page's tree is well-formed HTML. It stands for this very tree, except that in place of its
/// sections there is what they hold, and in place of what is in its groups there are the nodes of the elements that
/// show it. It is read as this tree, and every element outside groups says where it comes from, as every group does.
/// The ranges of texts and separators, which no HTML has, aren't read; the source that the tree stands for is the
/// same without them. (A group's number is a number of 64 bits.)
pub fn written_is_read()
    ensures stands { (t : Tree) → IsWritten t → groups t < 2 ^ 64
        → (m : Markup) × Stands (html_text t) m × (fit m ≡ Ok (unranged (without_sections t))) × (unsourced m ≡ None) }
    ensures read { (t : Tree) → IsWritten t → groups t < 2 ^ 64 → read (html_text t) ≡ page (unranged (without_sections t)) None }
    ensures source { (t : Tree) → flat (unranged t) ≡ flat t }
{}

/// The tree that is read, which has no ranges of texts and separators, is written with the same
/// bytes as the tree with them, and has the same numbers. Where no group is in it, it shows the same.
pub fn without_ranges()
    ensures written { (t : Tree) → html_text (unranged t) ≡ html_text t }
    ensures shown { (t : Tree) → HasNoGroup t → plain (unranged t) ≡ plain t }
    ensures numbers { (t : Tree) → numbers (unranged t) ≡ numbers t }
{}

/// A node that may be written within some elements may be written within fewer; one that may be in
/// the body may be in a section; and where a node may be, it is a part of the body or of the
/// section.
pub fn nodes_stand_in_sections()
    ensures shallower { (t : Tree) (k j : ℕ) (parent : Kind) → j ≤ k → WrittenIn k parent t → WrittenIn j parent t }
    ensures in_section { (t : Tree) (k : ℕ) → WrittenIn k kind.Body t → WrittenIn k (kind.Section 0) t }
    ensures part { (t : Tree) (k : ℕ) (parent : Kind) → WrittenIn k parent t → PartIn k parent t }
{}
