//! Laws of what may be in a content, which do nothing when they are called.

ghost use Rattle.std.specs.Prelude.{◌≡◌, ℕ, Bool, true, false, List, [], None};
ghost use Rattle.wt_tree.specs.Tree.{Tree, Trees, label};
ghost use Rattle.wt_tree.specs.Tiling.{HasNoGroup};
ghost use Rattle.wt_original.specs.Page.{Page, TellsSame, page_of};
ghost use Rattle.wt_content.specs.declared.content.Surroundings.{Surroundings};
ghost use Rattle.wt_content.specs.declared.content.Standing.TheVariants as stands;
ghost use Rattle.wt_content.specs.Children.{bad_children, children_faults, holder_of};
ghost use Rattle.wt_content.specs.Content.{all_faults, any_holds_link, bad_content, content_faults, held, is_url, outermost, standing};
ghost use Rattle.wt_content.specs.ContentLaws.{IsFirstReason, IsReadWhole};
ghost use Rattle.wt_content.specs.Grammar.{AreContent};
ghost use Rattle.wt_content.specs.Typed.{AreTyped, IsUntouched};

/// A text edit isn't refused for its content: text, bold and italic, round nodes of the page that nobody touched, with line
/// breaks in texts directly in a paragraph alone.
#[tactic(auto, using(crate::proofs::TypedStands::typed_text_stands))]
pub fn typed_text_stands()
    ensures { (same : Tree → Tree → Bool) (old new : Tree) → TellsSame same → AreTyped old (outermost old).in_paragraph (held new)
        → bad_content same old new ≡ None }
{}

/// A node is as it was where the page's node with its number is of its kind and has its plain view, and no group is in it.
#[tactic(auto, using(crate::proofs::Untouched::untouched_is_same))]
pub fn untouched_nodes_stand()
    ensures { (same : Tree → Tree → Bool) (old t : Tree) → TellsSame same → HasNoGroup t → IsUntouched old t
        → standing (page_of same old) t ≡ stands.Same }
{}

/// The reason that is answered is there, and none that would be named before it.
#[tactic(auto, using(crate::proofs::FirstReason::first_reason, crate::proofs::FirstReason::first_of_children))]
pub fn first_reason()
    ensures content { (same : Tree → Tree → Bool) (old new : Tree) → IsFirstReason (content_faults same old new) (bad_content same old new) }
    ensures children { (same : Tree → Tree → Bool) (new : Tree)
        → IsFirstReason (children_faults same (holder_of (label new).kind) (held new)) (bad_children same new) }
{}

/// A URL that a new link may have is read as it is, whatever follows that doesn't belong to URLs.
#[tactic(auto, using(crate::proofs::UrlsRead::read_whole))]
pub fn urls_are_read()
    ensures { (bs : List ℕ) → is_url bs ≡ true → IsReadWhole bs }
{}

/// What is taken in a link holds no link, outside groups.
#[tactic(auto, using(crate::proofs::LinksApart::all_are_free))]
pub fn links_hold_no_links()
    ensures { (page : Page) (around : Surroundings) (ts : Trees) → around.in_link ≡ true → all_faults page around ts ≡ [] → any_holds_link ts ≡ false }
{}

/// A content is taken exactly where it is of the grammar.
#[tactic(auto, using(crate::proofs::GrammarLaws::taken_is_of_grammar, crate::proofs::GrammarLaws::grammar_is_taken))]
pub fn taken_by_grammar()
    ensures taken { (same : Tree → Tree → Bool) (old new : Tree) → bad_content same old new ≡ None
        → AreContent (page_of same old) (outermost old) (held new) }
    ensures stands { (same : Tree → Tree → Bool) (old new : Tree) → AreContent (page_of same old) (outermost old) (held new)
        → bad_content same old new ≡ None }
{}
