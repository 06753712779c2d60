ghost use Rattle.std.specs.Prelude.{◌≡◌};
ghost use Rattle.wt_tree.specs.View.{view};
ghost use Rattle.wt_html_in.specs.Answers.{body_of, unsourced_of};

use wt_tree::Node;

/// An edited page: its tree, and beside it the first element that has no source.
#[derive(Drop)]
pub struct Edited<'a> {
    body: Node<'a>,
    unsourced: Option<u32>,
}

impl<'a> Edited<'a> {
    #[tactic(auto, unfolding(crate::specs::Answers::body_of, crate::specs::Answers::unsourced_of))]
    /// The page of this tree, with the number of its first element that has no source.
    pub(crate) fn of(body: Node<'a>, unsourced: Option<u32>) -> Edited<'a>
        ensures body { body_of result ≡ view body.entry }
        ensures unsourced { unsourced_of result ≡ unsourced }
    {
        Edited { body, unsourced }
    }

    #[tactic(auto, unfolding(crate::specs::Answers::body_of))]
    /// The body, which holds all other nodes.
    pub fn body(&self) -> &Node<'a>
        ensures { view result.now ≡ body_of self.now }
    {
        &self.body
    }

    /// The body by itself.
    #[tactic(auto, unfolding(crate::specs::Answers::body_of))]
    pub fn into_body(self) -> Node<'a>
        ensures { view result ≡ body_of self.entry }
    {
        self.body
    }
}

#[tactic(auto, unfolding(crate::specs::Answers::unsourced_of))]
/// The number of the first element that doesn't say where it comes from: one in the body without
/// `data-parsoid` or with the mark of an edit, or the body itself with such a mark.
pub fn unsourced(e: &Edited<'_>) -> Option<u32>
    ensures { result ≡ unsourced_of e.now }
{
    e.unsourced
}
