ghost use Rattle.std.specs.Prelude.{◌≡◌};
ghost use Rattle.wt_tree.specs.Tiling.{Tiled, InPreorder};
ghost use Rattle.wt_tree.specs.View.{view};

use crate::node::Node;

/// The tree of a page whose ranges tile it and whose numbers are in preorder.
pub struct Annotated<'a> {
    body: Node<'a>,
    ghost tiled: { ∥ Tiled (view body) ∥₁ },
    ghost numbered: { ∥ InPreorder (view body) ∥₁ },
}

// One call wherever a tree is let go.
impl Drop for Annotated<'_> {
    fn drop(self) {
        let Annotated { body: _ } = self;
    }
}

impl<'a> Annotated<'a> {
    /// The annotated tree of this body.
    pub fn of(body: Node<'a>) -> Annotated<'a>
        requires tiled { Tiled (view body) }
        requires numbered { InPreorder (view body) }
        ensures { result.body ≡ body.entry }
    {
        Annotated { body }
    }

    /// The body, which holds all other nodes.
    pub fn body(&self) -> &Node<'a>
        ensures body { result.now ≡ self.now.body }
        ensures tiled { ∥ Tiled (view result.now) ∥₁ }
        ensures numbered { ∥ InPreorder (view result.now) ∥₁ }
    {
        &self.body
    }
}
