//! A node that is shown as an element.

ghost use Rattle.std.specs.Prelude.{◌≡◌};
ghost use Rattle.wt_tree.specs.declared.kind.Showing.TheVariants.{Element};
ghost use Rattle.wt_tree.specs.declared.node.Node.{out-Node};
ghost use Rattle.wt_tree.specs.Kinds.{showing};

use wt_checks::Visit;
use wt_tree::Node;

/// A node that is shown as an element.
#[derive(Clone, Copy)]
pub struct ShownNode<'p, 't, 'a> {
    pub node: &'t Node<'a>,
    /// The page's nodes, whose groups are those in this one.
    pub page: &'p [Visit<'t, 'a>],
    pub ghost element: { showing (out-Node node.now).kind ≡ Element },
}

impl<'p, 't, 'a> ShownNode<'p, 't, 'a> {
    /// A node whose kind shows an element.
    pub fn of(node: &'t Node<'a>, page: &'p [Visit<'t, 'a>]) -> ShownNode<'p, 't, 'a>
        requires { showing (out-Node node.now).kind ≡ Element }
        ensures node { result.node.now ≡ node.now }
        ensures page { result.page.now ≡ page.now }
    {
        ShownNode { node, page }
    }
}
