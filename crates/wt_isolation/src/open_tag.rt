//! Whether a block touches an open tag: a `<` with a letter after it that nothing closes before the
//! block, or before the end of one of its nodes.

ghost use Rattle.std.specs.Prelude.{◌≡◌};
ghost use Rattle.wt_tree.specs.Source.{flat};
ghost use Rattle.wt_tree.specs.View.{view, views};
ghost use Rattle.wt_tree.specs.declared.node.Node.{out-Node};
ghost use Rattle.wt_isolation.specs.OpenTags.{any_ends_open, before, ends_open, node_ends_open, touches_open_tag};
ghost use Rattle.wt_isolation.specs.Passes.{IsReadTo};

use crate::ending::Ending;
use crate::tag_pass::TagPass;
use wt_tree::{InlineForm, Node};

/// Whether the source of a node ends inside an open tag.
fn source_ends_open(node: &Node<'_>) -> bool
    ensures { result ≡ ends_open (flat (view node.now)) }
{
    Ending::start().behind_node(node).is_in_tag()
}

/// Whether the source of a node that is in the content, or in bold or italic text of it, ends inside an
/// open tag.
#[cycle(open_tags)]
fn node_ends_open(node: &Node<'_>) -> bool
    ensures { result ≡ node_ends_open (view node.now) }
{
    match node.kind.edit_shape().inline {
        InlineForm::Characters => false,
        InlineForm::Bold | InlineForm::Italic => any_ends_open(node.children.as_slice()),
        InlineForm::Nothing | InlineForm::Shown | InlineForm::PageLink => source_ends_open(node),
        InlineForm::ExternalLink | InlineForm::Tag | InlineForm::Break | InlineForm::AsItStood =>
            source_ends_open(node),
    }
}

#[cycle(open_tags)]
fn any_ends_open(nodes: &[Node<'_>]) -> bool
    ensures { result ≡ any_ends_open (views nodes.now) }
{
    for node in nodes {
        if node_ends_open(node) {
            return true;
        }
    }
    false
}

/// Whether a block of the page touches an open tag.
pub fn touches_open_tag(page: &[u8], tags: &mut TagPass, block: &Node<'_>) -> bool
    requires { IsReadTo page.now tags.old }
    ensures value { result ≡ touches_open_tag (before page.now (out-Node block.now).ranges) (view block.now) }
    ensures page { IsReadTo page.now tags.new }
{
    let within = tags.is_in_tag(page, block.ranges);
    within || any_ends_open(block.children.as_slice())
}
