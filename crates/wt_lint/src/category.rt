//! Titles of categories.

ghost use Rattle.std.specs.Prelude.{◌≡◌, ◌≤◌, length};
ghost use Rattle.std.specs.List.{prefix_len};
ghost use Rattle.wt_tree.specs.View.{attrs_of, label_of};
ghost use Rattle.wt_tree.specs.declared.node.Node.{out-Node};
ghost use Rattle.wt_lint.specs.Categories.{href_in, is_title_byte, title_in, title_of};

use wt_span::front_of;
use wt_tree::{Attr, AttrName, Node};

/// The link among these attributes; empty where there is none.
fn href_in(attrs: &[Attr]) -> &[u8]
    ensures { result.now ≡ href_in (attrs_of attrs.now) }
{
    for attribute in attrs {
        if attribute.name.order() == AttrName::Href.order() {
            return attribute.value.as_str().as_bytes();
        }
    }
    b""
}

fn is_title_byte(byte: u8) -> bool
    ensures { result ≡ is_title_byte byte }
{
    byte != b'#'
}

/// How many bytes of a link come before its key.
fn title_len(href: &[u8]) -> usize
    ensures value { result ≡ prefix_len is_title_byte href.now }
    ensures within { result ≤ length href.now }
{
    href.iter().take_while(|byte| is_title_byte(**byte)).count()
}

/// A link up to its key.
fn title_in(href: &[u8]) -> &[u8]
    ensures { result.now ≡ title_in href.now }
{
    front_of(href, title_len(href))
}

/// The title of a category, as its link has it.
pub fn title_of<'n>(node: &'n Node<'_>) -> &'n [u8]
    ensures { result.now ≡ title_of (label_of (out-Node node.now)) }
{
    title_in(href_in(node.attrs()))
}
