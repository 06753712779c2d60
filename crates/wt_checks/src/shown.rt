//! What a node shows by itself, as it is compared.

ghost use Rattle.std.specs.Prelude.{◌≡◌};
ghost use Rattle.std.specs.Str.{bytes_eq};
ghost use Rattle.wt_tree.specs.Kinds.{showing, writing};
ghost use Rattle.wt_tree.specs.declared.node.Node.{out-Node};
ghost use Rattle.wt_checks.specs.Tokens.{is_text};
ghost use Rattle.wt_checks.specs.Unmarked.{is_compared, own_character};

use wt_tree::{Kind, Node, Showing, Writing};

/// Whether a node of this kind is written as its source: a text or a separator.
pub fn is_text(kind: Kind) -> bool
    ensures { result ≡ is_text (writing kind) }
{
    match kind.writing() {
        Writing::AsText => true,
        Writing::AsVoid | Writing::RoundCharacter | Writing::RoundChildren => false,
        Writing::AsSection(_) | Writing::Unwritten => false,
    }
}

/// Whether a node of this kind is compared: one that shows nothing isn't.
pub fn is_compared(kind: Kind) -> bool
    ensures { result ≡ is_compared (showing kind) }
{
    match kind.showing() {
        Showing::Nothing => false,
        Showing::Characters | Showing::Inside | Showing::Element => true,
    }
}

/// The character of an entity, which is no node; nothing of another node.
pub fn own_character<'n>(node: &'n Node<'_>) -> &'n str
    ensures { result.now ≡ own_character (writing (out-Node node.now).kind) (out-Node node.now).source.shown }
{
    match node.kind.writing() {
        Writing::RoundCharacter => node.shown(),
        Writing::AsText | Writing::AsVoid | Writing::RoundChildren => "",
        Writing::AsSection(_) | Writing::Unwritten => "",
    }
}

/// Whether two nodes have the same character of their own, or none.
pub fn same_character(a: &Node<'_>, b: &Node<'_>) -> bool
    ensures { result ≡ bytes_eq (own_character (writing (out-Node a.now).kind) (out-Node a.now).source.shown)
        (own_character (writing (out-Node b.now).kind) (out-Node b.now).source.shown) }
{
    own_character(a) == own_character(b)
}
