//! How a text ends, by what comes after the last `<`, `>` or line break of it: found byte by byte, and
//! without memory for the source of a node.

ghost use Rattle.std.specs.Prelude.{◌≡◌, ◌++◌, ◌∷◌, [], ℕ, List};
ghost use Rattle.std.specs.List.{flat_map};
ghost use Rattle.wt_tree.specs.Source.{flat};
ghost use Rattle.wt_tree.specs.View.{texts_of, view};
ghost use Rattle.wt_isolation.specs.OpenTags.{ends_open};
ghost use Rattle.wt_isolation.specs.Passes.{ending_of};

use wt_span::Text;
use wt_tree::Node;

/// How a text ends.
#[derive(Clone, Copy)]
pub enum Ending {
    Outside,
    BehindLess,
    InTag,
}

impl Ending {
    /// How it ends with one byte more.
    pub fn with(self, byte: u8) -> Ending
        ensures { (text : List ℕ) → self ≡ ending_of text → result ≡ ending_of (text ++ byte ∷ []) }
    {
        if byte == b'<' {
            return Ending::BehindLess;
        }
        if byte == b'>' || byte == b'\n' {
            return Ending::Outside;
        }
        match self {
            Ending::Outside => Ending::Outside,
            Ending::BehindLess => {
                if byte.is_ascii_alphabetic() {
                    Ending::InTag
                } else {
                    Ending::Outside
                }
            }
            Ending::InTag => Ending::InTag,
        }
    }

    pub fn is_in_tag(self) -> bool
        ensures { (text : List ℕ) → self ≡ ending_of text → result ≡ ends_open text }
    {
        match self {
            Ending::Outside | Ending::BehindLess => false,
            Ending::InTag => true,
        }
    }
    /// How it ends with these bytes more.
    fn behind(self, more: &[u8]) -> Ending
        ensures { (text : List ℕ) → self ≡ ending_of text → result ≡ ending_of (text ++ more.now) }
    {
        let mut ending = self;
        for byte in more {
            ending = ending.with(*byte);
        }
        ending
    }

    fn behind_texts(self, more: &[Text<'_>]) -> Ending
        ensures { (text : List ℕ) → self ≡ ending_of text → result ≡ ending_of (text ++ texts_of more.now) }
    {
        let mut ending = self;
        for piece in more {
            ending = ending.behind(piece.as_str().as_bytes());
        }
        ending
    }

    /// How it ends with the source of a node more.
    #[cycle(sources)]
    pub fn behind_node(self, node: &Node<'_>) -> Ending
        ensures { (text : List ℕ) → self ≡ ending_of text → result ≡ ending_of (text ++ flat (view node.now)) }
    {
        if node.kind.is_leaf() {
            return self.behind_texts(node.own());
        }
        let opened = self.behind_texts(node.opening());
        let filled = opened.behind_nodes(node.children.as_slice());
        filled.behind_texts(node.closing())
    }

    #[cycle(sources)]
    fn behind_nodes(self, nodes: &[Node<'_>]) -> Ending
        ensures { (text : List ℕ) → self ≡ ending_of text → result ≡ ending_of (text ++ flat_map (λ n. flat (view n)) nodes.now) }
    {
        let mut ending = self;
        for node in nodes {
            ending = ending.behind_node(node);
        }
        ending
    }

    /// Before the first byte.
    pub fn start() -> Ending
        ensures { result ≡ ending_of [] }
    {
        Ending::Outside
    }
}
