//! What a tree has of the node that it stands for.
ghost use Rattle.std.specs.Prelude.{◌≡◌, ◌++◌, ℕ, map, true, false, List, [], None};
ghost use Rattle.wt_span.specs.declared.text.Text.{Text};
ghost use Rattle.wt_tree.specs.Kinds.{is_leaf};
ghost use Rattle.wt_tree.specs.Rare.{rare_none};
ghost use Rattle.wt_tree.specs.Source.{flat, flat_of_all};
ghost use Rattle.wt_tree.specs.Sourced.{leaf_sourced, round_sourced};
ghost use Rattle.wt_tree.specs.Tree.{Tree, Trees, label, listed, trees};
ghost use Rattle.wt_tree.specs.View.{view, views, texts_of};
ghost use Rattle.wt_tree.specs.declared.kind.Mark.TheVariants as mark;
ghost use Rattle.wt_tree.specs.declared.node.Node.{Node, out-Node};
ghost use Rattle.wt_page_laws.specs.Preorder.{children};

/// A tree has the children of its node, each as the tree that it stands for, none more and in their order;
/// and trees and their lists are the same.
pub fn trees_hold_their_nodes()
    ensures children { (n : Node) → listed (children (view n)) ≡ map view (out-Node n).children }
    ensures kind { (n : Node) → (label (view n)).kind ≡ (out-Node n).kind }
    ensures id { (n : Node) → (label (view n)).id ≡ (out-Node n).id }
    ensures ranges { (n : Node) → (label (view n)).ranges ≡ (out-Node n).ranges }
    ensures listed { (xs : List Tree) → listed (trees xs) ≡ xs }
    ensures trees { (ts : Trees) → trees (listed ts) ≡ ts }
{}

/// A node that has a source as leaves have shows this as its source where it is a leaf, and one with
/// delimiters shows its children's sources between them, where it is none.
pub fn sources_are_of_two_forms()
    ensures leaf { (n : Node) → (own : List Text) → (shown : List ℕ) → is_leaf (out-Node n).kind ≡ true → (out-Node n).source ≡ leaf_sourced own shown → flat (view n) ≡ texts_of own }
    ensures round { (n : Node) → (opening closing : List Text) → is_leaf (out-Node n).kind ≡ false → (out-Node n).source ≡ round_sourced opening closing → flat (view n) ≡ texts_of opening ++ (flat_of_all (views (out-Node n).children) ++ texts_of closing) }
{}

/// A node that has nothing of what few have has no attributes of its own, no mark and no data.
pub fn plain_nodes_have_nothing_more()
    ensures attributes { (n : Node) → (out-Node n).more ≡ rare_none → (label (view n)).attrs ≡ [] }
    ensures mark { (n : Node) → (out-Node n).more ≡ rare_none → (label (view n)).mark ≡ mark.Nothing }
    ensures data { (n : Node) → (out-Node n).more ≡ rare_none → (label (view n)).mw ≡ None }
{}
