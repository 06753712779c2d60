//! Children that are known to be cut, as nearly all are: those needn't be cut anew.

ghost use Rattle.std.specs.Prelude.{◌≡◌, ◌||◌, [], true, false};
ghost use Rattle.wt_recut.specs.Cutting.{begins_with_break, AreCut};
ghost use Rattle.wt_tree.specs.Leaves.{leaf_label, sep_leaf, text_leaf};
ghost use Rattle.wt_recut.specs.Recut.{front_ranges, is_border, is_text, joined_ranges, rest_ranges};
ghost use Rattle.wt_tree.specs.Tree.{none, tree};
ghost use Rattle.wt_tree.specs.View.{texts_of, view, views};
ghost use Rattle.wt_tree.specs.declared.node.Node.{out-Node};
ghost use Rattle.wt_annotated.specs.StandsCut.{
  AloneStands,
  BeforeStands,
  FirstStands,
  FrontStands,
  IsGap,
  IsWords,
  WholeStands,
};

use wt_recut::{are_spaces, has_break, is_blank, shows_block};
use wt_span::{Text, rest_of};
use wt_tree::{Kind, Node, Ranges, Writing};

/// Whether the first of these texts begins with a line break.
fn begins_with_break(texts: &[Text<'_>]) -> bool
    ensures { result ≡ true → begins_with_break (texts_of texts.now) ≡ true }
{
    match texts {
        [] => false,
        [first, ..] => first.as_str().as_bytes().starts_with(b"\n"),
    }
}

// ---- leaves

fn has_none<T>(items: &[T]) -> bool
    ensures { result ≡ true → items.now ≡ [] }
{
    match items {
        [] => true,
        [_, ..] => false,
    }
}

/// Whether a node has nothing beside its kind, its place, its source and what it shows.
fn is_bare(node: &Node<'_>) -> bool
    ensures { result ≡ true → view node.now ≡ tree (leaf_label (out-Node node.now).kind (out-Node node.now).ranges
        (texts_of (out-Node node.now).source.own) (out-Node node.now).source.shown) none }
{
    node.id == 0
        && node.more.is_none()
        && has_none(node.opening())
        && has_none(node.closing())
        && has_none(node.children.as_slice())
}

fn is_same(one: &str, other: &str) -> bool
    ensures { result ≡ true → one.now ≡ other.now }
{
    one == other
}

/// Whether these texts are one, which is spelled so.
fn is_one_text(shown: &str, own: &[Text<'_>]) -> bool
    ensures { result ≡ true → shown.now ≡ texts_of own.now }
{
    match own {
        [text] => is_same(shown, text.as_str()),
        _ => false,
    }
}

fn is_text_leaf(node: &Node<'_>) -> bool
    ensures { result ≡ true → view node.now ≡ text_leaf (out-Node node.now).ranges (texts_of (out-Node node.now).source.own) }
{
    matches!(node.kind, Kind::Text) && is_one_text(node.shown(), node.own()) && is_bare(node)
}

fn is_sep_leaf(node: &Node<'_>) -> bool
    ensures { result ≡ true → view node.now ≡ sep_leaf (out-Node node.now).ranges (texts_of (out-Node node.now).source.own) }
{
    matches!(node.kind, Kind::Sep) && node.shown().is_empty() && is_bare(node)
}

#[tactic(auto, using(wt_tree::proofs::Views::view_out))]
fn is_text(node: &Node<'_>) -> bool
    ensures { result ≡ is_text (view node.now) }
{
    matches!(node.kind.writing(), Writing::AsText)
}

/// Whether the second range follows the first, which is so wide.
fn are_neighbours(first: Option<Ranges>, second: Option<Ranges>, width: usize) -> bool
    ensures front { result ≡ true → first ≡ front_ranges width (joined_ranges first second) }
    ensures rest { result ≡ true → second ≡ rest_ranges width (joined_ranges first second) }
{
    match (first, second) {
        (Some(first), Some(second)) => {
            first.start <= first.end
                && (first.end - first.start) as usize == width
                && first.end == second.start
                && second.start < second.end
                && first.open_w == second.open_w
                && first.close_w == second.close_w
        }
        (Some(_), None) => false,
        (None, _) => false,
    }
}

// ---- children

/// Whether a node is a separator that begins with a line break.
#[tactic(auto, using(wt_tree::proofs::Views::view_out))]
fn is_gap(node: &Node<'_>) -> bool
    ensures { result ≡ true → IsGap (view node.now) }
{
    let own = node.own();
    begins_with_break(own) && is_blank(own) && is_sep_leaf(node)
}

/// Whether a node is a text without line breaks that isn't blank.
#[tactic(auto, using(wt_tree::proofs::Views::view_out))]
fn is_words(node: &Node<'_>) -> bool
    ensures { result ≡ true → IsWords (view node.now) }
{
    let own = node.own();
    !has_break(own) && !are_spaces(own) && is_text_leaf(node)
}

/// Whether the border is passed after a node that is no text.
fn is_passed_by(behind: bool, node: &Node<'_>) -> bool
    requires { is_text (view node.now) ≡ false }
    ensures { result ≡ (behind || is_border (view node.now)) }
{
    behind || shows_block(node)
}

/// What is found of a text that no other one follows.
#[tactic(auto, using(crate::proofs::StandsCut::gap_stands, crate::proofs::StandsCut::words_stand))]
fn found_whole(behind: bool, node: &Node<'_>) -> Option<bool>
    ensures { WholeStands behind (view node.now) result }
{
    if is_gap(node) {
        return Some(true);
    }
    if !behind && is_words(node) {
        return Some(false);
    }
    None
}

/// What is found of a text before another one.
#[tactic(auto, using(crate::proofs::StandsCut::front_stands, wt_tree::proofs::Views::view_out))]
fn found_front(behind: bool, first: &Node<'_>, next: &Node<'_>) -> Option<bool>
    ensures { FrontStands behind (view first.now) (view next.now) result }
{
    if behind || !is_words(first) || !is_gap(next) {
        return None;
    }
    if !are_neighbours(first.ranges, next.ranges, first.shown().len()) {
        return None;
    }
    Some(false)
}

/// What is found of a node that no text follows, or that is none.
#[tactic(auto, using(crate::proofs::StandsCut::other_alone, crate::proofs::StandsCut::whole_alone))]
fn found_alone(behind: bool, node: &Node<'_>) -> Option<bool>
    ensures { AloneStands behind (view node.now) result }
{
    if is_text(node) {
        return found_whole(behind, node);
    }
    Some(is_passed_by(behind, node))
}

#[tactic(auto, using(crate::proofs::StandsCut::front_before, crate::proofs::StandsCut::alone_before))]
fn found_before(behind: bool, first: &Node<'_>, next: &Node<'_>) -> Option<bool>
    ensures { BeforeStands behind (view first.now) (view next.now) result }
{
    if is_text(first) && is_text(next) {
        return found_front(behind, first, next);
    }
    found_alone(behind, first)
}

/// Whether the border is passed after the first of these nodes, where that is known to be cut.
#[tactic(auto, using(crate::proofs::StandsCut::alone_first, crate::proofs::StandsCut::before_first))]
fn found_first(behind: bool, nodes: &[Node<'_>]) -> Option<bool>
    ensures { FirstStands behind (views nodes.now) result }
{
    match nodes {
        [] => Some(behind),
        [last] => found_alone(behind, last),
        [first, next, ..] => found_before(behind, first, next),
    }
}

/// Whether texts and separators of an item, a cell or a caption are known to be cut. They may be
/// so where this is false.
#[tactic(auto, using(crate::proofs::StandsCut::known_more, crate::proofs::StandsCut::known_all))]
pub fn stand_cut(nodes: &[Node<'_>]) -> bool
    ensures { result ≡ true → AreCut false (views nodes.now) }
{
    let mut behind = false;
    for at in 0..nodes.len() {
        let Some(now) = found_first(behind, rest_of(nodes, at)) else {
            return false;
        };
        behind = now;
    }
    true
}
