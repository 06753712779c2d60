//! Which edited children of a node stay in their turn: as many as can, with numbers that rise.
//!
//! They are gone through twice. From the last one back, it is found how many can stay from each on, itself among
//! them; then, from the first on, each stays from which as many can as are left.

ghost use Rattle.std.specs.Prelude.{◌≡◌, ◌<◌, ◌++◌, ◌∷◌, ◌&&◌, [], suc, IfOk, length, nat_le, nat_lt, reverse};
ghost use Rattle.wt_tree.specs.View.{view, views};
ghost use Rattle.wt_checks.specs.View.{indexed};
ghost use Rattle.wt_places.specs.Piles.{AreFalling, above, put, rises};
ghost use Rattle.wt_places.specs.Turns.{may_stay, most_after, turns};

use std::alloc::Global;
use wt_checks::{Visit, is_compared};
use wt_difference::stays_in;
use wt_span::NoMemory;
use wt_tree::Node;

// ---- numbers that fall

/// How many of these numbers, which fall, are above this one.
fn above(numbers: &[u32], number: u32) -> usize
    requires { AreFalling numbers.now }
    ensures { result ≡ above number numbers.now }
{
    let mut low = 0;
    let mut high = numbers.len();
    while low < high {
        let middle = low + (high - low) / 2;
        if number < numbers[middle] {
            low = middle + 1;
        } else {
            high = middle;
        }
    }
    low
}

/// Puts a number in the place of the first that isn't above it, or after them all; gives how many there are up to it.
fn put(numbers: &mut Vec<u32>, number: u32) -> Result<usize, NoMemory>
    requires { AreFalling numbers.old.items }
    ensures count { IfOk result (λ n. n ≡ suc (above number numbers.old.items)) }
    ensures put { IfOk result (λ n. numbers.new.items ≡ put number numbers.old.items) }
{
    let place = above(numbers.as_slice(), number);
    if place < numbers.len() {
        numbers[place] = number;
        return Ok(place + 1);
    }
    numbers.push(number)?;
    Ok(numbers.len())
}

// ---- from the last child back

/// Whether a child stays in the node with this number.
fn may_stay(index: &[Visit<'_, '_>], holder: u32, child: &Node<'_>) -> bool
    ensures { result ≡ may_stay (indexed index.now) holder (view child.now) }
{
    is_compared(child.kind) && stays_in(index, holder, child)
}

/// How many children can stay in their turn: from each on, itself among them, the last child's first, with 0 for
/// one that doesn't stay; and of all.
#[derive(Drop)]
struct CountedRises {
    each: Vec<usize>,
    most: usize,
}

fn rises(
    alloc: Global,
    index: &[Visit<'_, '_>],
    holder: u32,
    nodes: &[Node<'_>],
) -> Result<CountedRises, NoMemory>
    ensures each { IfOk result (λ r. r.each.items ≡ reverse (rises (indexed index.now) holder (views nodes.now))) }
    ensures most { IfOk result (λ r. r.most ≡ most_after (indexed index.now) holder 0 (views nodes.now)) }
{
    let mut each = Vec::new(alloc);
    let mut piles: Vec<u32> = Vec::new(alloc);
    let mut at = nodes.len();
    while at > 0 {
        at -= 1;
        let node = &nodes[at];
        if may_stay(index, holder, node) {
            let rise = put(&mut piles, node.id)?;
            each.push(rise)?;
        } else {
            each.push(0)?;
        }
    }
    let most = above(piles.as_slice(), 0);
    Ok(CountedRises { each, most })
}

// ---- from the first one on

fn pop_rise(each: &mut Vec<usize>) -> usize
    requires { 0 < length each.old.items }
    ensures { each.old.items ≡ each.new.items ++ result ∷ [] }
{
    each.pop().unwrap_or(0)
}

/// Whether a child with this number, from which so many can stay, stays in its turn after one with that number, after
/// which so many are left.
fn is_next(before: u32, left: usize, number: u32, rise: usize) -> bool
    ensures { result ≡ (nat_lt before number && (nat_lt 0 rise && nat_le left rise)) }
{
    before < number && 0 < rise && left <= rise
}

/// Of each edited child of the node with the number `holder`, whether it stays in its turn. `nodes` are those after
/// its inside.
pub fn turns(
    alloc: Global,
    index: &[Visit<'_, '_>],
    holder: u32,
    nodes: &[Node<'_>],
) -> Result<Vec<bool>, NoMemory>
    ensures each { IfOk result (λ bs. bs.items ≡ turns (indexed index.now) holder 0 (views nodes.now)) }
    ensures size { IfOk result (λ bs. length bs.items ≡ length nodes.now) }
{
    let CountedRises { mut each, most } = rises(alloc, index, holder, nodes)?;
    let mut out = Vec::new(alloc);
    let mut left = most;
    let mut number = 0;
    for node in nodes {
        let rise = pop_rise(&mut each);
        let is_in_turn = is_next(number, left, node.id, rise);
        if is_in_turn {
            left = rise.saturating_sub(1);
            number = node.id;
        }
        out.push(is_in_turn)?;
    }
    Ok(out)
}
