ghost use Rattle.std.specs.Prelude.{ℕ, ◌≡◌, ◌+◌, ◌-◌, ◌<◌, ◌≤◌, ◌^◌, [], All, IfOk, length, slice_index, nat_lt};
ghost use Rattle.wt_blocks.specs.Nesting.{is_definition, same_list, IsPrefix, node_of, inner, items_by, lists, nested};
ghost use Rattle.wt_blocks.specs.Slices.{lines_from, AreLeft, one_list_at, one_item_at, IsFront, IsItem};
ghost use Rattle.wt_blocks.specs.View.{list_tree, list_trees};
ghost use Rattle.wt_blocks.specs.declared.limits.TheConstants.{MOST_SIGNS};

use std::alloc::Global;
use wt_span::{List, NoMemory, Str, front_of, rest_of};

/// A list (`ul`, `ol`, `dl`) or an item of one (`li`, `dt`, `dd`).
#[derive(Debug, Drop)]
pub struct ListNode {
    /// An item; else it is a list.
    pub item: bool,
    /// `*`, `#`, `:` or `;`, as the line has it at which the node begins.
    pub sign: char,
    /// The number of the line at which it begins; the first line has 0.
    pub line: usize,
    /// The items of a list, or the lists in an item.
    pub children: List<ListNode>,
}

fn is_definition(sign: u8) -> bool
    ensures { result ≡ is_definition sign }
{
    sign == b';' || sign == b':'
}

/// Both signs make one list: `;` and `:` count as the same.
fn is_same_list(sign: u8, other: u8) -> bool
    ensures { result ≡ same_list sign other }
{
    sign == other || is_definition(sign) && is_definition(other)
}

fn sign_at(prefix: &Str, depth: usize) -> u8
    requires { depth < length prefix.now }
    ensures { result ≡ slice_index prefix.now depth }
{
    prefix.as_str().as_bytes()[depth]
}

fn is_one_list(prefix: &Str, next: &Str, depth: usize) -> bool
    requires first { depth < length prefix.now }
    requires second { depth < length next.now }
    ensures { result ≡ one_list_at depth prefix.now next.now }
{
    is_same_list(sign_at(prefix, depth), sign_at(next, depth))
}

fn goes_on(prefix: &Str, depth: usize) -> bool
    requires { depth < MOST_SIGNS }
    ensures { result ≡ nat_lt (depth + 1) (length prefix.now) }
{
    depth + 1 < prefix.as_str().len()
}

/// How many lines the first list has.
fn list_len(prefixes: &[Str], depth: usize) -> usize
    requires some { 0 < length prefixes.now }
    requires left { AreLeft depth prefixes.now }
    ensures some_lines { 0 < result }
    ensures within { result ≤ length prefixes.now }
    ensures front { IsFront (one_list_at depth) prefixes.now result }
{
    for i in 0..prefixes.len() - 1 {
        if !is_one_list(&prefixes[i], &prefixes[i + 1], depth) {
            return i + 1;
        }
    }
    prefixes.len()
}

/// How many lines the first item has.
fn item_len(prefixes: &[Str], depth: usize) -> usize
    requires some { 0 < length prefixes.now }
    requires limit { depth < MOST_SIGNS }
    ensures some_lines { 0 < result }
    ensures within { result ≤ length prefixes.now }
    ensures front { IsFront (one_item_at depth) prefixes.now result }
{
    for i in 0..prefixes.len() - 1 {
        if !goes_on(&prefixes[i + 1], depth) {
            return i + 1;
        }
    }
    prefixes.len()
}

/// How many lists the lines make.
fn list_count(prefixes: &[Str], depth: usize) -> usize
    requires { AreLeft depth prefixes.now }
{
    let mut count = 0;
    for i in 0..prefixes.len() {
        if i == 0 || !is_one_list(&prefixes[i - 1], &prefixes[i], depth) {
            count += 1;
        }
    }
    count
}

/// How many items the lines of a list make.
fn item_count(prefixes: &[Str], depth: usize) -> usize
    requires { depth < MOST_SIGNS }
{
    let mut count = 0;
    for i in 0..prefixes.len() {
        if i == 0 || !goes_on(&prefixes[i], depth) {
            count += 1;
        }
    }
    count
}

/// An empty list with room for so many nodes. Most lists have one node, for which a list that
/// grows takes the room of four.
fn with_room(alloc: Global, count: usize) -> Result<List<ListNode>, NoMemory>
    ensures { IfOk result (λ l. l ≡ []) }
{
    let nodes = Vec::with_capacity(alloc, count)?;
    Ok(List::from_vec(nodes))
}

/// An item or a list that begins at the first of these lines.
fn node_at(
    item: bool,
    prefixes: &[Str],
    line: usize,
    depth: usize,
    children: List<ListNode>,
) -> ListNode
    requires some { 0 < length prefixes.now }
    requires left { AreLeft depth prefixes.now }
    ensures { list_tree result ≡ node_of item (lines_from line depth prefixes.now) (list_trees children) }
{
    ListNode {
        item,
        sign: char::from(sign_at(&prefixes[0], depth)),
        line,
        children,
    }
}

/// The lines of an item that go on after this sign: all, or all but the first.
fn inside_item(item: &[Str], depth: usize) -> &[Str]
    requires some { 0 < length item.now }
    requires left { AreLeft depth item.now }
    requires front { IsItem depth item.now }
    ensures left { AreLeft (depth + 1) result.now }
    ensures within { length result.now ≤ length item.entry.now }
    ensures lines { (first : ℕ) → inner (lines_from first depth item.entry.now)
        ≡ lines_from (first + (length item.entry.now - length result.now)) (depth + 1) result.now }
{
    if goes_on(&item[0], depth) {
        item
    } else {
        rest_of(item, 1)
    }
}

/// The lists of these lines, of which the first has the number `first`, by their signs from `depth`
/// on.
#[cycle(nesting)]
fn lists_at(
    alloc: Global,
    prefixes: &[Str],
    first: usize,
    depth: usize,
) -> Result<List<ListNode>, NoMemory>
    requires left { AreLeft depth prefixes.now }
    requires numbers { first + length prefixes.now < 2 ^ 64 }
    ensures { IfOk result (λ l. list_trees l ≡ lists (MOST_SIGNS - depth) (lines_from first depth prefixes.now)) }
{
    let mut found = with_room(alloc, list_count(prefixes, depth))?;
    let mut at = 0;
    while at < prefixes.len() {
        let rest = rest_of(prefixes, at);
        let list = front_of(rest, list_len(rest, depth));
        let line = first + at;
        let children = items_at(alloc, list, line, depth)?;
        found.push(node_at(false, list, line, depth, children))?;
        at += list.len();
    }
    Ok(found)
}

/// The items of the list that these lines are.
#[cycle(nesting)]
fn items_at(
    alloc: Global,
    prefixes: &[Str],
    first: usize,
    depth: usize,
) -> Result<List<ListNode>, NoMemory>
    requires limit { depth < MOST_SIGNS }
    requires left { AreLeft depth prefixes.now }
    requires numbers { first + length prefixes.now < 2 ^ 64 }
    ensures { IfOk result (λ l. list_trees l ≡ items_by (lists (MOST_SIGNS - (depth + 1))) (lines_from first depth prefixes.now)) }
{
    let mut found = with_room(alloc, item_count(prefixes, depth))?;
    let mut at = 0;
    while at < prefixes.len() {
        let rest = rest_of(prefixes, at);
        let item = front_of(rest, item_len(rest, depth));
        let line = first + at;
        let inside = inside_item(item, depth);
        let inside_line = line + (item.len() - inside.len());
        let children = lists_at(alloc, inside, inside_line, depth + 1)?;
        found.push(node_at(true, item, line, depth, children))?;
        at += item.len();
    }
    Ok(found)
}

/// The lists that lines are, by their prefixes, as MediaWiki's block pass nests them in the
/// profile's form. A prefix has the signs that count, `*`, `#`, `:` and `;`, one at least and 32 at
/// most. Neighbouring lines are of one list as far as their prefixes are the same, `;` and `:`
/// counting as the same.
pub fn nest_lists(alloc: Global, prefixes: &List<Str>) -> Result<List<ListNode>, NoMemory>
    requires signs { All IsPrefix prefixes.now }
    ensures { IfOk result (λ l. list_trees l ≡ nested prefixes.now) }
{
    lists_at(alloc, prefixes.as_slice(), 0, 0)
}
