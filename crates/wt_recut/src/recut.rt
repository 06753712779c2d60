//! Texts and separators of items, cells and captions, cut anew at the border between them.
ghost use Rattle.std.specs.Prelude.{
  ◌≡◌,
  ◌<◌,
  ◌≤◌,
  ◌++◌,
  ◌∷◌,
  [],
  ◌||◌,
  true,
  false,
  length,
  get_or,
  reverse,
  IfOk,
  OnOk,
};
ghost use Rattle.wt_tree.specs.Leaves.{leaf_label, text_leaf, sep_leaf};
ghost use Rattle.wt_recut.specs.Recut.{is_space, is_break, is_white, is_blank, are_spaces, has_break, before_break, from_break, is_text, shows_block, any_shows_block, is_border, is_passed, leads_to_block, place_in, front_ranges, rest_ranges, joined_ranges, joined_texts, from_start, front_of, rest_of, parts_before, cut_before, cut_from, recut};
ghost use Rattle.wt_recut.specs.Recutting.{
  is_empty,
  NoBreakBefore,
  IsSplit,
  bare,
  joined_pair,
  push_text,
  push_joined,
  leads_of,
  HalvesGrow,
  parts_view,
  text_and_sep,
  appended,
};
ghost use Rattle.wt_tree.specs.Tree.{tree, none, label};
ghost use Rattle.wt_tree.specs.View.{texts_of, view, views};
ghost use Rattle.wt_span.specs.Slice.{bytes_of};

use std::alloc::Global;
use wt_span::{List, NoMemory, Str, Text};
use wt_tree::{Kind, Node, Ranges, Shown, Slices, Writing, push_texts};

// ---- characters

fn is_blank_text(text: Text<'_>) -> bool
    ensures { result ≡ is_blank (bytes_of text.entry) }
{
    text.as_str()
        .as_bytes()
        .iter()
        .all(|byte| matches!(*byte, b' ' | b'\t' | b'\n'))
}

fn is_spaces_text(text: Text<'_>) -> bool
    ensures { result ≡ are_spaces (bytes_of text.entry) }
{
    text.as_str()
        .as_bytes()
        .iter()
        .all(|byte| matches!(*byte, b' ' | b'\t'))
}

fn has_break_text(text: Text<'_>) -> bool
    ensures { result ≡ has_break (bytes_of text.entry) }
{
    text.as_str().as_bytes().iter().any(|byte| *byte == b'\n')
}

/// Whether texts have blanks and line breaks alone.
pub fn is_blank(texts: &[Text<'_>]) -> bool
    ensures { result ≡ is_blank (texts_of texts.now) }
{
    for text in texts {
        if !is_blank_text(*text) {
            return false;
        }
    }
    true
}

/// Whether texts have spaces and tabs alone.
pub fn are_spaces(texts: &[Text<'_>]) -> bool
    ensures { result ≡ are_spaces (texts_of texts.now) }
{
    for text in texts {
        if !is_spaces_text(*text) {
            return false;
        }
    }
    true
}

fn is_empty_text(text: Text<'_>) -> bool
    ensures { result ≡ is_empty (bytes_of text.entry) }
{
    match text.as_str().as_bytes() {
        [] => true,
        [_, ..] => false,
    }
}

fn is_empty(texts: &[Text<'_>]) -> bool
    ensures { result ≡ is_empty (texts_of texts.now) }
{
    for text in texts {
        if !is_empty_text(*text) {
            return false;
        }
    }
    true
}

/// Whether a line break is in the texts.
pub fn has_break(texts: &[Text<'_>]) -> bool
    ensures { result ≡ has_break (texts_of texts.now) }
{
    for text in texts {
        if has_break_text(*text) {
            return true;
        }
    }
    false
}

// ---- kinds of children

#[tactic(auto, using(wt_tree::proofs::Views::view_out))]
fn is_text(node: &Node<'_>) -> bool
    ensures { result ≡ is_text (view node.now) }
{
    matches!(node.kind.writing(), Writing::AsText)
}

/// Whether a node is a block or a list, or a group that shows one.
#[cycle(showing)]
pub fn shows_block(node: &Node<'_>) -> bool
    ensures { result ≡ shows_block (view node.now) }
{
    match node.kind {
        Kind::Group => any_shows_block(node.children.as_slice()),
        kind => kind.is_block(),
    }
}

#[cycle(showing)]
fn any_shows_block(nodes: &[Node<'_>]) -> bool
    ensures { result ≡ any_shows_block (views nodes.now) }
{
    for node in nodes {
        if shows_block(node) {
            return true;
        }
    }
    false
}

fn is_border(node: &Node<'_>) -> bool
    ensures { result ≡ is_border (view node.now) }
{
    if is_text(node) {
        has_break(node.own())
    } else {
        shows_block(node)
    }
}

fn is_passed(node: &Node<'_>) -> bool
    ensures { result ≡ is_passed (view node.now) }
{
    if is_text(node) {
        are_spaces(node.own())
    } else {
        node.kind.is_mark()
    }
}

// ---- leaves

/// A node with a source of its own and nothing else.
fn leaf<'a>(
    alloc: Global,
    kind: Kind,
    ranges: Option<Ranges>,
    own: List<Text<'a>>,
    shown: Shown<'a>,
) -> Node<'a>
    ensures { view result ≡ tree (leaf_label kind ranges (texts_of own.entry) shown.entry) none }
{
    Node::leaf(alloc, kind, ranges, Slices::of_list(own), shown)
}

fn sep_leaf<'a>(alloc: Global, ranges: Option<Ranges>, own: List<Text<'a>>) -> Node<'a>
    ensures { view result ≡ sep_leaf ranges (texts_of own.entry) }
{
    leaf(alloc, Kind::Sep, ranges, own, Shown::none())
}

/// What the texts show: all their characters.
fn shown_of<'a>(alloc: Global, own: &[Text<'a>]) -> Result<Shown<'a>, NoMemory>
    ensures { IfOk result (λ s. s ≡ texts_of own.now) }
{
    match own {
        [text] => Ok(Shown::written(text.as_str())),
        _ => {
            let mut shown = Str::new(alloc);
            push_texts(&mut shown, own)?;
            Ok(Shown::made(shown))
        }
    }
}

fn text_leaf<'a>(
    alloc: Global,
    ranges: Option<Ranges>,
    own: List<Text<'a>>,
) -> Result<Node<'a>, NoMemory>
    ensures { IfOk result (λ n. view n ≡ text_leaf ranges (texts_of own.entry)) }
{
    let shown = shown_of(alloc, own.as_slice())?;
    Ok(leaf(alloc, Kind::Text, ranges, own, shown))
}

// ---- joining

fn push_all<'a>(out: &mut List<Text<'a>>, texts: &[Text<'a>]) -> Result<(), NoMemory>
    ensures { OnOk result (texts_of out.new ≡ texts_of out.old ++ texts_of texts.now) }
{
    for text in texts {
        out.push(*text)?;
    }
    Ok(())
}

fn append<'a>(texts: List<Text<'a>>, others: List<Text<'a>>) -> Result<List<Text<'a>>, NoMemory>
    ensures { IfOk result (λ l. texts_of l ≡ texts_of texts.entry ++ texts_of others.entry) }
{
    let mut joined = texts;
    push_all(&mut joined, others.as_slice())?;
    Ok(joined)
}

fn joined_ranges(first: Option<Ranges>, second: Option<Ranges>) -> Option<Ranges>
    ensures { result ≡ joined_ranges first second }
{
    match (first, second) {
        (Some(first), Some(second)) => Some(Ranges {
            end: second.end,
            ..first
        }),
        (Some(_), None) => None,
        (None, _) => None,
    }
}

/// A text or a separator as a leaf that shows nothing.
fn bare<'a>(alloc: Global, node: Node<'a>) -> Node<'a>
    ensures { view result ≡ bare (view node.entry) }
{
    let own = node.source.into_own();
    Node::leaf(alloc, Kind::Sep, node.ranges, own, Shown::none())
}

/// Two leaves that are texts or separators as one.
fn join<'a>(alloc: Global, first: Node<'a>, second: Node<'a>) -> Result<Node<'a>, NoMemory>
    ensures { IfOk result (λ n. view n ≡ joined_pair (view first.entry) (view second.entry)) }
{
    let ranges = joined_ranges(first.ranges, second.ranges);
    let own = append(
        first.source.into_own().into_list(alloc)?,
        second.source.into_own().into_list(alloc)?,
    )?;
    Ok(sep_leaf(alloc, ranges, own))
}

/// Puts a text or a separator after others; it is joined with one that is there.
fn push_text<'a>(alloc: Global, nodes: &mut Vec<Node<'a>>, text: Node<'a>) -> Result<(), NoMemory>
    ensures { OnOk result (views nodes.new.items ≡ push_text (views nodes.old.items) (view text.entry)) }
{
    match nodes.pop() {
        None => nodes.push(bare(alloc, text))?,
        Some(last) => {
            if is_text(&last) {
                let joined = join(alloc, last, text)?;
                nodes.push(joined)?;
            } else {
                nodes.push(last)?;
                nodes.push(bare(alloc, text))?;
            }
        }
    }
    Ok(())
}

fn push_joined<'a>(alloc: Global, nodes: &mut Vec<Node<'a>>, node: Node<'a>) -> Result<(), NoMemory>
    ensures { OnOk result (views nodes.new.items ≡ push_joined (views nodes.old.items) (view node.entry)) }
{
    if !is_text(&node) {
        nodes.push(node)?;
        return Ok(());
    }
    if is_empty(node.own()) {
        return Ok(());
    }
    push_text(alloc, nodes, node)
}

/// The nodes with each run of texts and separators as one leaf.
fn joined_texts<'a>(alloc: Global, nodes: Vec<Node<'a>>) -> Result<Vec<Node<'a>>, NoMemory>
    ensures { IfOk result (λ v. views v.items ≡ joined_texts (views nodes.entry.items)) }
{
    let mut joined = Vec::with_capacity(alloc, nodes.len())?;
    for node in nodes {
        push_joined(alloc, &mut joined, node)?;
    }
    Ok(joined)
}

// ---- cutting

/// For each node whether only marks and texts of spaces and tabs are between it and a block that
/// follows, the last node first.
fn leads<'a>(alloc: Global, nodes: &[Node<'a>]) -> Result<Vec<bool>, NoMemory>
    ensures { IfOk result (λ v. v.items ≡ reverse (leads_of (views nodes.now))) }
{
    let mut flags = Vec::with_capacity(alloc, nodes.len())?;
    let mut leads = false;
    let mut at = nodes.len();
    while at > 0 {
        at -= 1;
        flags.push(leads)?;
        leads = shows_block(&nodes[at]) || (is_passed(&nodes[at]) && leads);
    }
    Ok(flags)
}

/// How many bytes come before the first line break; all where there is none.
fn break_at(bytes: &[u8]) -> usize
    ensures within { result ≤ length bytes.now }
    ensures before { NoBreakBefore bytes.now result }
    ensures here { result < length bytes.now → is_break (get_or bytes.now result 0) ≡ true }
{
    for at in 0..bytes.len() {
        if bytes[at] == b'\n' {
            return at;
        }
    }
    bytes.len()
}

/// The text before its first line break, and the text from there on, where it has one.
fn split<'a>(text: Text<'a>) -> Option<(Text<'a>, Text<'a>)>
    ensures { IsSplit (bytes_of text.entry) result }
{
    let bytes = text.as_str().as_bytes();
    let at = break_at(bytes);
    if at < bytes.len() {
        Some(text.split_at(text.range().start + at as u32))
    } else {
        None
    }
}

/// Texts before a line break, and from there on.
#[derive(Drop)]
struct Halves<'a> {
    front: List<Text<'a>>,
    rest: List<Text<'a>>,
}

/// Puts a text after both halves of what was read so far; `found` says whether a line break was
/// there, and the result whether one is now.
fn push_half<'a>(halves: &mut Halves<'a>, found: bool, text: Text<'a>) -> Result<bool, NoMemory>
    ensures { IfOk result (λ now. HalvesGrow halves.old halves.new found (bytes_of text.entry) now) }
{
    if found {
        halves.rest.push(text)?;
        return Ok(true);
    }
    match split(text) {
        None => {
            halves.front.push(text)?;
            Ok(false)
        }
        Some((front, rest)) => {
            halves.front.push(front)?;
            halves.rest.push(rest)?;
            Ok(true)
        }
    }
}

fn split_all<'a>(alloc: Global, own: List<Text<'a>>) -> Result<Halves<'a>, NoMemory>
    ensures front { IfOk result (λ h. texts_of h.front ≡ before_break (texts_of own.entry)) }
    ensures rest { IfOk result (λ h. texts_of h.rest ≡ from_break (texts_of own.entry)) }
{
    let mut halves = Halves {
        front: List::new(alloc),
        rest: List::new(alloc),
    };
    let mut found = false;
    for text in own.as_slice() {
        found = push_half(&mut halves, found, *text)?;
    }
    Ok(halves)
}

/// The halves of a text; all of it is the second where it is a separator from its start on.
fn halves_of<'a>(alloc: Global, all: bool, own: List<Text<'a>>) -> Result<Halves<'a>, NoMemory>
    ensures front { IfOk result (λ h. texts_of h.front ≡ front_of all (texts_of own.entry)) }
    ensures rest { IfOk result (λ h. texts_of h.rest ≡ rest_of all (texts_of own.entry)) }
{
    if all {
        Ok(Halves {
            front: List::new(alloc),
            rest: own,
        })
    } else {
        split_all(alloc, own)
    }
}

/// The place `n` bytes after the start of a range; its end where it has no more bytes.
fn place_in(ranges: Ranges, n: usize) -> u32
    ensures { result ≡ place_in ranges n }
{
    let size = ranges.end.saturating_sub(ranges.start);
    if n < size as usize {
        ranges.start + n as u32
    } else {
        ranges.end
    }
}

fn front_ranges(n: usize, ranges: Option<Ranges>) -> Option<Ranges>
    ensures { result ≡ front_ranges n ranges }
{
    match ranges {
        None => None,
        Some(ranges) => Some(Ranges {
            end: place_in(ranges, n),
            ..ranges
        }),
    }
}

fn rest_ranges(n: usize, ranges: Option<Ranges>) -> Option<Ranges>
    ensures { result ≡ rest_ranges n ranges }
{
    match ranges {
        None => None,
        Some(ranges) => Some(Ranges {
            start: place_in(ranges, n),
            ..ranges
        }),
    }
}

/// What a node is cut into.
#[derive(Drop)]
struct Parts<'a> {
    first: Node<'a>,
    second: Option<Node<'a>>,
}

/// A text and the separator after it.
fn text_and_sep<'a>(
    alloc: Global,
    ranges: Option<Ranges>,
    front: List<Text<'a>>,
    rest: List<Text<'a>>,
) -> Result<Parts<'a>, NoMemory>
    ensures { IfOk result (λ p. parts_view p ≡ text_and_sep ranges (texts_of front.entry) (texts_of rest.entry) none) }
{
    let shown = shown_of(alloc, front.as_slice())?;
    let len = shown.as_str().len();
    let first = leaf(alloc, Kind::Text, front_ranges(len, ranges), front, shown);
    let second = sep_leaf(alloc, rest_ranges(len, ranges), rest);
    Ok(Parts {
        first,
        second: Some(second),
    })
}

fn parts_of<'a>(
    alloc: Global,
    ranges: Option<Ranges>,
    halves: Halves<'a>,
) -> Result<Parts<'a>, NoMemory>
    ensures { IfOk result (λ p. parts_view p ≡ parts_before ranges (texts_of halves.entry.front) (texts_of halves.entry.rest) none) }
{
    let Halves { front, rest } = halves;
    if is_empty(rest.as_slice()) {
        let first = text_leaf(alloc, ranges, front)?;
        return Ok(Parts {
            first,
            second: None,
        });
    }
    if !is_blank(rest.as_slice()) {
        let own = append(front, rest)?;
        let first = text_leaf(alloc, ranges, own)?;
        return Ok(Parts {
            first,
            second: None,
        });
    }
    if is_empty(front.as_slice()) {
        return Ok(Parts {
            first: sep_leaf(alloc, ranges, rest),
            second: None,
        });
    }
    text_and_sep(alloc, ranges, front, rest)
}

/// What a node is cut into that comes after the border or not, and before a block or not.
fn cut<'a>(alloc: Global, node: Node<'a>, behind: bool, leads: bool) -> Result<Parts<'a>, NoMemory>
    ensures { IfOk result (λ p. parts_view p ≡ cut_before behind leads (view node.entry) none) }
{
    if !is_text(&node) {
        return Ok(Parts {
            first: node,
            second: None,
        });
    }
    let all = behind || (leads && are_spaces(node.own()));
    let halves = halves_of(alloc, all, node.source.into_own().into_list(alloc)?)?;
    parts_of(alloc, node.ranges, halves)
}

fn push_parts<'a>(nodes: &mut Vec<Node<'a>>, parts: Parts<'a>) -> Result<(), NoMemory>
    ensures { OnOk result (views nodes.new.items ≡ appended (views nodes.old.items) (parts_view parts.entry)) }
{
    let Parts { first, second } = parts;
    nodes.push(first)?;
    if let Some(second) = second {
        nodes.push(second)?;
    }
    Ok(())
}

/// Whether what follows a node comes after the border, where the node does or doesn't.
fn is_behind(behind: bool, node: &Node<'_>) -> bool
    ensures { result ≡ (behind || is_border (view node.now)) }
{
    behind || is_border(node)
}

fn pop_flag(flags: &mut Vec<bool>) -> bool
    requires { 0 < length flags.old.items }
    ensures { flags.old.items ≡ flags.new.items ++ result ∷ [] }
{
    match flags.pop() {
        Some(flag) => flag,
        None => false,
    }
}

/// The nodes, each cut; the flags say which lead to a block, the last node's first.
fn cut_all<'a>(
    alloc: Global,
    nodes: Vec<Node<'a>>,
    flags: Vec<bool>,
) -> Result<Vec<Node<'a>>, NoMemory>
    requires { flags.items ≡ reverse (leads_of (views nodes.items)) }
    ensures { IfOk result (λ v. views v.items ≡ cut_from false (views nodes.entry.items)) }
{
    let mut flags = flags;
    let mut done = Vec::with_capacity(alloc, nodes.len())?;
    let mut behind = false;
    for node in nodes {
        let leads = pop_flag(&mut flags);
        let now = is_behind(behind, &node);
        let parts = cut(alloc, node, behind, leads)?;
        push_parts(&mut done, parts)?;
        behind = now;
    }
    Ok(done)
}

/// The children of an item, a cell or a caption with their texts and separators cut anew: what is
/// before the border is text, and from there on what is blank is a separator. Empty ones are left out.
pub fn recut_texts<'a>(alloc: Global, nodes: List<Node<'a>>) -> Result<List<Node<'a>>, NoMemory>
    ensures { IfOk result (λ l. views l ≡ recut (views nodes.entry)) }
{
    let joined = joined_texts(alloc, nodes.into_vec())?;
    let flags = leads(alloc, joined.as_slice())?;
    let cut = cut_all(alloc, joined, flags)?;
    Ok(List::from_vec(cut))
}
