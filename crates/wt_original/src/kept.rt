//! What the kept nodes of a block are to their neighbours.

ghost use Rattle.std.specs.Prelude.{◌≡◌, ◌==◌, ◌<◌, ◌-◌, [], ◌∷◌, List, length, take, map, IfOk, option_map, slice_get, string_bytes, codes, nat_eq};
ghost use Rattle.std.specs.List.{list_all, starts_with, ends_with};
ghost use Rattle.wt_span.specs.Characters as byte;
ghost use Rattle.wt_names.specs.Good.{holds};
ghost use Rattle.wt_tree.specs.Source.{flat};
ghost use Rattle.wt_tree.specs.Tree.{Tree};
ghost use Rattle.wt_tree.specs.View.{view, texts_of, label_of};
ghost use Rattle.wt_tree.specs.declared.node.Node.{out-Node};
ghost use Rattle.wt_original.specs.Kept.{Item as AnyItem, kept_nodes, items, visible, shown, is_character, is_blank_item, is_break_at, are_blank_to_end, began_line, ended_line, ended_content, between_equals, is_apostrophe, last_of, transclusion, url, island, role_of, kept_of};
ghost use Rattle.wt_guards.specs.declared.role.Role.TheVariants as role;
ghost use Rattle.wt_original.specs.Gathered.{item_of, items_seen, blank_ends, found_of, kept_view, IsFactsOf, IsGatheredOf};

use crate::block::{Extent, Gathered, KeptNode, push_visible};
use crate::gather::{Item, push_items, push_shown};
use std::alloc::{AllocError, Global};
use wt_guards::{Role, Stretch, Transclusion};
use wt_span::{NoMemory, Text};
use wt_tree::{Node, Sort, flat};

/// What is asked of a block: its source; its visible items; for each place before these, from the
/// last one on, whether only spaces and tabs follow up to a line break or the content's end; and how
/// many bytes its delimiters have.
#[derive(Clone, Copy)]
pub struct Facts<'s> {
    pub source: &'s [u8],
    pub seen: &'s [Item],
    pub ends: &'s [bool],
    pub opening: usize,
    pub closing: usize,
}

// ---- items

fn is_character(c: u8, item: Option<Item>) -> bool
    ensures { result ≡ is_character (λ d. d == c) (option_map item_of item) }
{
    match item {
        Some(Item::Character(d)) => d == c,
        Some(Item::Opaque) => false,
        Some(Item::Invisible) => false,
        None => false,
    }
}

fn is_blank_item(item: Item) -> bool
    ensures { result ≡ is_blank_item (item_of item) }
{
    match item {
        Item::Character(c) => c == b' ' || c == b'\t',
        Item::Opaque => false,
        Item::Invisible => false,
    }
}

/// Whether only blanks follow up to a line break or the end, by whether they do after this item.
fn blank_before(blank: bool, item: Item) -> bool
    ensures { (xs : List AnyItem) → blank ≡ are_blank_to_end xs → result ≡ are_blank_to_end (item_of item ∷ xs) }
{
    match item {
        Item::Character(c) => c == b'\n' || (is_blank_item(item) && blank),
        Item::Opaque => false,
        Item::Invisible => blank,
    }
}

/// For each place before the items, from the last one on, whether only blanks follow up to a line
/// break or the end.
fn blank_ends(alloc: Global, items: &[Item]) -> Result<Vec<bool>, AllocError>
    ensures { IfOk result (λ ends. ends.items ≡ blank_ends (items_seen items.now)) }
{
    let mut ends = Vec::new(alloc);
    let mut blank = true;
    for at in 0..items.len() {
        blank = blank_before(blank, items[items.len() - 1 - at]);
        ends.push(blank)?;
    }
    Ok(ends)
}

// ---- where a node was

/// The byte before a place is a line break.
fn is_break_before(source: &[u8], place: usize) -> bool
    requires { 0 < place }
    ensures { result ≡ is_break_at (slice_get source.now (place - 1)) }
{
    match source.get(place - 1) {
        Some(byte) => *byte == b'\n',
        None => false,
    }
}

fn is_equals(items: &[Item], at: usize) -> bool
    ensures { result ≡ is_character (λ d. d == byte.equals_sign) (slice_get (items_seen items.now) at) }
{
    is_character(b'=', items.get(at).copied())
}

impl<'s> Facts<'s> {
    fn began_line(self, extent: Extent) -> bool
        ensures { (block : Tree) → IsFactsOf block self.entry → result ≡ began_line block extent }
    {
        extent.start == self.opening
            || (0 < extent.start && is_break_before(self.source, extent.start))
    }

    fn ended_line(self, extent: Extent) -> bool
        ensures { (block : Tree) → IsFactsOf block self.entry → result ≡ ended_line block extent }
    {
        if extent.to < self.ends.len() {
            self.ends[self.ends.len() - 1 - extent.to]
        } else {
            true
        }
    }

    fn ended_content(self, extent: Extent) -> bool
        ensures { (block : Tree) → IsFactsOf block self.entry → result ≡ ended_content block extent }
    {
        extent.end == self.source.len().saturating_sub(self.closing)
    }

    fn between_equals(self, extent: Extent) -> bool
        ensures { (block : Tree) → IsFactsOf block self.entry → result ≡ between_equals block extent }
    {
        0 < extent.from
            && is_equals(self.seen, extent.from - 1)
            && is_equals(self.seen, extent.from)
    }
}

// ---- what a node is

/// A node of the page with a number, what it is, and where it is in the source of its block.
#[derive(Clone, Copy)]
pub struct Kept<'t, 'a> {
    pub node: &'t Node<'a>,
    pub role: Role,
    pub place: Stretch,
}

fn holds_slashes(text: &str) -> bool
    ensures { result ≡ holds (codes "//") text.now }
{
    text.contains("//")
}

fn ends_with_equals(text: &str) -> bool
    ensures { result ≡ ends_with nat_eq text.now (byte.equals_sign ∷ []) }
{
    text.as_bytes().ends_with(b"=")
}

fn ends_with_break(text: &str) -> bool
    ensures { result ≡ ends_with nat_eq text.now (byte.line_break ∷ []) }
{
    text.as_bytes().ends_with(b"\n")
}

fn begins_with_braces(text: &str) -> bool
    ensures { result ≡ starts_with nat_eq text.now (byte.opening_brace ∷ byte.opening_brace ∷ []) }
{
    text.as_bytes().starts_with(b"{{")
}

fn is_apostrophe(item: Option<Item>) -> bool
    ensures { result ≡ is_apostrophe (option_map item_of item) }
{
    is_character(b'\'', item)
}

fn is_first_apostrophe(items: &[Item]) -> bool
    ensures { result ≡ is_apostrophe (slice_get (items_seen items.now) 0) }
{
    is_apostrophe(items.first().copied())
}

fn is_last_apostrophe(items: &[Item]) -> bool
    ensures { result ≡ is_apostrophe (last_of (items_seen items.now)) }
{
    is_apostrophe(items.last().copied())
}

fn are_blank(items: &[Item]) -> bool
    ensures { result ≡ list_all is_blank_item (items_seen items.now) }
{
    for item in items {
        if !is_blank_item(*item) {
            return false;
        }
    }
    true
}

/// The characters that a node shows, in UTF-8.
pub fn shown_text(alloc: Global, node: &Node<'_>) -> Result<String, AllocError>
    ensures { IfOk result (λ s. string_bytes s ≡ shown (view node.now)) }
{
    let mut text = String::new(alloc);
    push_shown(&mut text, node)?;
    Ok(text)
}

fn items_of(alloc: Global, node: &Node<'_>) -> Result<Vec<Item>, AllocError>
    ensures { IfOk result (λ v. items_seen v.items ≡ items (view node.now)) }
{
    let mut items = Vec::new(alloc);
    push_items(&mut items, node)?;
    Ok(items)
}

fn visible_of(alloc: Global, items: &[Item]) -> Result<Vec<Item>, AllocError>
    ensures { IfOk result (λ v. items_seen v.items ≡ visible (items_seen items.now)) }
{
    let mut seen = Vec::new(alloc);
    push_visible(&mut seen, items)?;
    Ok(seen)
}

fn transclusion(
    alloc: Global,
    facts: Facts<'_>,
    extent: Extent,
    node: &Node<'_>,
) -> Result<Transclusion, AllocError>
    ensures { (block : Tree) → IsFactsOf block facts.entry → IfOk result (λ g. g ≡ transclusion block extent (view node.now)) }
{
    let text = shown_text(alloc, node)?;
    let items = items_of(alloc, node)?;
    let seen = visible_of(alloc, items.as_slice())?;
    Ok(Transclusion {
        slashes: holds_slashes(text.as_str()),
        is_invisible: seen.is_empty(),
        is_blank: !seen.is_empty() && are_blank(seen.as_slice()),
        opens_with_apostrophe: is_first_apostrophe(items.as_slice()),
        closes_with_apostrophe: is_last_apostrophe(items.as_slice()),
        began_line: facts.began_line(extent),
        ended_line: facts.ended_line(extent),
        ended_content: facts.ended_content(extent),
        between_equals: facts.between_equals(extent),
    })
}

fn text_of(alloc: Global, texts: &[Text<'_>]) -> Result<String, AllocError>
    ensures { IfOk result (λ s. string_bytes s ≡ texts_of texts.now) }
{
    let mut out = String::new(alloc);
    for text in texts {
        out.push_str(text.as_str())?;
    }
    Ok(out)
}

#[tactic(auto, using(crate::proofs::Roles::url_bare, crate::proofs::Roles::url_external))]
fn url(opening: &str, text: &str) -> Role
    ensures { result ≡ url opening.now text.now }
{
    if opening.is_empty() {
        Role::Bare(ends_with_equals(text))
    } else {
        Role::External
    }
}

fn island(source: &str) -> Role
    ensures { result ≡ island (starts_with nat_eq source.now (byte.opening_brace ∷ byte.opening_brace ∷ [])) }
{
    if begins_with_braces(source) {
        Role::Function
    } else {
        Role::Node
    }
}

fn url_of(alloc: Global, node: &Node<'_>) -> Result<Role, AllocError>
    ensures { IfOk result (λ r. r ≡ url (label_of (out-Node node.now)).opening (shown (view node.now))) }
{
    let opening = text_of(alloc, node.opening())?;
    let text = shown_text(alloc, node)?;
    Ok(url(opening.as_str(), text.as_str()))
}

fn mark_of(
    alloc: Global,
    facts: Facts<'_>,
    extent: Extent,
    node: &Node<'_>,
) -> Result<Role, NoMemory>
    ensures { (block : Tree) → IsFactsOf block facts.entry
        → IfOk result (λ r. r ≡ role.Mark (ends_with nat_eq (flat (view node.now)) (byte.line_break ∷ [])) (began_line block extent)) }
{
    let source = flat(alloc, node)?;
    Ok(Role::Mark {
        ends_line: ends_with_break(source.as_str()),
        began_line: facts.began_line(extent),
    })
}

fn island_of(alloc: Global, node: &Node<'_>) -> Result<Role, NoMemory>
    ensures { IfOk result (λ r. r ≡ island (starts_with nat_eq (flat (view node.now)) (byte.opening_brace ∷ byte.opening_brace ∷ []))) }
{
    let source = flat(alloc, node)?;
    Ok(island(source.as_str()))
}

/// What a node is, by what is asked of its block.
fn role_of(
    alloc: Global,
    facts: Facts<'_>,
    extent: Extent,
    node: &Node<'_>,
) -> Result<Role, NoMemory>
    ensures { (block : Tree) → IsFactsOf block facts.entry → IfOk result (λ r. r ≡ role_of block extent (view node.now)) }
{
    match node.kind.edit_shape().sort {
        Sort::PageLink => Ok(Role::Link),
        Sort::Url => Ok(url_of(alloc, node)?),
        Sort::Switch => Ok(Role::Switch),
        Sort::Mark => Ok(mark_of(alloc, facts, extent, node)?),
        Sort::Group => Ok(Role::Group(transclusion(alloc, facts, extent, node)?)),
        Sort::Island => Ok(island_of(alloc, node)?),
        Sort::Other => Ok(Role::Node),
    }
}

fn kept_of<'t, 'a>(
    alloc: Global,
    facts: Facts<'_>,
    found: KeptNode<'t, 'a>,
) -> Result<Kept<'t, 'a>, NoMemory>
    ensures { (block : Tree) → IsFactsOf block facts.entry → IfOk result (λ k. kept_view k ≡ kept_of block (found_of found.entry)) }
{
    let role = role_of(alloc, facts, found.extent, found.node)?;
    Ok(Kept {
        node: found.node,
        role,
        place: Stretch {
            start: found.extent.start,
            end: found.extent.end,
        },
    })
}

/// What the nodes are that were found.
fn kept_of_all<'t, 'a>(
    alloc: Global,
    facts: Facts<'_>,
    found: &[KeptNode<'t, 'a>],
) -> Result<Vec<Kept<'t, 'a>>, NoMemory>
    ensures { (block : Tree) → IsFactsOf block facts.entry → IfOk result (λ v. map kept_view v.items ≡ map (kept_of block) (map found_of found.now)) }
{
    let mut kept = Vec::new(alloc);
    for entry in found {
        kept.push(kept_of(alloc, facts, *entry)?)?;
    }
    Ok(kept)
}

/// How many bytes these texts have together.
pub fn text_len(alloc: Global, texts: &[Text<'_>]) -> Result<usize, AllocError>
    ensures { IfOk result (λ n. n ≡ length (texts_of texts.now)) }
{
    let text = text_of(alloc, texts)?;
    Ok(text.len())
}

/// The ends of lines of the content, without the last `closing` items.
#[tactic(auto, using(crate::proofs::Ends::seen_front))]
fn content_ends(alloc: Global, seen: &[Item], closing: usize) -> Result<Vec<bool>, AllocError>
    ensures { IfOk result (λ ends. ends.items ≡ blank_ends (take (length seen.now - closing) (items_seen seen.now))) }
{
    let inside = seen.len().saturating_sub(closing);
    let ends = blank_ends(alloc, &seen[..inside])?;
    Ok(ends)
}

/// The kept nodes of a block that was gathered.
pub fn kept_nodes<'t, 'a>(
    alloc: Global,
    gathered: &Gathered<'t, 'a>,
    block: &Node<'_>,
) -> Result<Vec<Kept<'t, 'a>>, NoMemory>
    requires { IsGatheredOf (view block.now) gathered.now }
    ensures { IfOk result (λ v. map kept_view v.items ≡ kept_nodes (view block.now)) }
{
    let opening = text_len(alloc, block.opening())?;
    let closing = text_len(alloc, block.closing())?;
    let seen = gathered.seen.as_slice();
    let ends = content_ends(alloc, seen, closing)?;
    let facts = Facts {
        source: gathered.source.as_bytes(),
        seen,
        ends: ends.as_slice(),
        opening,
        closing,
    };
    let kept = kept_of_all(alloc, facts, gathered.found.as_slice())?;
    Ok(kept)
}
