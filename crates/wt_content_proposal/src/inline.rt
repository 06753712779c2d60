//! Inline content as wikitext: what was in the page as it was, texts too, and what is new as `edit` spells it.

use crate::standing::{place_of, push_if_unchanged, push_kept, push_shown, push_thing};
use std::alloc::Global;
use wt_guards::{Role, Setting, Stretch, Unit, spelling_of};
use wt_known::{Block, Known, first_text, joined, last_text};
use wt_link_spelling::{external_link, href_of, page_link};
use wt_original::{Kept, shown_text};
use wt_span::{NoMemory, Str, Text};
use wt_text_proposal::{
    InsidePlace, NOWHERE, ends_with_apostrophe, is_bare_url, place_of_new, push_letters,
    push_nowiki, push_text, shortened, source_of, with_colons, with_fragment, with_joints,
    with_plain,
};
use wt_tree::{InlineForm, Kind, Node, Place, flat, push_texts, same_attrs, same_kind};

/// How an inside is written: whether texts keep their bytes, and what kind of block it is. (What is known of the page and
/// the block in which it is go beside it: read from a structure, they cost each function seconds of proof.)
#[derive(Clone, Copy)]
pub struct Writing {
    pub keeps: bool,
    pub place: Place,
}

/// The texts of the page at the two edges of what is written.
#[derive(Clone, Copy)]
pub struct Edges<'t, 'a> {
    pub first: Option<&'t Node<'a>>,
    pub last: Option<&'t Node<'a>>,
}

/// The edges of these nodes of the page.
pub fn edges_of<'t, 'a>(nodes: &'t [Node<'a>]) -> Edges<'t, 'a> {
    Edges {
        first: first_text(nodes),
        last: last_text(nodes),
    }
}

fn edges_in<'t, 'a>(kept: &Option<Kept<'t, 'a>>) -> Edges<'t, 'a> {
    match kept {
        Some(kept) => edges_of(kept.node.children.as_slice()),
        None => Edges {
            first: None,
            last: None,
        },
    }
}

// ---- bold and italic

/// Whether what was appended last is a delimiter of bold that the page has, and that makes a run of five with one of
/// italic after it.
fn is_behind_bold(out: &[Unit<'_>]) -> bool {
    match out.last() {
        Some(Unit::Thing(thing)) => thing.place.is_some() && thing.source.as_str() == "'''",
        _ => false,
    }
}

/// Appends a delimiter that is written anew, apart from an apostrophe before it that would lengthen `''`.
fn push_toggle(alloc: Global, out: &mut Vec<Unit<'_>>, sign: &str) -> Result<(), NoMemory> {
    let units = out.as_slice();
    if sign.len() == 2 && ends_with_apostrophe(units) && !is_behind_bold(units) {
        push_nowiki(alloc, out)?;
    }
    let source = Str::copy_of(alloc, sign)?;
    push_thing(out, Role::Toggle, source, None)
}

/// Appends the opening delimiter of a node of the page.
fn push_opening(alloc: Global, out: &mut Vec<Unit<'_>>, old: Kept<'_, '_>) -> Result<(), NoMemory> {
    let source = joined(alloc, old.node.opening())?;
    let length = source.as_str().len();
    if length == 0 {
        return Ok(());
    }
    let start = old.place.start;
    let end = start.saturating_add(length);
    push_thing(out, Role::Node, source, Some(Stretch { start, end }))
}

/// Appends its closing delimiter; a style that is open to its line's end has none.
fn push_closing(alloc: Global, out: &mut Vec<Unit<'_>>, old: Kept<'_, '_>) -> Result<(), NoMemory> {
    let source = joined(alloc, old.node.closing())?;
    let length = source.as_str().len();
    if length == 0 {
        return Ok(());
    }
    let end = old.place.end;
    let start = end.saturating_sub(length);
    push_thing(out, Role::Node, source, Some(Stretch { start, end }))
}

/// The page's node, where it is of the same kind and its delimiters stay.
fn with_delimiters<'t, 'a>(
    keeps: bool,
    kept: &Option<Kept<'t, 'a>>,
    kind: Kind,
) -> Option<Kept<'t, 'a>> {
    match kept {
        Some(old) if keeps && same_kind(old.node.kind, kind) => Some(*old),
        _ => None,
    }
}

/// The delimiter of bold, or of italic.
fn toggle_of(kind: Kind) -> &'static str {
    if matches!(kind, Kind::Bold) {
        "'''"
    } else {
        "''"
    }
}

/// Appends bold or italic: with its delimiters where the page has it.
#[cycle(units)]
fn push_style<'n, 't, 'a>(
    alloc: Global,
    out: &mut Vec<Unit<'n>>,
    known: &Known<'t, 'a>,
    block: &Option<Block<'t, 'a>>,
    writing: Writing,
    kept: &Option<Kept<'t, 'a>>,
    node: &'n Node<'_>,
) -> Result<(), NoMemory> {
    let nodes = node.children.as_slice();
    if let Some(old) = with_delimiters(writing.keeps, kept, node.kind) {
        push_opening(alloc, out, old)?;
        push_units(alloc, out, known, block, writing, nodes, &edges_in(kept))?;
        if matches!(node.kind, Kind::Bold) && is_new_italic_alone(nodes) {
            push_nowiki(alloc, out)?;
        }
        return push_closing(alloc, out, old);
    }
    let sign = toggle_of(node.kind);
    push_toggle(alloc, out, sign)?;
    if nodes.is_empty() {
        push_nowiki(alloc, out)?;
    }
    push_units(alloc, out, known, block, writing, nodes, &edges_in(kept))?;
    if matches!(node.kind, Kind::Bold) && is_italic_alone(nodes) {
        push_nowiki(alloc, out)?;
    }
    push_toggle(alloc, out, sign)
}

/// Whether italic text is all that is held: one run of five at each end would make it the outer one.
fn is_italic_alone(nodes: &[Node<'_>]) -> bool {
    match nodes.first() {
        Some(node) => nodes.len() == 1 && matches!(node.kind, Kind::Italic),
        None => false,
    }
}

/// The same of italic text that is new.
fn is_new_italic_alone(nodes: &[Node<'_>]) -> bool {
    match nodes.first() {
        Some(node) => node.id == 0 && is_italic_alone(nodes),
        None => false,
    }
}

// ---- links and tags

/// A start tag without its attributes.
fn bare_start(alloc: Global, start_tag: &str) -> Result<Str, NoMemory> {
    let bytes = start_tag.as_bytes();
    let name = bytes
        .iter()
        .skip(1)
        .take_while(|byte| byte.is_ascii_alphanumeric())
        .count();
    let (front, _) = start_tag
        .split_at_checked(name.saturating_add(1))
        .unwrap_or((start_tag, ""));
    let mut out = Str::copy_of(alloc, front)?;
    out.push_str(">")?;
    Ok(out)
}

/// Whether the attributes of a tag that has an end tag were taken off.
fn is_bared(old: &Node<'_>, node: &Node<'_>) -> bool {
    !old.closing().is_empty() && !old.attrs().is_empty() && node.attrs().is_empty()
}

/// A changed tag with its old delimiters, or without its attributes where these were taken off.
fn tag_round(
    alloc: Global,
    keeps: bool,
    old: &Node<'_>,
    node: &Node<'_>,
    inside: &str,
) -> Result<Str, NoMemory> {
    let mut out = joined(alloc, old.opening())?;
    if keeps && is_bared(old, node) {
        out = bare_start(alloc, out.as_str())?;
    }
    out.push_str(inside)?;
    push_texts(&mut out, old.closing())?;
    Ok(out)
}

/// Whether a link's opening delimiter has its target, and its text comes after it.
fn has_target(opening: &str) -> bool {
    let bytes = opening.as_bytes();
    bytes.ends_with(b"|") || bytes.ends_with(b" ")
}

/// Appends the target of a link that has no text of its own: what is in it up to its brackets. It says
/// whether that is the target alone.
fn push_target(alloc: Global, out: &mut Str, nodes: &[Node<'_>]) -> Result<bool, NoMemory> {
    for node in nodes {
        match node.kind {
            Kind::Text | Kind::Entity => {
                let source = flat(alloc, node)?;
                out.push_str(source.as_str())?;
            }
            Kind::Skip => return Ok(true),
            _ => return Ok(false),
        }
    }
    Ok(true)
}

/// What comes before the text of a link of the page; of one without a text its target and a new `|`. None where
/// there is no such thing.
fn target_of(alloc: Global, old: &Node<'_>) -> Result<Option<Str>, NoMemory> {
    let mut out = joined(alloc, old.opening())?;
    if has_target(out.as_str()) {
        return Ok(Some(out));
    }
    if !matches!(old.kind, Kind::WikiLink) {
        return Ok(None);
    }
    if !push_target(alloc, &mut out, old.children.as_slice())? {
        return Ok(None);
    }
    out.push_str("|")?;
    Ok(Some(out))
}

/// Appends the closing delimiter of a link of the page; where letters after its brackets were part of its text,
/// these are in it.
fn push_link_end(out: &mut Str, old: &Node<'_>) -> Result<(), NoMemory> {
    if matches!(old.kind, Kind::WikiLink) && old.closing().is_empty() {
        return out.push_str("]]");
    }
    push_texts(out, old.closing())
}

fn has_own_text(alloc: Global, old: &Node<'_>) -> Result<bool, NoMemory> {
    let opening = joined(alloc, old.opening())?;
    Ok(has_target(opening.as_str()))
}

/// The letters after the brackets of a link to a page, which are part of its text.
fn letters_behind(alloc: Global, old: &Node<'_>) -> Result<Str, NoMemory> {
    match old.children.as_slice().last() {
        Some(last) if old.closing().is_empty() && matches!(last.kind, Kind::Text) => {
            flat(alloc, last)
        }
        _ => Ok(Str::new(alloc)),
    }
}

/// Appends the new text of a link to a page and its brackets. Where the text still ends with the letters that came
/// after the brackets, they come after them again.
fn push_with_letters(
    alloc: Global,
    out: &mut Str,
    old: &Node<'_>,
    inside: &str,
) -> Result<(), NoMemory> {
    let letters = letters_behind(alloc, old)?;
    match inside.strip_suffix(letters.as_str()) {
        Some(text) if !text.is_empty() => {
            out.push_str(text)?;
            push_link_end(out, old)?;
            out.push_str(letters.as_str())
        }
        _ => {
            out.push_str(inside)?;
            push_link_end(out, old)
        }
    }
}

/// Appends the text of an external link, apart from its URL where it begins with a blank.
fn push_with_blank(out: &mut Str, inside: &str) -> Result<(), NoMemory> {
    if inside.starts_with(" ") || inside.starts_with("\t") {
        out.push_str("<nowiki/>")?;
    }
    out.push_str(inside)
}

/// The text of a link of the page; one to a page that has lost its text has `<nowiki/>`.
fn text_left_in<'i>(kind: Kind, inside: &'i str) -> &'i str {
    if inside.is_empty() && matches!(kind, Kind::WikiLink) {
        "<nowiki/>"
    } else {
        inside
    }
}

/// A link of the page whose text alone was changed: its target stays as it was written. None where the target
/// was changed, too, or no text of an external link is left.
fn link_round(
    alloc: Global,
    old: &Node<'_>,
    node: &Node<'_>,
    inside: &str,
) -> Result<Option<Str>, NoMemory> {
    let is_same = same_kind(old.kind, node.kind) && same_attrs(old.attrs(), node.attrs());
    let inside = text_left_in(node.kind, inside);
    if !is_same || inside.is_empty() {
        return Ok(None);
    }
    let Some(mut out) = target_of(alloc, old)? else {
        return Ok(None);
    };
    if matches!(old.kind, Kind::ExtLink) {
        push_with_blank(&mut out, inside)?;
        push_texts(&mut out, old.closing())?;
        return Ok(Some(out));
    }
    if has_own_text(alloc, old)? {
        push_with_letters(alloc, &mut out, old, inside)?;
    } else {
        out.push_str(inside)?;
        push_link_end(&mut out, old)?;
    }
    let out = shortened(alloc, out)?;
    Ok(Some(out))
}

fn new_source(alloc: Global, keeps: bool, node: &Node<'_>, inside: &str) -> Result<Str, NoMemory> {
    match node.kind.edit_shape().inline {
        InlineForm::PageLink => {
            let link = page_link(alloc, node, inside)?;
            if keeps {
                let link = with_fragment(alloc, link, inside)?;
                shortened(alloc, link)
            } else {
                Ok(link)
            }
        }
        InlineForm::ExternalLink => external_link(alloc, node, inside),
        InlineForm::Break => Str::copy_of(alloc, "<br>"),
        InlineForm::Nothing
        | InlineForm::Characters
        | InlineForm::Bold
        | InlineForm::Italic
        | InlineForm::Shown
        | InlineForm::Tag
        | InlineForm::AsItStood => Str::copy_of(alloc, inside),
    }
}

/// A link that has another target than in the page: the colon before its target stays, without which the link may be one
/// to the page in another language, which isn't shown where it is.
fn with_colon(alloc: Global, old: &Node<'_>, link: Str) -> Result<Str, NoMemory> {
    let opening = joined(alloc, old.opening())?;
    let is_kept = opening.as_str().starts_with("[[:") && !link.as_str().starts_with("[[:");
    if !is_kept || !link.as_str().starts_with("[[") {
        return Ok(link);
    }
    let (_, rest) = link.as_str().split_at_checked(2).unwrap_or(("", ""));
    let mut out = Str::copy_of(alloc, "[[:")?;
    out.push_str(rest)?;
    Ok(out)
}

/// The source of a link or tag round what it holds now.
fn source_round(
    alloc: Global,
    keeps: bool,
    kept: &Option<Kept<'_, '_>>,
    node: &Node<'_>,
    inside: &str,
) -> Result<Str, NoMemory> {
    let Some(old) = kept else {
        return new_source(alloc, keeps, node, inside);
    };
    if is_tag(node.kind) {
        return tag_round(alloc, keeps, old.node, node, inside);
    }
    if keeps && let Some(source) = link_round(alloc, old.node, node, inside)? {
        return Ok(source);
    }
    let source = new_source(alloc, keeps, node, inside)?;
    if keeps && matches!(node.kind, Kind::WikiLink) {
        with_colon(alloc, old.node, source)
    } else {
        Ok(source)
    }
}

/// Whether a changed node of this kind keeps its delimiters.
fn is_tag(kind: Kind) -> bool {
    matches!(kind.edit_shape().inline, InlineForm::Tag)
}

fn role_of(kind: Kind) -> Role {
    match kind.edit_shape().inline {
        InlineForm::PageLink => Role::Link,
        InlineForm::ExternalLink => Role::External,
        _ => Role::Node,
    }
}

/// Whether what was appended last ends with a letter, a digit or `_`, after which no bare URL begins.
fn is_behind_word(out: &[Unit<'_>]) -> bool {
    match out.last() {
        Some(unit) => match source_of(unit).last() {
            Some(byte) => byte.is_ascii_alphanumeric() || *byte == b'_',
            None => false,
        },
        None => false,
    }
}

/// Appends a link or tag that is new or changed.
#[cycle(units)]
fn push_element<'t, 'a>(
    alloc: Global,
    out: &mut Vec<Unit<'_>>,
    known: &Known<'t, 'a>,
    block: &Option<Block<'t, 'a>>,
    writing: Writing,
    kept: &Option<Kept<'t, 'a>>,
    node: &Node<'_>,
) -> Result<(), NoMemory> {
    if writing.keeps && !is_behind_word(out.as_slice()) && is_bare_now(alloc, kept, node)? {
        let source = Str::copy_of(alloc, href_of(node))?;
        let role = Role::Bare(href_of(node).ends_with("="));
        return push_thing(out, role, source, Some(place_of_bare(kept)));
    }
    let nodes = node.children.as_slice();
    let mut inside = within(alloc, known, block, writing, nodes, &edges_in(kept))?;
    if writing.keeps && !is_tag(node.kind) {
        inside = with_colons(alloc, inside)?;
    }
    let source = source_round(alloc, writing.keeps, kept, node, inside.as_str())?;
    push_thing(out, role_of(node.kind), source, place_of(kept))
}

fn place_of_bare(kept: &Option<Kept<'_, '_>>) -> Stretch {
    place_of(kept).unwrap_or(place_of_new())
}

/// Whether a link is written as its URL alone: one that is new or was written so, and shows its URL.
fn is_bare_now(
    alloc: Global,
    kept: &Option<Kept<'_, '_>>,
    node: &Node<'_>,
) -> Result<bool, NoMemory> {
    let was_bare = match kept {
        Some(old) => matches!(old.role, Role::Bare(_)),
        None => true,
    };
    if !was_bare || !matches!(node.kind, Kind::ExtLink) {
        return Ok(false);
    }
    let text = shown_text(alloc, node)?;
    Ok(text.as_str() == href_of(node) && is_bare_url(text.as_str().as_bytes()))
}

/// The inside of a link or tag.
#[cycle(units)]
fn within<'t, 'a>(
    alloc: Global,
    known: &Known<'t, 'a>,
    block: &Option<Block<'t, 'a>>,
    writing: Writing,
    nodes: &[Node<'_>],
    edges: &Edges<'t, 'a>,
) -> Result<String, NoMemory> {
    let units = units_of(alloc, known, block, writing, nodes, edges, None)?;
    let setting = Setting {
        within: true,
        place: writing.place,
        source: known.page.as_bytes(),
    };
    let inside = spelling_of(alloc, setting, units.as_slice())?;
    Ok(inside)
}

// ---- all nodes

#[cycle(units)]
fn push_node<'n, 't, 'a>(
    alloc: Global,
    out: &mut Vec<Unit<'n>>,
    known: &Known<'t, 'a>,
    block: &Option<Block<'t, 'a>>,
    writing: Writing,
    node: &'n Node<'_>,
) -> Result<(), NoMemory> {
    let kept = known.find(block, node.id);
    let keeps = writing.keeps;
    match node.kind.edit_shape().inline {
        InlineForm::Nothing => Ok(()),
        InlineForm::Characters => push_letters(out, node.shown()),
        InlineForm::Bold | InlineForm::Italic => {
            push_style(alloc, out, known, block, writing, &kept, node)
        }
        InlineForm::AsItStood => {
            let is_mark = node.kind.is_mark();
            if is_mark && node.id != 0 && known.is_left(node.id) {
                return Ok(());
            }
            push_kept(alloc, out, keeps, &kept, node.kind)
        }
        InlineForm::Shown => push_shown(alloc, out, known, block, keeps, &kept, node),
        InlineForm::PageLink | InlineForm::ExternalLink | InlineForm::Tag | InlineForm::Break => {
            if push_if_unchanged(alloc, out, known, block, keeps, &kept, node)? {
                return Ok(());
            }
            push_element(alloc, out, known, block, writing, &kept, node)
        }
    }
}

fn is_text(node: &Node<'_>) -> bool {
    matches!(node.kind, Kind::Text)
}

fn before<'n, 'a>(nodes: &'n [Node<'a>], at: usize) -> Option<&'n Node<'a>> {
    nodes.get(at.checked_sub(1)?)
}

fn behind<'n, 'a>(nodes: &'n [Node<'a>], at: usize) -> Option<&'n Node<'a>> {
    nodes.get(at.checked_add(1)?)
}

/// The page's text after the node before a place, or at the edge.
fn text_left<'t, 'a>(
    known: &Known<'t, 'a>,
    block: &Option<Block<'t, 'a>>,
    nodes: &[Node<'_>],
    at: usize,
    edges: &Edges<'t, 'a>,
) -> Option<&'t Node<'a>> {
    match before(nodes, at) {
        Some(node) => known.behind(block, node.id),
        None => edges.first,
    }
}

/// The page's text before the node after a place, or at the edge.
fn text_right<'t, 'a>(
    known: &Known<'t, 'a>,
    block: &Option<Block<'t, 'a>>,
    nodes: &[Node<'_>],
    at: usize,
    edges: &Edges<'t, 'a>,
) -> Option<&'t Node<'a>> {
    match behind(nodes, at) {
        Some(node) => known.before(block, node.id),
        None => edges.last,
    }
}

/// Whether what a node shows ends with a line break.
fn ends_with_break(node: &Node<'_>) -> bool {
    match node.children.as_slice().last() {
        Some(last) => ends_with_break(last),
        None => node.shown().ends_with("\n"),
    }
}

/// Whether a text begins a line that a template begins, with a blank or the sign of a term that wasn't there: what writes
/// nothing comes between, from which a group is always parted.
fn begins_given_line(before: Option<&Node<'_>>, text: &Node<'_>, left: Option<&Node<'_>>) -> bool {
    let first = text.shown().as_bytes().first();
    let stands = match left {
        Some(old) => old.shown().as_bytes().first() == first,
        None => false,
    };
    match before {
        Some(group) if matches!(group.kind, Kind::Group) && !stands => {
            matches!(first, Some(b' ' | b'\t' | b';')) && ends_with_break(group)
        }
        _ => false,
    }
}

/// Appends the units of nodes between two edges.
#[cycle(units)]
fn push_units<'n, 't, 'a>(
    alloc: Global,
    out: &mut Vec<Unit<'n>>,
    known: &Known<'t, 'a>,
    block: &Option<Block<'t, 'a>>,
    writing: Writing,
    nodes: &'n [Node<'_>],
    edges: &Edges<'t, 'a>,
) -> Result<(), NoMemory> {
    for at in 0..nodes.len() {
        let node = &nodes[at];
        if is_text(node) && writing.keeps {
            let left = text_left(known, block, nodes, at, edges);
            let right = text_right(known, block, nodes, at, edges);
            if begins_given_line(before(nodes, at), node, left) {
                push_thing(out, Role::Node, Str::new(alloc), None)?;
            }
            push_text(alloc, out, node.shown(), left, right)?;
        } else {
            push_node(alloc, out, known, block, writing, node)?;
        }
    }
    Ok(())
}

/// The units of nodes between two edges.
#[cycle(units)]
fn units_of<'n, 't, 'a>(
    alloc: Global,
    known: &Known<'t, 'a>,
    block: &Option<Block<'t, 'a>>,
    writing: Writing,
    nodes: &'n [Node<'_>],
    edges: &Edges<'t, 'a>,
    spot: Option<InsidePlace<'_>>,
) -> Result<Vec<Unit<'n>>, NoMemory> {
    let mut units = Vec::new(alloc);
    push_units(alloc, &mut units, known, block, writing, nodes, edges)?;
    if !writing.keeps {
        return Ok(units);
    }
    let place = match spot {
        Some(spot) => Some(spot.place),
        None => None,
    };
    let units = with_plain(alloc, place, units.as_slice())?;
    with_joints(alloc, spot, units.as_slice())
}

fn spot_of<'t, 'a>(
    known: &Known<'t, 'a>,
    block: &Option<Block<'_, '_>>,
    place: Place,
) -> InsidePlace<'t> {
    let (before, start, is_delimited) = match block {
        Some(block) => (block.before, block.inside, block.start < block.inside),
        None => (b' ', NOWHERE, false),
    };
    InsidePlace {
        place,
        before,
        in_tables: known.has_tables,
        page: known.page.as_bytes(),
        start,
        is_preformatted: is_delimited && matches!(place, Place::Paragraph),
    }
}

/// Whether a block of this kind may be empty, since its signs alone show that it is there.
fn may_be_empty(place: Place) -> bool {
    match place {
        Place::Item | Place::Term | Place::Cell | Place::Header => true,
        Place::Paragraph | Place::Heading => false,
    }
}

/// Inline nodes as the inside of a block; `block` is the page's block in which they are.
pub fn spelled<'t, 'a>(
    alloc: Global,
    known: &Known<'t, 'a>,
    block: &Option<Block<'t, 'a>>,
    writing: Writing,
    nodes: &[Node<'_>],
    edges: &Edges<'t, 'a>,
) -> Result<Str, NoMemory> {
    let spot = spot_of(known, block, writing.place);
    let units = units_of(alloc, known, block, writing, nodes, edges, Some(spot))?;
    if writing.keeps && units.is_empty() && may_be_empty(writing.place) {
        return Ok(Str::new(alloc));
    }
    let setting = Setting {
        within: false,
        place: writing.place,
        source: known.page.as_bytes(),
    };
    let out = spelling_of(alloc, setting, units.as_slice())?;
    Ok(Str::from_string(out))
}
