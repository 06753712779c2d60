//! The edited content as units: texts as they are in the edited tree, and nodes with what they
//! write.

ghost use Rattle.std.specs.Prelude.{◌≡◌, ◌+◌, min, [], ◌∷◌, ◌++◌, OnOk, IfOk, List, Bool, Some, None, option_map, string_bytes};
ghost use Rattle.wt_tree.specs.Tree.{Tree};
ghost use Rattle.wt_tree.specs.View.{view, views, label_of};
ghost use Rattle.wt_tree.specs.declared.node.Node.{out-Node};
ghost use Rattle.wt_guards.specs.Content.{thing, letters};
ghost use Rattle.wt_guards.specs.Guards.{nowiki};
ghost use Rattle.wt_original.specs.Kept.{shown};
ghost use Rattle.wt_tree.specs.EditShapes.{edit_shape};
ghost use Rattle.wt_original.specs.Gathered.{kept_view};
ghost use Rattle.wt_original.specs.Page.{TellsSame};
ghost use Rattle.wt_link_spelling.specs.Spelling.{place_of, kept_thing, new_thing, as_it_stood, unless_kept, is_style, stretch, opening_place, closing_place, toggle, or_nowiki, style, spelled_within, break_tag, href_of, page_link, external_link, tag_pair, anew_by, signs_of, signs_of_all};
ghost use Rattle.wt_original.specs.PageViews.{page_view};
ghost use Rattle.wt_escape.specs.Units.{Leaves};
ghost use Rattle.wt_guards.specs.Views.{all_signs};
ghost use Rattle.wt_names.specs.Written.{read_link};
ghost use Rattle.wt_guards.specs.declared.role.Role.TheVariants as role;

use std::alloc::{AllocError, Global};
use wt_guards::{Role, Setting, Signs, Stretch, Thing, Unit, spelling_of};
use wt_link_spelling::{external_link, page_link, tag_pair};
use wt_original::{Kept, Page, is_unchanged, shown_text, text_len};
use wt_span::{NoMemory, Str};
use wt_tree::{InlineForm, Node, Place, flat};

// ---- one unit

fn push_text<'t>(out: &mut Vec<Unit<'t>>, text: &'t str) -> Result<(), AllocError>
    ensures { OnOk result (all_signs out.new.items ≡ all_signs out.old.items ++ letters text.now) }
{
    if !text.is_empty() {
        out.push(Unit::Text(text))?;
    }
    Ok(())
}

/// The same of a text that was put together.
fn push_copied(out: &mut Vec<Unit<'_>>, text: Str) -> Result<(), NoMemory>
    ensures { OnOk result (all_signs out.new.items ≡ all_signs out.old.items ++ letters text) }
{
    if !text.as_str().is_empty() {
        out.push(Unit::Copied(text))?;
    }
    Ok(())
}

fn push_thing(
    out: &mut Vec<Unit<'_>>,
    role: Role,
    source: Str,
    place: Option<Stretch>,
) -> Result<(), NoMemory>
    ensures { OnOk result (all_signs out.new.items ≡ all_signs out.old.items ++ thing (record { role = role; source = source; place = place }) ∷ []) }
{
    out.push(Unit::Thing(Thing {
        role,
        source,
        place,
    }))?;
    Ok(())
}

/// A kept node as it is in the page.
fn push_kept(alloc: Global, out: &mut Vec<Unit<'_>>, kept: Kept<'_, '_>) -> Result<(), NoMemory>
    ensures { OnOk result (all_signs out.new.items ≡ all_signs out.old.items ++ kept_thing (kept_view kept.entry) ∷ []) }
{
    let source = flat(alloc, kept.node)?;
    push_thing(out, kept.role, source, Some(kept.place))
}

fn push_as_it_stood(
    alloc: Global,
    out: &mut Vec<Unit<'_>>,
    kept: Option<Kept<'_, '_>>,
) -> Result<(), NoMemory>
    ensures { OnOk result (all_signs out.new.items ≡ all_signs out.old.items ++ as_it_stood (option_map kept_view kept.entry)) }
{
    match kept {
        Some(kept) => push_kept(alloc, out, kept)?,
        None => push_thing(out, Role::Node, Str::new(alloc), None)?,
    }
    Ok(())
}

fn place_of(kept: Option<Kept<'_, '_>>) -> Option<Stretch>
    ensures { result ≡ place_of (option_map kept_view kept.entry) }
{
    match kept {
        Some(kept) => Some(kept.place),
        None => None,
    }
}

/// A new node, or a changed one.
fn push_new(
    out: &mut Vec<Unit<'_>>,
    role: Role,
    source: Str,
    kept: Option<Kept<'_, '_>>,
) -> Result<(), NoMemory>
    ensures { OnOk result (all_signs out.new.items ≡ all_signs out.old.items ++ new_thing role source (option_map kept_view kept.entry)) }
{
    push_thing(out, role, source, place_of(kept))
}

/// The characters that a changed node shows.
fn push_shown(alloc: Global, out: &mut Vec<Unit<'_>>, node: &Node<'_>) -> Result<(), NoMemory>
    ensures { OnOk result (all_signs out.new.items ≡ all_signs out.old.items ++ letters (shown (view node.now))) }
{
    let text = shown_text(alloc, node)?;
    push_copied(out, Str::from_string(text))
}

// ---- unchanged nodes

/// Appends a kept node as it is in the page where it is unchanged, and says whether it is.
fn push_old(
    alloc: Global,
    out: &mut Vec<Unit<'_>>,
    page: &Page<'_, '_>,
    old: Kept<'_, '_>,
    node: &Node<'_>,
) -> Result<bool, NoMemory>
    ensures { (same : Tree → Tree → Bool) → TellsSame same
        → IfOk result (λ done. Leaves done (all_signs out.old.items) (all_signs out.new.items)
        (unless_kept (page_view same page.now) (Some (kept_view old.entry)) (view node.now))) }
{
    let same = is_unchanged(alloc, page, old, node)?;
    if !same {
        return Ok(false);
    }
    push_kept(alloc, out, old)?;
    Ok(true)
}

/// The same of a node that may be kept.
fn push_if_unchanged(
    alloc: Global,
    out: &mut Vec<Unit<'_>>,
    page: &Page<'_, '_>,
    kept: Option<Kept<'_, '_>>,
    node: &Node<'_>,
) -> Result<bool, NoMemory>
    ensures { (same : Tree → Tree → Bool) → TellsSame same
        → IfOk result (λ done. Leaves done (all_signs out.old.items) (all_signs out.new.items)
        (unless_kept (page_view same page.now) (option_map kept_view kept.entry) (view node.now))) }
{
    match kept {
        Some(old) => {
            let done = push_old(alloc, out, page, old, node)?;
            Ok(done)
        }
        None => Ok(false),
    }
}

// ---- styles

fn stretch(start: usize, end: usize) -> Option<Stretch>
    ensures { result ≡ stretch start end }
{
    if start == end {
        None
    } else {
        Some(Stretch { start, end })
    }
}

fn is_style(inline: InlineForm) -> bool
    ensures { result ≡ is_style inline }
{
    match inline {
        InlineForm::Bold | InlineForm::Italic => true,
        InlineForm::Nothing
        | InlineForm::Characters
        | InlineForm::Shown
        | InlineForm::PageLink
        | InlineForm::ExternalLink
        | InlineForm::Tag
        | InlineForm::Break
        | InlineForm::AsItStood => false,
    }
}

/// Where an opening delimiter of this length ends that begins here, in a node that ends there.
fn opening_end(start: usize, length: usize, end: usize) -> usize
    ensures { result ≡ min (start + length) end }
{
    start.saturating_add(length).min(end)
}

/// Where the opening delimiter of a kept style is.
fn opening_place(alloc: Global, kept: Option<Kept<'_, '_>>) -> Result<Option<Stretch>, AllocError>
    ensures { IfOk result (λ place. place ≡ opening_place (option_map kept_view kept.entry)) }
{
    let Some(kept) = kept else {
        return Ok(None);
    };
    if !is_style(kept.node.kind.edit_shape().inline) {
        return Ok(None);
    }
    let length = text_len(alloc, kept.node.opening())?;
    let end = opening_end(kept.place.start, length, kept.place.end);
    Ok(stretch(kept.place.start, end))
}

fn closing_place(alloc: Global, kept: Option<Kept<'_, '_>>) -> Result<Option<Stretch>, AllocError>
    ensures { IfOk result (λ place. place ≡ closing_place (option_map kept_view kept.entry)) }
{
    let Some(kept) = kept else {
        return Ok(None);
    };
    if !is_style(kept.node.kind.edit_shape().inline) {
        return Ok(None);
    }
    let length = text_len(alloc, kept.node.closing())?;
    Ok(stretch(kept.place.end.saturating_sub(length), kept.place.end))
}

fn push_toggle(
    alloc: Global,
    out: &mut Vec<Unit<'_>>,
    sign: &str,
    place: Option<Stretch>,
) -> Result<(), NoMemory>
    ensures { OnOk result (all_signs out.new.items ≡ all_signs out.old.items ++ toggle sign.now place ∷ []) }
{
    let source = Str::copy_of(alloc, sign)?;
    push_thing(out, Role::Toggle, source, place)
}

fn push_all<'t>(out: &mut Vec<Unit<'t>>, units: Vec<Unit<'t>>) -> Result<(), AllocError>
    ensures { OnOk result (all_signs out.new.items ≡ all_signs out.old.items ++ all_signs units.entry.items) }
{
    for unit in units {
        out.push(unit)?;
    }
    Ok(())
}

#[tactic(auto, unfolding(wt_guards::specs::Guards::nowiki))]
fn nowiki_source(alloc: Global) -> Result<Str, NoMemory>
    ensures { IfOk result (λ s. s ≡ nowiki) }
{
    Str::copy_of(alloc, "<nowiki/>")
}

fn push_nowiki(alloc: Global, out: &mut Vec<Unit<'_>>) -> Result<(), NoMemory>
    ensures { OnOk result (all_signs out.new.items ≡ all_signs out.old.items ++ new_thing role.Node nowiki None) }
{
    let source = nowiki_source(alloc)?;
    push_new(out, Role::Node, source, None)
}

/// An empty inside is `<nowiki/>`.
fn push_or_nowiki<'t>(
    alloc: Global,
    out: &mut Vec<Unit<'t>>,
    inside: Vec<Unit<'t>>,
) -> Result<(), NoMemory>
    ensures { OnOk result (all_signs out.new.items ≡ all_signs out.old.items ++ or_nowiki (all_signs inside.entry.items)) }
{
    if Signs::of(inside.as_slice()).is_empty() {
        push_nowiki(alloc, out)?;
    } else {
        push_all(out, inside)?;
    }
    Ok(())
}

/// A style round what is inside it.
fn push_style<'t>(
    alloc: Global,
    out: &mut Vec<Unit<'t>>,
    sign: &str,
    kept: Option<Kept<'_, '_>>,
    inside: Vec<Unit<'t>>,
) -> Result<(), NoMemory>
    ensures { OnOk result (all_signs out.new.items
        ≡ all_signs out.old.items ++ style sign.now (option_map kept_view kept.entry) (all_signs inside.entry.items)) }
{
    let opening = opening_place(alloc, kept)?;
    let closing = closing_place(alloc, kept)?;
    push_toggle(alloc, out, sign, opening)?;
    push_or_nowiki(alloc, out, inside)?;
    push_toggle(alloc, out, sign, closing)
}

// ---- all nodes

/// Appends the signs of a node of the edited content.
#[cycle(signs)]
fn push_signs<'t>(
    alloc: Global,
    out: &mut Vec<Unit<'t>>,
    page: &Page<'_, '_>,
    place: Place,
    node: &'t Node<'_>,
) -> Result<(), NoMemory>
    ensures { (same : Tree → Tree → Bool) → TellsSame same
        → OnOk result (all_signs out.new.items ≡ all_signs out.old.items ++ signs_of (page_view same page.now) place (view node.now)) }
{
    let kept = page.find(node.id);
    match node.kind.edit_shape().inline {
        InlineForm::Nothing => Ok(()),
        InlineForm::Characters => {
            push_text(out, node.shown())?;
            Ok(())
        }
        InlineForm::Bold => {
            let inside = units_of(alloc, page, place, node.children.as_slice())?;
            push_style(alloc, out, "'''", kept, inside)?;
            Ok(())
        }
        InlineForm::Italic => {
            let inside = units_of(alloc, page, place, node.children.as_slice())?;
            push_style(alloc, out, "''", kept, inside)?;
            Ok(())
        }
        InlineForm::Shown
        | InlineForm::PageLink
        | InlineForm::ExternalLink
        | InlineForm::Tag
        | InlineForm::Break => {
            push_unless_unchanged(alloc, out, page, place, kept, node)?;
            Ok(())
        }
        InlineForm::AsItStood => {
            push_as_it_stood(alloc, out, kept)?;
            Ok(())
        }
    }
}

/// A node as it was, if it is unchanged; else it is written anew.
#[cycle(signs)]
fn push_unless_unchanged(
    alloc: Global,
    out: &mut Vec<Unit<'_>>,
    page: &Page<'_, '_>,
    place: Place,
    kept: Option<Kept<'_, '_>>,
    node: &Node<'_>,
) -> Result<(), NoMemory>
    ensures { (same : Tree → Tree → Bool) → TellsSame same
        → OnOk result (all_signs out.new.items ≡ all_signs out.old.items ++ unless_kept (page_view same page.now) (option_map kept_view kept.entry)
        (view node.now) (anew_by (edit_shape (out-Node node.now).kind).inline (page_view same page.now) place (option_map kept_view kept.entry)
        (label_of (out-Node node.now)) (views (out-Node node.now).children)
        (signs_of_all (page_view same page.now) place (views (out-Node node.now).children)))) }
{
    let done = push_if_unchanged(alloc, out, page, kept, node)?;
    if done {
        return Ok(());
    }
    push_anew(alloc, out, page, place, kept, node)?;
    Ok(())
}

/// What is written of a node that is new or changed.
#[cycle(signs)]
fn push_anew(
    alloc: Global,
    out: &mut Vec<Unit<'_>>,
    page: &Page<'_, '_>,
    place: Place,
    kept: Option<Kept<'_, '_>>,
    node: &Node<'_>,
) -> Result<(), NoMemory>
    ensures { (same : Tree → Tree → Bool) → TellsSame same
        → OnOk result (all_signs out.new.items ≡ all_signs out.old.items ++ anew_by (edit_shape (out-Node node.now).kind).inline (page_view same page.now)
        place (option_map kept_view kept.entry) (label_of (out-Node node.now)) (views (out-Node node.now).children)
        (signs_of_all (page_view same page.now) place (views (out-Node node.now).children))) }
{
    match node.kind.edit_shape().inline {
        InlineForm::Shown => {
            push_shown(alloc, out, node)?;
            Ok(())
        }
        InlineForm::PageLink => {
            let source = page_link_source(alloc, page, place, node)?;
            push_new(out, Role::Link, source, kept)?;
            Ok(())
        }
        InlineForm::ExternalLink => {
            let source = external_source(alloc, page, place, node)?;
            push_new(out, Role::External, source, kept)?;
            Ok(())
        }
        InlineForm::Tag => {
            let source = tag_source(alloc, page, place, kept, node)?;
            push_new(out, Role::Node, source, kept)?;
            Ok(())
        }
        InlineForm::Break => {
            let source = break_source(alloc)?;
            push_new(out, Role::Node, source, kept)?;
            Ok(())
        }
        InlineForm::Nothing
        | InlineForm::Characters
        | InlineForm::Bold
        | InlineForm::Italic
        | InlineForm::AsItStood => Ok(()),
    }
}

#[tactic(auto, unfolding(wt_link_spelling::specs::Spelling::break_tag))]
fn break_source(alloc: Global) -> Result<Str, NoMemory>
    ensures { IfOk result (λ s. s ≡ break_tag) }
{
    Str::copy_of(alloc, "<br>")
}

#[cycle(signs)]
fn page_link_source(
    alloc: Global,
    page: &Page<'_, '_>,
    place: Place,
    node: &Node<'_>,
) -> Result<Str, NoMemory>
    ensures { (same : Tree → Tree → Bool) → TellsSame same
        → IfOk result (λ s. s ≡ page_link (read_link (href_of (label_of (out-Node node.now)))) (views (out-Node node.now).children)
        (spelled_within (page_view same page.now) place (signs_of_all (page_view same page.now) place (views (out-Node node.now).children)))) }
{
    let inside = inside_of(alloc, page, place, node.children.as_slice())?;
    page_link(alloc, node, inside.as_str())
}

#[cycle(signs)]
fn external_source(
    alloc: Global,
    page: &Page<'_, '_>,
    place: Place,
    node: &Node<'_>,
) -> Result<Str, NoMemory>
    ensures { (same : Tree → Tree → Bool) → TellsSame same
        → IfOk result (λ s. s ≡ external_link (href_of (label_of (out-Node node.now)))
        (spelled_within (page_view same page.now) place (signs_of_all (page_view same page.now) place (views (out-Node node.now).children)))) }
{
    let inside = inside_of(alloc, page, place, node.children.as_slice())?;
    external_link(alloc, node, inside.as_str())
}

#[cycle(signs)]
fn tag_source(
    alloc: Global,
    page: &Page<'_, '_>,
    place: Place,
    kept: Option<Kept<'_, '_>>,
    node: &Node<'_>,
) -> Result<Str, NoMemory>
    ensures { (same : Tree → Tree → Bool) → TellsSame same
        → IfOk result (λ s. s ≡ tag_pair (option_map kept_view kept.entry)
        (spelled_within (page_view same page.now) place (signs_of_all (page_view same page.now) place (views (out-Node node.now).children)))) }
{
    let inside = inside_of(alloc, page, place, node.children.as_slice())?;
    tag_pair(alloc, kept, inside.as_str())
}

/// The units of the nodes.
#[cycle(signs)]
pub fn units_of<'t>(
    alloc: Global,
    page: &Page<'_, '_>,
    place: Place,
    nodes: &'t [Node<'_>],
) -> Result<Vec<Unit<'t>>, NoMemory>
    ensures { (same : Tree → Tree → Bool) → TellsSame same
        → IfOk result (λ units. all_signs units.items ≡ signs_of_all (page_view same page.now) place (views nodes.now)) }
{
    let mut units = Vec::new(alloc);
    for node in nodes {
        push_signs(alloc, &mut units, page, place, node)?;
    }
    Ok(units)
}

/// The inside of a link or tag.
#[cycle(signs)]
fn inside_of(
    alloc: Global,
    page: &Page<'_, '_>,
    place: Place,
    nodes: &[Node<'_>],
) -> Result<String, NoMemory>
    ensures { (same : Tree → Tree → Bool) → TellsSame same
        → IfOk result (λ s. string_bytes s ≡ spelled_within (page_view same page.now) place (signs_of_all (page_view same page.now) place (views nodes.now))) }
{
    let units = units_of(alloc, page, place, nodes)?;
    let setting = Setting {
        within: true,
        place,
        source: page.source.as_bytes(),
    };
    let inside = spelling_of(alloc, setting, units.as_slice())?;
    Ok(inside)
}
