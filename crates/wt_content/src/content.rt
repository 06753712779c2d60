//! What may be in the inside of a marked node: text, the block's own inline nodes, and new bold,
//! italic, links and line breaks.

ghost use Rattle.std.specs.Prelude.{◌≡◌, ◌&&◌, ◌++◌, ◌∷◌, Bool, List, [], Some, is_some, IfOk, OnOk};
ghost use Rattle.wt_names.specs.Written.{read_link};
ghost use Rattle.wt_tree.specs.Tree.{Tree};
ghost use Rattle.wt_tree.specs.View.{label_of, view, views};
ghost use Rattle.wt_tree.specs.declared.node.Node.{out-Node};
ghost use Rattle.wt_original.specs.Page.{TellsSame};
ghost use Rattle.wt_original.specs.Gathered.{kept_view};
ghost use Rattle.wt_original.specs.PageViews.{page_view};
ghost use Rattle.wt_link_spelling.specs.Spelling.{href_of};
ghost use Rattle.wt_content.specs.Content.{all_faults, any_holds_link, bad_content, below, brings_link, changed_from, faults, first_why, has_break, holds_link, if_any, if_changed, if_new, if_replaced, is_link, is_open, is_paragraph, is_same, link_fault, nested_fault, outermost, own_faults, shown_faults, standing, standing_of, unless_same};
ghost use Rattle.wt_content.specs.Standings.{CountsAs};
ghost use Rattle.wt_content.specs.Views.{HasFaults};

use crate::reason::ContentWhy;
use crate::url::is_url;
use std::alloc::Global;
use wt_link_spelling::href_of;
use wt_names::title_of_href;
use wt_original::{Kept, Page, is_unchanged, page_of_block};
use wt_span::NoMemory;
use wt_tree::{BlockForm, InlineForm, Node};

/// What a node of the edited tree is to the page: it is new; or the page has a node with its number,
/// which it changed, which it took the place of although that may not change, or which it still is.
#[derive(Clone, Copy)]
pub enum Standing {
    New,
    Changed,
    Replaced,
    Same,
}

/// Where a node of the inside is.
#[derive(Clone, Copy)]
pub struct Surroundings {
    /// Directly in a paragraph.
    pub in_paragraph: bool,
    /// In a link.
    pub in_link: bool,
}

/// What is wrong with the nodes that were seen.
#[derive(Clone, Copy)]
pub struct Faults {
    pub element: bool,
    pub href: bool,
    pub line_break: bool,
    pub nested: bool,
    pub empty_list: bool,
}

impl Faults {
    pub fn none() -> Faults
        ensures { HasFaults result [] }
    {
        Faults {
            element: false,
            href: false,
            line_break: false,
            nested: false,
            empty_list: false,
        }
    }

    pub fn add(&mut self, why: ContentWhy)
        ensures { (ws : List ContentWhy) → HasFaults self.old ws → HasFaults self.new (ws ++ why ∷ []) }
    {
        match why {
            ContentWhy::Element => self.element = true,
            ContentWhy::Href => self.href = true,
            ContentWhy::LineBreak => self.line_break = true,
            ContentWhy::Nested => self.nested = true,
            ContentWhy::EmptyList => self.empty_list = true,
        }
    }

    pub fn add_any(&mut self, why: Option<ContentWhy>)
        ensures { (ws : List ContentWhy) → HasFaults self.old ws → HasFaults self.new (ws ++ if_any why) }
    {
        if let Some(why) = why {
            self.add(why);
        }
    }

    /// The first, in the order of `ContentWhy`.
    pub fn first(self) -> Option<ContentWhy>
        ensures { (ws : List ContentWhy) → HasFaults self ws → result ≡ first_why ws }
    {
        if self.element {
            Some(ContentWhy::Element)
        } else if self.href {
            Some(ContentWhy::Href)
        } else if self.line_break {
            Some(ContentWhy::LineBreak)
        } else if self.nested {
            Some(ContentWhy::Nested)
        } else if self.empty_list {
            Some(ContentWhy::EmptyList)
        } else {
            None
        }
    }
}

// ---- links

/// Whether the `href` of a link leads to a title.
fn leads_to_title(alloc: Global, node: &Node<'_>) -> Result<bool, NoMemory>
    ensures { IfOk result (λ good. good ≡ is_some (read_link (href_of (label_of (out-Node node.now))))) }
{
    let title = title_of_href(alloc, href_of(node))?;
    Ok(title.is_some())
}

fn is_link(inline: InlineForm) -> bool
    ensures { result ≡ is_link inline }
{
    match inline {
        InlineForm::PageLink | InlineForm::ExternalLink => true,
        InlineForm::Nothing
        | InlineForm::Characters
        | InlineForm::Bold
        | InlineForm::Italic
        | InlineForm::Shown => false,
        InlineForm::Tag | InlineForm::Break | InlineForm::AsItStood => false,
    }
}

/// Whether a link is in a node, itself or within, outside groups.
#[cycle(linking)]
fn holds_link(node: &Node<'_>) -> bool
    ensures { result ≡ holds_link (view node.now) }
{
    is_link(node.kind.edit_shape().inline)
        || !node.kind.is_group() && any_holds_link(node.children.as_slice())
}

#[cycle(linking)]
fn any_holds_link(nodes: &[Node<'_>]) -> bool
    ensures { result ≡ any_holds_link (views nodes.now) }
{
    for node in nodes {
        if holds_link(node) {
            return true;
        }
    }
    false
}

// ---- one node

/// Whether a line break is in a text.
pub fn has_break(text: &[u8]) -> bool
    ensures { result ≡ has_break text.now }
{
    for byte in text {
        if *byte == b'\n' {
            return true;
        }
    }
    false
}

/// What a changed node comes to, by its inline form in the page.
fn changed_from(inline: InlineForm) -> Standing
    ensures { result ≡ changed_from inline }
{
    match inline {
        InlineForm::Nothing
        | InlineForm::Characters
        | InlineForm::Bold
        | InlineForm::Italic
        | InlineForm::Shown => Standing::Changed,
        InlineForm::PageLink | InlineForm::ExternalLink | InlineForm::Tag => Standing::Changed,
        InlineForm::Break | InlineForm::AsItStood => Standing::Replaced,
    }
}

/// What a kept node is to the page's.
fn standing_of(
    alloc: Global,
    page: &Page<'_, '_>,
    kept: Kept<'_, '_>,
    node: &Node<'_>,
) -> Result<Standing, NoMemory>
    ensures { (same : Tree → Tree → Bool) → TellsSame same
        → IfOk result (λ s. s ≡ standing_of (page_view same page.now) (Some (kept_view kept.entry)) (view node.now)) }
{
    let unchanged = is_unchanged(alloc, page, kept, node)?;
    if unchanged {
        Ok(Standing::Same)
    } else {
        Ok(changed_from(kept.node.kind.edit_shape().inline))
    }
}

/// What a node is to the page of its block.
fn standing_in(alloc: Global, page: &Page<'_, '_>, node: &Node<'_>) -> Result<Standing, NoMemory>
    ensures { (same : Tree → Tree → Bool) → TellsSame same
        → IfOk result (λ s. s ≡ standing (page_view same page.now) (view node.now)) }
{
    let kept = page.find(node.id);
    match kept {
        None => Ok(Standing::New),
        Some(kept) => {
            let standing = standing_of(alloc, page, kept, node)?;
            Ok(standing)
        }
    }
}

/// What is wrong with an entity or a `nowiki` that shows this text.
fn shown_fault(standing: Standing, text: &[u8]) -> Option<ContentWhy>
    ensures { if_any result ≡ shown_faults standing text.now }
{
    match standing {
        Standing::New | Standing::Replaced => Some(ContentWhy::Element),
        Standing::Changed => {
            if has_break(text) {
                Some(ContentWhy::LineBreak)
            } else {
                None
            }
        }
        Standing::Same => None,
    }
}

/// What is wrong with a node that only the page may bring.
fn new_fault(standing: Standing) -> Option<ContentWhy>
    ensures { if_any result ≡ if_new standing }
{
    match standing {
        Standing::New | Standing::Replaced => Some(ContentWhy::Element),
        Standing::Changed | Standing::Same => None,
    }
}

/// What is wrong with a node that may be new, but not changed.
fn changed_fault(standing: Standing) -> Option<ContentWhy>
    ensures { if_any result ≡ if_changed standing }
{
    match standing {
        Standing::Changed | Standing::Replaced => Some(ContentWhy::Element),
        Standing::New | Standing::Same => None,
    }
}

/// What is wrong with a node that may be new and changed.
fn replaced_fault(standing: Standing) -> Option<ContentWhy>
    ensures { if_any result ≡ if_replaced standing }
{
    match standing {
        Standing::Replaced => Some(ContentWhy::Element),
        Standing::New | Standing::Changed | Standing::Same => None,
    }
}

/// What is wrong with a node that is as it was.
fn unless_same(standing: Standing) -> Option<ContentWhy>
    ensures { if_any result ≡ unless_same standing (ContentWhy.Element ∷ []) }
{
    match standing {
        Standing::New | Standing::Changed | Standing::Replaced => Some(ContentWhy::Element),
        Standing::Same => None,
    }
}

/// What is wrong with a node by itself, if something is.
fn own_fault(
    alloc: Global,
    inline: InlineForm,
    around: Surroundings,
    standing: Standing,
    node: &Node<'_>,
) -> Result<Option<ContentWhy>, NoMemory>
    ensures { IfOk result (λ found. if_any found ≡ own_faults inline around standing (label_of (out-Node node.now))) }
{
    match inline {
        InlineForm::Nothing => Ok(None),
        InlineForm::Characters => {
            if !around.in_paragraph && has_break(node.shown().as_bytes()) {
                Ok(Some(ContentWhy::LineBreak))
            } else {
                Ok(None)
            }
        }
        InlineForm::Bold | InlineForm::Italic => Ok(replaced_fault(standing)),
        InlineForm::Shown => Ok(shown_fault(standing, node.shown().as_bytes())),
        InlineForm::Tag => Ok(new_fault(standing)),
        InlineForm::Break => Ok(changed_fault(standing)),
        InlineForm::AsItStood => Ok(unless_same(standing)),
        InlineForm::PageLink => {
            let good = leads_to_title(alloc, node)?;
            Ok(link_fault(standing, good))
        }
        InlineForm::ExternalLink => Ok(link_fault(standing, is_url(href_of(node).as_bytes()))),
    }
}

/// What is wrong with a link, by whether it leads somewhere.
fn link_fault(standing: Standing, good: bool) -> Option<ContentWhy>
    ensures { if_any result ≡ unless_same standing (link_fault good) }
{
    match standing {
        Standing::Same => None,
        Standing::Replaced => Some(ContentWhy::Element),
        Standing::New | Standing::Changed => { if good { None } else { Some(ContentWhy::Href) } }
    }
}

fn is_same(standing: Standing) -> bool
    ensures { result ≡ is_same standing }
{
    match standing {
        Standing::New | Standing::Changed | Standing::Replaced => false,
        Standing::Same => true,
    }
}

/// Whether what a node holds is looked into.
fn is_open(inline: InlineForm, standing: Standing) -> bool
    ensures { result ≡ is_open inline standing }
{
    match inline {
        InlineForm::Nothing | InlineForm::Characters => false,
        InlineForm::Bold | InlineForm::Italic => true,
        InlineForm::Shown | InlineForm::PageLink | InlineForm::ExternalLink => !is_same(standing),
        InlineForm::Tag | InlineForm::Break | InlineForm::AsItStood => !is_same(standing),
    }
}

/// What bold or italic is to the page. It may hold whatever it does, so it isn't compared with a node of
/// the page that may change.
fn style_standing(alloc: Global, page: &Page<'_, '_>, node: &Node<'_>) -> Result<Standing, NoMemory>
    ensures { (same : Tree → Tree → Bool) → TellsSame same
        → IfOk result (λ s. if_replaced s ≡ if_replaced (standing (page_view same page.now) (view node.now))) }
{
    let kept = page.find(node.id);
    match kept {
        None => Ok(Standing::New),
        Some(kept) => {
            let changed = changed_from(kept.node.kind.edit_shape().inline);
            match changed {
                Standing::Replaced => {
                    let standing = standing_of(alloc, page, kept, node)?;
                    Ok(standing)
                }
                Standing::New | Standing::Changed | Standing::Same => Ok(changed),
            }
        }
    }
}

/// What a node is to the page, where that counts for a node that is written so.
fn standing_by(
    alloc: Global,
    inline: InlineForm,
    page: &Page<'_, '_>,
    node: &Node<'_>,
) -> Result<Standing, NoMemory>
    ensures { (same : Tree → Tree → Bool) → TellsSame same
        → IfOk result (λ s. CountsAs inline s (standing (page_view same page.now) (view node.now))) }
{
    match inline {
        InlineForm::Nothing | InlineForm::Characters => Ok(Standing::New),
        InlineForm::Bold | InlineForm::Italic => {
            let standing = style_standing(alloc, page, node)?;
            Ok(standing)
        }
        InlineForm::Shown
        | InlineForm::PageLink
        | InlineForm::ExternalLink
        | InlineForm::Tag
        | InlineForm::Break
        | InlineForm::AsItStood => {
            let standing = standing_in(alloc, page, node)?;
            Ok(standing)
        }
    }
}

// ---- all nodes

/// Whether a node brings a link where it is: it is one, or it isn't looked into and holds one.
fn brings_link(inline: InlineForm, standing: Standing, node: &Node<'_>) -> bool
    ensures { result ≡ brings_link inline standing (holds_link (view node.now)) }
{
    if is_open(inline, standing) {
        is_link(inline)
    } else {
        holds_link(node)
    }
}

fn nested_fault(
    around: Surroundings,
    inline: InlineForm,
    standing: Standing,
    node: &Node<'_>,
) -> Option<ContentWhy>
    ensures { if_any result ≡ nested_fault (around.in_link && brings_link inline standing (holds_link (view node.now))) }
{
    if around.in_link && brings_link(inline, standing, node) {
        Some(ContentWhy::Nested)
    } else {
        None
    }
}

/// What is round the children of a node that is written in this form.
fn below(around: Surroundings, inline: InlineForm) -> Surroundings
    ensures { result ≡ below around inline }
{
    Surroundings {
        in_paragraph: false,
        in_link: around.in_link || is_link(inline),
    }
}

#[cycle(visiting)]
pub fn visit_all(
    alloc: Global,
    page: &Page<'_, '_>,
    around: Surroundings,
    nodes: &[Node<'_>],
    found: &mut Faults,
) -> Result<(), NoMemory>
    ensures { (same : Tree → Tree → Bool) → TellsSame same → OnOk result ((ws : List ContentWhy) → HasFaults found.old ws
        → HasFaults found.new (ws ++ all_faults (page_view same page.now) around (views nodes.now))) }
{
    for node in nodes {
        visit(alloc, page, around, node, found)?;
    }
    Ok(())
}

#[cycle(visiting)]
fn visit(
    alloc: Global,
    page: &Page<'_, '_>,
    around: Surroundings,
    node: &Node<'_>,
    found: &mut Faults,
) -> Result<(), NoMemory>
    ensures { (same : Tree → Tree → Bool) → TellsSame same → OnOk result ((ws : List ContentWhy) → HasFaults found.old ws
        → HasFaults found.new (ws ++ faults (page_view same page.now) around (view node.now))) }
{
    let inline = node.kind.edit_shape().inline;
    let standing = standing_by(alloc, inline, page, node)?;
    found.add_any(nested_fault(around, inline, standing, node));
    let why = own_fault(alloc, inline, around, standing, node)?;
    found.add_any(why);
    if is_open(inline, standing) {
        visit_all(
            alloc,
            page,
            below(around, inline),
            node.children.as_slice(),
            found,
        )?;
    }
    Ok(())
}

fn is_paragraph(form: BlockForm) -> bool
    ensures { result ≡ is_paragraph form }
{
    match form {
        BlockForm::Paragraph => true,
        BlockForm::Heading(_) | BlockForm::Rule | BlockForm::Item | BlockForm::NoBlock => false,
    }
}

/// Where the children of a marked node are, by what it was in the page.
pub fn outermost(old: &Node<'_>) -> Surroundings
    ensures { result ≡ outermost (view old.now) }
{
    Surroundings {
        in_paragraph: is_paragraph(old.kind.edit_shape().form),
        in_link: false,
    }
}

/// Why the inside of `new` can't be written, which was `old` in the page. A kept node is compared with
/// what it was, so the time has the depth as a factor where tags nest.
#[tactic(auto, unfolding(crate::specs::Content::bad_content))]
pub fn bad_content(
    alloc: Global,
    old: &Node<'_>,
    new: &Node<'_>,
) -> Result<Option<ContentWhy>, NoMemory>
    ensures { (same : Tree → Tree → Bool) → TellsSame same → IfOk result (λ why. why ≡ bad_content same (view old.now) (view new.now)) }
{
    let page = page_of_block(alloc, old)?;
    let mut found = Faults::none();
    visit_all(
        alloc,
        &page,
        outermost(old),
        new.children.as_slice(),
        &mut found,
    )?;
    Ok(found.first())
}
