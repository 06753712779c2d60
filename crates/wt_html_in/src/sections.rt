//! Sections of an edited page: of their attributes the mark of an edit alone counts, and what they hold
//! is in their place.

ghost use Rattle.std.specs.Prelude.{◌≡◌, true, false, filter, IfOk, OnOk};
ghost use Rattle.wt_tree.specs.Opened.{opened, opened_before, without_sections};
ghost use Rattle.wt_recut.specs.Recutting.{appended};
ghost use Rattle.wt_tree.specs.Tree.{none as no_trees};
ghost use Rattle.wt_tree.specs.View.{view, views as trees};
ghost use Rattle.wt_html_elements.specs.Built.{pair, pairs, view_content, views};
ghost use Rattle.wt_schema.specs.Sections.{all_bared, bared, is_mark_pair};

use std::alloc::Global;
use wt_html_elements::{Attribute, Content};
use wt_html_nodes::is_section_name;
use wt_span::{List, NoMemory};
use wt_tree::Node;

// ---- attributes

/// Whether it is the mark of an edit.
fn is_mark(attribute: &Attribute) -> bool
    ensures { result ≡ is_mark_pair (pair attribute.now) }
{
    attribute.name.as_slice() == b"data-wt-edit".as_slice()
}

/// The marks of an edit among attributes.
fn marks_in(alloc: Global, attributes: Vec<Attribute>) -> Result<Vec<Attribute>, NoMemory>
    ensures { IfOk result (λ v. pairs v.items ≡ filter is_mark_pair (pairs attributes.items)) }
{
    let mut marks = Vec::new(alloc);
    for attribute in attributes {
        if is_mark(&attribute) {
            marks.push(attribute)?;
        }
    }
    Ok(marks)
}

/// A text or an element; of a section, and of the sections in it, the attributes go that don't count.
#[cycle(baring)]
fn bared(alloc: Global, content: Content) -> Result<Content, NoMemory>
    ensures { IfOk result (λ c. view_content c ≡ bared (view_content content)) }
{
    match content {
        Content::Text(bytes) => Ok(Content::Text(bytes)),
        Content::Element {
            name,
            attributes,
            contents,
        } => {
            if !is_section_name(name.as_slice()) {
                return Ok(Content::Element {
                    name,
                    attributes,
                    contents,
                });
            }
            let attributes = marks_in(alloc, attributes)?;
            let contents = all_bared(alloc, contents)?;
            Ok(Content::Element {
                name,
                attributes,
                contents,
            })
        }
    }
}

/// Whether it is a section. All else keeps its attributes.
fn is_section(content: &Content) -> bool
    ensures { result ≡ false → bared (view_content content.now) ≡ view_content content.now }
{
    match content {
        Content::Text(_) => false,
        Content::Element { name, .. } => is_section_name(name.as_slice()),
    }
}

/// Whether no section is among these texts and elements.
fn are_kept(contents: &[Content]) -> bool
    ensures { result ≡ true → all_bared (views contents.now) ≡ views contents.now }
{
    for content in contents {
        if is_section(content) {
            return false;
        }
    }
    true
}

/// What is in a body, where the attributes of its sections go that don't count.
pub fn bared_in(alloc: Global, contents: Vec<Content>) -> Result<Vec<Content>, NoMemory>
    ensures { IfOk result (λ v. views v.items ≡ all_bared (views contents.items)) }
{
    if are_kept(contents.as_slice()) {
        Ok(contents)
    } else {
        all_bared(alloc, contents)
    }
}

/// What is in a body or in a section, where the attributes of sections go that don't count.
#[cycle(baring)]
fn all_bared(alloc: Global, contents: Vec<Content>) -> Result<Vec<Content>, NoMemory>
    ensures { IfOk result (λ v. views v.items ≡ all_bared (views contents.items)) }
{
    let mut all = Vec::with_capacity(alloc, contents.len())?;
    for content in contents {
        let content = bared(alloc, content)?;
        all.push(content)?;
    }
    Ok(all)
}

// ---- nodes

/// Appends a node, or of a section what it holds.
#[cycle(opening)]
fn push_opened<'a>(out: &mut Vec<Node<'a>>, node: Node<'a>) -> Result<(), NoMemory>
    ensures { OnOk result (trees out.new.items ≡ appended (trees out.old.items) (opened_before (view node.entry) no_trees)) }
{
    if node.kind.is_section() {
        return push_all_opened(out, node.children);
    }
    out.push(node)?;
    Ok(())
}

#[cycle(opening)]
fn push_all_opened<'a>(out: &mut Vec<Node<'a>>, nodes: List<Node<'a>>) -> Result<(), NoMemory>
    ensures { OnOk result (trees out.new.items ≡ appended (trees out.old.items) (opened (trees nodes.entry))) }
{
    for node in nodes.into_vec() {
        push_opened(out, node)?;
    }
    Ok(())
}

/// What is in a body, where what sections hold is in their place.
fn opened<'a>(alloc: Global, nodes: List<Node<'a>>) -> Result<List<Node<'a>>, NoMemory>
    ensures { IfOk result (λ l. trees l ≡ opened (trees nodes.entry)) }
{
    let mut out = Vec::with_capacity(alloc, nodes.len())?;
    push_all_opened(&mut out, nodes)?;
    Ok(List::from_vec(out))
}

/// Whether no section is among these nodes.
fn are_open(nodes: &[Node<'_>]) -> bool
    ensures { result ≡ true → opened (trees nodes.now) ≡ trees nodes.now }
{
    for node in nodes {
        if node.kind.is_section() {
            return false;
        }
    }
    true
}

/// The tree of a body without its sections.
pub fn without_sections<'a>(alloc: Global, body: Node<'a>) -> Result<Node<'a>, NoMemory>
    ensures { IfOk result (λ n. view n ≡ without_sections (view body.entry)) }
{
    if are_open(body.children.as_slice()) {
        return Ok(body);
    }
    let children = opened(alloc, body.children)?;
    Ok(Node { children, ..body })
}
