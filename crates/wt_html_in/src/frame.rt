ghost use Rattle.std.specs.Prelude.{◌≡◌, ◌+◌, ◌<◌, ◌^◌, true, IfOk, Some};
ghost use Rattle.wt_html_elements.specs.Built.{view_content, pairs, views};
ghost use Rattle.wt_schema.specs.Fit.{elements, elements_of_all, elements_in, is_marked_root, body_in, body_of};
ghost use Rattle.wt_html_nodes.specs.Texts.{is_utf8_markup, are_utf8_markups, are_utf8_values};
ghost use Rattle.wt_html_in.specs.Frame.{found_of, found_if_any, is_element, number_behind_one, number_behind, body_as, is_root, marked_here, FitsBody};

use crate::edited::Edited;
use crate::nodes::node_of;
use crate::sections::{bared_in, without_sections};
use crate::walk::{Traversal, nodes};
use bumpalo::Bump;
use std::alloc::Global;
use wt_html_elements::{Attribute, Content};
use wt_html_nodes::{FitFault, body_head, has, id_of, is_marked, is_typed};
use wt_schema::FitWhy;
use wt_span::NoMemory;
use wt_tree::Kind;

/// The body of a document, with the number of its element.
#[derive(Drop)]
pub struct BodyElement {
    pub number: u32,
    pub attributes: Vec<Attribute>,
    pub contents: Vec<Content>,
}

/// How many elements a text or an element has, with itself.
#[cycle(counting)]
fn elements(content: &Content) -> u32
    requires { elements (view_content content.now) < 2 ^ 32 }
    ensures { result ≡ elements (view_content content.now) }
{
    match content {
        Content::Text(_) => 0,
        Content::Element { contents, .. } => 1 + elements_of_all(contents.as_slice()),
    }
}

#[cycle(counting)]
fn elements_of_all(contents: &[Content]) -> u32
    requires { elements_of_all (views contents.now) < 2 ^ 32 }
    ensures { result ≡ elements_of_all (views contents.now) }
{
    let mut count = 0;
    for content in contents {
        count += elements(content);
    }
    count
}

fn is_element(content: &Content) -> bool
    ensures { result ≡ is_element (view_content content.now) }
{
    match content {
        Content::Text(_) => false,
        Content::Element { .. } => true,
    }
}

/// The elements alone.
fn elements_in(alloc: Global, contents: Vec<Content>) -> Result<Vec<Content>, NoMemory>
    ensures { IfOk result (λ v. views v.items ≡ elements_in (views contents.items)) }
{
    let mut elements = Vec::new(alloc);
    for content in contents {
        if is_element(&content) {
            elements.push(content)?;
        }
    }
    Ok(elements)
}

/// The number of the element after a head.
fn number_behind_one(content: &Content) -> Option<u32>
    requires { elements (view_content content.now) + 2 < 2 ^ 32 }
    ensures { result ≡ number_behind_one (view_content content.now) }
{
    match content {
        Content::Text(_) => None,
        Content::Element { name, contents, .. } => {
            if name.as_slice() == b"head".as_slice() {
                Some(3 + elements_of_all(contents.as_slice()))
            } else {
                None
            }
        }
    }
}

/// The number of the element after these: after nothing, or after a head.
fn number_behind(before: &[Content]) -> Option<u32>
    requires { elements_of_all (views before.now) + 2 < 2 ^ 32 }
    ensures { result ≡ number_behind (views before.now) }
{
    match before {
        [] => Some(2),
        [content] => number_behind_one(content),
        _ => None,
    }
}

/// The element of this number, where it is a body. Its sections keep no attributes but marks.
fn body_as(alloc: Global, content: Content, number: u32) -> Result<Option<BodyElement>, NoMemory>
    ensures { IfOk result (λ f. found_if_any f ≡ body_as (view_content content) (Some number)) }
{
    match content {
        Content::Text(_) => Ok(None),
        Content::Element {
            name,
            attributes,
            contents,
        } => {
            if name.as_slice() == b"body".as_slice() {
                let contents = bared_in(alloc, contents)?;
                Ok(Some(BodyElement {
                    number,
                    attributes,
                    contents,
                }))
            } else {
                Ok(None)
            }
        }
    }
}

/// The body among the elements of the root.
fn body_in(alloc: Global, elements: Vec<Content>) -> Result<Option<BodyElement>, NoMemory>
    requires { elements_of_all (views elements.items) + 2 < 2 ^ 32 }
    ensures { IfOk result (λ f. found_if_any f ≡ body_in (views elements.items)) }
{
    let mut before = elements;
    match before.pop() {
        None => Ok(None),
        Some(last) => match number_behind(before.as_slice()) {
            None => Ok(None),
            Some(number) => body_as(alloc, last, number),
        },
    }
}

/// Whether the attributes are such that the root may not have.
fn is_marked_root(attributes: &[Attribute]) -> bool
    ensures { result ≡ is_marked_root (pairs attributes.now) }
{
    has(b"about".as_slice(), attributes)
        || (has(b"data-mw".as_slice(), attributes)
            || (has(b"data-parsoid".as_slice(), attributes)
                || (is_marked(attributes) || (is_typed(attributes) || id_of(attributes) != 0))))
}

fn is_root(name: &[u8], attributes: &[Attribute]) -> bool
    ensures { result ≡ is_root name.now (pairs attributes.now) }
{
    name == b"html".as_slice() && !is_marked_root(attributes)
}

/// The body of a document.
fn find_body(alloc: Global, root: Content) -> Result<Option<BodyElement>, NoMemory>
    requires { elements (view_content root) + 1 < 2 ^ 32 }
    ensures { IfOk result (λ f. found_if_any f ≡ body_of (view_content root)) }
{
    match root {
        Content::Text(_) => Ok(None),
        Content::Element {
            name,
            attributes,
            contents,
        } => {
            if is_root(name.as_slice(), attributes.as_slice()) {
                let elements = elements_in(alloc, contents)?;
                let found = body_in(alloc, elements)?;
                Ok(found)
            } else {
                Ok(None)
            }
        }
    }
}

/// The walk over what is in the body. The body's attributes are freed.
fn walk_in(number: u32, attributes: Vec<Attribute>) -> Traversal
    requires { number + 1 < 2 ^ 32 }
    ensures next { result.next ≡ number + 1 }
    ensures unsourced { result.unsourced ≡ marked_here number (pairs attributes.items) }
{
    let unsourced = if is_marked(attributes.as_slice()) {
        Some(number)
    } else {
        None
    };
    Traversal {
        next: number + 1,
        unsourced,
    }
}

/// The page of a body.
fn edited<'a>(
    alloc: Global,
    arena: &'a Bump<Global>,
    number: u32,
    attributes: Vec<Attribute>,
    contents: Vec<Content>,
) -> Result<Edited<'a>, FitFault>
    requires few { number + 1 + elements_of_all (views contents.items) < 2 ^ 32 }
    requires utf8_values { are_utf8_values (pairs attributes.items) ≡ true }
    requires utf8 { are_utf8_markups (views contents.items) ≡ true }
    ensures { FitsBody (Some (found_of number (pairs attributes.items) (views contents.items))) result }
{
    let head = body_head(alloc, number, attributes.as_slice(), contents.as_slice())?;
    let mut walk = walk_in(number, attributes);
    let children = nodes(alloc, arena, &mut walk, Kind::Body, false, contents)?;
    let sectioned = node_of(alloc, arena, false, head, children)?;
    let body = without_sections(alloc, sectioned)?;
    Ok(Edited::of(body, walk.unsourced))
}

/// The page that a tree of elements is. Each element is freed as soon as its node is made.
pub fn page<'a>(
    alloc: Global,
    arena: &'a Bump<Global>,
    root: Content,
) -> Result<Edited<'a>, FitFault>
    requires few { elements (view_content root) + 1 < 2 ^ 32 }
    requires utf8 { is_utf8_markup (view_content root) ≡ true }
    ensures { FitsBody (body_of (view_content root)) result }
{
    match find_body(alloc, root)? {
        None => Err(FitFault::Unfit {
            element: 1,
            why: FitWhy::Root,
        }),
        Some(
            BodyElement {
                number,
                attributes,
                contents,
            },
        ) => edited(alloc, arena, number, attributes, contents),
    }
}
