ghost use Rattle.std.specs.Prelude.{◌≡◌, ◌++◌, IfOk};
ghost use Rattle.wt_html_grammar.specs.Markup.{text, node, empty, flush};
ghost use Rattle.wt_html_grammar.specs.Events.{append, tree_of, with_child};
ghost use Rattle.wt_html_elements.specs.Built.{view_content, views, pairs, frame};

use std::alloc::Global;
use wt_span::NoMemory;

/// An attribute as it was read: its name, and its value in UTF-8 with the escapes decoded.
#[derive(Drop)]
pub struct Attribute {
    pub name: Vec<u8>,
    pub value: Vec<u8>,
}

/// What is in an element: the text between two tags, in UTF-8 with the escapes decoded, or an
/// element with its contents. No text is empty.
#[derive(Drop)]
pub enum Content {
    Text(Vec<u8>),
    Element {
        name: Vec<u8>,
        attributes: Vec<Attribute>,
        contents: Vec<Content>,
    },
}

/// An element that is open: what it holds so far, and the text since its last child.
#[derive(Drop)]
pub struct OpenElement {
    pub name: Vec<u8>,
    pub attributes: Vec<Attribute>,
    pub contents: Vec<Content>,
    pub run: Vec<u8>,
}

fn text_of(run: Vec<u8>) -> Content
    ensures { view_content result ≡ text run.items }
{
    Content::Text(run)
}

/// The contents with the text after them, where it isn't empty.
fn flushed(contents: Vec<Content>, run: Vec<u8>) -> Result<Vec<Content>, NoMemory>
    ensures { IfOk result (λ v. views v.items ≡ append (views contents.items) (flush run.items empty)) }
{
    let mut contents = contents;
    if run.as_slice().is_empty() {
        Ok(contents)
    } else {
        contents.push(text_of(run))?;
        Ok(contents)
    }
}

impl OpenElement {
    /// The element with all that it holds.
    pub fn into_content(self) -> Result<Content, NoMemory>
        ensures { IfOk result (λ c. view_content c ≡ tree_of (frame self)) }
    {
        let OpenElement {
            name,
            attributes,
            contents,
            run,
        } = self;
        let contents = flushed(contents, run)?;
        Ok(Content::Element {
            name,
            attributes,
            contents,
        })
    }

    /// The element with a child after what it holds.
    pub fn with_child(self, alloc: Global, child: Content) -> Result<OpenElement, NoMemory>
        ensures { IfOk result (λ e. frame e ≡ with_child (frame self) (view_content child)) }
    {
        let OpenElement {
            name,
            attributes,
            contents,
            run,
        } = self;
        let mut contents = flushed(contents, run)?;
        contents.push(child)?;
        Ok(OpenElement {
            name,
            attributes,
            contents,
            run: Vec::new(alloc),
        })
    }
}
