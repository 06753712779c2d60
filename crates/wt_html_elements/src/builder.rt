ghost use Rattle.std.specs.Prelude.{◌≡◌, ◌<◌, ℕ, ◌++◌, ◌∷◌, [], OnOk, encode_utf8, length, true};
ghost use Rattle.wt_html_grammar.specs.Markup.{Markup, node, empty, more};
ghost use Rattle.wt_html_grammar.specs.Events.{calm, closed_into, put, with_open, add_bytes, with_value};
ghost use Rattle.wt_html_elements.specs.Held.{may_be_put, is_some_open, moved};
ghost use Rattle.wt_html_elements.specs.Built.{view_content, views, pairs, frame, building};
ghost use Rattle.wt_html_elements.specs.View.{first_name};

use crate::content::{Content, OpenElement};
use crate::tag::OpenTag;
use std::alloc::Global;
use std::mem;
use wt_html_grammar::Event;
use wt_span::NoMemory;

/// What is built: the innermost open element and those round it, the start tag that is read, and the
/// root where it is whole.
#[derive(Drop)]
pub struct Builder {
    pub inner: Option<OpenElement>,
    pub outer: Vec<OpenElement>,
    pub tag: OpenTag,
    pub root: Vec<Content>,
}

impl Builder {
    pub fn new(alloc: Global) -> Builder
        ensures { building result ≡ calm [] empty }
    {
        Builder {
            inner: None,
            outer: Vec::new(alloc),
            tag: OpenTag::new(alloc),
            root: Vec::new(alloc),
        }
    }

    /// Whether an element is open.
    pub fn has_open(&self) -> bool
        ensures { result ≡ is_some_open (building self.now).opened }
    {
        self.inner.is_some()
    }

    /// How many elements are open.
    pub fn depth(&self) -> usize
        ensures { result ≡ length (building self.now).opened }
    {
        match &self.inner {
            None => 0,
            Some(_) => self.outer.len() + 1,
        }
    }

    /// The name of the innermost element that is open; none where none is.
    pub fn innermost_name(&self) -> &[u8]
        ensures { result.now ≡ first_name (building self.now).opened }
    {
        match &self.inner {
            None => &[],
            Some(element) => element.name.as_slice(),
        }
    }

    fn push_open(&mut self, element: OpenElement) -> Result<(), NoMemory>
        ensures { OnOk result (building self.new ≡ with_open (building self.old) (frame element ∷ (building self.old).opened)) }
    {
        match mem::replace(&mut self.inner, Some(element)) {
            None => {
                self.outer.clear();
                Ok(())
            }
            Some(outer) => {
                self.outer.push(outer)?;
                Ok(())
            }
        }
    }

    fn open(&mut self, alloc: Global) -> Result<(), NoMemory>
        ensures { OnOk result (building self.new ≡ put (building self.old) Event.Opened) }
    {
        let (name, attributes) = self.tag.take(alloc)?;
        self.push_open(OpenElement {
            name,
            attributes,
            contents: Vec::new(alloc),
            run: Vec::new(alloc),
        })
    }

    fn text_byte(&mut self, byte: u8) -> Result<(), NoMemory>
        ensures { OnOk result (building self.new ≡ put (building self.old) (Event.Byte byte)) }
    {
        match &mut self.inner {
            None => {}
            Some(element) => element.run.push(byte)?,
        }
        Ok(())
    }

    fn text_char(&mut self, character: char) -> Result<(), NoMemory>
        ensures { OnOk result (building self.new ≡ put (building self.old) (Event.Char character)) }
    {
        let mut bytes = [0_u8; 4];
        let encoded = character.encode_utf8(&mut bytes);
        match &mut self.inner {
            None => {}
            Some(element) => element.run.extend_from_slice(encoded.as_bytes())?,
        }
        Ok(())
    }

    /// Takes bytes of a text at once.
    pub fn text_run(&mut self, run: &[u8]) -> Result<(), NoMemory>
        ensures { OnOk result (building self.new ≡ with_open (building self.old) (add_bytes (building self.old).opened run.now)) }
    {
        match &mut self.inner {
            None => {}
            Some(element) => element.run.extend_from_slice(run)?,
        }
        Ok(())
    }

    /// Takes bytes of a value at once.
    pub fn value_run(&mut self, run: &[u8]) -> Result<(), NoMemory>
        ensures { OnOk result (building self.new ≡ with_value (building self.old) ((building self.old).value ++ run.now)) }
    {
        self.tag.value.extend_from_slice(run)?;
        Ok(())
    }

    fn close_into(&mut self, alloc: Global, whole: Content) -> Result<(), NoMemory>
        ensures { OnOk result (building self.new ≡ closed_into (view_content whole) (building self.old).opened (building self.old).root) }
    {
        self.tag.clear();
        match self.inner.take() {
            None => {
                self.root.clear();
                self.root.push(whole)?;
            }
            Some(element) => {
                let element = element.with_child(alloc, whole)?;
                self.inner = Some(element);
            }
        }
        Ok(())
    }

    fn void(&mut self, alloc: Global) -> Result<(), NoMemory>
        ensures { OnOk result (building self.new ≡ put (building self.old) Event.Void) }
    {
        let (name, attributes) = self.tag.take(alloc)?;
        let contents = Vec::new(alloc);
        self.close_into(
            alloc,
            Content::Element {
                name,
                attributes,
                contents,
            },
        )
    }

    fn close(&mut self, alloc: Global) -> Result<(), NoMemory>
        ensures { OnOk result (building self.new ≡ put (building self.old) Event.Closed) }
    {
        match self.inner.take() {
            None => self.tag.clear(),
            Some(element) => {
                self.inner = self.outer.pop();
                let whole = element.into_content()?;
                self.close_into(alloc, whole)?;
            }
        }
        Ok(())
    }

    /// Takes what a byte says.
    pub fn put(&mut self, alloc: Global, event: Event) -> Result<(), NoMemory>
        requires { may_be_put (building self.old) event ≡ true }
        ensures { OnOk result (building self.new ≡ moved (building self.old) event) }
    {
        match event {
            Event::Quiet => Ok(()),
            Event::Byte(byte) => self.text_byte(byte),
            Event::ValueByte(byte) => {
                self.tag.value.push(byte)?;
                Ok(())
            }
            Event::NameBegin(byte) => self.tag.begin_name(byte),
            Event::Name(byte) => {
                self.tag.name.push(byte)?;
                Ok(())
            }
            Event::KeyBegin(byte) => self.tag.begin_key(byte),
            Event::Key(byte) => {
                self.tag.key.push(byte)?;
                Ok(())
            }
            Event::ValueBegin => {
                self.tag.value.clear();
                Ok(())
            }
            Event::ValueChar(character) => self.tag.value_char(character),
            Event::ValueEnd => self.tag.end_value(alloc),
            Event::Opened => self.open(alloc),
            Event::Void => self.void(alloc),
            Event::Char(character) => self.text_char(character),
            Event::Closed => self.close(alloc),
        }
    }

    /// The root that was read.
    pub fn root(&mut self) -> Content
        requires { 0 < length self.old.root.items }
        ensures { (t : Markup) → views self.old.root.items ≡ more t empty → view_content result ≡ t }
    {
        match self.root.pop() {
            Some(root) => root,
            None => unreachable!(),
        }
    }
}
