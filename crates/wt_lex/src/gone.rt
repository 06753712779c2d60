ghost use Rattle.std.specs.Prelude.{◌≡◌, ◌+◌, ◌≤◌, length, drop, IfOk, IfSome, IsTrue, None};
ghost use Rattle.std.specs.List.{All};
ghost use Rattle.wt_span.specs.Bytes.{lower};
ghost use Rattle.wt_span.specs.Tags.{to_closing, with_inside};
ghost use Rattle.wt_lex.specs.TagView.{tag_of};
ghost use Rattle.wt_lex.specs.GoneNames.{IsGone};

use crate::tag::{ReadTag, is_same_name, to_closing};
use std::alloc::Global;
use std::marker::Model;
use wt_span::{List, NoMemory, rest_of};

/// From a place on, no closing tag of a name comes.
#[derive(Clone, Copy, Debug)]
pub struct Gone<'a> {
    pub name: &'a [u8],
    pub from: usize,
}

/// A text in which closing tags are sought. It remembers which are sought in vain, so that no text
/// is read to its end again and again.
#[derive(Debug, Drop)]
pub struct Closings<'a> {
    text: &'a [u8],
    gone: List<Gone<'a>>,
}

impl<'a> Model for Closings<'a> {
    ghost use Rattle.std.specs.Prelude.{ℕ, List};
    ghost use Rattle.std.specs.List.{All};

    ghost Value = { List ℕ };

    ghost use Rattle.wt_lex.specs.GoneNames.{IsGone};

    ghost view = { λ c. c.text.now };

    ghost invariant = { λ c. All (IsGone c.text.now) c.gone };
}

impl<'a> Closings<'a> {
    /// The text's closing tags; nothing is sought yet.
    pub fn new(alloc: Global, text: &'a [u8]) -> Closings<'a>
        ensures { result ≡ text.entry.now }
    {
        Closings {
            text,
            gone: List::new(alloc),
        }
    }

    pub fn text(&self) -> &'a [u8]
        ensures { result.now ≡ self.now }
    {
        self.text
    }

    /// How many bytes there are from a place up to and with the next closing tag of a name.
    pub fn next(&mut self, name: &'a [u8], from: usize) -> Result<Option<usize>, NoMemory>
        requires { from ≤ length self.old }
        ensures kept { self.new ≡ self.old }
        ensures value { IfOk result (λ o. o ≡ to_closing (lower name.entry.now) (drop from self.old)) }
        ensures within { IfOk result (λ o. IfSome o (λ n. from + n ≤ length self.old)) }
    {
        if is_gone(self.text, self.gone.as_slice(), name, from) {
            return Ok(None);
        }
        let found = to_closing(name, rest_of(self.text, from));
        if found.is_none() {
            self.gone.push(Gone { name, from })?;
        }
        Ok(found)
    }

    /// How many bytes a tag takes that begins at a place, with its inside.
    #[tactic(auto, unfolding(wt_span::specs::Tags::with_inside))]
    pub fn with_inside(&mut self, tag: ReadTag<'a>, at: usize) -> Result<Option<usize>, NoMemory>
        requires { at + tag.len ≤ length self.old }
        ensures kept { self.new ≡ self.old }
        ensures value { IfOk result (λ o. o ≡ with_inside (tag_of tag.entry) (drop at self.old)) }
        ensures within { IfOk result (λ o. IfSome o (λ n. (tag.entry.len ≤ n) × (at + n ≤ length self.old))) }
    {
        if tag.alone {
            return Ok(Some(tag.len));
        }
        let _text = self.text();
        match self.next(tag.name, at + tag.len)? {
            Some(n) => Ok(Some(tag.len + n)),
            None => Ok(None),
        }
    }
}

/// Whether it is known that no closing tag of a name comes from a place on.
fn is_gone(text: &[u8], gone: &[Gone<'_>], name: &[u8], from: usize) -> bool
    requires { All (IsGone text.now) gone.now }
    ensures { IsTrue result → to_closing (lower name.now) (drop from text.now) ≡ None }
{
    let _text = text;
    for known in gone {
        if known.from <= from && is_same_name(known.name, name) {
            return true;
        }
    }
    false
}
