//! A text with the place up to which it is read.
ghost use Rattle.std.specs.Prelude.{◌≡◌, ◌≤◌, ◌<◌, ◌-◌, ℕ, List, Bool, true, false, slice_range};
ghost use Rattle.wt_span.specs.Slice.{bytes_of, end_of, start_of};
ghost use Rattle.wt_span.specs.declared.form.Mode.{Mode as TextMode};
ghost use Rattle.wt_span.specs.Braces.{Member as TextMember};
ghost use Rattle.wt_transclusion.specs.Cursors.{IsOn, starts};
ghost use Rattle.wt_transclusion.specs.Reads.{IsRead};
ghost use Rattle.wt_transclusion.specs.Steps.{IsStretchOf, AnswersNext};

use wt_span::{Range, Text};
use wt_transclusion::{Cursor, Next, ReadText};

/// A text and a place of it.
#[derive(Clone, Copy, Debug)]
pub struct Reader<'a> {
    pub text: ReadText<'a>,
    pub cursor: Cursor,
    ghost on: { IsOn text cursor },
}

impl<'a> Reader<'a> {
    ghost use Rattle.wt_template_stack.specs.Measures.{bytes_left};
    ghost use Rattle.wt_template_stack.specs.Readers.{CanBeCut, IsReading};

    /// The start of a text.
    pub fn start(text: ReadText<'a>) -> Reader<'a>
        ensures { (mode : TextMode) (bytes : List ℕ) → IsRead mode bytes text.entry → IsReading mode bytes result 0 true }
    {
        Reader {
            text,
            cursor: Cursor::start(),
        }
    }

    /// A later place: the next one, where `to` isn't later.
    pub fn seek(self, to: u32) -> Reader<'a>
        ensures later { bytes_left result ≤ bytes_left self.entry - 1 }
        ensures reading { (mode : TextMode) (bytes : List ℕ) (p : ℕ) (s : Bool) → IsReading mode bytes self.entry p s → p < to
            → IsReading mode bytes result to (starts bytes to) }
    {
        let at = to.max(self.cursor.at.saturating_add(1));
        Reader {
            text: self.text,
            cursor: self.cursor.seek(self.text, at),
        }
    }

    /// A later place that comes after braces, and so at no start of a line.
    pub fn within(self, to: u32) -> Reader<'a>
        ensures later { bytes_left result ≤ bytes_left self.entry - 1 }
        ensures reading { (mode : TextMode) (bytes : List ℕ) (p : ℕ) (s : Bool) → IsReading mode bytes self.entry p s → p < to
            → IsReading mode bytes result to false }
    {
        let reader = self.seek(to);
        let mut cursor = reader.cursor;
        cursor.at_start = false;
        Reader {
            text: reader.text,
            cursor,
        }
    }

    /// Whether no byte is left.
    pub fn is_done(self) -> bool
        ensures none { result ≡ true → bytes_left self.entry ≡ 0 }
        ensures some { result ≡ false → 0 < bytes_left self.entry }
    {
        self.text.text.len() <= self.cursor.at as usize
    }

    /// Whether bytes are left in front of a place.
    pub fn is_before(self, end: u32) -> bool
        ensures before { result ≡ true → self.entry.cursor.at < end }
        ensures some { result ≡ true → 0 < bytes_left self.entry }
        ensures none { result ≡ false → self.entry.cursor.at < end → bytes_left self.entry ≡ 0 }
    {
        self.cursor.at < end && !self.is_done()
    }

    /// What is here in front of the place `end`.
    pub fn next(self, end: u32) -> Next<'a>
        requires { self.cursor.at < end }
        ensures { (mode : TextMode) (bytes : List ℕ) (p : ℕ) (s : Bool) (xs : List TextMember) → IsReading mode bytes self.entry p s
            → IsStretchOf mode bytes p end xs → AnswersNext mode bytes p end xs result }
    {
        self.cursor.next(self.text, end)
    }

    /// The bytes between two places at which the text can be cut. Where it can't, there are none.
    pub fn slice(self, from: u32, to: u32) -> Text<'a>
        ensures bytes { CanBeCut self.entry.text.text.now from to → bytes_of result ≡ slice_range self.entry.text.text.now from to }
        ensures start { CanBeCut self.entry.text.text.now from to → start_of result ≡ from }
        ensures end { CanBeCut self.entry.text.text.now from to → end_of result ≡ to }
    {
        let text = self.text.text;
        if from > to
            || !text.is_char_boundary(from as usize)
            || !text.is_char_boundary(to as usize)
        {
            return Text::new("", 0);
        }
        Text::new(text, 0).slice(Range {
            start: from,
            end: to,
        })
    }
}
