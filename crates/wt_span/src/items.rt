ghost use Rattle.std.specs.Prelude.{◌≡◌, map, List};

use crate::form::{Outer, Piece};
use crate::list::List;
use crate::range::Range;
use std::marker::Model;

/// The items of an expanded page, kept as pieces of one form and one origin each, with the page's
/// outermost calls and arguments, and the ranges of its text calls outside these.
///
/// Contracts see the list of the items: each byte of a character and each other form is one. What
/// the conditions of `new` say holds for every value.
#[derive(Debug)]
pub struct Items<'a> {
    pieces: List<Piece<'a>>,
    outer: List<Outer<'a>>,
    text_calls: List<Range>,
}

impl<'a> Model for Items<'a> {
    ghost use Rattle.std.specs.Prelude.{map};
    ghost use Rattle.wt_span.specs.Origins.{Expanded};

    ghost Value = { Expanded };

    ghost use Rattle.wt_span.specs.Items.{items, AreFew};
    ghost use Rattle.wt_span.specs.Origins.{outer_call, span_of, AreItems};

    ghost view = { λ it. record { items = items it.pieces; outer = map outer_call it.outer; text_calls = map span_of it.text_calls } };

    ghost invariant = { λ it. AreItems it.pieces (map outer_call it.outer) (map span_of it.text_calls) × AreFew (items it.pieces) };
}

// One call wherever items are let go.
impl Drop for Items<'_> {
    fn drop(self) {
        let Items {
            pieces: _,
            outer: _,
            text_calls: _,
        } = self;
    }
}

impl<'a> Items<'a> {
    ghost use Rattle.wt_span.specs.Items.{items, AreFew};
    ghost use Rattle.wt_span.specs.Origins.{outer_call, span_of, AreItems};

    /// The items of pieces, which takes no memory.
    pub fn new(
        pieces: List<Piece<'a>>,
        outer: List<Outer<'a>>,
        text_calls: List<Range>,
    ) -> Items<'a>
        requires sound { AreItems pieces (map outer_call outer) (map span_of text_calls) }
        requires few { AreFew (items pieces) }
        ensures items { result.items ≡ items pieces.entry }
        ensures outer { result.outer ≡ map outer_call outer.entry }
        ensures text_calls { result.text_calls ≡ map span_of text_calls }
    {
        Items {
            pieces,
            outer,
            text_calls,
        }
    }

    /// The pieces, in the order of the items.
    pub fn pieces(&self) -> &[Piece<'a>]
        ensures items { items result.now ≡ self.now.items }
        ensures sound { AreItems result.now self.now.outer self.now.text_calls }
        ensures few { AreFew (items result.now) }
    {
        self.pieces.as_slice()
    }

    /// The outermost calls and arguments in the order of their first bytes: entry k, from 0, is
    /// what `Origin::Call(k)` names.
    pub fn outer(&self) -> &[Outer<'a>]
        ensures { map outer_call result.now ≡ self.now.outer }
    {
        self.outer.as_slice()
    }

    /// The text calls that lie in no outermost call or argument, in the order of their first
    /// bytes, each from its first brace to its last.
    pub fn text_calls(&self) -> &[Range]
        ensures { map span_of result.now ≡ self.now.text_calls }
    {
        self.text_calls.as_slice()
    }
}
