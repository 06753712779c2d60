//! What was found of the page so far.
ghost use Rattle.std.specs.Prelude.{◌≡◌, ◌<◌, ◌∷◌, ◌++◌, [], ℕ, List, None, true, false, IfOk, OnOk, drop, length, map, take};
ghost use Rattle.wt_span.specs.Slice.{bytes_of, start_of, end_of};
ghost use Rattle.wt_span.specs.Items.{items, items_by, items_of};
ghost use Rattle.wt_span.specs.Origins.{span_of};
ghost use Rattle.wt_braces.specs.Views.{part_of};
ghost use Rattle.wt_expand.specs.PageCalls.{outer, own, text_call};
ghost use Rattle.wt_expansion.specs.Calls.{outer_of};
ghost use Rattle.wt_expansion.specs.Made.{Appends, AppendsCall};
ghost use Rattle.wt_expansion.specs.Walks.{Adds};

use std::alloc::Global;
use wt_braces::PartAt;
use wt_span::{ItemForm, List, NoMemory, Origin, Outer, Piece, Range, Str, Text, rest_of};
use wt_transclusion::Braces;

/// The pieces, the outermost calls and the text calls of the page up to a place.
#[derive(Drop)]
pub struct Collected<'a> {
    pub pieces: Vec<Piece<'a>>,
    pub outer: Vec<Outer<'a>>,
    pub text_calls: Vec<Range>,
}

/// How much was found at some time.
#[derive(Clone, Copy, Debug)]
pub struct Mark {
    pub pieces: usize,
    pub outer: usize,
    pub text_calls: usize,
}

/// The places of the parts of a call.
fn part_ranges(alloc: Global, parts: &[PartAt]) -> Result<List<Range>, NoMemory>
    ensures { IfOk result (λ rs. map span_of rs ≡ map (λ p. (p.from, p.to)) (map part_of parts.now)) }
{
    let mut ranges = List::new(alloc);
    for part in parts {
        ranges.push(part.at)?;
    }
    Ok(ranges)
}

/// The places of the `=` that end the names of parts.
fn name_ends(alloc: Global, parts: &[PartAt]) -> Result<List<Option<u32>>, NoMemory>
    ensures { IfOk result (λ es. es ≡ map (λ p. p.equals_at) (map part_of parts.now)) }
{
    let mut ends = List::new(alloc);
    for part in parts {
        ends.push(part.equals)?;
    }
    Ok(ends)
}

/// Whether a piece gives no item.
fn is_empty(piece: &Piece<'_>) -> bool
    ensures none { result ≡ true → items_of piece.now ≡ [] }
    ensures some { result ≡ false → 0 < length (items_of piece.now) }
{
    matches!(piece.form, ItemForm::Chars) && piece.text.as_str().is_empty()
}

/// Appends a piece of an outermost call.
fn push_one<'a>(pieces: &mut Vec<Piece<'a>>, number: u32, piece: &Piece<'a>) -> Result<(), NoMemory>
    ensures { OnOk result (Appends number (piece.now ∷ []) pieces.old.items pieces.new.items) }
{
    if is_empty(piece) {
        return Ok(());
    }
    pieces.push(Piece {
        text: piece.text,
        form: piece.form,
        origin: Origin::Call(number),
    })?;
    Ok(())
}

/// Appends what an outermost call gives, piece by piece.
fn push_called<'a>(
    pieces: &mut Vec<Piece<'a>>,
    number: u32,
    given: &[Piece<'a>],
) -> Result<(), NoMemory>
    ensures { OnOk result (Appends number given.now pieces.old.items pieces.new.items) }
{
    for piece in given {
        push_one(pieces, number, piece)?;
    }
    Ok(())
}

/// Appends what an outermost call gives, or a mark where it gives nothing.
fn push_given<'a>(
    pieces: &mut Vec<Piece<'a>>,
    number: u32,
    source: Text<'a>,
    given: &[Piece<'a>],
) -> Result<(), NoMemory>
    ensures { OnOk result (AppendsCall number (bytes_of source.entry) (items given.now) pieces.old.items pieces.new.items) }
{
    let before = pieces.len();
    push_called(pieces, number, given)?;
    if pieces.len() != before {
        return Ok(());
    }
    pieces.push(Piece {
        text: source,
        form: ItemForm::EmptyCall,
        origin: Origin::Call(number),
    })?;
    Ok(())
}

impl<'a> Collected<'a> {
    pub fn new(alloc: Global) -> Collected<'a>
        ensures pieces { result.pieces.items ≡ [] }
        ensures outer { result.outer.items ≡ [] }
        ensures text_calls { result.text_calls.items ≡ [] }
    {
        Collected {
            pieces: Vec::new(alloc),
            outer: Vec::new(alloc),
            text_calls: Vec::new(alloc),
        }
    }

    pub fn mark(&self) -> Mark
        ensures pieces { result.pieces ≡ length self.now.pieces.items }
        ensures outer { result.outer ≡ length self.now.outer.items }
        ensures text_calls { result.text_calls ≡ length self.now.text_calls.items }
    {
        Mark {
            pieces: self.pieces.len(),
            outer: self.outer.len(),
            text_calls: self.text_calls.len(),
        }
    }

    /// The pieces from a number on.
    pub fn pieces_from(&self, from: usize) -> &[Piece<'a>]
        ensures { result.now ≡ drop from self.now.pieces.items }
    {
        rest_of(self.pieces.as_slice(), from.min(self.pieces.len()))
    }

    /// Only what was found up to a time is left.
    pub fn back_to(&mut self, mark: Mark)
        ensures pieces { self.new.pieces.items ≡ take mark.pieces self.old.pieces.items }
        ensures outer { self.new.outer.items ≡ take mark.outer self.old.outer.items }
        ensures text_calls { self.new.text_calls.items ≡ take mark.text_calls self.old.text_calls.items }
    {
        self.pieces.truncate(mark.pieces);
        self.outer.truncate(mark.outer);
        self.text_calls.truncate(mark.text_calls);
    }

    /// A piece of the page itself.
    pub fn push_own(&mut self, text: Text<'a>, form: ItemForm) -> Result<(), NoMemory>
        ensures { OnOk result (0 < length (items_by form None (bytes_of text.entry))
            → Adds self.old self.new (start_of text.entry) (own (items_by form None (bytes_of text.entry)) ∷ []) (end_of text.entry)) }
    {
        self.pieces.push(Piece {
            text,
            form,
            origin: Origin::Page(text.range()),
        })?;
        Ok(())
    }

    /// A call that may be text.
    pub fn push_text_call(&mut self, at: Range) -> Result<(), NoMemory>
        ensures { OnOk result ((place : ℕ) → Adds self.old self.new place (text_call (span_of at) ∷ []) place) }
    {
        self.text_calls.push(at)?;
        Ok(())
    }

    /// An outermost call, with what it gives. Its pieces have its number, of which 32 bits are kept; a
    /// page has fewer calls.
    pub fn push_outer(
        &mut self,
        alloc: Global,
        source: Text<'a>,
        call: Braces<'a>,
        href: Option<Str>,
        given: &[Piece<'a>],
    ) -> Result<(), NoMemory>
        ensures { OnOk result (0 < length (bytes_of source.entry)
            → Adds self.old self.new (start_of source.entry) (outer (outer_of source.entry call.entry href) (items given.now) ∷ [])
            (end_of source.entry)) }
    {
        let number = self.outer.len().min(u32::MAX as usize) as u32;
        push_given(&mut self.pieces, number, source, given)?;
        self.outer.push(Outer {
            source,
            argument: call.argument,
            parts: part_ranges(alloc, call.parts)?,
            equals: name_ends(alloc, call.parts)?,
            href,
        })?;
        Ok(())
    }
}
