//! What a node has of its source.

ghost use Rattle.std.specs.Prelude.{◌≡◌, [], IfOk};
ghost use Rattle.wt_tree.specs.Sourced.{leaf_sourced, round_sourced};

use crate::shown::Shown;
use crate::slices::Slices;
use std::alloc::Global;
use std::marker::Model;
use wt_span::{NoMemory, Text};

/// All that a node may have of its source at once, as edited HTML may say.
#[derive(Drop)]
struct All<'a> {
    opening: Slices<'a>,
    closing: Slices<'a>,
    own: Slices<'a>,
    shown: Shown<'a>,
}

#[derive(Drop)]
enum Parts<'a> {
    Leaf(Slices<'a>, Shown<'a>),
    Round(Slices<'a>, Slices<'a>),
    All(Box<All<'a>>),
}

/// What a node has of its source: a leaf its own source and the characters that it shows, any other
/// node its delimiters.
pub struct Source<'a> {
    parts: Parts<'a>,
}

// One call wherever a node is let go, in place of one for each of its texts.
impl Drop for Source<'_> {
    fn drop(self) {
        let Source { parts: _ } = self;
    }
}

impl<'a> Model for Source<'a> {
    ghost use Rattle.wt_tree.specs.Parts.{sourced};
    ghost use Rattle.wt_tree.specs.Sourced.{Sourced};

    ghost Value = { Sourced };

    ghost view = { λ s. sourced s.parts };
}

impl<'a> Source<'a> {
    /// Nothing.
    pub fn none() -> Source<'a>
        ensures { result ≡ round_sourced [] [] }
    {
        Source::round(Slices::none(), Slices::none())
    }

    /// That of a leaf.
    pub fn leaf(own: Slices<'a>, shown: Shown<'a>) -> Source<'a>
        ensures { result ≡ leaf_sourced own.entry shown.entry }
    {
        Source {
            parts: Parts::Leaf(own, shown),
        }
    }

    /// The delimiters of a node that isn't a leaf.
    pub fn round(opening: Slices<'a>, closing: Slices<'a>) -> Source<'a>
        ensures { result ≡ round_sourced opening.entry closing.entry }
    {
        Source {
            parts: Parts::Round(opening, closing),
        }
    }

    /// All four.
    pub fn of(
        alloc: Global,
        opening: Slices<'a>,
        closing: Slices<'a>,
        own: Slices<'a>,
        shown: Shown<'a>,
    ) -> Result<Source<'a>, NoMemory>
        ensures { IfOk result
            (λ s. s ≡ record { opening = opening.entry; closing = closing.entry; own = own.entry; shown = shown.entry }) }
    {
        if opening.as_slice().is_empty() && closing.as_slice().is_empty() {
            return Ok(Source::leaf(own, shown));
        }
        if own.as_slice().is_empty() && shown.as_str().is_empty() {
            return Ok(Source::round(opening, closing));
        }
        let all = Box::new(
            alloc,
            All {
                opening,
                closing,
                own,
                shown,
            },
        )?;
        Ok(Source {
            parts: Parts::All(all),
        })
    }

    /// The opening delimiter.
    pub fn opening(&self) -> &[Text<'a>]
        ensures { result.now ≡ self.now.opening }
    {
        match &self.parts {
            Parts::Leaf(_, _) => &[],
            Parts::Round(opening, _) => opening.as_slice(),
            Parts::All(all) => all.opening.as_slice(),
        }
    }

    /// The closing delimiter.
    pub fn closing(&self) -> &[Text<'a>]
        ensures { result.now ≡ self.now.closing }
    {
        match &self.parts {
            Parts::Leaf(_, _) => &[],
            Parts::Round(_, closing) => closing.as_slice(),
            Parts::All(all) => all.closing.as_slice(),
        }
    }

    /// The source of a leaf.
    pub fn own(&self) -> &[Text<'a>]
        ensures { result.now ≡ self.now.own }
    {
        match &self.parts {
            Parts::Leaf(own, _) => own.as_slice(),
            Parts::Round(_, _) => &[],
            Parts::All(all) => all.own.as_slice(),
        }
    }

    /// The characters of a text or an entity.
    pub fn shown(&self) -> &str
        ensures { result.now ≡ self.now.shown }
    {
        match &self.parts {
            Parts::Leaf(_, shown) => shown.as_str(),
            Parts::Round(_, _) => "",
            Parts::All(all) => all.shown.as_str(),
        }
    }

    /// The source of a leaf, by itself.
    pub fn into_own(self) -> Slices<'a>
        ensures { result ≡ self.entry.own }
    {
        let Source { parts } = self;
        match parts {
            Parts::Leaf(own, _) => own,
            Parts::Round(_, _) => Slices::none(),
            Parts::All(all) => {
                let All { own, .. } = Box::into_inner(all);
                own
            }
        }
    }
}
