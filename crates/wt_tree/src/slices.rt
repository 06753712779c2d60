//! Texts that follow one another, without a list where one is enough.

ghost use Rattle.std.specs.Prelude.{◌≡◌, [], ◌∷◌, IfOk};

use std::alloc::Global;
use std::marker::Model;
use std::slice;
use wt_span::{List, NoMemory, Text};

#[derive(Drop)]
enum Held<'a> {
    Nothing,
    One(Text<'a>),
    Many(List<Text<'a>>),
}

/// Texts that follow one another: none, one, or a list of them.
#[derive(Drop)]
pub struct Slices<'a> {
    held: Held<'a>,
}

impl<'a> Model for Slices<'a> {
    ghost use Rattle.std.specs.Prelude.{List};
    ghost use Rattle.wt_span.specs.declared.text.Text.{Text};
    ghost use Rattle.wt_tree.specs.Held.{texts_held};

    ghost Value = { List Text };

    ghost view = { λ s. texts_held s.held };
}

impl<'a> Slices<'a> {
    /// No text.
    pub fn none() -> Slices<'a>
        ensures { result ≡ [] }
    {
        Slices {
            held: Held::Nothing,
        }
    }

    /// One text.
    pub fn one(text: Text<'a>) -> Slices<'a>
        ensures { result ≡ text.entry ∷ [] }
    {
        Slices {
            held: Held::One(text),
        }
    }

    /// The texts of a list.
    pub fn of_list(texts: List<Text<'a>>) -> Slices<'a>
        ensures { result ≡ texts.entry }
    {
        match texts.as_slice() {
            [] => Slices::none(),
            [text] => Slices::one(*text),
            _ => Slices {
                held: Held::Many(texts),
            },
        }
    }

    /// The texts, one after another.
    pub fn as_slice(&self) -> &[Text<'a>]
        ensures { result.now ≡ self.now }
    {
        match &self.held {
            Held::Nothing => &[],
            Held::One(text) => slice::from_ref(text),
            Held::Many(texts) => texts.as_slice(),
        }
    }

    /// The texts as a list.
    pub fn into_list(self, alloc: Global) -> Result<List<Text<'a>>, NoMemory>
        ensures { IfOk result (λ l. l ≡ self.entry) }
    {
        match self.held {
            Held::Nothing => Ok(List::new(alloc)),
            Held::One(text) => {
                let texts = Vec::from_array(alloc, [text])?;
                Ok(List::from_vec(texts))
            }
            Held::Many(texts) => Ok(texts),
        }
    }
}
