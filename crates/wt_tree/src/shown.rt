//! The characters that a text or an entity shows.

ghost use Rattle.std.specs.Prelude.{◌≡◌, []};

use std::marker::Model;
use wt_span::Str;

#[derive(Drop)]
enum Characters<'a> {
    Written(&'a str),
    Made(Str),
}

/// The characters that a text or an entity shows: nearly always a slice of what is read.
#[derive(Drop)]
pub struct Shown<'a> {
    characters: Characters<'a>,
}

impl<'a> Model for Shown<'a> {
    ghost use Rattle.std.specs.Prelude.{List, ℕ};
    ghost use Rattle.wt_tree.specs.Characters.{bytes_shown};

    ghost Value = { List ℕ };

    ghost view = { λ s. bytes_shown s.characters };
}

impl<'a> Shown<'a> {
    /// No characters.
    pub fn none() -> Shown<'a>
        ensures { result ≡ [] }
    {
        Shown {
            characters: Characters::Written(""),
        }
    }

    /// Characters as they are written.
    pub fn written(text: &'a str) -> Shown<'a>
        ensures { result ≡ text.entry.now }
    {
        Shown {
            characters: Characters::Written(text),
        }
    }

    /// Characters that were put together.
    pub fn made(text: Str) -> Shown<'a>
        ensures { result ≡ text }
    {
        Shown {
            characters: Characters::Made(text),
        }
    }

    /// The characters, as text.
    pub fn as_str(&self) -> &str
        ensures { result.now ≡ self.now }
    {
        match &self.characters {
            Characters::Written(text) => *text,
            Characters::Made(text) => text.as_str(),
        }
    }
}
