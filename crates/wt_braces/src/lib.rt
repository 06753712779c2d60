//! Braces, matched: the calls and arguments of a text by their places, with their parts. The rules
//! are those of MediaWiki's preprocessor for `{{`, `{{{`, `|` and `=`.
#![tactic(auto)]

mod call;
mod laws;
mod matching;
mod nesting;
mod parts;
mod read;

pub use call::{BraceRefusal, Call, PartAt};
pub use laws::{
    calls_are_alone, lexemes_are_adjacent, lexemes_have_braces, members_have_places,
    nesting_is_depth, one_end, widths_stay,
};
pub use read::match_braces;
