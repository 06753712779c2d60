//! The lexemes of wikitext: comments, raw tags, include tags, entities and signs, as MediaWiki's
//! preprocessor takes them, each as soon as it begins. What the layers above may use: `lex` gives
//! exactly the lexemes that the definition names, each where the one before ends.
#![tactic(auto)]

mod entity;
mod gone;
mod include;
mod laws;
mod lexeme;
mod scan;
mod sign;
mod tag;

pub use entity::{entity_at, read_entity};
pub use laws::{one_reading, sign_widths, whole_forms};
pub use lexeme::Lexeme;
pub use scan::lex;
pub use tag::{ReadTag, closing_len, closing_tag, is_same_name, opening_tag};
pub use wt_span::{LexKind, Mode};
