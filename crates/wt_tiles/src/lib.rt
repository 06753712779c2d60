//! The inline forms of a line but apostrophes, as MediaWiki's wikitext has them: links, categories
//! and media, external links and bare URLs, tags, switches, atoms and marks. `tiles` cuts a line
//! into them and the characters between them, exactly as the definition says.
#![tactic(auto)]

mod bracket;
mod context;
mod glyph;
mod known;
pub mod laws;
mod link;
mod partner;
mod read;
mod shape;
mod switch;
mod tag;
mod target;
mod tile;
mod url;

pub use context::Context;
pub use glyph::{Glyph, GlyphClass, run_len};
pub use link::{close_len, target_len};
pub use read::{MOST_PAIRS, shapes};
pub use shape::{Shape, TileKind};
pub use tag::{Name, Tag, TagShape, tag_at};
pub use target::{LinkKind, Target, target_of};
pub use tile::{Rest, Tile, glyphs_of, take_items, take_piece, tiles, tiles_in};
