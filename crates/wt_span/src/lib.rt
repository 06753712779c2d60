//! What every layer shares: texts with their place, lists and texts that contracts see as lists,
//! ranges that follow one another, the origin of an item, a counter of steps, and the one answer
//! that any call may give for want of memory.
#![tactic(auto)]

mod form;
mod function;
mod items;
mod laws;
mod limits;
mod list;
mod memory;
mod origin;
mod range;
mod slice;
mod steps;
mod str;
mod tag_name;
mod text;

pub use form::{ItemForm, LexKind, Mode, Outer, Piece};
pub use function::Function;
pub use items::Items;
pub use laws::one_cut;
pub use limits::{HTML_BYTES, PAGE_BYTES};
pub use list::List;
pub use memory::NoMemory;
pub use origin::Origin;
pub use range::{Range, Tiles};
pub use slice::{front_of, rest_of};
pub use steps::Steps;
pub use str::Str;
pub use tag_name::TagName;
pub use text::Text;
