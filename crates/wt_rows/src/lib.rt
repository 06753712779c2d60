//! The rows of a page, made portion by portion from its pieces, and what a row gives by itself: the
//! prefix of a list's line, the cells of a line, the delimiters of a table and of its rows. Nodes and
//! the gaps between them are stretches.
#![tactic(auto)]

mod cell;
mod cuts;
mod delimiter;
mod front;
mod group;
mod part;
mod portion;
mod prefix;
mod row;
mod rows;
mod stretch;
mod unit;
mod unread;

pub use cell::row_cells;
pub use cuts::{cut, cut_with};
pub use delimiter::gaps;
pub use front::Front;
pub use group::{Group, captions_len, going_len, groups};
pub use part::{opened_row, whole_table};
pub use portion::next_portion;
pub use prefix::prefix_of;
pub use row::{RowAt, between};
pub use rows::PageRows;
pub use stretch::{
    StretchAt, before, enclosed, opened_by, opened_line, with_separators, with_stretches,
};
pub use unit::{plain_len, unit_len};
pub use unread::Unread;
