//! Tables by themselves: how many are open, and the cells of a line.
//!
//! `behind` counts the tables that are open, and `cells` gives the cells of a line. How far tables go
//! and their parts (captions, rows, cells) are definitions over their lines, for the layer that joins
//! the blocks.
#![tactic(auto)]

mod cell;
mod cursor;
mod laws;
mod scan;
mod table;

pub use cell::{CellAt, cells};
pub use laws::{cells_join, lines_of_cells, one_cut_of_cells, parts_join};
pub use table::behind;
