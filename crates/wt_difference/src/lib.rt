//! The difference of an edited page: which places of the page were changed, found by the numbers of its
//! nodes, without marks, and said by the marks that the edited tree gets.
#![tactic(auto)]

mod differing;
mod insides;
mod laws;
mod remarking;
mod tokens;

pub use differing::{same_children, same_inside, stays_in};
pub use insides::{Child, ends_inside, has_inside, held, inside, inside_count, is_block_part};
pub use laws::{comparisons, marks_alone, nothing_differs};
pub use remarking::remark;
pub use tokens::are_same;
