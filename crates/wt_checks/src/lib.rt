//! The checks of an edit that compare two trees alone, the page's and the edited one: unknown,
//! repeated and moved numbers, changed groups, marks where none may be, and changes without a mark.
#![tactic(auto)]

mod alike;
mod checking;
mod groups;
mod ids;
mod index;
mod laws;
mod marks;
mod number;
mod read;
mod refusal;
mod shown;
mod unmarked;
mod visit;
mod written;

pub use alike::{same_attrs, same_data, same_kind};
pub use checking::{check, check_nodes, numbered_nodes};
pub use groups::has_mark;
pub use index::original;
pub use laws::{
    children_in_order, comparisons, edited_is_the_page, first_refusal, nodes_as_checked,
    nodes_without_marks, only_the_page_is_taken, sections_make_no_difference, what_is_kept,
};
pub use marks::is_children;
pub use number::NodeNumber;
pub use refusal::TreeRefusal;
pub use shown::{is_compared, is_text, same_character};
pub use visit::{Visit, is_content, preorder};
