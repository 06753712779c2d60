//! What bodies show, child by child, and the first child in which two of them differ; whether comments and
//! include tags stay. In an edited tree a group shows what the page's group of its number does.
#![tactic(auto)]

mod children;
mod compare;
mod kept_marks;
mod laws;
mod shown_node;
mod tally;

pub use children::{Child, held_nodes, shown_nodes};
pub use compare::{first_of_children, shows_same};
pub use kept_marks::keeps_marks;
pub use laws::{differing_is_first, marks_show_nothing, nodes_are_told};
pub use shown_node::ShownNode;
