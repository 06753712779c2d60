//! Laws of calls of the program (`wt_pagetool`), in other words than the definitions that its contracts
//! cite: what the number with which a call ends says, what calls of devices do together, and what a
//! call that ended so can have written and kept. And laws of the places in which a page may be written
//! anew (`wt_places`).
#![tactic(auto)]

mod changed;
mod counts;
mod devices;
mod ends;
mod in_turn;
mod kept;
mod left_alone;
mod refusals;
mod statuses;
mod staying;
mod unchanged;
mod written;

pub use changed::{
    changed_insides_are_places, changed_insides_in_nodes_are_places, what_comes_has_a_place,
    what_comes_into_nodes_has_a_place, what_goes_lies_in_a_place,
};
pub use counts::counts_are_of_numbers;
pub use devices::{inputs_are_fed_whole, inputs_give_a_front, uses_of_sinks_add_up};
pub use ends::{calls_end_in_one_way, faults_are_of_one_device};
pub use in_turn::{
    children_in_order_stay, fewest_count_as_moved, first_children_stay, no_choice_takes_more,
    no_other_choice_is_first_of_most, turns_rise,
};
pub use kept::unedited_nodes_keep_their_bytes;
pub use left_alone::{
    unedited_blocks_have_no_place, unedited_nodes_have_no_place, untouched_bytes_stay,
};
pub use refusals::late_refusals_are_of_edits;
pub use statuses::statuses_are_told_by_numbers;
pub use staying::{only_own_nodes_may_stay, own_nodes_may_stay, unmoved_blocks_stay};
pub use unchanged::own_html_is_unchanged;
pub use written::what_is_written_is_one;
