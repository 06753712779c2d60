//! Selective serialisation: the new page of an edited page. Of each block that was marked the inside is
//! spelled anew, and every other byte stays as it was.
#![tactic(auto)]

mod differing;
mod editing;
mod group_fault;
mod laws;
mod refusal;
mod tangled_block;

pub use differing::{first_differing, first_differing_indexed};
pub use editing::edit;
pub use laws::{
    contents_alone, edit_is_a_splice, groups_alone_tangle, nothing_changes, outside_stands,
    sections_make_no_difference, unmarked_edit_is_the_page,
};
pub use refusal::EditRefusal;
pub use tangled_block::tangled;
pub use wt_content::ContentWhy;
