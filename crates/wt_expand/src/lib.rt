//! The items of a page: its characters, atoms and invisible marks, each with where it comes from.
//! Pages without calls are read so far; what a page with calls means is defined in `specs/`.
#![tactic(auto)]

mod laws;
mod limits;
mod page;
mod piece;
mod shown;

pub use laws::{
    absent_page_is_a_link, arguments_fetch_nothing, cut_page_is_refused, failed_fetch_is_next,
    functions_ask_in_turn, hangs_on_what_is_fetched, last_value_counts, names_are_asked_once,
    origins_join, pieces_have_places, shows_what_is_given, told_names_are_fetched, trimmed_ends,
    whole_page, without_calls, work_stops_at_its_first_refusal,
};
pub use limits::{MOST_COST, MOST_TEMPLATES};
pub use page::page_items;
pub use piece::form_of;
pub use shown::{expanded, text_shown};
