//! Laws of how pages are read, in other words than the definitions: trees and sections, tiles, bold and
//! italic, places; the work of expanding a page, devices; what is read of what others wrote, and of
//! HTML in pieces.
#![tactic(auto)]

mod asked;
mod calls;
mod data_mw;
mod edit_marks;
mod elements;
mod faults;
mod findings;
mod folder;
mod gather;
mod group;
mod heads;
mod html_elements;
mod html_pages;
mod kinds;
mod lexemes;
mod lines;
mod made;
mod nodes;
mod pages;
mod preorder;
mod sections;
mod styles;
mod switch;
mod table;
mod templates;
mod texts;
mod tiles;
mod trim;
mod walks;
mod work;

pub use asked::asked_names_stay;
pub use calls::the_first_deep_call_is_told;
pub use data_mw::{only_written_data_mw, only_written_data_parsoid};
pub use edit_marks::marks_are_read;
pub use elements::elements_show_the_same;
pub use faults::counts_tell_faults;
pub use findings::{
    braces_are_found, brackets_are_found, lone_tags_are_found, open_styles_are_found,
    open_tables_are_found, repeated_categories_are_found, stray_table_ends_are_found,
    unequal_headings_are_found,
};
pub use folder::{entries_are_looked_up, fetches_give_fronts};
pub use gather::groups_by_places;
pub use group::parts_of_groups;
pub use heads::{heads_are_one, heads_have_their_fields, misfits_pass_heads};
pub use html_elements::{
    element_answers_are_one, ill_input_stays_ill, readers_know_what_may_follow,
};
pub use html_pages::{
    page_answers_are_in_the_grammar, page_answers_are_one, pages_know_what_may_follow,
};
pub use kinds::{children_come_in_two, kinds_have_their_places};
pub use lexemes::{lexemes_are_cut_out, lexemes_begin_where_others_end};
pub use lines::{breaks_are_pieces, marks_stand_in_front};
pub use made::made_pages_have_their_sections;
pub use nodes::{plain_nodes_have_nothing_more, sources_are_of_two_forms, trees_hold_their_nodes};
pub use pages::{
    cells_are_named_by_their_line, delimiters_take_the_blanks, lists_are_named_by_signs,
    members_stand_in_their_own, separators_stand_between, spaces_are_skipped,
    terms_end_at_the_first_colon,
};
pub use preorder::rows_stand_in_preorder;
pub use sections::{
    sections_begin_with_headings, sections_hold_deeper_ones, sections_hold_what_follows,
    sections_reach_up,
};
pub use styles::{
    delimiters_take_most, exchanged_run_is_first_of_its_class, inner_style_began_later,
    toggles_are_counted_by_length,
};
pub use switch::part_of_switch;
pub use table::parts_of_tables;
pub use templates::{first_values_are_given, plain_pages_give_their_text};
pub use texts::texts_are_utf8_one_by_one;
pub use tiles::{
    attributes_are_the_first_of_their_names, brackets_balance, keys_are_behind_the_first_pipe,
    links_lead_to_their_url, media_end_balanced, switches_are_told_in_small,
    urls_lead_to_themselves,
};
pub use trim::trimmed_is_between_white;
pub use walks::walks_go_over_their_items;
pub use work::first_refused_entry_decides;
