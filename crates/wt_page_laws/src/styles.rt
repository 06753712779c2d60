//! Laws of bold and italic, in the words of a reader of wikitext.

ghost use Rattle.wt_page_laws.specs.InnerStyles.{InnerBeganLater};
ghost use Rattle.wt_page_laws.specs.RunCounts.{CountsAgree};
ghost use Rattle.wt_page_laws.specs.RunToggles.{TakesMost, OneIsChosen};

use wt_quotes::Chunk;

/// Of two styles that hold a byte, the inner one is the one that the last toggle before the byte
/// began. Where that began both, it is the one that the next toggle ends; bold where that ends both,
/// and italic where none follows.
pub fn inner_style_began_later(chunks: &[Chunk])
    ensures { InnerBeganLater chunks.now }
{}

/// By its length alone a run gives its delimiters as many of its apostrophes as it can: five, three
/// or two. What is left of it is plain text.
pub fn delimiters_take_most(chunks: &[Chunk])
    ensures { TakesMost chunks.now }
{}

/// The run of three that is exchanged comes after one letter, if one does; else it is of the middle
/// class, if one is; else it comes after a space. It is the first of these.
pub fn exchanged_run_is_first_of_its_class(chunks: &[Chunk])
    ensures { OneIsChosen chunks.now }
{}

/// The toggles of bold, before a run is exchanged, are as many as the runs whose length switches it
/// in the test of a line of odd numbers; likewise italic.
pub fn toggles_are_counted_by_length(chunks: &[Chunk])
    ensures { CountsAgree chunks.now }
{}
