//! A gap between two children that stay, and the parts of it between comments and include tags.

use crate::blanks::back_over_blanks;
use crate::breaks::{is_heading, kind_at_end, kind_at_start};
use crate::lines::range_of;
use crate::nodes::{children_between, nodes_between};
use crate::tags::{Tags, tag_of};
use wt_block_signs::Style;
use wt_checks::is_compared;
use wt_difference::Child;
use wt_places::Slot;
use wt_tree::Node;

/// The number of a block of the body, and whether it grows with each child: it does in the body alone.
#[derive(Clone, Copy)]
pub struct Numbering {
    pub number: usize,
    pub grows: bool,
}

impl Numbering {
    /// The number of the next child.
    pub fn next(self) -> Numbering {
        if !self.grows {
            return self;
        }
        Numbering {
            number: self.number.saturating_add(1),
            grows: true,
        }
    }

    /// Within this child.
    pub fn inside(self) -> Numbering {
        Numbering {
            number: self.number,
            grows: false,
        }
    }
}

/// Into which of the children beside a gap the text of the one that goes went, as where two paragraphs are joined.
#[derive(Clone, Copy)]
pub enum Joined {
    Nowhere,
    Before,
    Behind,
}

/// A gap between two children that stay in their turn, or the part of it between two comments or include tags: where
/// it is, the include tags beside it, from where on blanks before it count, these two as the page has them, the text at
/// the end of the one before, where that was looked for, whether that one is text alone as it was edited, the page's
/// children between them, and the edited ones, with the number of the block of the first, whether they are lines of an
/// item, a list or a table, with no empty line between them, whether a cell holds them, or a row without a sign of its
/// own, how a list in an item is written that holds them, and of the one after it whether it begins with the character
/// with which it began in the page, and whether it is an item that gets a line of its own by itself; and where the text
/// of what goes went.
#[derive(Clone, Copy)]
pub struct Gap<'w, 't, 'a> {
    pub place: Slot,
    pub tags: Tags,
    pub blanks: usize,
    pub is_tight: bool,
    pub in_cell: bool,
    pub in_row_without_sign: bool,
    pub style: Style,
    pub before: Option<&'t Node<'a>>,
    pub text_before: Option<&'t Node<'a>>,
    pub is_behind_text: bool,
    pub behind: Option<&'t Node<'a>>,
    pub begins_alike: bool,
    pub gets_line: bool,
    pub joined: Joined,
    pub gone: &'w [Child<'t, 'a>],
    pub new: &'w [Node<'a>],
    pub first: Numbering,
}

/// Whether something else than a heading comes after the gap.
pub fn is_before_text(gap: &Gap<'_, '_, '_>) -> bool {
    match gap.behind {
        Some(behind) => !is_heading(kind_at_start(behind)),
        None => false,
    }
}

/// Whether something else than a heading comes after the gap, and a heading before it.
pub fn is_below_heading(gap: &Gap<'_, '_, '_>) -> bool {
    match gap.before {
        Some(before) => is_heading(kind_at_end(before)) && is_before_text(gap),
        None => false,
    }
}

/// How far the parts of a gap are written: the children of the page and the edited ones that are passed, where
/// the next part begins, the include tag before it, from where on blanks before it count, and the number of its first
/// block.
#[derive(Clone, Copy)]
pub struct Passed {
    gone: usize,
    new: usize,
    start: usize,
    tag: Option<Slot>,
    blanks: usize,
    first: Numbering,
}

impl Passed {
    /// Nothing of the gap is written yet.
    pub fn of(gap: &Gap<'_, '_, '_>) -> Passed {
        Passed {
            gone: 0,
            new: 0,
            start: gap.place.start,
            tag: gap.tags.before,
            blanks: gap.blanks,
            first: gap.first,
        }
    }

    /// The part of a gap from here on to its end.
    pub fn rest<'w, 't, 'a>(self, gap: &Gap<'w, 't, 'a>) -> Gap<'w, 't, 'a> {
        Gap {
            place: Slot {
                start: self.start,
                end: gap.place.end,
            },
            tags: Tags {
                before: self.tag,
                behind: gap.tags.behind,
            },
            blanks: self.blanks,
            gone: children_between(gap.gone, self.gone, gap.gone.len()),
            new: nodes_between(gap.new, self.new, gap.new.len()),
            first: self.first,
            ..*gap
        }
    }

    /// The part of a gap up to a comment or an include tag, before which these of its children are.
    pub fn part<'w, 't, 'a>(
        self,
        gap: &Gap<'w, 't, 'a>,
        gone: usize,
        new: usize,
        mark: &Node<'_>,
    ) -> Gap<'w, 't, 'a> {
        Gap {
            place: Slot {
                start: self.start,
                end: range_of(mark).start,
            },
            tags: Tags {
                before: self.tag,
                behind: tag_of(mark),
            },
            blanks: self.blanks,
            gone: children_between(gap.gone, self.gone, gone),
            new: nodes_between(gap.new, self.new, new),
            first: self.first,
            ..*gap
        }
    }

    /// After a comment or an include tag, and the part before it.
    pub fn behind(self, page: &str, part: &Gap<'_, '_, '_>, mark: &Node<'_>) -> Passed {
        let place = range_of(mark);
        Passed {
            gone: self.gone.saturating_add(part.gone.len()).saturating_add(1),
            new: self.new.saturating_add(part.new.len()).saturating_add(1),
            start: place.end,
            tag: tag_of(mark),
            blanks: back_over_blanks(page, place.start, place.end),
            first: past_all(self.first, part.new),
        }
    }
}

/// The number of the block after these nodes.
fn past_all(first: Numbering, nodes: &[Node<'_>]) -> Numbering {
    let mut block = first;
    for node in nodes {
        if is_compared(node.kind) {
            block = block.next();
        }
    }
    block
}
