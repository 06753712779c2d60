use crate::range::Range;

/// Where an item of the expanded page comes from: a slice of the page, by its bytes, or one of the
/// page's outermost calls (templates and arguments), counted from 0 in the order of their first
/// bytes.
#[derive(Clone, Copy, Debug, PartialEq, Eq)]
pub enum Origin {
    Page(Range),
    Call(u32),
}
