//! The limits that several layers share.

/// The most bytes of a page, or of the text of a template.
pub const PAGE_BYTES: usize = 2_097_152;

/// The most bytes of HTML, written or read.
pub const HTML_BYTES: usize = 67_108_864;
