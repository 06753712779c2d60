//! How close to each other the page's blocks are: which of them are directly below the one before, and which have an
//! empty line between.

use wt_checks::{Visit, is_compared};
use wt_tree::{Kind, Node};

/// What most of the page's blocks do: whether what is below a heading comes directly below it, and whether a list does
/// that is below a paragraph, and a heading that is below something else than a heading. No, where the page has none.
#[derive(Clone, Copy)]
pub struct Closeness {
    pub below_headings: bool,
    pub lists_below_text: bool,
    pub headings_below_text: bool,
}

/// How many line breaks are between two places of the page with nothing but blanks between them; None where there is
/// something else.
pub fn breaks_between(page: &str, start: usize, end: usize) -> Option<usize> {
    let mut count: usize = 0;
    for at in start..end {
        match page.as_bytes().get(at).copied().unwrap_or(0) {
            b'\n' => count = count.saturating_add(1),
            b' ' | b'\t' => {}
            _ => return None,
        }
    }
    Some(count)
}

/// The line breaks between two nodes of the page, one after the other; None where there is something else.
fn breaks_below(page: &str, above: &Node<'_>, below: &Node<'_>) -> Option<usize> {
    let start = above.ranges?.end as usize;
    let end = below.ranges?.start as usize;
    breaks_between(page, start, end)
}

/// How many pairs of blocks have one line break between them, and how many have more.
#[derive(Clone, Copy)]
struct Pairs {
    close: usize,
    apart: usize,
}

impl Pairs {
    fn none() -> Pairs {
        Pairs { close: 0, apart: 0 }
    }

    /// With one more that has so many line breaks.
    fn with(self, breaks: Option<usize>) -> Pairs {
        match breaks {
            Some(1) => Pairs {
                close: self.close.saturating_add(1),
                apart: self.apart,
            },
            Some(_) => Pairs {
                close: self.close,
                apart: self.apart.saturating_add(1),
            },
            None => self,
        }
    }

    fn are_close(self) -> bool {
        self.apart < self.close
    }
}

fn is_list(kind: Kind) -> bool {
    matches!(kind, Kind::Ul | Kind::Ol | Kind::Dl)
}

fn is_heading(kind: Kind) -> bool {
    matches!(kind, Kind::Heading(_))
}

/// How close the blocks of the page's body are, of which these are the nodes.
pub fn closeness_of(page: &str, index: &[Visit<'_, '_>]) -> Closeness {
    let mut headings = Pairs::none();
    let mut lists = Pairs::none();
    let mut sections = Pairs::none();
    let mut above: Option<&Node<'_>> = None;
    for visit in index {
        let node = visit.node;
        if visit.parent == 0 && node.id != 0 && is_compared(node.kind) {
            if let Some(above) = above {
                let breaks = breaks_below(page, above, node);
                match above.kind {
                    Kind::Heading(_) => headings = headings.with(breaks),
                    _ if is_heading(node.kind) => sections = sections.with(breaks),
                    Kind::Para if is_list(node.kind) => lists = lists.with(breaks),
                    _ => {}
                }
            }
            above = Some(node);
        }
    }
    Closeness {
        below_headings: headings.are_close(),
        lists_below_text: lists.are_close(),
        headings_below_text: sections.are_close(),
    }
}
