//! Where lines begin in the page.

/// Whether what is at a place of the page begins a line there.
pub fn is_at_line_start(page: &str, at: usize) -> bool {
    match at.checked_sub(1) {
        Some(before) => page.as_bytes().get(before) == Some(&b'\n'),
        None => true,
    }
}

/// How many blanks before the sign of a line of a table are looked at. (Mostly there is one, and each line that is new gets
/// as many.)
const MOST_BLANKS: usize = 32;

/// How many spaces and tabs come before a place of a text, where nothing else is before it on its line; None where
/// something is, or more of them than are looked at.
pub fn blanks_at_line_start(text: &str, at: usize) -> Option<usize> {
    let mut place = at;
    for count in 0..MOST_BLANKS {
        let Some(before) = place.checked_sub(1) else {
            return Some(count);
        };
        match text.as_bytes().get(before).copied().unwrap_or(0) {
            b'\n' => return Some(count),
            b' ' | b'\t' => place = before,
            _ => return None,
        }
    }
    None
}
