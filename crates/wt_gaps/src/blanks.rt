//! Blanks and line breaks of a page.

/// The byte at a place of the page; 0 after its end.
pub fn byte_at(page: &str, at: usize) -> u8 {
    page.as_bytes().get(at).copied().unwrap_or(0)
}

fn is_space(byte: u8) -> bool {
    byte == b' ' || byte == b'\t'
}

fn is_blank(byte: u8) -> bool {
    byte == b'\n' || is_space(byte)
}

/// Past line breaks and blanks, up to `to` at most.
pub fn past_blanks(page: &str, from: usize, to: usize) -> usize {
    for at in from..to {
        if !is_blank(byte_at(page, at)) {
            return at;
        }
    }
    from.max(to)
}

/// Past spaces and tabs, up to `to` at most.
pub fn past_spaces(page: &str, from: usize, to: usize) -> usize {
    for at in from..to {
        if !is_space(byte_at(page, at)) {
            return at;
        }
    }
    from.max(to)
}

/// Back over line breaks and blanks, down to `least` at most.
pub fn back_over_blanks(page: &str, least: usize, from: usize) -> usize {
    let mut place = from;
    for _step in least..from {
        let at = place.saturating_sub(1);
        if !is_blank(byte_at(page, at)) {
            return place;
        }
        place = at;
    }
    place
}

/// The most line breaks between two places with nothing but blanks between them.
pub fn most_breaks(page: &str, from: usize, to: usize) -> usize {
    let mut most = 0usize;
    let mut count = 0usize;
    for at in from..to {
        let byte = byte_at(page, at);
        if byte == b'\n' {
            count = count.saturating_add(1);
            most = most.max(count);
        } else if !is_space(byte) {
            count = 0;
        }
    }
    most
}
