//! What two texts have in common at their fronts and at their backs, cut where a word ends or begins, and no sign of
//! the old one is parted.

/// Whether a byte is of a word: a letter, a digit, or no character of ASCII.
fn is_of_word(byte: u8) -> bool {
    byte.is_ascii_alphanumeric() || byte >= 128
}

fn is_of_word_at(text: &[u8], at: usize) -> bool {
    match text.get(at) {
        Some(byte) => is_of_word(*byte),
        None => false,
    }
}

/// Whether a text may be cut at a place: everywhere but inside a word.
fn is_cut(text: &[u8], at: usize) -> bool {
    at == 0 || at >= text.len() || !is_of_word_at(text, at - 1) || !is_of_word_at(text, at)
}

/// Whether two bytes side by side make one sign, or begin one.
fn are_one_sign(left: u8, right: u8) -> bool {
    match left {
        b'[' | b']' | b'}' | b'\'' => left == right,
        b'{' => right == b'{' || right == b'|',
        b'|' => right == b'}',
        b'<' => right.is_ascii_alphabetic() || right == b'/' || right == b'!',
        b'&' => right.is_ascii_alphabetic() || right == b'#',
        _ => false,
    }
}

/// Whether a place of a text is in the middle of a sign. One that is cut there is written anew in part.
fn is_within_sign(text: &[u8], at: usize) -> bool {
    let Some(before) = at.checked_sub(1) else {
        return false;
    };
    match (text.get(before), text.get(at)) {
        (Some(left), Some(right)) => are_one_sign(*left, *right),
        _ => false,
    }
}

fn has_at(text: &[u8], at: usize, byte: u8) -> bool {
    match text.get(at) {
        Some(found) => *found == byte,
        None => false,
    }
}

/// How many bytes of a new text are those at the front of an old one, up to a place where it may be cut.
pub fn common_front(old: &[u8], new: &[u8]) -> usize {
    let mut cut = 0;
    for at in 0..new.len() {
        if is_cut(new, at) && !is_within_sign(old, at) {
            cut = at;
        }
        if !has_at(old, at, new[at]) {
            return cut;
        }
    }
    new.len()
}

/// The byte with this many bytes after it.
fn from_end(text: &[u8], behind: usize) -> Option<u8> {
    let place = text.len().checked_sub(behind)?.checked_sub(1)?;
    text.get(place).copied()
}

fn ends_alike(old: &[u8], new: &[u8], behind: usize) -> bool {
    match from_end(new, behind) {
        Some(byte) => from_end(old, behind) == Some(byte),
        None => false,
    }
}

/// The same at the back, of which `most` bytes may count.
pub fn common_back(old: &[u8], new: &[u8], most: usize) -> usize {
    let mut cut = 0;
    for count in 0..new.len() {
        if is_cut(new, new.len() - count) && !is_within_sign(old, old.len().saturating_sub(count)) {
            cut = count;
        }
        if count >= most || !ends_alike(old, new, count) {
            return cut;
        }
    }
    new.len()
}
