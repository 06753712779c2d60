//! Links that are written shorter, or plainer, than `edit` writes them.

use std::alloc::Global;
use wt_span::{NoMemory, Str};

// ---- bare URLs

fn is_of_url(byte: u8) -> bool {
    match byte {
        b'[' | b']' | b'<' | b'>' | b'"' | b'|' | 127 => false,
        _ => byte > b' ',
    }
}

/// Whether these two side by side are the sign of something else.
fn is_sign(before: u8, byte: u8) -> bool {
    match byte {
        b'\'' | b'{' | b'}' => before == byte,
        b'#' => before == b'&',
        _ => false,
    }
}

/// Whether the last byte of a URL would stay in it.
fn is_last_of_url(byte: u8, has_bracket: bool) -> bool {
    match byte {
        b',' | b';' | b'.' | b':' | b'!' | b'?' | b'{' | b' ' => false,
        b')' => has_bracket,
        _ => true,
    }
}

/// Whether a URL that is in a text is read as a link to all of it. (A bar would be, but not in a cell.)
pub fn is_bare_url(url: &[u8]) -> bool {
    let mut before = b' ';
    let mut has_bracket = false;
    let mut is_in_entity = false;
    for byte in url {
        let ends_entity = is_in_entity && *byte == b';';
        if !is_of_url(*byte) || is_sign(before, *byte) || ends_entity {
            return false;
        }
        is_in_entity = *byte == b'&' || (is_in_entity && byte.is_ascii_alphanumeric());
        has_bracket = has_bracket || *byte == b'(';
        before = *byte;
    }
    is_last_of_url(before, has_bracket)
}

// ---- the text of a link

/// The text of a link with the `:` of its first URL as it is: no link begins in it.
pub fn with_colons(alloc: Global, inside: String) -> Result<String, NoMemory> {
    let Some((before, behind)) = inside.as_str().split_once("&#58;//") else {
        return Ok(inside);
    };
    let mut out = String::new(alloc);
    out.push_str(before)?;
    out.push_str("://")?;
    out.push_str(behind)?;
    Ok(out)
}

// ---- links with a fragment

/// A link to a part of a page, given as `edit` writes it: short where it shows what it would show so.
pub fn with_fragment(alloc: Global, link: Str, inside: &str) -> Result<Str, NoMemory> {
    let target = match target_of(link.as_str()) {
        Some(target) => target,
        None => return Ok(link),
    };
    let mut out = Str::copy_of(alloc, "[[")?;
    out.push_str(target)?;
    if target != inside {
        out.push_str("|")?;
        out.push_str(inside)?;
    }
    out.push_str("]]")?;
    Ok(out)
}

/// The target of a link to a part of a page; None of another.
fn target_of(link: &str) -> Option<&str> {
    let target = link.strip_prefix("[[")?.strip_suffix("]]")?;
    let target = match target.split_once("|") {
        Some((target, _)) => target,
        None => target,
    };
    if target.as_bytes().contains(&b'#') {
        Some(target)
    } else {
        None
    }
}

// ---- links that show their target

/// Whether a byte may be in the target of a link that is written short.
fn is_plain(byte: u8) -> bool {
    !matches!(byte, b':' | b'#' | b'/' | b'&' | b'<' | b'{' | b'|' | b'\'')
}

fn are_plain(bytes: &[u8]) -> bool {
    for byte in bytes {
        if !is_plain(*byte) {
            return false;
        }
    }
    true
}

fn are_letters(bytes: &[u8]) -> bool {
    for byte in bytes {
        if !byte.is_ascii_lowercase() {
            return false;
        }
    }
    true
}

/// Whether two names are one but for the case of the first letter.
fn are_one(name: &[u8], other: &[u8]) -> bool {
    match (name.split_first(), other.split_first()) {
        (Some((first, rest)), Some((one, others))) => {
            first.to_ascii_lowercase() == one.to_ascii_lowercase() && rest == others
        }
        _ => false,
    }
}

/// The text of a link in two: what shows its target, and the letters after that; None where it doesn't show it.
fn target_and_letters(link: &str) -> Option<(&str, &str)> {
    let (target, text) = link
        .strip_prefix("[[")?
        .strip_suffix("]]")?
        .split_once("|")?;
    let (name, letters) = text.split_at_checked(target.len())?;
    let is_shown = are_one(target.as_bytes(), name.as_bytes());
    if is_shown && are_plain(target.as_bytes()) && are_letters(letters.as_bytes()) {
        Some((name, letters))
    } else {
        None
    }
}

/// A link in the short form where its text is its target but for the case of the first letter, or that and letters.
pub fn shortened(alloc: Global, link: Str) -> Result<Str, NoMemory> {
    let Some((name, letters)) = target_and_letters(link.as_str()) else {
        return Ok(link);
    };
    let mut out = Str::copy_of(alloc, "[[")?;
    out.push_str(name)?;
    out.push_str("]]")?;
    out.push_str(letters)?;
    Ok(out)
}
