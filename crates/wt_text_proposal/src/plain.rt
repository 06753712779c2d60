//! Characters that stay as they were typed where they mean nothing, though `edit` writes references for them: it takes
//! a typed piece for a whole text, and some characters for signs wherever they are.

use crate::joints::{copy_of, may_end_with_equals, role_of, source_of, units_from};
use crate::texts::push_letters;
use std::alloc::Global;
use wt_guards::{Role, Thing, Unit};
use wt_span::{NoMemory, Str};
use wt_tree::Place;

// ---- what is beside a character

/// What is beside a place: the end of what is written, a byte, or what may begin and end with any.
#[derive(Clone, Copy)]
enum Beside {
    Edge,
    Byte(u8),
    Unknown,
}

impl Beside {
    fn is_known(self) -> bool {
        !matches!(self, Beside::Unknown)
    }

    fn is(self, byte: u8) -> bool {
        match self {
            Beside::Byte(found) => found == byte,
            Beside::Edge | Beside::Unknown => false,
        }
    }
}

/// What is passed over before the byte that is asked for.
#[derive(Clone, Copy)]
enum Passed {
    Nothing,
    Blanks,
    Letters,
    Capitals,
}

impl Passed {
    fn has(self, byte: u8) -> bool {
        match self {
            Passed::Nothing => false,
            Passed::Blanks => byte == b' ' || byte == b'\t',
            Passed::Letters => byte.is_ascii_alphanumeric(),
            Passed::Capitals => byte.is_ascii_uppercase(),
        }
    }
}

/// Whether a unit may begin and end with any byte, or is no part of what is read as text.
fn is_unknown(unit: &Unit<'_>) -> bool {
    matches!(
        role_of(unit),
        Some(Role::Group(_) | Role::Mark { .. } | Role::Function | Role::Bare(_))
    )
}

fn first_past(source: &[u8], passed: Passed) -> Option<u8> {
    for byte in source {
        if !passed.has(*byte) {
            return Some(*byte);
        }
    }
    None
}

fn last_past(source: &[u8], passed: Passed) -> Option<u8> {
    for count in 0..source.len() {
        let place = source.len().saturating_sub(count).saturating_sub(1);
        match source.get(place) {
            Some(byte) if !passed.has(*byte) => return Some(*byte),
            _ => {}
        }
    }
    None
}

/// What is before the end of a text after this unit, past some bytes.
fn behind_past(front: &[u8], before: Option<&Unit<'_>>, passed: Passed) -> Beside {
    if let Some(byte) = last_past(front, passed) {
        return Beside::Byte(byte);
    }
    match before {
        Some(unit) if is_unknown(unit) => Beside::Unknown,
        Some(unit) => match last_past(source_of(unit), passed) {
            Some(byte) => Beside::Byte(byte),
            None => Beside::Unknown,
        },
        None => Beside::Edge,
    }
}

fn ahead_in(units: &[Unit<'_>], passed: Passed) -> Beside {
    for unit in units {
        if is_unknown(unit) {
            return Beside::Unknown;
        }
        if let Some(byte) = first_past(source_of(unit), passed) {
            return Beside::Byte(byte);
        }
    }
    Beside::Edge
}

fn source_before<'u>(unit: Option<&'u Unit<'_>>) -> &'u [u8] {
    match unit {
        Some(unit) => source_of(unit),
        None => &[],
    }
}

fn last_of(unit: &Unit<'_>) -> Beside {
    match source_of(unit).last() {
        Some(byte) if !is_unknown(unit) => Beside::Byte(*byte),
        _ => Beside::Unknown,
    }
}

/// What is beside a text: the unit before it, those after it, and whether a tag may be open there.
#[derive(Clone, Copy)]
struct Around<'u, 'n> {
    before: Option<&'u Unit<'n>>,
    units: &'u [Unit<'n>],
    is_in_tag: bool,
}

/// A text among the units, cut round one of its characters of one byte.
#[derive(Clone, Copy)]
struct Cut<'t, 'u, 'n> {
    front: &'t [u8],
    rest: &'t [u8],
    around: Around<'u, 'n>,
}

impl<'t, 'u, 'n> Cut<'t, 'u, 'n> {
    fn behind(self) -> Beside {
        match self.front.last() {
            Some(byte) => Beside::Byte(*byte),
            None => match self.around.before {
                Some(unit) => last_of(unit),
                None => Beside::Edge,
            },
        }
    }

    fn ahead(self, passed: Passed) -> Beside {
        match first_past(self.rest, passed) {
            Some(byte) => Beside::Byte(byte),
            None => ahead_in(self.around.units, passed),
        }
    }

    fn next(self) -> Beside {
        self.ahead(Passed::Nothing)
    }

    /// Whether neither neighbour is this byte.
    fn is_alone(self, byte: u8) -> bool {
        let behind = self.behind();
        let next = self.next();
        behind.is_known() && next.is_known() && !behind.is(byte) && !next.is(byte)
    }

    /// Whether two dashes come before.
    fn is_behind_dashes(self) -> bool {
        let source = source_before(self.around.before);
        match self.front.len() {
            0 => source.ends_with(b"--"),
            1 => self.front.ends_with(b"-") && source.ends_with(b"-"),
            _ => self.front.ends_with(b"--"),
        }
    }

    /// Whether the line may end with `=` as it is written. What is typed ends it otherwise.
    fn may_end_with_equals(self) -> bool {
        !self.rest.contains(&b'\n') && may_end_with_equals(self.around.units)
    }
}

// ---- the characters

/// Whether `&` begins no reference: `;` doesn't end the letters after it.
fn is_plain_ampersand(cut: Cut<'_, '_, '_>) -> bool {
    match cut.ahead(Passed::Letters) {
        Beside::Edge => true,
        Beside::Byte(byte) => byte != b';' && byte != b'#' && byte != b'{',
        Beside::Unknown => false,
    }
}

/// Whether `<` begins no tag.
fn is_plain_angle(cut: Cut<'_, '_, '_>) -> bool {
    match cut.next() {
        Beside::Byte(byte) => {
            !byte.is_ascii_alphabetic() && byte != b'/' && byte != b'!' && byte != b'{'
        }
        Beside::Edge | Beside::Unknown => false,
    }
}

/// Whether `=` doesn't end its line, nor may it begin a heading or be taken for a sign of one.
fn is_plain_equals(place: Option<Place>, cut: Cut<'_, '_, '_>) -> bool {
    let is_within = match cut.ahead(Passed::Blanks) {
        Beside::Byte(byte) => byte != b'\n',
        Beside::Edge | Beside::Unknown => false,
    };
    is_within
        && match cut.behind() {
            Beside::Byte(byte) => byte != b'\n' || !cut.may_end_with_equals(),
            Beside::Edge => place.is_some() && !cut.may_end_with_equals(),
            Beside::Unknown => false,
        }
}

/// Whether a bracket begins and ends no link, call, argument or table. (After `|` and at an edge a brace may make a
/// table's sign or another paragraph's call.)
fn is_plain_bracket(cut: Cut<'_, '_, '_>, byte: u8) -> bool {
    let next = cut.next();
    let behind = cut.behind();
    cut.is_alone(byte)
        && match byte {
            b'[' => !next.is(b'{'),
            b'{' => !next.is(b'|') && !matches!(next, Beside::Edge),
            b'}' => !behind.is(b'|') && !matches!(behind, Beside::Edge),
            _ => true,
        }
}

/// Whether `_` after another one begins and ends no switch: past capitals none is before them, and none after.
fn is_plain_underscore(cut: Cut<'_, '_, '_>) -> bool {
    let Some((last, front)) = cut.front.split_last() else {
        return false;
    };
    let before = behind_past(front, cut.around.before, Passed::Capitals);
    let next = cut.ahead(Passed::Capitals);
    *last == b'_' && before.is_known() && !before.is(b'_') && next.is_known() && !next.is(b'_')
}

/// Whether a `!` ends a header cell, with no other before it. (Where the signs of the next cell come after it, who asks
/// for the inside writes a reference.)
fn is_plain_mark(place: Option<Place>, cut: Cut<'_, '_, '_>) -> bool {
    let ends_cell = matches!(place, Some(Place::Header)) && matches!(cut.next(), Beside::Edge);
    ends_cell && !cut.behind().is(b'!')
}

/// Whether a character means nothing where it is. In a link's text (without a place, as that of a tag) brackets may
/// end the link.
fn is_plain(place: Option<Place>, cut: Cut<'_, '_, '_>, byte: u8) -> bool {
    match byte {
        b'\'' => cut.is_alone(byte),
        b'&' => is_plain_ampersand(cut),
        b'<' => is_plain_angle(cut),
        b'=' => is_plain_equals(place, cut),
        b'>' => !cut.around.is_in_tag && !cut.is_behind_dashes(),
        b'[' | b']' | b'{' | b'}' => place.is_some() && is_plain_bracket(cut, byte),
        b'_' => is_plain_underscore(cut),
        b'!' => is_plain_mark(place, cut),
        _ => false,
    }
}

/// Whether a blank at the end of an inside is shown there.
fn shows_blanks(place: Option<Place>) -> bool {
    matches!(
        place,
        Some(Place::Item | Place::Term | Place::Cell | Place::Header)
    )
}

/// How many blanks end the inside at the end of its last text, after something in their line.
fn blanks_at_end(place: Option<Place>, bytes: &[u8], around: Around<'_, '_>) -> usize {
    if !shows_blanks(place) || !around.units.is_empty() {
        return 0;
    }
    let mut count: usize = 0;
    let mut last = match around.before {
        Some(unit) => last_of(unit),
        None => Beside::Edge,
    };
    for byte in bytes {
        if Passed::Blanks.has(*byte) {
            count = count.saturating_add(1);
        } else {
            count = 0;
            last = Beside::Byte(*byte);
        }
    }
    match last {
        Beside::Byte(byte) if byte != b'\n' => count,
        _ => 0,
    }
}

// ---- texts

fn from(bytes: &[u8], at: usize) -> &[u8] {
    if at <= bytes.len() { &bytes[at..] } else { &[] }
}

fn up_to(bytes: &[u8], at: usize) -> &[u8] {
    if at <= bytes.len() {
        &bytes[..at]
    } else {
        bytes
    }
}

/// A text between two of its places.
fn piece(text: &str, start: usize, end: usize) -> &str {
    let (front, _) = text.split_at_checked(end).unwrap_or((text, ""));
    let (_, rest) = front.split_at_checked(start).unwrap_or((front, ""));
    rest
}

fn push_plain(alloc: Global, out: &mut Vec<Unit<'_>>, text: &str) -> Result<(), NoMemory> {
    let source = Str::copy_of(alloc, text)?;
    out.push(Unit::Thing(Thing {
        role: Role::Node,
        source,
        place: None,
    }))?;
    Ok(())
}

/// Whether a line ends here, and the next one begins with a character that is mostly no sign there.
fn ends_before_sign(cut: Cut<'_, '_, '_>, byte: u8) -> bool {
    match cut.rest.first() {
        Some(next) => byte == b'\n' && matches!(*next, b'=' | b'-' | b'!'),
        None => false,
    }
}

/// Whether a text is the whole of an inside, and nothing but blanks, in a place that shows those at its end.
fn is_lone_blank(place: Option<Place>, bytes: &[u8], around: Around<'_, '_>) -> bool {
    if bytes.is_empty() || !shows_blanks(place) {
        return false;
    }
    if around.before.is_some() || !around.units.is_empty() {
        return false;
    }
    bytes.iter().all(|byte| Passed::Blanks.has(*byte))
}

/// Appends blanks that are all that an inside holds: apart from what is before it, but not from what comes after it.
fn push_lone_blank(alloc: Global, out: &mut Vec<Unit<'_>>, text: &str) -> Result<(), NoMemory> {
    let mut source = Str::copy_of(alloc, "<nowiki/>")?;
    source.push_str(text)?;
    push_plain(alloc, out, source.as_str())
}

/// Appends a reference for `=` with which a typed text begins a heading: it would be read as one of its signs. Gives how
/// many bytes of the text are written so.
fn push_heading_sign(
    alloc: Global,
    out: &mut Vec<Unit<'_>>,
    place: Option<Place>,
    bytes: &[u8],
    around: Around<'_, '_>,
) -> Result<usize, NoMemory> {
    let is_first = matches!(place, Some(Place::Heading)) && around.before.is_none();
    if !is_first || !bytes.starts_with(b"=") {
        return Ok(0);
    }
    push_plain(alloc, out, "&#61;")?;
    Ok(1)
}

/// Appends a text with its plain characters as they are; lines that begin with a character like `=` are apart.
fn push_text<'u, 'n>(
    alloc: Global,
    out: &mut Vec<Unit<'n>>,
    place: Option<Place>,
    text: &'n str,
    around: Around<'u, 'n>,
) -> Result<(), NoMemory> {
    let bytes = text.as_bytes();
    if is_lone_blank(place, bytes, around) {
        return push_lone_blank(alloc, out, text);
    }
    let signs = push_heading_sign(alloc, out, place, bytes, around)?;
    let mut start = signs;
    for at in signs..bytes.len() {
        let end = at.saturating_add(1);
        let cut = Cut {
            front: up_to(bytes, at),
            rest: from(bytes, end),
            around,
        };
        if is_plain(place, cut, bytes[at]) {
            push_letters(out, piece(text, start, at))?;
            push_plain(alloc, out, piece(text, at, end))?;
            start = end;
        } else if ends_before_sign(cut, bytes[at]) {
            push_letters(out, piece(text, start, end))?;
            start = end;
        }
    }
    let blanks = blanks_at_end(place, bytes, around);
    let end = bytes.len().saturating_sub(blanks);
    push_letters(out, piece(text, start, end))?;
    if blanks == 0 {
        return Ok(());
    }
    push_plain(alloc, out, piece(text, end, bytes.len()))
}

/// Whether `<` with this byte after it may open a tag.
fn opens_tag(next: Option<&u8>) -> bool {
    match next {
        Some(byte) => byte.is_ascii_alphabetic() || *byte == b'/' || *byte == b'!',
        None => true,
    }
}

/// Whether a tag may be open after a unit, where one may be before it or not. What was typed opens none.
fn is_in_tag_behind(unit: &Unit<'_>, is_in_tag: bool) -> bool {
    let mut is_open = is_in_tag;
    if let Unit::Thing(thing) = unit {
        let source = thing.source.as_str().as_bytes();
        for at in 0..source.len() {
            if source[at] == b'<' {
                is_open = opens_tag(source.get(at.saturating_add(1)));
            } else if source[at] == b'>' {
                is_open = false;
            }
        }
    }
    is_open
}

/// The units with the characters of new texts apart that stay as they were typed; `place` is that of the inside, None
/// in a link or tag.
pub fn with_plain<'n>(
    alloc: Global,
    place: Option<Place>,
    units: &[Unit<'n>],
) -> Result<Vec<Unit<'n>>, NoMemory> {
    let mut out = Vec::new(alloc);
    let mut before = None;
    let mut is_in_tag = false;
    for at in 0..units.len() {
        let unit = &units[at];
        match unit {
            Unit::Text(text) => {
                let around = Around {
                    before,
                    units: units_from(units, at + 1),
                    is_in_tag,
                };
                push_text(alloc, &mut out, place, *text, around)?;
            }
            Unit::Copied(_) | Unit::Thing(_) => out.push(copy_of(alloc, unit)?)?,
        }
        is_in_tag = is_in_tag_behind(unit, is_in_tag);
        before = Some(unit);
    }
    Ok(out)
}
