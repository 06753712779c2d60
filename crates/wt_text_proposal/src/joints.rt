//! Where two neighbours are beside each other though `edit` would part them: they don't join there. Whether that
//! is so is seen when the page is read back, so these rules need to be right nearly always, and no more.

use crate::texts::push_nowiki;
use std::alloc::Global;
use wt_guards::{Role, Stretch, Thing, Transclusion, Unit};
use wt_span::{NoMemory, Str};
use wt_tree::Place;

/// Where an inside is written: in what kind of block, the last byte of the delimiter before it (a space where there is
/// none), whether a table may be open there, the page, where it has this inside, in bytes, and whether the inside is
/// that of preformatted text, after whose space no block begins.
#[derive(Clone, Copy)]
pub struct InsidePlace<'w> {
    pub place: Place,
    pub before: u8,
    pub in_tables: bool,
    pub page: &'w [u8],
    pub start: usize,
    pub is_preformatted: bool,
}

impl<'w> InsidePlace<'w> {
    /// Whether what starts at a place of the page begins a line there, or the inside.
    fn began(self, start: usize) -> bool {
        if start == self.start {
            return true;
        }
        match start.checked_sub(1) {
            Some(at) => self.page.get(at) == Some(&b'\n'),
            None => true,
        }
    }
}

/// A place in the page at which nothing ends.
pub const NOWHERE: usize = 18_446_744_073_709_551_615;

/// The place of a node that the page doesn't have.
pub fn place_of_new() -> Stretch {
    Stretch {
        start: NOWHERE - 1,
        end: NOWHERE,
    }
}

/// What writes nothing, and is beside what ends and what begins at these places of the page.
fn joint_at<'n>(alloc: Global, place: Stretch) -> Unit<'n> {
    Unit::Thing(Thing {
        role: Role::Node,
        source: Str::new(alloc),
        place: Some(place),
    })
}

/// The place of a joint beside what ends at this place alone.
fn behind(start: usize) -> Stretch {
    Stretch {
        start,
        end: NOWHERE,
    }
}

// ---- units

pub fn source_of<'u>(unit: &'u Unit<'_>) -> &'u [u8] {
    match unit {
        Unit::Text(text) => text.as_bytes(),
        Unit::Copied(text) => text.as_str().as_bytes(),
        Unit::Thing(thing) => thing.source.as_str().as_bytes(),
    }
}

pub fn role_of(unit: &Unit<'_>) -> Option<Role> {
    match unit {
        Unit::Thing(thing) => Some(thing.role),
        Unit::Text(_) | Unit::Copied(_) => None,
    }
}

pub fn copy_of<'n>(alloc: Global, unit: &Unit<'n>) -> Result<Unit<'n>, NoMemory> {
    match unit {
        Unit::Text(text) => Ok(Unit::Text(*text)),
        Unit::Copied(text) => {
            let text = Str::copy_of(alloc, text.as_str())?;
            Ok(Unit::Copied(text))
        }
        Unit::Thing(thing) => {
            let source = Str::copy_of(alloc, thing.source.as_str())?;
            Ok(Unit::Thing(Thing {
                role: thing.role,
                source,
                place: thing.place,
            }))
        }
    }
}

fn before<'u, 'n>(units: &'u [Unit<'n>], at: usize) -> Option<&'u Unit<'n>> {
    units.get(at.checked_sub(1)?)
}

pub fn units_from<'u, 'n>(units: &'u [Unit<'n>], at: usize) -> &'u [Unit<'n>] {
    if at <= units.len() {
        &units[at..]
    } else {
        units
    }
}

/// The bytes of the unit before a place; none where there is none.
fn source_before<'u>(units: &'u [Unit<'_>], at: usize) -> &'u [u8] {
    match before(units, at) {
        Some(unit) => source_of(unit),
        None => &[],
    }
}

/// The bytes of a unit; none where there is none.
fn source_at<'u>(units: &'u [Unit<'_>], at: usize) -> &'u [u8] {
    match units.get(at) {
        Some(unit) => source_of(unit),
        None => &[],
    }
}

fn is_blank(byte: u8) -> bool {
    byte == b' ' || byte == b'\t'
}

// ---- the start of a line

/// The bytes up to the first line break.
fn line_of(source: &[u8]) -> &[u8] {
    for at in 0..source.len() {
        if source[at] == b'\n' {
            return &source[..at];
        }
    }
    source
}

/// The last byte that is no blank.
fn last_letter(line: &[u8]) -> Option<u8> {
    let mut last = None;
    for byte in line {
        if !is_blank(*byte) {
            last = Some(*byte);
        }
    }
    last
}

/// Whether a line may end with `=` after its part in a unit, by whether it may before that: a brace at its end may be
/// that of a call, which shows anything, and a `=` that is typed at the end of a line is written otherwise.
fn may_end_after(unit: &Unit<'_>, line: &[u8], may_before: bool) -> bool {
    if matches!(role_of(unit), Some(Role::Mark { .. })) {
        return may_before;
    }
    match last_letter(line) {
        Some(byte) => matches!(unit, Unit::Thing(_)) && (byte == b'=' || byte == b'}'),
        None => may_before,
    }
}

/// Whether a line that goes on so may end with `=` as it is written.
pub fn may_end_with_equals(units: &[Unit<'_>]) -> bool {
    let mut may_end = false;
    for unit in units {
        if matches!(role_of(unit), Some(Role::Group(_))) {
            return true;
        }
        let source = source_of(unit);
        let line = line_of(source);
        may_end = may_end_after(unit, line, may_end);
        if line.len() < source.len() {
            return may_end;
        }
    }
    may_end
}

/// Whether what is written begins with four dashes.
fn is_rule(units: &[Unit<'_>]) -> bool {
    let mut count: usize = 0;
    for unit in units {
        let source = source_of(unit);
        let dashes = source.iter().take_while(|byte| **byte == b'-').count();
        count = count.saturating_add(dashes);
        if dashes < source.len() {
            return count > 3;
        }
    }
    count > 3
}

/// Whether a typed `=` comes first, with nothing but blanks after it in its piece: it is written as a reference.
fn is_reference(units: &[Unit<'_>]) -> bool {
    match units.first() {
        Some(Unit::Text(text)) => {
            let bytes = text.as_bytes();
            let blanks = bytes
                .iter()
                .skip(1)
                .take_while(|byte| is_blank(**byte))
                .count();
            blanks.saturating_add(1) == bytes.len()
        }
        _ => false,
    }
}

/// Whether a line of a paragraph that begins with these would be another block.
fn begins_block(spot: InsidePlace<'_>, first: u8, units: &[Unit<'_>]) -> bool {
    match first {
        b'-' => is_rule(units),
        b'=' => !is_reference(units) && may_end_with_equals(units),
        b'!' => spot.in_tables,
        _ => true,
    }
}

fn is_list_sign(byte: u8) -> bool {
    byte == b'*' || byte == b'#' || byte == b':' || byte == b';'
}

/// Whether an inside that begins with a byte would be read with the delimiter before it.
fn joins_delimiter(spot: InsidePlace<'_>, first: u8, units: &[Unit<'_>]) -> bool {
    if spot.is_preformatted {
        return false;
    }
    if is_blank(first) {
        return true;
    }
    match spot.place {
        Place::Paragraph => begins_block(spot, first, units),
        Place::Heading => first == b'=',
        Place::Item | Place::Term => is_list_sign(first) && !is_blank(spot.before),
        Place::Cell => first == b'-' && spot.before == b'|',
        Place::Header => first == b'!' && spot.before == b'!',
    }
}

fn ends_line(unit: &Unit<'_>) -> bool {
    source_of(unit).last() == Some(&b'\n')
}

/// Whether text that begins a line or the inside may do so as it is.
fn may_begin(spot: InsidePlace<'_>, units: &[Unit<'_>], at: usize) -> bool {
    let Some(Unit::Text(text)) = units.get(at) else {
        return false;
    };
    let Some(first) = text.as_bytes().first() else {
        return false;
    };
    match before(units, at) {
        None => !joins_delimiter(spot, *first, units_from(units, at)),
        Some(unit) if ends_line(unit) => {
            !is_blank(*first) && !begins_block(spot, *first, units_from(units, at))
        }
        Some(_) => false,
    }
}

/// Whether a byte may begin a block where it begins a line.
fn is_sign(byte: u8) -> bool {
    is_blank(byte) || is_list_sign(byte) || matches!(byte, b'=' | b'-' | b'!')
}

/// Whether a unit is a comment or an include tag after which the line goes on.
fn is_mark_in_line(unit: &Unit<'_>) -> bool {
    matches!(role_of(unit), Some(Role::Mark { .. })) && !ends_line(unit)
}

/// The unit before a place, past comments and include tags: a line that begins with them goes on as one without them.
fn before_marks<'u, 'n>(units: &'u [Unit<'n>], at: usize) -> Option<&'u Unit<'n>> {
    for count in 0..at {
        let unit = before(units, at.saturating_sub(count))?;
        if !is_mark_in_line(unit) {
            return Some(unit);
        }
    }
    None
}

/// Whether what is in the page would be read otherwise at the start of a line or of the inside, where it begins
/// with a byte. After a comment only a paragraph's start is one still.
fn is_read_otherwise(spot: InsidePlace<'_>, first: u8, units: &[Unit<'_>], at: usize) -> bool {
    let rest = units_from(units, at);
    match before_marks(units, at) {
        None if at > 0 && !matches!(spot.place, Place::Paragraph) => false,
        None => joins_delimiter(spot, first, rest),
        Some(unit) if ends_line(unit) => is_blank(first) || begins_block(spot, first, rest),
        Some(_) => false,
    }
}

/// Whether what is in the page begins a line or the inside here, didn't there, and would be read otherwise.
fn is_new_start(spot: InsidePlace<'_>, units: &[Unit<'_>], at: usize) -> bool {
    let Some(Unit::Thing(thing)) = units.get(at) else {
        return false;
    };
    let (Some(place), Some(first)) = (thing.place, thing.source.as_str().as_bytes().first()) else {
        return false;
    };
    is_sign(*first) && !spot.began(place.start) && is_read_otherwise(spot, *first, units, at)
}

/// Whether a unit is a node or text that stands by itself and ends with a line break, after which no character says so.
fn ends_line_as_it_is(unit: &Unit<'_>) -> bool {
    matches!(unit, Unit::Thing(_))
        && !matches!(role_of(unit), Some(Role::Mark { .. }))
        && ends_line(unit)
}

/// Whether typed text begins a line here, after text of the page that ends with a line break, and would be another block.
fn is_typed_start(spot: InsidePlace<'_>, units: &[Unit<'_>], at: usize) -> bool {
    let (Some(Unit::Text(text)), Some(before)) = (units.get(at), before_marks(units, at)) else {
        return false;
    };
    let Some(first) = text.as_bytes().first() else {
        return false;
    };
    let rest = units_from(units, at);
    ends_line_as_it_is(before)
        && is_sign(*first)
        && (is_blank(*first) || begins_block(spot, *first, rest))
}

/// Whether nothing but blanks, comments and include tags is in the line that goes on so.
fn is_line_empty(units: &[Unit<'_>]) -> bool {
    for unit in units {
        let source = source_of(unit);
        let line = line_of(source);
        let is_mark = matches!(role_of(unit), Some(Role::Mark { .. }));
        if !is_mark && last_letter(line).is_some() {
            return false;
        }
        if line.len() < source.len() {
            return !is_mark;
        }
    }
    true
}

/// Whether two units are side by side in the page, too.
fn are_neighbours(left: Option<&Unit<'_>>, right: Option<&Unit<'_>>) -> bool {
    match (placed(left), placed(right)) {
        (Some((_, ended)), Some((_, begun))) => ended.end == begun.start,
        _ => false,
    }
}

/// Whether a line of a paragraph was emptied here, beside text of the page: it would end the paragraph. At the end of
/// what is written nothing comes after it.
fn is_emptied_line(spot: InsidePlace<'_>, units: &[Unit<'_>], at: usize) -> bool {
    if !matches!(spot.place, Place::Paragraph) || spot.is_preformatted {
        return false;
    }
    let left = before(units, at);
    let right = units.get(at);
    let is_behind_break = match left {
        Some(unit) => {
            ends_line_as_it_is(unit)
                || (ends_line(unit)
                    && matches!(unit, Unit::Text(_))
                    && matches!(right, Some(Unit::Thing(_))))
        }
        None => matches!(right, Some(Unit::Thing(_))),
    };
    is_behind_break && !are_neighbours(left, right) && is_line_empty(units_from(units, at))
}

/// Whether a unit is as it begins the inside in the page.
fn is_standing_first(spot: InsidePlace<'_>, unit: &Unit<'_>) -> bool {
    match unit {
        Unit::Thing(thing) => match thing.place {
            Some(place) => place.start == spot.start,
            None => false,
        },
        Unit::Text(_) | Unit::Copied(_) => false,
    }
}

/// Whether the inside of a cell would make its sign that of a caption.
fn is_caption_sign(spot: InsidePlace<'_>, units: &[Unit<'_>], at: usize) -> bool {
    let Some(unit) = units.get(at) else {
        return false;
    };
    at == 0
        && matches!(spot.place, Place::Cell)
        && spot.before == b'|'
        && source_of(unit).starts_with(b"+")
        && !is_standing_first(spot, unit)
}

// ---- after a link

/// Where a link that is new or changed ends; where it ends in the page.
fn link_end(unit: &Unit<'_>) -> Option<usize> {
    match unit {
        Unit::Thing(thing) if matches!(thing.role, Role::Link) => match thing.place {
            Some(place) => Some(place.end),
            None => Some(NOWHERE),
        },
        _ => None,
    }
}

/// Whether letters that are in the page come after a link that they weren't after, and would join it.
fn joins_link(units: &[Unit<'_>], at: usize) -> bool {
    let (Some(left), Some((Role::Node, place))) = (before(units, at), placed(units.get(at))) else {
        return false;
    };
    match (link_end(left), source_at(units, at).first()) {
        (Some(end), Some(first)) => first.is_ascii_lowercase() && end != place.start,
        _ => false,
    }
}

/// Whether an external link that is new or changed comes after a bracket of the page: the two would begin a link to a
/// page, or with a bare URL an external link.
fn meets_bracket(units: &[Unit<'_>], at: usize) -> bool {
    let (Some((_, ended)), Some(Unit::Thing(link))) = (placed(before(units, at)), units.get(at))
    else {
        return false;
    };
    let joins = match link.role {
        Role::External => link.source.as_str().starts_with("["),
        Role::Bare(_) => true,
        _ => false,
    };
    let is_beside = match link.place {
        Some(place) => place.start == ended.end,
        None => false,
    };
    joins && !is_beside && source_before(units, at).ends_with(b"[")
}

// ---- after a bare URL

/// What is no part of a URL at its end.
fn is_dropped(byte: u8, has_bracket: bool) -> bool {
    match byte {
        b',' | b';' | b'.' | b':' | b'!' | b'?' => true,
        b')' => !has_bracket,
        _ => false,
    }
}

/// What ends a URL, also as it is written where it is new.
fn is_no_url(byte: u8) -> bool {
    byte <= b' ' || byte == b'<' || byte == b'>' || byte == b'[' || byte == b']' || byte == b'"'
}

/// The bytes from the first one on that isn't dropped.
fn kept_of(source: &[u8], has_bracket: bool) -> &[u8] {
    for at in 0..source.len() {
        if !is_dropped(source[at], has_bracket) {
            return &source[at..];
        }
    }
    &[]
}

/// Whether a URL ends before these bytes, of which there are some: before a byte that is none of it, or two
/// apostrophes.
fn begins_behind_url(kept: &[u8]) -> bool {
    match kept.first() {
        Some(byte) => is_no_url(*byte) || kept.starts_with(b"''"),
        None => false,
    }
}

/// Whether a URL ends before these units.
fn ends_url(url: &[u8], units: &[Unit<'_>]) -> bool {
    let has_bracket = url.contains(&b'(');
    for unit in units {
        match role_of(unit) {
            Some(Role::Toggle) => return true,
            Some(Role::Group(_) | Role::Mark { .. } | Role::Bare(_)) => return false,
            _ => {}
        }
        let kept = kept_of(source_of(unit), has_bracket);
        if !kept.is_empty() {
            return begins_behind_url(kept);
        }
    }
    true
}

/// Where the bare URL before a place ends in the page, where it ends before what follows.
fn ended_url(units: &[Unit<'_>], at: usize) -> Option<usize> {
    match before(units, at)? {
        Unit::Thing(thing) if matches!(thing.role, Role::Bare(_)) => {
            let place = thing.place?;
            if ends_url(thing.source.as_str().as_bytes(), units_from(units, at)) {
                Some(place.end)
            } else {
                None
            }
        }
        _ => None,
    }
}

// ---- bold and italic

/// The length of a delimiter that is written anew; 0 of anything else.
fn toggle_length(unit: Option<&Unit<'_>>) -> usize {
    match unit {
        Some(Unit::Thing(thing)) if matches!(thing.role, Role::Toggle) => thing
            .source
            .as_str()
            .len(),
        _ => 0,
    }
}

/// Whether a bare URL begins after a delimiter that is written anew, which it doesn't join.
fn is_url_in_style(units: &[Unit<'_>], at: usize) -> bool {
    toggle_length(before(units, at)) != 0 && matches!(units.get(at), Some(unit) if is_bare(unit))
}

fn is_bare(unit: &Unit<'_>) -> bool {
    matches!(role_of(unit), Some(Role::Bare(_)))
}

/// The length of a delimiter that is in the page already; 0 of anything else.
fn standing_toggle(unit: Option<&Unit<'_>>) -> usize {
    match unit {
        Some(Unit::Thing(thing)) if matches!(thing.role, Role::Node) && thing.place.is_some() => {
            match thing.source.as_str() {
                "''" => 2,
                "'''" => 3,
                _ => 0,
            }
        }
        _ => 0,
    }
}

/// Whether a delimiter that is written anew and one of the same length that is in the page already are side by
/// side: they would make one longer run.
fn meets_like(units: &[Unit<'_>], at: usize) -> bool {
    let left = before(units, at);
    let right = units.get(at);
    let is_new_first = toggle_length(left) != 0 && toggle_length(left) == standing_toggle(right);
    let is_new_last = toggle_length(right) != 0 && toggle_length(right) == standing_toggle(left);
    is_new_first || is_new_last
}

/// Whether two delimiters that are written anew make one run of five.
fn are_five(units: &[Unit<'_>], at: usize) -> bool {
    let left = toggle_length(before(units, at));
    let right = toggle_length(units.get(at));
    let outer = toggle_length(before(units, at.saturating_sub(1)));
    left != 0 && right != 0 && left != right && outer == 0
}

// ---- groups

fn placed<'u>(unit: Option<&'u Unit<'_>>) -> Option<(Role, Stretch)> {
    match unit? {
        Unit::Thing(thing) => Some((thing.role, thing.place?)),
        Unit::Text(_) | Unit::Copied(_) => None,
    }
}

/// Whether `edit` always parts the two.
fn are_parted_anywhere(left: Role, right: Role) -> bool {
    match left {
        Role::Group(_) => matches!(right, Role::Group(_) | Role::External | Role::Bare(_)),
        Role::External | Role::Bare(_) => right.is_group(),
        _ => false,
    }
}

/// Where two things meet in the page that meet here too, one of them a group.
fn meeting(units: &[Unit<'_>], at: usize) -> Option<Stretch> {
    let (left, ended) = placed(before(units, at))?;
    let (right, begun) = placed(units.get(at))?;
    if ended.end == begun.start && are_parted_anywhere(left, right) {
        Some(Stretch {
            start: ended.end,
            end: begun.start,
        })
    } else {
        None
    }
}

/// Whether a group begins or ends with an apostrophe.
fn has_apostrophe(group: Transclusion) -> bool {
    group.opens_with_apostrophe || group.closes_with_apostrophe
}

/// Where a group that begins or ends with an apostrophe meets a blank or a line break, which joins none: a place in the page.
fn blank_beside(units: &[Unit<'_>], at: usize) -> Option<Stretch> {
    let left = before(units, at)?;
    let right = units.get(at)?;
    if let Some((Role::Group(group), place)) = placed(Some(left))
        && ((group.closes_with_apostrophe && begins_with_space(right))
            || (has_apostrophe(group) && is_break(right)))
    {
        return Some(behind(place.end));
    }
    match placed(Some(right)) {
        Some((Role::Group(group), place))
            if (group.opens_with_apostrophe && ends_with_space(left))
                || (has_apostrophe(group) && is_break(left)) => {
            Some(Stretch {
                start: 0,
                end: place.start,
            })
        }
        _ => None,
    }
}

/// A blank or a line break.
fn is_space(byte: u8) -> bool {
    is_blank(byte) || byte == b'\n'
}

fn begins_with_space(unit: &Unit<'_>) -> bool {
    source_of(unit)
        .first()
        .is_some_and(|first| is_space(*first))
}

fn ends_with_space(unit: &Unit<'_>) -> bool {
    source_of(unit).last().is_some_and(|last| is_space(*last))
}

/// Whether a unit is a `br`.
fn is_break(unit: &Unit<'_>) -> bool {
    matches!(role_of(unit), Some(Role::Node)) && source_of(unit).starts_with(b"<br")
}

/// Whether two comments or include tags come together directly after something in their line: they join nothing.
fn are_marks_in_line(units: &[Unit<'_>], at: usize) -> bool {
    let (Some(left), Some(right)) = (before(units, at), units.get(at)) else {
        return false;
    };
    let Some(first) = before(units, at.saturating_sub(1)) else {
        return false;
    };
    let are_marks = is_mark_in_line(left) && matches!(role_of(right), Some(Role::Mark { .. }));
    are_marks && !matches!(role_of(first), Some(Role::Mark { .. })) && !ends_line(first)
}

// ---- all

/// Where a brace of the page ends that ends a paragraph, if a line break or the page's end is after it there, too: it
/// joins nothing.
fn ended_brace(spot: Option<InsidePlace<'_>>, units: &[Unit<'_>]) -> Option<usize> {
    let spot = spot?;
    let Unit::Thing(thing) = units.last()? else {
        return None;
    };
    let end = thing.place?.end;
    let is_brace = matches!(spot.place, Place::Paragraph) && thing.source.as_str().ends_with("{");
    let is_line_end = end == spot.page.len() || spot.page.get(end) == Some(&b'\n');
    if is_brace && is_line_end {
        Some(end)
    } else {
        None
    }
}

/// Whether a heading ends with a blank of the page, which would be none of its text.
fn ends_with_page_blank(spot: Option<InsidePlace<'_>>, units: &[Unit<'_>]) -> bool {
    let (Some(spot), Some(Unit::Thing(thing))) = (spot, units.last()) else {
        return false;
    };
    let is_text = matches!(thing.role, Role::Node) && thing.place.is_some();
    let last = thing.source.as_str().as_bytes().last();
    matches!(spot.place, Place::Heading) && is_text && last.is_some_and(|byte| is_blank(*byte))
}

/// Where a joint comes before a unit, its place in the page.
fn joint_before(spot: Option<InsidePlace<'_>>, units: &[Unit<'_>], at: usize) -> Option<Stretch> {
    if let Some(place) = meeting(units, at) {
        return Some(place);
    }
    if let Some(end) = ended_url(units, at) {
        return Some(behind(end));
    }
    if let Some(place) = blank_beside(units, at) {
        return Some(place);
    }
    if are_five(units, at) || is_url_in_style(units, at) || are_marks_in_line(units, at) {
        return Some(behind(0));
    }
    if may_begin(spot?, units, at) {
        Some(behind(0))
    } else {
        None
    }
}

/// Whether a unit would be read otherwise at the start of a line or of the inside, and no table of neighbours says so.
fn is_at_start(spot: Option<InsidePlace<'_>>, units: &[Unit<'_>], at: usize) -> bool {
    match spot {
        Some(spot) => {
            is_caption_sign(spot, units, at)
                || is_new_start(spot, units, at)
                || is_typed_start(spot, units, at)
                || is_emptied_line(spot, units, at)
        }
        None => false,
    }
}

fn push_before<'n>(
    alloc: Global,
    out: &mut Vec<Unit<'n>>,
    spot: Option<InsidePlace<'_>>,
    units: &[Unit<'n>],
    at: usize,
) -> Result<(), NoMemory> {
    if let Some(place) = joint_before(spot, units, at) {
        out.push(joint_at(alloc, place))?;
    }
    let joins = joins_link(units, at) || meets_bracket(units, at) || meets_like(units, at);
    if joins || is_at_start(spot, units, at) {
        push_nowiki(alloc, out)?;
    }
    Ok(())
}

/// The units with joints between those that are beside each other as they are. Without a spot no line begins and
/// none ends there: it is the inside of a link or tag.
pub fn with_joints<'n>(
    alloc: Global,
    spot: Option<InsidePlace<'_>>,
    units: &[Unit<'n>],
) -> Result<Vec<Unit<'n>>, NoMemory> {
    let mut out = Vec::new(alloc);
    for at in 0..units.len() {
        push_before(alloc, &mut out, spot, units, at)?;
        out.push(copy_of(alloc, &units[at])?)?;
    }
    let is_open = !units.is_empty() && is_at_start(spot, units, units.len());
    if is_open || ends_with_page_blank(spot, units) {
        push_nowiki(alloc, &mut out)?;
    }
    if let Some(end) = ended_brace(spot, units) {
        out.push(joint_at(alloc, behind(end)))?;
    }
    Ok(out)
}
