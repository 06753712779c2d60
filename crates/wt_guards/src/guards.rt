//! Where `<nowiki/>` is put.

ghost use Rattle.std.specs.Prelude.{◌≡◌, ◌∷◌, ℕ, List, option_map, Option};
ghost use Rattle.wt_guards.specs.Content.{ContentSign as AnySign, is_group};
ghost use Rattle.wt_guards.specs.Guards.{start_of, is_this, is_reached, is_new_text_next, has_brace_last, is_adjacent, is_parted, is_parted_from_letter, is_parted_from_thing, is_between_guard, is_brace_last, is_content_end_guard, is_start_guard, is_end_guard, is_blank_guard, is_nearest, is_guarded};
ghost use Rattle.wt_guards.specs.Views.{sign_of, thing_of, signs_left, setting_of, IsBehind, Knows};

use crate::ahead::{
    is_blank, is_blank_last, is_end, is_group_last, is_line_end, is_line_mark_next, is_line_start,
    is_new_next, is_start_hazard,
};
use crate::behind::{Behind, end_of};
use crate::role::Stretch;
use crate::side::{Side, hazard};
use crate::signs::{ContentSign, Signs, Thing};
use wt_tree::Place;

/// What the spelling of a content depends on: whether it is the inside of a link or tag, where no
/// line begins or ends; what it is in; and the source of its block in the page.
#[derive(Clone, Copy)]
pub struct Setting<'s> {
    pub within: bool,
    pub place: Place,
    pub source: &'s [u8],
}

// ---- two nodes

fn start_of(place: Option<Stretch>) -> Option<usize>
    ensures { result ≡ start_of place }
{
    match place {
        Some(stretch) => Some(stretch.start),
        None => None,
    }
}

fn is_this(found: Option<usize>, wanted: usize) -> bool
    ensures { result ≡ is_this found wanted }
{
    match found {
        Some(found) => found == wanted,
        None => false,
    }
}

fn is_reached(at: Option<usize>, start: Option<usize>) -> bool
    ensures { result ≡ is_reached at start }
{
    match at {
        Some(at) => is_this(start, at),
        None => false,
    }
}

fn has_brace_last(source: &str) -> bool
    ensures { result ≡ has_brace_last source.now }
{
    source.as_bytes().ends_with(b"{")
}

/// Both was in the page, the second where the first one ends.
fn is_adjacent(a: &Thing, b: &Thing) -> bool
    ensures { result ≡ is_adjacent (thing_of a.now) (thing_of b.now) }
{
    is_reached(end_of(a.place), start_of(b.place))
}

/// Whether `<nowiki/>` is put between two nodes.
#[tactic(auto, unfolding(crate::specs::Guards::is_parted))]
fn is_parted(a: &Thing, b: &Thing) -> bool
    ensures { result ≡ is_parted (thing_of a.now) (thing_of b.now) }
{
    if b.role.is_function() && has_brace_last(a.source.as_str()) {
        return true;
    }
    if a.role.is_mark() && b.role.is_mark() {
        return !a.role.ends_line() && !is_adjacent(a, b);
    }
    hazard(a.role.left_side(), b.role.side_of())
        && (a.role.is_always_parted(b.role) || !is_adjacent(a, b))
}

// ---- two signs

fn is_parted_from_letter(c: char, next: Option<ContentSign<'_>>) -> bool
    ensures { result ≡ is_parted_from_letter c (option_map sign_of next.entry) }
{
    match next {
        Some(ContentSign::Letter(_)) => false,
        Some(ContentSign::Thing(b)) => hazard(Side::Text(c), b.role.side_of()),
        None => false,
    }
}

fn is_parted_from_thing(a: &Thing, next: Option<ContentSign<'_>>) -> bool
    ensures { result ≡ is_parted_from_thing (thing_of a.now) (option_map sign_of next.entry) }
{
    match next {
        Some(ContentSign::Letter(d)) => hazard(a.role.left_side(), Side::Text(d)),
        Some(ContentSign::Thing(b)) => is_parted(a, b),
        None => false,
    }
}

#[tactic(auto, unfolding(crate::specs::Guards::is_between_guard))]
fn is_between_guard(last: Option<ContentSign<'_>>, next: Option<ContentSign<'_>>) -> bool
    ensures { result ≡ is_between_guard (option_map sign_of last.entry) (option_map sign_of next.entry) }
{
    match last {
        Some(ContentSign::Letter(c)) => is_parted_from_letter(c, next),
        Some(ContentSign::Thing(a)) => is_parted_from_thing(a, next),
        None => false,
    }
}

// ---- lines

#[tactic(auto, unfolding(crate::specs::Guards::is_start_guard))]
fn is_start_guard(behind: Behind<'_>, after: Signs<'_, '_>) -> bool
    ensures { (source : List ℕ) (before : List AnySign) → IsBehind source before behind.entry → result ≡ is_start_guard before (signs_left after.entry) }
{
    let next = after.peek();
    if is_line_start(behind.last)
        && ((after.is_empty_line() && !is_line_mark_next(next)) || is_new_next(next))
    {
        return true;
    }
    behind.is_line_begun && is_start_hazard(next)
}

/// Whether the last sign of a paragraph is a node that ends with `{` and didn't end the paragraph in
/// the page.
fn is_brace_last(source: &[u8], last: Option<ContentSign<'_>>) -> bool
    ensures { result ≡ is_brace_last source.now (option_map sign_of last.entry) }
{
    match last {
        Some(ContentSign::Letter(_)) => false,
        Some(ContentSign::Thing(thing)) => {
            has_brace_last(thing.source.as_str())
                && !is_reached(end_of(thing.place), Some(source.len()))
        }
        None => false,
    }
}

fn is_content_end_guard(setting: Setting<'_>, last: Option<ContentSign<'_>>) -> bool
    ensures { result ≡ is_content_end_guard setting.entry.source.now setting.entry.place (option_map sign_of last.entry) }
{
    match setting.place {
        Place::Paragraph => is_group_last(last) || is_brace_last(setting.source, last),
        Place::Heading | Place::Item | Place::Term | Place::Cell | Place::Header => {
            is_blank_last(last)
        }
    }
}

#[tactic(auto, unfolding(crate::specs::Guards::is_end_guard))]
fn is_end_guard(setting: Setting<'_>, behind: Behind<'_>, after: Signs<'_, '_>) -> bool
    ensures { (before : List AnySign) → IsBehind setting.entry.source.now before behind.entry
        → result ≡ is_end_guard setting.entry.source.now setting.entry.place before (signs_left after.entry) }
{
    let next = after.peek();
    (is_line_end(next) && behind.is_unended)
        || (is_end(next) && is_content_end_guard(setting, behind.last))
}

// ---- a text of blanks before a group

fn is_new_text_next(at: Option<usize>, next: Option<ContentSign<'_>>) -> bool
    ensures { result ≡ is_new_text_next at (option_map sign_of next.entry) }
{
    match next {
        Some(ContentSign::Letter(_)) => false,
        Some(ContentSign::Thing(thing)) => !is_reached(at, start_of(thing.place)),
        None => false,
    }
}

/// Whether the nearest sign ahead is a group, which may be known already.
fn is_group_ahead(known: Option<bool>, after: Signs<'_, '_>) -> bool
    requires { Knows known (signs_left after) }
    ensures { result ≡ is_nearest is_group (signs_left after.entry) }
{
    match known {
        Some(answer) => answer,
        None => after.is_group_nearest(),
    }
}

/// What is known of the signs ahead, where the next guard asks for it.
pub fn learn(known: Option<bool>, behind: Behind<'_>, after: Signs<'_, '_>) -> Option<bool>
    requires { Knows known (signs_left after) }
    ensures { Knows result (signs_left after.entry) }
{
    if is_blank_last(behind.last) && behind.is_past_node && behind.is_group_near {
        Some(is_group_ahead(known, after))
    } else {
        known
    }
}

/// What is still known when this sign is passed.
pub fn keep(known: Option<bool>, sign: ContentSign<'_>) -> Option<bool>
    ensures { (after : List AnySign) → Knows known (sign_of sign.entry ∷ after) → Knows result after }
{
    let is_passed = match sign {
        ContentSign::Letter(c) => is_blank(c),
        ContentSign::Thing(thing) => thing.role.is_invisible() && !thing.role.ends_line(),
    };
    if is_passed { known } else { None }
}

#[tactic(auto, unfolding(crate::specs::Guards::is_blank_guard))]
fn is_blank_guard(behind: Behind<'_>, after: Signs<'_, '_>, known: Option<bool>) -> bool
    requires { Knows known (signs_left after) }
    ensures { (source : List ℕ) (before : List AnySign) → IsBehind source before behind.entry → result ≡ is_blank_guard source before (signs_left after.entry) }
{
    is_blank_last(behind.last)
        && behind.is_past_node
        && behind.is_group_near
        && is_group_ahead(known, after)
        && is_new_text_next(behind.reached, after.peek())
}

// ---- all

/// Whether `<nowiki/>` is put at a place.
#[tactic(auto, unfolding(crate::specs::Guards::is_guarded))]
pub fn is_guarded(
    setting: Setting<'_>,
    behind: Behind<'_>,
    after: Signs<'_, '_>,
    known: Option<bool>,
) -> bool
    requires { Knows known (signs_left after) }
    ensures { (before : List AnySign) → IsBehind setting.entry.source.now before behind.entry
        → result ≡ is_guarded (setting_of setting.entry) before (signs_left after.entry) }
{
    if is_between_guard(behind.last, after.peek()) {
        return true;
    }
    if setting.within {
        return false;
    }
    is_start_guard(behind, after)
        || is_end_guard(setting, behind, after)
        || is_blank_guard(behind, after, known)
}
