//! What the signs next to a place are, and those ahead of it.

ghost use Rattle.std.specs.Prelude.{◌≡◌, option_map, Option};
ghost use Rattle.wt_guards.specs.Content.{nearest, is_group};
ghost use Rattle.wt_guards.specs.Letters.{opens_tag, opens_entity, is_next, is_end, is_apostrophe_or_end, are_slashes, is_blank_to_end};
ghost use Rattle.wt_guards.specs.Guards.{is_line_start, is_line_mark_next, is_start_hazard, is_new_next, is_line_end, is_blank_last, is_group_last, is_empty_line, is_nearest};
ghost use Rattle.wt_guards.specs.Views.{sign_of, signs_left};
ghost use Rattle.wt_span.specs.Bytes.{is_blank};

use crate::side::line_start_hazard;
use crate::signs::{ContentSign, Signs};

/// A space or a tab.
pub fn is_blank(c: char) -> bool
    ensures { result ≡ is_blank c }
{
    c == ' ' || c == '\t'
}

// ---- the sign next to a place, where there is one

pub fn opens_tag(next: Option<ContentSign<'_>>) -> bool
    ensures { result ≡ opens_tag (option_map sign_of next.entry) }
{
    match next {
        Some(ContentSign::Letter(c)) => c.is_ascii_alphabetic() || c == '/' || c == '!',
        Some(ContentSign::Thing(_)) => true,
        None => true,
    }
}

pub fn opens_entity(next: Option<ContentSign<'_>>) -> bool
    ensures { result ≡ opens_entity (option_map sign_of next.entry) }
{
    match next {
        Some(ContentSign::Letter(c)) => c.is_ascii_alphabetic() || c == '#',
        Some(ContentSign::Thing(_)) => true,
        None => true,
    }
}

pub fn is_next(d: char, next: Option<ContentSign<'_>>) -> bool
    ensures { result ≡ is_next d (option_map sign_of next.entry) }
{
    match next {
        Some(ContentSign::Letter(c)) => c == d,
        Some(ContentSign::Thing(_)) => false,
        None => false,
    }
}

pub fn is_apostrophe_or_end(next: Option<ContentSign<'_>>) -> bool
    ensures { result ≡ is_apostrophe_or_end (option_map sign_of next.entry) }
{
    match next {
        Some(ContentSign::Letter(c)) => c == '\'',
        Some(ContentSign::Thing(_)) => true,
        None => true,
    }
}

pub fn is_line_start(last: Option<ContentSign<'_>>) -> bool
    ensures { result ≡ is_line_start (option_map sign_of last.entry) }
{
    match last {
        Some(ContentSign::Letter(c)) => c == '\n',
        Some(ContentSign::Thing(thing)) => thing.role.ends_line(),
        None => true,
    }
}

pub fn is_line_mark_next(next: Option<ContentSign<'_>>) -> bool
    ensures { result ≡ is_line_mark_next (option_map sign_of next.entry) }
{
    match next {
        Some(ContentSign::Letter(_)) => false,
        Some(ContentSign::Thing(thing)) => thing.role.ends_line(),
        None => false,
    }
}

pub fn is_start_hazard(next: Option<ContentSign<'_>>) -> bool
    ensures { result ≡ is_start_hazard (option_map sign_of next.entry) }
{
    match next {
        Some(ContentSign::Letter(c)) => line_start_hazard(c),
        Some(ContentSign::Thing(_)) => false,
        None => false,
    }
}

pub fn is_new_next(next: Option<ContentSign<'_>>) -> bool
    ensures { result ≡ is_new_next (option_map sign_of next.entry) }
{
    match next {
        Some(ContentSign::Letter(_)) => false,
        Some(ContentSign::Thing(thing)) => thing.role.is_new_at_start(),
        None => false,
    }
}

pub fn is_end(next: Option<ContentSign<'_>>) -> bool
    ensures { result ≡ is_end (option_map sign_of next.entry) }
{
    match next {
        Some(ContentSign::Letter(_)) => false,
        Some(ContentSign::Thing(_)) => false,
        None => true,
    }
}

pub fn is_line_end(next: Option<ContentSign<'_>>) -> bool
    ensures { result ≡ is_line_end (option_map sign_of next.entry) }
{
    match next {
        Some(ContentSign::Letter(c)) => c == '\n',
        Some(ContentSign::Thing(_)) => false,
        None => true,
    }
}

pub fn is_blank_last(last: Option<ContentSign<'_>>) -> bool
    ensures { result ≡ is_blank_last (option_map sign_of last.entry) }
{
    match last {
        Some(ContentSign::Letter(c)) => is_blank(c),
        Some(ContentSign::Thing(_)) => false,
        None => false,
    }
}

pub fn is_group_last(last: Option<ContentSign<'_>>) -> bool
    ensures { result ≡ is_group_last (option_map sign_of last.entry) }
{
    match last {
        Some(ContentSign::Letter(_)) => false,
        Some(ContentSign::Thing(thing)) => thing.role.is_new_last(),
        None => false,
    }
}

// ---- the signs ahead

impl<'u, 't> Signs<'u, 't> {
    /// The next sign.
    pub fn peek(self) -> Option<ContentSign<'u>>
        ensures { option_map sign_of result ≡ nearest (signs_left self.entry) }
    {
        match self.split_first() {
            Some((sign, _)) => Some(sign),
            None => None,
        }
    }

    /// `//` follows.
    pub fn are_slashes(self) -> bool
        ensures { result ≡ are_slashes (signs_left self.entry) }
    {
        match self.split_first() {
            Some((ContentSign::Letter(c), after)) => c == '/' && is_next('/', after.peek()),
            Some((ContentSign::Thing(_), _)) => false,
            None => false,
        }
    }

    /// Only spaces and tabs follow, up to a line break or the end of the text.
    pub fn is_blank_to_end(self) -> bool
        ensures { result ≡ is_blank_to_end (signs_left self.entry) }
    {
        let mut rest = self;
        while let Some((sign, after)) = rest.split_first() {
            match sign {
                ContentSign::Letter(c) => {
                    if !is_blank(c) {
                        return c == '\n';
                    }
                }
                ContentSign::Thing(_) => return true,
            }
            rest = after;
        }
        true
    }

    /// The line has no character but spaces and tabs from here on, and no node but marks.
    pub fn is_empty_line(self) -> bool
        ensures { result ≡ is_empty_line (signs_left self.entry) }
    {
        let mut rest = self;
        while let Some((sign, after)) = rest.split_first() {
            match sign {
                ContentSign::Letter(c) => {
                    if !is_blank(c) {
                        return c == '\n';
                    }
                }
                ContentSign::Thing(thing) => {
                    if thing.role.ends_line() {
                        return true;
                    }
                    if !thing.role.is_invisible() {
                        return false;
                    }
                }
            }
            rest = after;
        }
        true
    }

    /// The nearest sign, past spaces, tabs and marks that don't end a line, is a group.
    pub fn is_group_nearest(self) -> bool
        ensures { result ≡ is_nearest is_group (signs_left self.entry) }
    {
        let mut rest = self;
        while let Some((sign, after)) = rest.split_first() {
            match sign {
                ContentSign::Letter(c) => {
                    if !is_blank(c) {
                        return false;
                    }
                }
                ContentSign::Thing(thing) => {
                    if !thing.role.is_invisible() || thing.role.ends_line() {
                        return thing.role.is_group();
                    }
                }
            }
            rest = after;
        }
        false
    }
}
