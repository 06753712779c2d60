//! What is known of the signs before a place.

ghost use Rattle.std.specs.Prelude.{◌≡◌, ◌∷◌, [], ℕ, List, option_map, Option};
ghost use Rattle.wt_guards.specs.Content.{ContentSign as AnySign, nearest};
ghost use Rattle.wt_guards.specs.Letters.{is_clear, is_indented};
ghost use Rattle.wt_guards.specs.Guards.{is_line_begun, is_unended, is_nearest, is_group_or_bare, is_past_node, reached, past, end_of};
ghost use Rattle.wt_guards.specs.Views.{sign_of, IsBehind};

use crate::ahead::is_blank;
use crate::role::Stretch;
use crate::signs::ContentSign;

/// What the signs before a place are: the one next to it; whether nothing but marks is between
/// the line's start and the place; whether the last of the line wants a guard at its end; whether
/// nothing on the line but groups that show blanks, marks and blanks comes before, and whether one
/// such group does; whether the nearest node, past blanks and marks, is a group or a bare URL; whether
/// only blanks are between the last node and the place; and where the page goes on, if it has the
/// same text between them.
#[derive(Clone, Copy)]
pub struct Behind<'u> {
    pub last: Option<ContentSign<'u>>,
    pub is_line_begun: bool,
    pub is_unended: bool,
    pub is_clear: bool,
    pub is_indented: bool,
    pub is_group_near: bool,
    pub is_past_node: bool,
    pub reached: Option<usize>,
}

fn begun_after(begun: bool, sign: ContentSign<'_>) -> bool
    ensures { (before : List AnySign) → begun ≡ is_line_begun before → result ≡ is_line_begun (sign_of sign.entry ∷ before) }
{
    match sign {
        ContentSign::Letter(c) => c == '\n',
        ContentSign::Thing(thing) => thing.role.ends_line() || (thing.role.is_invisible() && begun),
    }
}

fn unended_after(unended: bool, sign: ContentSign<'_>) -> bool
    ensures { (before : List AnySign) → unended ≡ is_unended before → result ≡ is_unended (sign_of sign.entry ∷ before) }
{
    match sign {
        ContentSign::Letter(c) => is_blank(c) && unended,
        ContentSign::Thing(thing) => {
            if thing.role.is_invisible() {
                unended
            } else {
                thing.role.is_new_at_end()
            }
        }
    }
}

fn clear_after(clear: bool, sign: ContentSign<'_>) -> bool
    ensures { (before : List AnySign) → clear ≡ is_clear before → result ≡ is_clear (sign_of sign.entry ∷ before) }
{
    match sign {
        ContentSign::Letter(c) => c == '\n' || (is_blank(c) && clear),
        ContentSign::Thing(thing) => {
            let role = thing.role;
            role.ends_line() || ((role.is_invisible() || role.shows_blanks()) && clear)
        }
    }
}

fn indented_after(clear: bool, indented: bool, sign: ContentSign<'_>) -> bool
    ensures { (before : List AnySign) → clear ≡ is_clear before → indented ≡ is_indented before → result ≡ is_indented (sign_of sign.entry ∷ before) }
{
    match sign {
        ContentSign::Letter(c) => is_blank(c) && indented,
        ContentSign::Thing(thing) => {
            let role = thing.role;
            !role.ends_line()
                && ((role.shows_blanks() && clear) || (role.is_invisible() && indented))
        }
    }
}

fn near_after(near: bool, sign: ContentSign<'_>) -> bool
    ensures { (before : List AnySign) → near ≡ is_nearest is_group_or_bare before → result ≡ is_nearest is_group_or_bare (sign_of sign.entry ∷ before) }
{
    match sign {
        ContentSign::Letter(c) => is_blank(c) && near,
        ContentSign::Thing(thing) => {
            let role = thing.role;
            if role.is_invisible() && !role.ends_line() {
                near
            } else {
                role.is_group_or_bare()
            }
        }
    }
}

fn past_node_after(past_node: bool, sign: ContentSign<'_>) -> bool
    ensures { (before : List AnySign) → past_node ≡ is_past_node before → result ≡ is_past_node (sign_of sign.entry ∷ before) }
{
    match sign {
        ContentSign::Letter(c) => is_blank(c) && past_node,
        ContentSign::Thing(_) => true,
    }
}

pub fn end_of(place: Option<Stretch>) -> Option<usize>
    ensures { result ≡ end_of place }
{
    match place {
        Some(stretch) => Some(stretch.end),
        None => None,
    }
}

/// After this character, where the source has it here. (It is a byte where this is asked.)
fn past(source: &[u8], c: char, at: Option<usize>) -> Option<usize>
    ensures { result ≡ past source.now c at }
{
    let at = at?;
    let byte = source.get(at)?;
    if *byte as u32 == c as u32 {
        Some(at + 1)
    } else {
        None
    }
}

fn reached_after(source: &[u8], at: Option<usize>, sign: ContentSign<'_>) -> Option<usize>
    ensures { (before : List AnySign) → at ≡ reached source.now before → result ≡ reached source.now (sign_of sign.entry ∷ before) }
{
    match sign {
        ContentSign::Letter(c) => past(source, c, at),
        ContentSign::Thing(thing) => end_of(thing.place),
    }
}

impl<'u> Behind<'u> {
    /// At the content's start.
    pub fn start(source: &[u8]) -> Behind<'u>
        ensures { IsBehind source.now [] result }
    {
        Behind {
            last: None,
            is_line_begun: true,
            is_unended: false,
            is_clear: true,
            is_indented: false,
            is_group_near: false,
            is_past_node: false,
            reached: None,
        }
    }

    /// After one more sign.
    pub fn after(self, source: &[u8], sign: ContentSign<'u>) -> Behind<'u>
        ensures { (before : List AnySign) → IsBehind source.now before self.entry → IsBehind source.now (sign_of sign.entry ∷ before) result }
    {
        Behind {
            last: Some(sign),
            is_line_begun: begun_after(self.is_line_begun, sign),
            is_unended: unended_after(self.is_unended, sign),
            is_clear: clear_after(self.is_clear, sign),
            is_indented: indented_after(self.is_clear, self.is_indented, sign),
            is_group_near: near_after(self.is_group_near, sign),
            is_past_node: past_node_after(self.is_past_node, sign),
            reached: reached_after(source, self.reached, sign),
        }
    }
}
