//! The content as it is read from the left.

ghost use Rattle.std.specs.Prelude.{◌≡◌, [], ◌∷◌, MatchOption};
ghost use Rattle.std.specs.List.{flat_map};
ghost use Rattle.wt_guards.specs.Content.{letter, letters};
ghost use Rattle.wt_guards.specs.Views.{sign_of, signs_in, signs_left, is_no_sign};

use crate::role::{Role, Stretch};
use wt_span::Str;

/// A node of the content, or one delimiter of a style: what it is, what it writes, and where it
/// is in the page, if it does.
#[derive(Drop)]
pub struct Thing {
    pub role: Role,
    pub source: Str,
    pub place: Option<Stretch>,
}

/// A piece of the content: a text of the edited tree, a text that was put together, or a node.
#[derive(Drop)]
pub enum Unit<'t> {
    Text(&'t str),
    Copied(Str),
    Thing(Thing),
}

/// A sign of the content: a character of a text, or a node.
#[derive(Clone, Copy)]
pub enum ContentSign<'u> {
    Letter(char),
    Thing(&'u Thing),
}

/// What is left to read: the rest of a text, and the units after it.
#[derive(Clone, Copy)]
pub struct Signs<'u, 't> {
    text: &'u str,
    units: &'u [Unit<'t>],
}

/// The first character of a text, and the text after it.
pub fn split_char(text: &str) -> Option<(char, &str)>
    ensures { MatchOption result (letters text.entry.now ≡ []) (λ r. letters text.entry.now ≡ letter r.0 ∷ letters r.1.now) }
{
    let mut chars = text.chars();
    match chars.next() {
        Some(c) => Some((c, chars.as_str())),
        None => None,
    }
}

impl<'u, 't> Signs<'u, 't> {
    /// All signs of these units.
    #[tactic(auto, using(crate::proofs::Texts::letters_nil))]
    pub fn of(units: &'u [Unit<'t>]) -> Signs<'u, 't>
        ensures { signs_left result ≡ flat_map signs_in units.entry.now }
    {
        Signs { text: "", units }
    }

    /// No sign is left.
    pub fn is_empty(self) -> bool
        ensures { result ≡ is_no_sign (signs_left self.entry) }
    {
        match self.split_first() {
            Some(_) => false,
            None => true,
        }
    }

    /// The next sign, and what is left after it.
    #[cycle(splitting)]
    pub fn split_first(self) -> Option<(ContentSign<'u>, Signs<'u, 't>)>
        ensures { MatchOption result (signs_left self.entry ≡ []) (λ r. signs_left self.entry ≡ sign_of r.0 ∷ signs_left r.1) }
    {
        if let Some((c, text)) = split_char(self.text) {
            let rest = Signs {
                text,
                units: self.units,
            };
            return Some((ContentSign::Letter(c), rest));
        }
        self.split_unit()
    }

    /// The same where the text is at its end.
    #[cycle(splitting)]
    #[tactic(auto, using(crate::proofs::Texts::letters_nil))]
    fn split_unit(self) -> Option<(ContentSign<'u>, Signs<'u, 't>)>
        requires { letters self.text.now ≡ [] }
        ensures { MatchOption result (signs_left self.entry ≡ []) (λ r. signs_left self.entry ≡ sign_of r.0 ∷ signs_left r.1) }
    {
        match self.units.split_first() {
            Some((Unit::Text(text), units)) => Signs { text: *text, units }.split_first(),
            Some((Unit::Copied(text), units)) => {
                let text = text.as_str();
                Signs { text, units }.split_first()
            }
            Some((Unit::Thing(thing), units)) => {
                Some((ContentSign::Thing(thing), Signs { text: "", units }))
            }
            None => None,
        }
    }
}
