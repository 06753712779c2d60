//! Texts with their lexemes and their calls.
ghost use Rattle.std.specs.Prelude.{◌≡◌, ◌<◌, ◌^◌, Some, length, slice_get};

use wt_braces::PartAt;
use wt_lex::Lexeme;
use wt_span::Range;

/// A call or an argument of a text, by its bytes there.
#[derive(Clone, Copy, Debug)]
pub struct Braces<'a> {
    /// Three braces made it, and not two.
    pub argument: bool,
    /// From its first brace to its last.
    pub at: Range,
    /// The target, and then each further part.
    pub parts: &'a [PartAt],
    /// The number, from 0, of the nearest call or argument round it.
    pub parent: Option<u32>,
    pub ghost some: { 0 < length parts.now },
}

impl<'a> Braces<'a> {
    /// The first part: the target of a call, or the name of an argument.
    pub fn first_part(self) -> PartAt
        ensures { slice_get self.entry.parts.now 0 ≡ Some result }
    {
        self.parts[0]
    }
}

/// A text with its lexemes and its calls, in the order of their first bytes.
#[derive(Clone, Copy, Debug)]
pub struct ReadText<'a> {
    pub text: &'a str,
    pub lexemes: &'a [Lexeme],
    pub calls: &'a [Braces<'a>],
    pub ghost few: { length text.now < 2 ^ 32 },
}
