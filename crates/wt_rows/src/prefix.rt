//! The prefixes of lines of lists.

ghost use Rattle.std.specs.Prelude.{ℕ, suc, ◌≡◌, ◌∷◌, ◌++◌, [], true, false, length, IfOk, MatchOption};
ghost use Rattle.wt_span.specs.Items.{items};
ghost use Rattle.wt_lines.specs.Signs.{left, number};
ghost use Rattle.wt_blocks.specs.Nesting.{is_list_sign};
ghost use Rattle.wt_page.specs.Lists.{prefix_of};
ghost use Rattle.wt_rows.specs.Prefixes.{list_signs};

use std::alloc::Global;
use wt_blocks::MOST_SIGNS;
use wt_lines::{LineSign, Signs};
use wt_span::{NoMemory, Piece, Str};

/// The text of a sign of lists.
fn list_sign(sign: LineSign) -> Option<&'static str>
    ensures { MatchOption result (is_list_sign (number sign) ≡ false) (λ t. (is_list_sign (number sign) ≡ true) × (t.now ≡ number sign ∷ [])) }
{
    match sign {
        LineSign::Byte(b'*') => Some("*"),
        LineSign::Byte(b'#') => Some("#"),
        LineSign::Byte(b':') => Some(":"),
        LineSign::Byte(b';') => Some(";"),
        LineSign::Byte(_) | LineSign::Atom | LineSign::Mark => None,
    }
}

/// The sign of lists that is first, and what is left after it.
fn split_list_sign<'p, 'a>(signs: Signs<'p, 'a>) -> Option<(&'static str, Signs<'p, 'a>)>
    ensures { MatchOption result ((n : ℕ) → list_signs n (left signs.entry) ≡ []) (λ r. (n : ℕ)
        → list_signs (suc n) (left signs.entry) ≡ r.0.now ++ list_signs n (left r.1)) }
{
    let (sign, rest) = signs.split_first()?;
    let text = list_sign(sign)?;
    Some((text, rest))
}

/// The signs at the front of a line of a list that count: `*`, `#`, `:` and `;`, 32 at most.
pub fn prefix_of(alloc: Global, line: &[Piece<'_>]) -> Result<Str, NoMemory>
    ensures { IfOk result (λ s. s ≡ prefix_of (items line.now)) }
{
    let mut prefix = Str::new(alloc);
    let mut rest = Signs::of(line);
    for i in 0..MOST_SIGNS {
        let Some((text, after)) = split_list_sign(rest) else {
            return Ok(prefix);
        };
        prefix.push_str(text)?;
        rest = after;
    }
    Ok(prefix)
}
