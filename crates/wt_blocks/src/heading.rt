ghost use Rattle.std.specs.Prelude.{◌≡◌, ◌+◌, ◌-◌, ◌/◌, ◌^◌, ◌<◌, ◌≤◌, ◌==◌, min, length, map, if◌then◌else◌};
ghost use Rattle.wt_span.specs.Items.{sign, items, sources};
ghost use Rattle.wt_blocks.specs.Headings.{core, level_of, open_len, inside_len};

use crate::ends::{SignClass, back_len, before_back, front_len, past_front};
use crate::measure::item_count;
use wt_lines::{BackSigns, Signs};
use wt_span::Piece;

/// `h1` to `h6`.
const MOST_LEVEL: usize = 6;

/// The level of a heading of so many signs up to the last that is visible and no blank, which has so
/// many `=` at its front and at its back.
fn level_by(core_len: usize, first: usize, last: usize) -> usize
    ensures { result ≡ (if first == core_len then min 6 ((core_len - 1) / 2) else min 6 (min first last)) }
{
    let level = if first == core_len {
        core_len.saturating_sub(1) / 2
    } else {
        first.min(last)
    };
    level.min(MOST_LEVEL)
}

/// Where a heading is cut: its level (1 to 6), and how many items are in its open delimiter and
/// between the delimiters.
#[derive(Clone, Copy, Debug, PartialEq, Eq)]
pub struct HeadingCuts {
    pub level: u8,
    pub open_len: usize,
    pub inside_len: usize,
}

/// Where the delimiters end, of a heading from its first visible item on, by MediaWiki's rule in the
/// profile's form: the open delimiter is as many `=` as the level with the blanks after them, the
/// close delimiter the blanks before as many `=` with all after them. The call is meant for a line
/// that `kind_of_pieces` calls a heading; of another line the numbers are what the definition gives.
pub fn heading_cuts(pieces: &[Piece<'_>]) -> HeadingCuts
    requires { length (sources (items pieces.now)) < 2 ^ 32 }
    ensures level { result.level ≡ level_of (core (map sign (items pieces.now))) }
    ensures open_len { result.open_len ≡ open_len (core (map sign (items pieces.now))) }
    ensures inside_len { result.inside_len ≡ inside_len (core (map sign (items pieces.now))) }
    ensures within { result.open_len + result.inside_len ≤ length (items pieces.now) }
{
    let signs = Signs::of(pieces);
    let back = BackSigns::of(pieces);
    let count = item_count(pieces);
    let core_len = count - back_len(back, SignClass::Idle, count);
    let core_back = back.before_idle();
    let first = front_len(signs, SignClass::Equal, core_len);
    let last = back_len(core_back, SignClass::Equal, MOST_LEVEL);
    let level = level_by(core_len, first, last);
    let rest_len = core_len.saturating_sub(level);
    let open_len = level + front_len(past_front(signs, level), SignClass::Blank, rest_len);
    let between = rest_len.saturating_sub(open_len);
    let blanks = back_len(before_back(core_back, level), SignClass::Blank, between);
    HeadingCuts {
        level: level as u8,
        open_len,
        inside_len: between - blanks,
    }
}
