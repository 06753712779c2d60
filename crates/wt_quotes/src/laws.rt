//! What holds of the toggles and the styles of every context, for whoever calls these functions.

ghost use Rattle.std.specs.Prelude.{◌≡◌};
ghost use Rattle.wt_quotes.specs.ToggleLaws.{AtMostOneExchange, NotBothOdd, TogglesAreRuns};
ghost use Rattle.wt_quotes.specs.Forest.{FlattenedIsTheLine};
ghost use Rattle.wt_quotes.specs.StyleLaws.{StylesNest, EachByteIsStyled, EachSwitchIsOneDelimiter};

use crate::chunk::Chunk;

/// At most one run is exchanged, and after it the numbers of bold and of italic toggles are not
/// both odd, but where no run of three is in the context.
pub fn one_run_is_exchanged(chunks: &[Chunk])
    ensures one { AtMostOneExchange chunks.now }
    ensures even { NotBothOdd chunks.now }
{}

/// Each toggle with its plain apostrophes is one run, in the order of the runs.
pub fn toggles_are_runs(chunks: &[Chunk])
    ensures { TogglesAreRuns chunks.now }
{}

/// Styles nest: each later one lies after an earlier one or between its delimiters, and a bold
/// style never lies in a bold one, nor an italic one in an italic one.
pub fn styles_nest(chunks: &[Chunk])
    ensures { StylesNest chunks.now }
{}

/// Each byte outside the delimiters of toggles is in exactly one bold style where an odd number of
/// bold toggles lies before it, and in none elsewhere; likewise italic.
pub fn each_byte_is_styled(chunks: &[Chunk])
    ensures { EachByteIsStyled chunks.now }
{}

/// Each apostrophe of a toggle that isn't plain is in exactly one delimiter, and every other byte
/// in none, so that the nested styles, flattened with their delimiters, give the line.
pub fn each_switch_is_one_delimiter(chunks: &[Chunk])
    ensures { EachSwitchIsOneDelimiter chunks.now }
{}

/// The styles are a forest in preorder. Flattened with its delimiters it gives the line: text and
/// delimiters follow one another from its first byte to its last, and the delimiters are the
/// apostrophes of toggles that aren't plain.
pub fn flattened_is_the_line(chunks: &[Chunk])
    ensures { FlattenedIsTheLine chunks.now }
{}
