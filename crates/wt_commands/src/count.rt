//! The number that a word of `gen` means.

ghost use Rattle.std.specs.Prelude.{◌≡◌};
ghost use Rattle.wt_commands.specs.Words.{section_count};

use wt_gen::MOST_SECTIONS;
use wt_html_nodes::decimal_of;

/// How many sections a word asks for: a decimal number from 1 to 10,000 without leading zeros.
#[tactic(auto, unfolding(crate::specs::Words::section_count))]
pub fn section_count(word: &str) -> Option<u32>
    ensures { result ≡ section_count word.now }
{
    match decimal_of(word.as_bytes()) {
        Some(count) => {
            if count <= MOST_SECTIONS {
                Some(count)
            } else {
                None
            }
        }
        None => None,
    }
}
