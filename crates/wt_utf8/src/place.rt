ghost use Rattle.std.specs.Prelude.{◌≡◌, IsUtf8, IfOk, IfErr, MatchOption, Some, None};
ghost use Rattle.wt_utf8.specs.Places.{IsPlace, not_utf8_place};

use crate::character::begun_len;
use wt_span::rest_of;

/// The text of which these are the bytes; or the place where they stop being UTF-8, in bytes: that of
/// the first byte that continues no UTF-8, or, where they end inside a character, their number.
pub fn read_text(bytes: &[u8]) -> Result<&str, usize>
    ensures text { IfOk result (λ s. s.now ≡ bytes.entry.now) }
    ensures whole { IfOk result (λ s. not_utf8_place bytes.entry.now ≡ None) }
    ensures place { IfErr result (λ place. not_utf8_place bytes.entry.now ≡ Some place) }
{
    match str::from_utf8(bytes) {
        Ok(text) => Ok(text),
        Err(error) => {
            let valid = error.valid_up_to();
            Err(valid + begun_len(rest_of(bytes, valid)))
        }
    }
}

/// The place where bytes stop being UTF-8; None where they are UTF-8.
pub fn not_utf8_place(bytes: &[u8]) -> Option<usize>
    ensures value { result ≡ not_utf8_place bytes.now }
    ensures exact { MatchOption result (IsUtf8 bytes.now) (λ place. IsPlace bytes.now place) }
{
    match read_text(bytes) {
        Ok(_) => None,
        Err(place) => Some(place),
    }
}
