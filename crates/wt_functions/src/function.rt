//! Which function a call's target names: it begins, past blanks and line breaks, with the function's
//! word in any case.
ghost use Rattle.std.specs.Prelude.{◌≡◌, ◌≤◌, ◌<◌, ◌^◌, drop, length};
ghost use Rattle.std.specs.List.{prefix_len};
ghost use Rattle.wt_span.specs.Bytes.{is_white};
ghost use Rattle.wt_span.specs.Functions.{space_len, begins_with, named, function_of};

use wt_span::{Function, PAGE_BYTES, front_of, rest_of};

/// A space, a tab or a line break.
fn is_white(byte: u8) -> bool
    ensures { result ≡ is_white byte }
{
    byte == b' ' || byte == b'\t' || byte == b'\n'
}

/// How many blanks and line breaks are first.
fn space_len(bytes: &[u8]) -> usize
    ensures value { result ≡ space_len bytes.now }
    ensures within { result ≤ length bytes.now }
{
    for (i, byte) in bytes.iter().enumerate() {
        if !is_white(*byte) {
            return i;
        }
    }
    bytes.len()
}

/// Whether a text begins with the word of a function.
#[tactic(auto, using(std::proofs::lemmas::List::take_min), unfolding(wt_span::specs::Functions::begins_with))]
fn begins_with(function: Function, bytes: &[u8]) -> bool
    ensures { result ≡ begins_with function bytes.now }
{
    let word = function.word();
    front_of(bytes, word.len().min(bytes.len())).eq_ignore_ascii_case(word)
}

/// The function whose word a text begins with.
fn named(bytes: &[u8]) -> Option<Function>
    ensures { result ≡ named bytes.now }
{
    if begins_with(Function::If, bytes) {
        Some(Function::If)
    } else if begins_with(Function::IfEq, bytes) {
        Some(Function::IfEq)
    } else if begins_with(Function::Switch, bytes) {
        Some(Function::Switch)
    } else {
        None
    }
}

/// The same of a target's bytes.
#[tactic(auto, unfolding(wt_span::specs::Functions::function_of))]
fn function_in(target: &[u8]) -> Option<(Function, u32)>
    requires { length target.now < 2 ^ 32 }
    ensures { result ≡ function_of target.now }
{
    let space = space_len(target);
    let function = named(rest_of(target, space))?;
    Some((function, (space + function.word().len()) as u32))
}

/// The function by text that a call of two braces is, by its source, and the place of its part 0 after
/// the braces.
#[tactic(auto, using(crate::proofs::ShortCalls::short_names_none))]
pub fn function_named(source: &[u8]) -> Option<(Function, u32)>
    requires { length source.now < 2 ^ 32 }
    ensures { result ≡ function_of (drop 2 source.now) }
{
    if source.len() < 2 {
        return None;
    }
    function_in(rest_of(source, 2))
}

/// The function that a call's target names, and the place of the byte after its colon, in bytes from
/// the target's start: there part 0 begins. `None` where no function is named; such a call is an
/// ordinary one, or, where the target begins with `#`, kept as it is.
pub fn function_of(target: &str) -> Option<(Function, u32)>
    requires { length target.now ≤ PAGE_BYTES }
    ensures { result ≡ function_of target.now }
{
    function_in(target.as_bytes())
}
