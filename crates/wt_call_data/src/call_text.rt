//! Texts of an outermost call: slices of its source, trimmed or as they are written.

ghost use Rattle.std.specs.Prelude.{
  ◌≡◌,
  ◌≤◌,
  ◌+◌,
  length,
  reverse,
};
ghost use Rattle.std.specs.List.{prefix_len};
ghost use Rattle.wt_span.specs.Origins.{IsBorder, outer_call};
ghost use Rattle.wt_call_data.specs.CallData.{is_white, source_slice, trimmed, without_lead, without_tail};

use wt_span::{Outer, Range};

fn is_white(byte: u8) -> bool
    ensures { result ≡ is_white byte }
{
    byte == b' ' || byte == b'\t' || byte == b'\n'
}

/// How many bytes of white space are in front.
fn lead_len(text: &str) -> usize
    ensures { result ≡ prefix_len is_white text.now }
{
    text.as_bytes()
        .iter()
        .take_while(|byte| is_white(**byte))
        .count()
}

/// How many bytes of white space are at the end.
fn tail_len(text: &str) -> usize
    ensures { result ≡ prefix_len is_white (reverse text.now) }
{
    text.as_bytes()
        .iter()
        .rev()
        .take_while(|byte| is_white(**byte))
        .count()
}

fn without_lead(text: &str) -> &str
    ensures { result.now ≡ without_lead text.now }
{
    let lead = lead_len(text);
    &text[lead..]
}

fn without_tail(text: &str) -> &str
    ensures { result.now ≡ without_tail text.now }
{
    let end = text.len() - tail_len(text);
    &text[..end]
}

/// A text without the white space round it.
#[tactic(auto, unfolding(crate::specs::CallData::trimmed))]
pub fn trimmed(text: &str) -> &str
    ensures { result.now ≡ trimmed text.now }
{
    without_tail(without_lead(text))
}

/// What is in a call's source between two places of the page.
pub fn source_slice<'a>(outer: &Outer<'a>, from: u32, to: u32) -> &'a str
    requires start { (outer_call outer.now).start ≤ from }
    requires order { from ≤ to }
    requires end { to ≤ (outer_call outer.now).start + length (outer_call outer.now).source }
    requires from_border { IsBorder (outer_call outer.now) from }
    requires to_border { IsBorder (outer_call outer.now) to }
    ensures { result.now ≡ source_slice (outer_call outer.now) from to }
{
    outer
        .source
        .slice(Range {
            start: from,
            end: to,
        })
        .as_str()
}
