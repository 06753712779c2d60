//! Texts as strings of JSON.

ghost use Rattle.std.specs.Prelude.{◌≡◌, ◌++◌, ◌<◌, ◌≤◌, true, take, length, IfOk, OnOk};
ghost use Rattle.std.specs.Char.{digit_char};
ghost use Rattle.std.specs.List.{list_all};
ghost use Rattle.json.specs.Print.{escape, escape_byte, quoted};
ghost use Rattle.wt_datamw.specs.JsonText.{stands_for_itself};

use wt_devices::push;
use wt_span::{NoMemory, front_of, rest_of};

/// The hexadecimal digit of a number.
fn hex_digit(number: u8) -> u8
    requires { number < 16 }
    ensures { result ≡ digit_char number }
{
    if number < 10 {
        b'0' + number
    } else {
        b'a' + (number - 10)
    }
}

/// What is in a string of JSON for a byte.
#[tactic(auto, unfolding(json::specs::Print::escape_byte))]
fn push_byte(out: &mut Vec<u8>, byte: u8) -> Result<(), NoMemory>
    ensures { OnOk result (out.new.items ≡ out.old.items ++ escape_byte byte) }
{
    match byte {
        b'"' => push(out, b"\\\"")?,
        b'\\' => push(out, b"\\\\")?,
        8 => push(out, b"\\b")?,
        12 => push(out, b"\\f")?,
        b'\n' => push(out, b"\\n")?,
        b'\r' => push(out, b"\\r")?,
        b'\t' => push(out, b"\\t")?,
        0..=31 => {
            let digits = [hex_digit(byte / 16), hex_digit(byte % 16)];
            push(out, b"\\u00")?;
            push(out, &digits)?;
        }
        _ => out.push(byte)?,
    }
    Ok(())
}

fn stands_for_itself(byte: u8) -> bool
    ensures { result ≡ stands_for_itself byte }
{
    byte >= 32 && (byte != b'"' && byte != b'\\')
}

/// How many bytes at the front stand for themselves.
fn plain_len(bytes: &[u8]) -> usize
    ensures plain { list_all stands_for_itself (take result bytes.now) ≡ true }
    ensures within { result ≤ length bytes.now }
{
    for (i, byte) in bytes.iter().enumerate() {
        if !stands_for_itself(*byte) {
            return i;
        }
    }
    bytes.len()
}

/// Some of a text: bytes that stand for themselves, or one byte. It gives how many it took.
fn push_some(out: &mut Vec<u8>, bytes: &[u8]) -> Result<usize, NoMemory>
    requires { 0 < length bytes.now }
    ensures wrote { IfOk result (λ n. out.new.items ≡ out.old.items ++ escape (take n bytes.now)) }
    ensures some { IfOk result (λ n. 0 < n) }
    ensures within { IfOk result (λ n. n ≤ length bytes.now) }
{
    let run = plain_len(bytes);
    if run > 0 {
        push(out, front_of(bytes, run))?;
        Ok(run)
    } else {
        push_byte(out, bytes[0])?;
        Ok(1)
    }
}

/// What is in a string of JSON for a text.
fn push_escaped(out: &mut Vec<u8>, bytes: &[u8]) -> Result<(), NoMemory>
    ensures { OnOk result (out.new.items ≡ out.old.items ++ escape bytes.now) }
{
    let mut at = 0;
    while at < bytes.len() {
        at += push_some(out, rest_of(bytes, at))?;
    }
    Ok(())
}

/// A string of JSON.
pub fn push_quoted(out: &mut Vec<u8>, text: &[u8]) -> Result<(), NoMemory>
    ensures { OnOk result (out.new.items ≡ out.old.items ++ quoted text.now) }
{
    push(out, b"\"")?;
    push_escaped(out, text)?;
    push(out, b"\"")
}
